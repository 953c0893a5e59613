//! A cache under three locks: whether it is on, its table, and how often it was looked at.
ghost use Rattle.std.specs.Prelude.{◌≡◌};

use spin::mutex::SpinMutex;
use spin::order::{Level, Order, Ranked};
use std::sync::Wait;

/// A cache of eight numbers.
#[derive(Drop)]
pub struct Cache {
    is_on: Ranked<Level<1>, SpinMutex<bool>>,
    table: Ranked<Level<2>, SpinMutex<[Option<(u64, u64)>; 8]>>,
    looks: Ranked<Level<3>, SpinMutex<u64>>,
}

impl Cache {
    /// Creates an empty cache.
    pub fn new() -> Cache {
        Cache {
            is_on: Ranked::new(Level, SpinMutex::new(true)),
            table: Ranked::new(Level, SpinMutex::new([None; 8])),
            looks: Ranked::new(Level, SpinMutex::new(0)),
        }
    }

    /// Looks up a key, and counts the look.
    pub fn get<'o, W: Wait>(&'o self, order: Order<'o, W>, key: u64) -> Option<u64>
        requires idle { order.top ≡ 0 }
    {
        let (is_on, order) = self.is_on.lock(order);
        if !*is_on {
            return None;
        }
        let (table, order) = self.table.lock(order);
        let (mut looks, _order) = self.looks.lock(order);
        *looks = looks.saturating_add(1);
        let (there, value) = table[(key % 8) as usize]?;
        if there == key { Some(value) } else { None }
    }

    /// Keeps a value for a key, unless the cache is off.
    pub fn insert<W: Wait>(&self, order: Order<'_, W>, key: u64, value: u64)
        requires idle { order.top ≡ 0 }
    {
        let (is_on, order) = self.is_on.lock(order);
        if *is_on {
            let (mut table, _order) = self.table.lock(order);
            table[(key % 8) as usize] = Some((key, value));
        }
    }

    /// Turns the cache off, and returns how often it was looked at. It forgets all values.
    pub fn turn_off<W: Wait>(&self, mut order: Order<'_, W>) -> u64
        requires idle { order.top ≡ 0 }
    {
        {
            let (mut is_on, order) = self.is_on.lock(order.nest());
            *is_on = false;
            let (mut table, _order) = self.table.lock(order);
            *table = [None; 8];
        }
        let (looks, _order) = self.looks.lock(order);
        *looks
    }
}
