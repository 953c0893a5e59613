//! Two accounts, each under a lock of its own. A transfer acquires both, the lower number first.
#![tactic(auto)]

ghost use Rattle.std.specs.Prelude.{◌≡◌, ◌<◌};

use spin_flag::spin::SpinMutex;
use spin_order::{Order, Ranked};
use std::sync::Wait;

/// The money of an account, under a lock that ranks by the account's number.
pub type Account = Ranked<u64, SpinMutex<u64>>;

/// Moves an amount, if `from` has it and `to` has room.
pub fn transfer<'o, W: Wait>(order: Order<'o, W>, from: &'o Account, to: &'o Account, amount: u64)
    requires idle { order.top ≡ 0 }
    requires numbered { (0 < from.now.key) × (0 < to.now.key) }
{
    if *from.key() < *to.key() {
        let (mut source, order) = from.lock(order);
        let (mut target, _order) = to.lock(order);
        shift(&mut *source, &mut *target, amount)
    } else if *to.key() < *from.key() {
        let (mut target, order) = to.lock(order);
        let (mut source, _order) = from.lock(order);
        shift(&mut *source, &mut *target, amount)
    }
}

fn shift(from: &mut u64, to: &mut u64, amount: u64) {
    if amount <= *from && *to <= u64::MAX - amount {
        *from -= amount;
        *to += amount;
    }
}
