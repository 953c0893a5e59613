//! A pool that threads share. Whoever takes an item out of it owns the pool too, so the drop of the item can put it back.
#![tactic(auto)]

use spin_core::relax::Yield;
use spin_flag::spin::SpinMutex;
use spin_wait::Patient;
use std::alloc::{AllocError, Global};
use std::sync::{Arc, Wait};

/// One owner of a pool of numbers. It keeps the right to wait, so its calls need none.
#[derive(Drop)]
pub struct Pool<W: Wait> {
    rt: W,
    idle: Arc<SpinMutex<Vec<u64, Global>, Yield>, Global>,
}

/// An item that is out of its pool.
pub struct Taken<W: Wait> {
    item: u64,
    pool: Pool<W>,
}

impl<W: Wait + Copy> Pool<W> {
    /// Creates a pool of these items. It ends with its last owner.
    pub fn new(rt: W, heap: Global, items: Vec<u64, Global>) -> Result<Self, AllocError> {
        let idle = Arc::new(heap, SpinMutex::new(items))?;
        Ok(Pool { rt, idle })
    }

    /// Returns one more owner of the pool, which another thread may have.
    pub fn share(&self) -> Result<Self, AllocError> {
        let idle = Arc::try_clone(&self.idle)?;
        Ok(Pool { rt: self.rt, idle })
    }

    /// Takes an item out, waiting until there is one.
    pub fn take(&self) -> Result<Taken<W>, AllocError> {
        let pool = self.share()?;
        let mut idle = pool.idle.lock_when(&pool.rt, |idle| !idle.is_empty());
        let item = idle.pop().unwrap();
        drop(idle);
        Ok(Taken { item, pool })
    }
}

impl<W: Wait> Taken<W> {
    /// Returns the item.
    pub fn item(&self) -> u64 {
        self.item
    }
}

/// Puts the item back. If memory is refused, the pool has lost it.
impl<W: Wait + Drop> Drop for Taken<W> {
    fn drop(self) {
        let Self { item, pool } = self;
        let mut idle = pool.idle.lock(&pool.rt);
        let _ = idle.push(item);
    }
}
