//! A struct of a caller's own that holds a guard. What the guard knows of the lock's history goes with it.
ghost use Rattle.std.specs.Prelude.{◌≡◌};
ghost use Rattle.spin.specs.Passes.{new_in, opening, Grants, Holds, Lock};

use spin::Spin;
use spin::mutex::spin::Pass;
use spin::mutex::{SpinMutex, SpinMutexGuard};
use std::sync::Wait;

/// Changes of a total that no other thread sees before all are made.
pub struct Batch<'a> {
    total: SpinMutexGuard<'a, u64>,
    changes: usize,
    ghost holds: { Holds total },
}

impl<'a> Batch<'a> {
    /// Acquires the lock.
    ///
    /// # Contract
    /// The guard is granted by one `Lock`, as that of `SpinMutex::lock` is.
    pub fn begin<W: Wait>(rt: &W, total: &'a SpinMutex<u64>) -> Self
        ensures { Grants Lock (new_in (opening total.now)) result.total }
    {
        Batch {
            total: total.lock(rt),
            changes: 0,
        }
    }

    /// Adds to the total, up to the largest number.
    pub fn add(&mut self, more: u64) {
        *self.total = self.total.saturating_add(more);
        self.changes = self.changes.saturating_add(1);
    }

    /// Releases the lock. Returns how many changes were made, and a pass that knows them.
    pub fn end(self) -> (usize, Pass<'a, u64, Spin>) {
        let Batch { total, changes } = self;
        (changes, SpinMutex::unlock(total))
    }
}
