//! The places of a semaphore. Begin with [`Places::new`].
ghost use Rattle.std.specs.Prelude.{◌≡◌, ◌+◌, ◌<◌, ◌≤◌, nat_le};
ghost use Rattle.spin_history.specs.Shares.{parts_of, amount_of};

use std::sync::ledger::{Book, Ledger, Share};

/// The places of a semaphore: how many are free, and the ghost book of those that are taken.
///
/// Put it under a `SpinMutex`. Each thread that takes places has a `Share` of the ledger, which counts them.
#[derive(Drop)]
pub struct Places<L: Ledger> {
    free: u64,
    size: u64,
    taken: Book<L>,
    ghost sound: { free + taken.total ≡ size },
}

impl<L: Ledger> Places<L> {
    /// Creates a semaphore of so many places, all free.
    ///
    /// # Contract
    /// The book must count nothing yet, as one that was just opened.
    pub fn new(size: u64, taken: Book<L>) -> Self
        requires { taken.total ≡ 0 }
        ensures { result.size ≡ size }
    {
        Places {
            free: size,
            size,
            taken,
        }
    }

    // Returns `true` if at least so many places are free.
    pub(crate) fn has(&self, count: u64) -> bool
        ensures { result ≡ nat_le count self.now.free }
    {
        count <= self.free
    }

    pub(crate) fn take(&mut self, mine: &mut Share<L>, count: u64)
        requires enough { count ≤ self.old.free }
        requires part { 0 < parts_of mine.old }
        ensures amount { amount_of mine.new ≡ amount_of mine.old + count }
        ensures parts { parts_of mine.new ≡ parts_of mine.old }
        ensures size { self.new.size ≡ self.old.size }
    {
        let Places {
            free,
            size: _,
            taken,
        } = self;
        taken.add(mine, count);
        *free -= count;
    }

    pub(crate) fn give(&mut self, mine: &mut Share<L>, count: u64)
        requires { count ≤ amount_of mine.old }
        ensures amount { amount_of mine.new + count ≡ amount_of mine.old }
        ensures parts { parts_of mine.new ≡ parts_of mine.old }
        ensures size { self.new.size ≡ self.old.size }
    {
        let Places {
            free,
            size: _,
            taken,
        } = self;
        taken.audit(mine);
        taken.sub(mine, count);
        *free += count;
    }

    /// Shows that no share counts more places than there are. It does nothing when it runs.
    ///
    /// # Contract
    /// The share counts at most `size` (`few`), and stays the same. So does the number of places (`size`).
    pub fn bounds(&mut self, mine: &mut Share<L>)
        ensures few { amount_of mine.old ≤ self.old.size }
        ensures amount { amount_of mine.new ≡ amount_of mine.old }
        ensures parts { parts_of mine.new ≡ parts_of mine.old }
        ensures size { self.new.size ≡ self.old.size }
    {
        self.taken.audit(mine);
    }
}
