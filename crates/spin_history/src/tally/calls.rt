//! The calls of a tally that its caller owns or borrows.
ghost use Rattle.std.specs.Prelude.{◌≡◌, ◌<◌, ◌≤◌};
ghost use Rattle.spin_history.specs.Shares.{parts_of, amount_of, FitsWord, GrewIf};
ghost use Rattle.spin_history.specs.Tallies.{tallied};

use super::Tally;
use std::sync::ledger::{Book, Ledger, Share};

impl<L: Ledger> Tally<L> {
    /// Creates a tally that counts 0.
    ///
    /// # Contract
    /// The book's total has to be 0. The tally's count is 0.
    pub fn new(book: Book<L>) -> Self
        requires { book.total ≡ 0 }
        ensures { result.count ≡ 0 }
    {
        Tally {
            count: 0,
            added: book,
        }
    }

    /// Adds `more` to the tally and to the caller's share. Returns `false`, and adds nothing, if the sum
    /// exceeds `u64::MAX`.
    ///
    /// # Contract
    /// The share must not be empty. After `true` the share and the tally have grown by `more`; after `false`
    /// both are unchanged. The answer is `false` exactly if the tally's count plus `more` exceeds `u64::MAX`. A share
    /// counts at most as much as the tally (`bound`). A share with all parts of the ledger counts exactly as
    /// much (`whole`).
    ///
    /// # Examples
    /// ```
    /// use spin_history::tally::{self, Tally, Work};
    /// use std::sync::ledger::{Ledger, Share};
    ///
    /// #[derive(Drop)]
    /// struct AddTooMuch;
    ///
    /// impl Work for AddTooMuch {
    ///     type Answer = (bool, bool);
    ///
    ///     fn run<L: Ledger + Send + Sync>(self, tally: Tally<L>, all: Share<L>) -> (bool, bool) {
    ///         let (mut tally, mut mine) = (tally, all);
    ///         let first = tally.add(&mut mine, u64::MAX);
    ///         (first, tally.add(&mut mine, 1))
    ///     }
    /// }
    ///
    /// assert_eq!(rt; tally::open(AddTooMuch), (true, false));
    /// ```
    pub fn add(&mut self, mine: &mut Share<L>, more: u64) -> bool
        requires { 0 < parts_of mine.old }
        ensures full { FitsWord result (tallied self.old) more }
        ensures count { GrewIf result more (tallied self.old) (tallied self.new) }
        ensures bound { amount_of mine.old ≤ tallied self.old }
        ensures whole { parts_of mine.old ≡ L.parts → amount_of mine.old ≡ tallied self.old }
        ensures parts { parts_of mine.new ≡ parts_of mine.old }
        ensures amount { GrewIf result more (amount_of mine.old) (amount_of mine.new) }
    {
        let Tally { count, added } = self;
        added.audit(mine);
        match count.checked_add(more) {
            Some(sum) => {
                added.add(mine, more);
                *count = sum;
                true
            }
            None => false,
        }
    }

    /// Returns the exact total. The caller needs all parts of the ledger.
    ///
    /// # Contract
    /// The share has to have all parts of the ledger. The answer is the share's amount, which is the tally's
    /// count.
    pub fn total(&mut self, every: &mut Share<L>) -> u64
        requires { parts_of every.old ≡ L.parts }
        ensures total { result ≡ amount_of every.old }
        ensures value { result ≡ tallied self.old }
        ensures count { tallied self.new ≡ tallied self.old }
        ensures amount { amount_of every.new ≡ amount_of every.old }
        ensures parts { parts_of every.new ≡ parts_of every.old }
    {
        self.added.audit(every);
        self.count
    }
}
