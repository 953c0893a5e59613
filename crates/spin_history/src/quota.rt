//! A number that threads raise by what was planned for each, and that is the whole plan in the end, whoever takes it out
//! of its lock. Begin with [`Quota::new`].
ghost use Rattle.std.specs.Prelude.{◌≡◌, ℕ, ◌+◌, ◌^◌, ◌<◌, ◌≤◌};
ghost use Rattle.spin_history.specs.Shares.{parts_of, amount_of};

use std::marker::Brand;
use std::sync::ledger::{Blank, Book, Ledger, Share};

/// A ledger of additions that are still to come.
pub trait Plan: Ledger {
    // How much all threads add.
    ghost all: { ℕ };
}

impl Plan for Brand {
    ghost all = { 0 };
}

/// A number, and the ghost book of the additions that are still to come: together they are the whole plan.
///
/// Put it under any mutex. Each thread has a `Share` of the book, with what it will add. Nobody adds without a share, so
/// at the end a share of all parts, on which nothing is left, says that the number is the whole plan: also of a lock that
/// others could have locked meanwhile. A sum never overflows.
#[derive(Drop)]
pub struct Quota<P: Plan> {
    count: u64,
    to_come: Book<P>,
    ghost adds_up: { count + to_come.total ≡ P.all },
    ghost fits: { P.all < 2 ^ 64 },
}

impl<P: Plan> Quota<P> {
    /// Creates a number that is 0, and the share of all parts, with all that is to be added.
    ///
    /// # Contract
    /// The blank has to name the plan's ledger, with some parts (`name`, `parts`, `some`), and `all` has to be the whole
    /// plan (`all`). The share has all parts, and all of the plan is still to come (`whole`, `amount`).
    pub fn new(blank: Blank, all: u64) -> (Self, Share<P>)
        requires name { blank.name ≡ P.name }
        requires parts { blank.parts ≡ P.parts }
        requires some { 0 < blank.parts }
        requires all { all ≡ P.all }
        ensures whole { parts_of result.1 ≡ blank.parts }
        ensures amount { amount_of result.1 ≡ all }
    {
        let (mut to_come, mut every) = blank.open::<P>();
        to_come.add(&mut every, all);
        (Quota { count: 0, to_come }, every)
    }

    /// Adds `more`, of what is still to come by this share.
    ///
    /// # Contract
    /// At least `more` has to be left on the share (`left`). Afterwards there is so much less on it (`amount`).
    pub fn add(&mut self, mine: &mut Share<P>, more: u64)
        requires left { more ≤ amount_of mine.old }
        ensures parts { parts_of mine.new ≡ parts_of mine.old }
        ensures amount { amount_of mine.new + more ≡ amount_of mine.old }
    {
        let Quota { count, to_come } = self;
        to_come.sub(mine, more);
        *count += more;
    }

    /// Returns the number, which is the whole plan.
    ///
    /// # Contract
    /// The share has to have all parts, and nothing may be left on it. The call returns.
    pub fn total(&mut self, every: &mut Share<P>) -> u64
        requires whole { parts_of every.old ≡ P.parts }
        requires nothing_left { amount_of every.old ≡ 0 }
        ensures { result ≡ P.all }
    {
        self.to_come.audit(every);
        self.count
    }
}
