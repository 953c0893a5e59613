//! A number that threads add to, whose total is exactly the sum of what they added. Begin with
//! [`Tally::new`]. The functions [`add`] and [`total`] work on a tally under a lock.
//!
//! # Examples
//! ```
//! use spin::mutex::SpinMutex;
//! use spin_history::tally::{self, Tally, Work};
//! use std::sync::Wait;
//! use std::sync::ledger::{Ledger, Share};
//!
//! #[derive(Drop)]
//! struct AddTwice<'a, W>(&'a W);
//!
//! impl<W: Wait> Work for AddTwice<'_, W> {
//!     type Answer = u64;
//!
//!     fn run<L: Ledger + Send + Sync>(self, tally: Tally<L>, all: Share<L>) -> u64 {
//!         let rt = self.0;
//!         let lock: SpinMutex<Tally<L>> = SpinMutex::new(tally);
//!         let mut mine = all;
//!         tally::add(rt, &lock, &mut mine, 3);
//!         tally::add(rt, &lock, &mut mine, 4);
//!         tally::total(rt, &lock, &mut mine)
//!     }
//! }
//!
//! assert_eq!(rt; tally::open(AddTwice(&rt)), 7);
//! ```
ghost use Rattle.std.specs.Prelude.{◌≡◌, ℕ, ◌+◌, ◌-◌, ◌^◌, ◌<◌, ◌≤◌, MatchBool, ⊤};
ghost use Rattle.spin_history.specs.Shares.{parts_of, amount_of, GrewIf, FitsWhole};

use spin_core::lock::Lock;
use std::marker::Brand;
use std::mem;
use std::sync::Wait;
use std::sync::ledger::{Blank, Book, Ledger, Share};

mod calls;

/// A number that threads add to, and the ghost book of a ledger, whose total is that number.
///
/// Put it under a mutex: a `Book` is not `Sync`, so threads cannot share an `RwLock` around a tally. Each
/// thread that adds has a `Share` of the ledger. Its share counts what the thread added.
#[derive(Drop)]
pub struct Tally<L: Ledger> {
    count: u64,
    added: Book<L>,
    ghost counted: { count ≡ added.total },
}

/// Work that uses a ledger of its own. [`open`] names that ledger.
///
/// # Contract
/// `asks` says what has to hold of the fields of the work, and `gives` which answers it may give. Each says
/// nothing if the work does not define it.
pub trait Work {
    type Answer;

    ghost asks: { Self → Type 0 } = { λ _. ⊤ };

    ghost gives: { Self → Self.Answer → Type 0 } = { λ _ _. ⊤ };

    /// Does the work with a tally that counts 0.
    ///
    /// # Contract
    /// `asks` has to hold of the work. The share has all `u64::MAX` parts of the ledger, and counts 0. The
    /// answer is one that `gives` allows.
    fn run<L: Ledger + Send + Sync>(self, tally: Tally<L>, all: Share<L>) -> Self::Answer
        requires asked { asks self }
        requires empty { tally.count ≡ 0 }
        requires whole { all.parts ≡ L.parts }
        requires parts { all.parts ≡ 2 ^ 64 - 1 }
        requires nothing_yet { all.amount ≡ 0 }
        ensures { gives self result };
}

fn open_by<K: Work, L: Ledger + Send + Sync>(work: K, blank: Blank) -> K::Answer
    requires asked { K.asks work }
    requires name { blank.name ≡ L.name }
    requires parts { blank.parts ≡ L.parts }
    requires all { blank.parts ≡ 2 ^ 64 - 1 }
    ensures { K.gives work result }
{
    let (book, all) = blank.open::<L>();
    work.run::<L>(Tally::new(book), all)
}

/// Names a new ledger, and does the work with a tally of it.
///
/// # Contract
/// `asks` has to hold of the work. The answer is one that `gives` allows.
pub fn open<K: Work>(work: K) -> K::Answer
    requires asked { K.asks work }
    ensures { K.gives work result }
{
    open_by::<K, Brand>(work, Blank::new(u64::MAX))
}

/// Adds `more` to a tally under a lock. Returns `false`, and adds nothing, if the sum exceeds `u64::MAX`.
///
/// # Contract
/// The share must not be empty. After `true` it has grown by `more`; after `false` it is unchanged. After
/// `false` some `u64` plus `more` exceeds `u64::MAX` (`full`). No clause says that this `u64` was the tally's
/// count; a test shows that it was. If the share has all parts of the ledger, the answer is `true` exactly if the sum fits
/// (`whole`). Whether and when the call returns is not promised.
pub fn add<L: Ledger, K: Lock<Tally<L>>, W: Wait>(
    rt: &W,
    lock: &K,
    mine: &mut Share<L>,
    more: u64,
) -> bool
    requires { 0 < parts_of mine.old }
    ensures full { MatchBool result ⊤ ((n : ℕ) × ((n < 2 ^ 64) × (2 ^ 64 ≤ n + more))) }
    ensures whole { FitsWhole result L.parts mine.old more }
    ensures parts { parts_of mine.new ≡ parts_of mine.old }
    ensures amount { GrewIf result more (amount_of mine.old) (amount_of mine.new) }
{
    let none = mine.empty();
    let held = mem::replace(mine, none);
    let (added, share) = lock.with(
        rt,
        move |tally: &mut Tally<L>| -> (bool, Share<L>)
            requires { 0 < held.parts }
            ensures full { MatchBool result.0 ⊤ ((before : ℕ) × ((before < 2 ^ 64) × (2 ^ 64 ≤ before + more))) }
            ensures whole { MatchBool result.0 (held.amount + more < 2 ^ 64) (held.parts ≡ L.parts → 2 ^ 64 ≤ held.amount + more) }
            ensures parts { result.1.parts ≡ held.parts }
            ensures amount { MatchBool result.0 (result.1.amount ≡ held.amount + more) (result.1.amount ≡ held.amount) }
        {
            let mut share = held;
            let added = tally.add(&mut share, more);
            (added, share)
        },
    );
    *mine = share;
    added
}

/// Returns the exact total of a tally under a lock. The caller needs all parts of the ledger.
///
/// # Contract
/// The share has to have all parts of the ledger. The answer is the share's amount. Whether and when the call
/// returns is not promised.
pub fn total<L: Ledger, K: Lock<Tally<L>>, W: Wait>(rt: &W, lock: &K, every: &mut Share<L>) -> u64
    requires { parts_of every.old ≡ L.parts }
    ensures total { result ≡ amount_of every.old }
    ensures amount { amount_of every.new ≡ amount_of every.old }
    ensures parts { parts_of every.new ≡ parts_of every.old }
{
    let none = every.empty();
    let held = mem::replace(every, none);
    let (total, share) = lock.with(
        rt,
        move |tally: &mut Tally<L>| -> (u64, Share<L>)
            requires { held.parts ≡ L.parts }
            ensures total { result.0 ≡ held.amount }
            ensures amount { result.1.amount ≡ held.amount }
            ensures parts { result.1.parts ≡ held.parts }
        {
            let mut share = held;
            let total = tally.total(&mut share);
            (total, share)
        },
    );
    *every = share;
    total
}
