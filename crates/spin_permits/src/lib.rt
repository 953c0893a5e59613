//! A counting semaphore whose size is known at run time, of which a thread may take several places at once. Begin with
//! [`acquire_many`].
//!
//! # Examples
//! ```
//! use spin_flag::spin::SpinMutex;
//! use spin_permits::{Places, acquire_many, release_many, try_acquire_many};
//! use std::marker::Brand;
//! use std::sync::Wait;
//! use std::sync::ledger::{Blank, Ledger};
//!
//! fn refuses_a_third<L: Ledger, W: Wait>(rt: &W, blank: Blank) -> bool
//!     requires { blank.name ≡ L.name × blank.parts ≡ L.parts × 0 < L.parts }
//! {
//!     let (book, mut mine) = blank.open::<L>();
//!     let places: SpinMutex<Places<L>> = SpinMutex::new(Places::new(3, book));
//!     acquire_many(rt, &places, &mut mine, 2);
//!     let is_refused = !try_acquire_many(&places, &mut mine, 2);
//!     release_many(rt, &places, &mut mine, 2);
//!     is_refused
//! }
//!
//! assert!(rt; refuses_a_third::<Brand, _>(&rt, Blank::new(1)));
//! ```
#![tactic(auto)]

ghost use Rattle.std.specs.Prelude.{◌≡◌, ◌+◌, ◌<◌, ◌≤◌, MatchBool};
ghost use Rattle.spin_history.specs.Shares.{parts_of, amount_of};

mod places;

pub use places::Places;
use spin_core::relax::RelaxStrategy;
use spin_flag::spin::SpinMutex;
use spin_wait::Patient;
use std::sync::Wait;
use std::sync::ledger::{Ledger, Share};

/// Takes `count` places at once, spinning until so many are free.
///
/// # Contract
/// The share must not be empty. It then counts `count` more. Whether and when the call returns is not promised.
pub fn acquire_many<L: Ledger, R: RelaxStrategy, W: Wait>(
    rt: &W,
    lock: &SpinMutex<Places<L>, R>,
    mine: &mut Share<L>,
    count: u64,
)
    requires { 0 < parts_of mine.old }
    ensures amount { amount_of mine.new ≡ amount_of mine.old + count }
    ensures parts { parts_of mine.new ≡ parts_of mine.old }
{
    let mut guard = lock.lock_when(rt, |places| places.has(count));
    guard.take(mine, count);
}

/// Tries to take `count` places at once. Returns `false` if the semaphore is in use or has too few.
///
/// # Contract
/// The share must not be empty. After `true` it counts `count` more, after `false` as many as before. The call returns.
pub fn try_acquire_many<L: Ledger, R: RelaxStrategy>(
    lock: &SpinMutex<Places<L>, R>,
    mine: &mut Share<L>,
    count: u64,
) -> bool
    requires { 0 < parts_of mine.old }
    ensures amount { MatchBool result (amount_of mine.new ≡ amount_of mine.old + count) (amount_of mine.new ≡ amount_of mine.old) }
    ensures parts { parts_of mine.new ≡ parts_of mine.old }
{
    let Some(mut guard) = lock.try_lock() else {
        return false;
    };
    if !guard.has(count) {
        return false;
    }
    guard.take(mine, count);
    true
}

/// Gives `count` places back.
///
/// # Contract
/// The share has to count so many. It then counts `count` less. Whether and when the call returns is not promised.
pub fn release_many<L: Ledger, R: RelaxStrategy, W: Wait>(
    rt: &W,
    lock: &SpinMutex<Places<L>, R>,
    mine: &mut Share<L>,
    count: u64,
)
    requires { count ≤ amount_of mine.old }
    ensures amount { amount_of mine.new + count ≡ amount_of mine.old }
    ensures parts { parts_of mine.new ≡ parts_of mine.old }
{
    let mut guard = lock.lock(rt);
    guard.give(mine, count);
}
