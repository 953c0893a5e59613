//! Two threads write under one lock. Then its owner ends it, and knows what both have done. Begin at [`end_after`].
ghost use Rattle.std.specs.Prelude.{◌≡◌, IfSome};
ghost use Rattle.spin.specs.Values.{IsLast};
ghost use Rattle.spin.specs.Passes.{◌⨾◌, lock_of, name_of, new_in, opening, Calls, Ends, Includes, Wrote, Lock, Release, Granted};

use super::after::set;
use spin::Spin;
use spin::mutex::{self, SpinMutex};
use std::sync::Wait;
use std::thread::{Threads, join};

type Pass<'a> = mutex::spin::Pass<'a, u64, Spin>;

/// Writes these two values, each in a thread of its own. Returns the passes of the two threads.
///
/// # Contract
/// Each thread has acquired the lock, written its value and released the lock, and has done nothing else (`first`,
/// `second`).
pub fn set_both<'a, W: Threads + Wait + Sync>(
    rt: &W,
    lock: &'a SpinMutex<u64>,
    first: u64,
    second: u64,
) -> (Pass<'a>, Pass<'a>)
    ensures first { (Calls Lock Granted ⨾ Wrote Release first) (new_in (opening lock.now)) result.0 }
    ensures second { (Calls Lock Granted ⨾ Wrote Release second) (new_in (opening lock.now)) result.1 }
    ensures lock { (lock_of result.0 ≡ name_of lock.now) × (lock_of result.1 ≡ name_of lock.now) }
{
    join(
        rt,
        || -> Pass<'_>
            ensures made { (Calls Lock Granted ⨾ Wrote Release first) (new_in (opening lock.entry.now)) result }
            ensures lock { lock_of result ≡ name_of lock.entry.now }
        { set(rt, lock, first) },
        || -> Pass<'_>
            ensures made { (Calls Lock Granted ⨾ Wrote Release second) (new_in (opening lock.entry.now)) result }
            ensures lock { lock_of result ≡ name_of lock.entry.now }
        { set(rt, lock, second) },
    )
}

/// Writes these two values, each in a thread of its own, and ends the lock. Returns its value and its history.
///
/// # Contract
/// The history has all that either thread did (`first`, `second`). The value is the one written last in it, unless a
/// party still held the lock (`end`).
pub fn end_after<W: Threads + Wait + Sync>(
    rt: &W,
    lock: SpinMutex<u64>,
    first: u64,
    second: u64,
) -> (u64, mutex::spin::History<u64>)
    ensures end { Ends (opening lock) result }
    ensures first { Includes ((Calls Lock Granted ⨾ Wrote Release first) (new_in (opening lock))) result.1 }
    ensures second { Includes ((Calls Lock Granted ⨾ Wrote Release second) (new_in (opening lock))) result.1 }
{
    let (one, other) = set_both(rt, &lock, first, second);
    let (known, further) = (one.seen(), other.seen());
    drop(one);
    drop(other);
    let (value, history) = lock.into_history();
    history.covers(&known);
    history.covers(&further);
    (value, history)
}

/// Writes these two values, each in a thread of its own, and ends the lock. Returns its value and its history, unless
/// somebody still holds it.
///
/// # Contract
/// The value is the one written last in the history (`last`), which has all that either thread did (`first`, `second`).
///
/// # Examples
/// ```
/// use spin::mutex::SpinMutex;
/// use spin_examples::ending::end_exactly_after;
///
/// let lock: SpinMutex<u64> = SpinMutex::new(0);
/// let (value, _) = end_exactly_after(&rt, lock, 5, 6).expect(&rt, "nobody holds it");
/// assert!(rt; [5, 6].contains(&value));
/// ```
pub fn end_exactly_after<W: Threads + Wait + Sync>(
    rt: &W,
    lock: SpinMutex<u64>,
    first: u64,
    second: u64,
) -> Option<(u64, mutex::spin::History<u64>)>
    ensures last { IfSome result (λ end. IsLast (opening lock) end.1.entries end.0) }
    ensures first { IfSome result (λ end. Includes ((Calls Lock Granted ⨾ Wrote Release first) (new_in (opening lock))) end.1) }
    ensures second { IfSome result (λ end. Includes ((Calls Lock Granted ⨾ Wrote Release second) (new_in (opening lock))) end.1) }
{
    let (one, other) = set_both(rt, &lock, first, second);
    let (known, further) = (one.seen(), other.seen());
    drop(one);
    drop(other);
    let (value, history) = lock.try_into_history().ok()?;
    history.covers(&known);
    history.covers(&further);
    Some((value, history))
}
