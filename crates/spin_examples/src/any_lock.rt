//! Code that takes any lock.
ghost use Rattle.std.specs.Prelude.{◌≤◌};

use spin::lock::{Lock, SharedLock};
use std::sync::Wait;

/// Adds 1, modulo 2^64, to a number under any lock.
pub fn count<L: Lock<u64>, W: Wait>(rt: &W, lock: &L) -> u64 {
    lock.with(rt, |number| {
        *number = number.wrapping_add(1);
        *number
    })
}

/// Tries to add 1, modulo 2^64, to a number under any lock. Returns `None` if the lock's try fails.
pub fn try_count<L: Lock<u64>>(lock: &L) -> Option<u64> {
    lock.try_with(|number| {
        *number = number.wrapping_add(1);
        *number
    })
    .ok()
}

/// Reads a number under a lock. Other readers may read at the same time. Returns `most` if the number is larger.
pub fn read_up_to<L: SharedLock<u64>, W: Wait>(rt: &W, lock: &L, most: u64) -> u64
    ensures { result ≤ most }
{
    lock.with_shared(
        rt,
        |number: &u64| -> u64
            ensures { result ≤ most }
        { if *number < most { *number } else { most } },
    )
}
