//! A writer that waits behind two readers. Begin at [`write_behind`].
ghost use Rattle.std.specs.Prelude.{◌≡◌};
ghost use Rattle.spin_rwlock.specs.RwPasses.{◌⨾◌, After, Calls, Wrote, lock_of, shared_spot};
ghost use Rattle.spin.specs.RwCalls.{Write, Release};
ghost use Rattle.spin.specs.Answers.{Granted, Done};

use spin::Spin;
use spin::rwlock::{self, RwLock, RwLockReadGuard};
use std::sync::Wait;
use std::thread::{Threads, join};

type Pass<'a> = rwlock::Pass<'a, u64, Spin>;

fn write<'a, W: Wait>(rt: &W, pass: Pass<'a>, value: u64) -> Pass<'a>
    ensures { (Calls Write Granted ⨾ Wrote Release value) pass.entry result }
{
    let mut guard = pass.write(rt);
    *guard = value;
    RwLock::unlock(guard)
}

/// Asks to write while two readers hold, in a thread of its own, and releases the readers beside it.
///
/// # Contract
/// The writer has begun its call after both readers acquired the lock, and has written `value` (`behind`). Each reader
/// has released the lock, and has done nothing else since it acquired it (`first`, `second`).
///
/// # Examples
/// ```
/// use spin::RwLock;
/// use spin_examples::behind::write_behind;
///
/// let lock: RwLock<u64> = RwLock::new(4);
/// let (first, second) = (lock.pass().read(&rt), lock.pass().read(&rt));
/// drop(write_behind(&rt, lock.pass(), first, second, 5));
/// assert_eq!(rt; lock.into_inner(), 5);
/// ```
pub fn write_behind<'a, W: Threads + Wait + Sync>(
    rt: &W,
    writer: Pass<'a>,
    first: RwLockReadGuard<'a, u64>,
    second: RwLockReadGuard<'a, u64>,
    value: u64,
) -> (Pass<'a>, (Pass<'a>, Pass<'a>))
    requires first { lock_of writer ≡ lock_of (shared_spot first) }
    requires second { lock_of writer ≡ lock_of (shared_spot second) }
    ensures behind { (After (shared_spot first.entry) ⨾ After (shared_spot second.entry) ⨾ Calls Write Granted ⨾ Wrote Release value) writer.entry result.0 }
    ensures first { Calls Release Done (shared_spot first.entry) result.1.0 }
    ensures second { Calls Release Done (shared_spot second.entry) result.1.1 }
{
    let waiting = writer.after(&first).after(&second);
    join(
        rt,
        move || -> Pass<'_>
            ensures { (Calls Write Granted ⨾ Wrote Release value) waiting.entry result }
        { write(rt, waiting, value) },
        move || -> (Pass<'_>, Pass<'_>)
            ensures first { Calls Release Done (shared_spot first.entry) result.0 }
            ensures second { Calls Release Done (shared_spot second.entry) result.1 }
        { (RwLock::unlock_shared(first), RwLock::unlock_shared(second)) },
    )
}
