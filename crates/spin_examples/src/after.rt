//! A reader that comes after a writer reads what was written, or something later. Begin at [`set_then_get`].
ghost use Rattle.std.specs.Prelude.{◌≡◌};
ghost use mathlib.Core.List.{IsPrefix};
ghost use Rattle.spin.specs.Passes.{◌⨾◌, history, lock_of, name_of, new_in, opening, Calls, Wrote, Lock, Release, Granted};
ghost use Rattle.spin.specs.Values.{IsLast};

use spin::Spin;
use spin::mutex::{self, SpinMutex};
use std::sync::Wait;
use std::thread::{Threads, join};

type Pass<'a> = mutex::spin::Pass<'a, u64, Spin>;

/// Sets the value by a plain `lock`. Returns the pass of the party that did so.
///
/// # Contract
/// The party has acquired the lock, written `value` and released the lock, and has done nothing else (`made`). So `value`
/// is the last one in the history that the pass knows (`last`).
pub fn set<'a, W: Wait>(rt: &W, lock: &'a SpinMutex<u64>, value: u64) -> Pass<'a>
    ensures made { (Calls Lock Granted ⨾ Wrote Release value) (new_in (opening lock.now)) result }
    ensures last { IsLast (opening lock.now) (history result) value }
    ensures lock { lock_of result ≡ name_of lock.now }
{
    let mut guard = lock.lock(rt);
    *guard = value;
    SpinMutex::unlock(guard)
}

/// Reads the value after the calls that an earlier pass knows.
///
/// # Contract
/// The value read is the last one in the history that the new pass knows (`found`). This history begins with the one that
/// the earlier pass knows (`later`).
pub fn get_after<'a, W: Wait>(
    rt: &W,
    lock: &'a SpinMutex<u64>,
    earlier: &Pass<'_>,
) -> (u64, Pass<'a>)
    requires { lock_of earlier.now ≡ name_of lock.now }
    ensures found { IsLast (opening lock.now) (history result.1) result.0 }
    ensures later { IsPrefix (history earlier.now) (history result.1) }
    ensures lock { lock_of result.1 ≡ name_of lock.now }
{
    let guard = lock.pass().after(earlier).lock(rt);
    let found = *guard;
    (found, SpinMutex::unlock(guard))
}

/// Sets the value in a thread. When this thread has ended, reads the value.
///
/// # Contract
/// `value` is the last one in the history that the writer knows (`set`). The history that the reader knows begins with
/// that history (`later`), and the value read is the last one in it (`found`).
pub fn set_then_get<'a, W: Threads + Wait + Sync>(
    rt: &W,
    lock: &'a SpinMutex<u64>,
    value: u64,
) -> (Pass<'a>, (u64, Pass<'a>))
    ensures set { IsLast (opening lock.now) (history result.0) value }
    ensures found { IsLast (opening lock.now) (history result.1.1) result.1.0 }
    ensures later { IsPrefix (history result.0) (history result.1.1) }
{
    let (writer, ()) = join(
        rt,
        || -> Pass<'_>
            ensures last { IsLast (opening lock.entry.now) (history result) value }
            ensures lock { lock_of result ≡ name_of lock.entry.now }
        { set(rt, lock, value) },
        || (),
    );
    let read = get_after(rt, lock, &writer);
    (writer, read)
}
