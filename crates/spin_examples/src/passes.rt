//! Three threads call one `SpinMutex`, each by a pass of its own. The contracts say what the passes know.
ghost use Rattle.std.specs.Prelude.{◌≡◌, ◌⊎◌};
ghost use mathlib.Core.List.{IsPrefix};
ghost use Rattle.spin.specs.Passes.{◌⨾◌, history, lock_of, Calls, WroteSome, Lock, IsLocked, Release, Granted, Is};

use spin::Spin;
use spin::mutex::{self, SpinMutex, SpinMutexGuard};
use std::sync::Wait;
use std::thread::{Threads, join};

type Pass<'a> = mutex::spin::Pass<'a, u64, Spin>;

/// Adds 1, unless the value is the largest number. The pass acquires the lock and releases it, once.
fn count<'a, W: Wait>(rt: &W, pass: Pass<'a>) -> Pass<'a>
    ensures made { (Calls Lock Granted ⨾ WroteSome Release) pass.entry result }
    ensures lock { lock_of result ≡ lock_of pass.entry }
{
    let mut guard = pass.lock(rt);
    *guard = guard.saturating_add(1);
    SpinMutex::unlock(guard)
}

/// Turns the guard into a hold and back. Then doubles the value, or writes the largest number if twice the value does
/// not fit. The new calls of the pass are one `lock` and its release.
pub fn double_by_a_hold<'a, W: Wait>(rt: &W, pass: Pass<'a>) -> Pass<'a>
    ensures lock { lock_of result ≡ lock_of pass.entry }
{
    let mut guard = SpinMutexGuard::hold(pass.lock(rt)).into_guard();
    *guard = guard.saturating_mul(2);
    SpinMutex::unlock(guard)
}

/// Tries once to acquire the lock. If the try succeeds, releases the lock at once.
pub fn try_once(lock: &SpinMutex<u64>) -> Pass<'_> {
    match lock.pass().try_lock() {
        Ok(guard) => SpinMutex::unlock(guard),
        Err(pass) => pass,
    }
}

/// Calls `count` in each of two threads, while a third thread looks whether the lock is held.
///
/// # Contract
/// Each of the first two passes has acquired the lock and released it, once (`first`, `second`). The third
/// pass has looked once, and its answer is returned (`looked`). Of the first and the second pass, one knows
/// a prefix of the history that the other knows. The same is true of the second and the third (`one_history`).
pub fn count_beside_look<'a, W: Threads + Wait + Sync>(
    rt: &W,
    one: Pass<'a>,
    two: Pass<'a>,
    three: Pass<'a>,
) -> (Pass<'a>, (Pass<'a>, (bool, Pass<'a>)))
    requires { (lock_of one ≡ lock_of two) × (lock_of two ≡ lock_of three) }
    ensures first { (Calls Lock Granted ⨾ WroteSome Release) one.entry result.0 }
    ensures second { (Calls Lock Granted ⨾ WroteSome Release) two.entry result.1.0 }
    ensures looked { Calls IsLocked (Is result.1.1.0) three.entry result.1.1.1 }
    ensures one_history { (IsPrefix (history result.0) (history result.1.0) ⊎ IsPrefix (history result.1.0) (history result.0)) × (IsPrefix (history result.1.0) (history result.1.1.1) ⊎ IsPrefix (history result.1.1.1) (history result.1.0)) }
{
    let all = join(
        rt,
        || -> Pass<'_>
            ensures made { (Calls Lock Granted ⨾ WroteSome Release) one.entry result }
            ensures lock { lock_of result ≡ lock_of one.entry }
        { count(rt, one) },
        || -> (Pass<'_>, (bool, Pass<'_>))
            ensures second { (Calls Lock Granted ⨾ WroteSome Release) two.entry result.0 }
            ensures looked { Calls IsLocked (Is result.1.0) three.entry result.1.1 }
            ensures lock { (lock_of result.0 ≡ lock_of two.entry) × (lock_of result.1.1 ≡ lock_of three.entry) }
        {
            join(
                rt,
                || -> Pass<'_>
                    ensures made { (Calls Lock Granted ⨾ WroteSome Release) two.entry result }
                    ensures lock { lock_of result ≡ lock_of two.entry }
                { count(rt, two) },
                || -> (bool, Pass<'_>)
                    ensures made { Calls IsLocked (Is result.0) three.entry result.1 }
                    ensures lock { lock_of result.1 ≡ lock_of three.entry }
                { three.is_locked() },
            )
        },
    );
    all.0.compare(&all.1.0);
    all.1.0.compare(&all.1.1.1);
    all
}
