//! Calls beside guards that live. Begin at [`look_beside`].
ghost use Rattle.std.specs.Prelude.{◌≡◌};
ghost use mathlib.Core.List.{IsPrefix};
ghost use Rattle.spin_flag.specs.Passes.{◌⨾◌, After, Calls, Wrote, Lock, Release, Granted, history, new_in, opening};

use spin_core::relax::Spin;
use spin_flag::spin::{self, SpinMutex, SpinMutexGuard};
use std::sync::Wait;

type Pass<'a> = spin::Pass<'a, u64, Spin>;

/// Looks whether the lock is held, beside a guard of its own, and then writes 7.
///
/// # Contract
/// The look comes after the grant of the guard and before its release (`wrote`, `before`).
///
/// # Examples
/// ```
/// use spin_examples::beside::look_beside;
/// use spin_flag::spin::SpinMutex;
///
/// let lock: SpinMutex<u64> = SpinMutex::new(4);
/// assert!(rt; look_beside(&rt, &lock).0);
/// ```
pub fn look_beside<'a, W: Wait>(rt: &W, lock: &'a SpinMutex<u64>) -> (bool, Pass<'a>, Pass<'a>)
    ensures before { IsPrefix (history result.1) (history result.2) }
    ensures wrote { (Calls Lock Granted ⨾ After result.1 ⨾ Wrote Release 7) (new_in (opening lock.now)) result.2 }
{
    let guard = lock.lock(rt);
    let (held, pass) = lock.pass().after(&guard).is_locked();
    let mut guard = SpinMutexGuard::after(guard, &pass);
    *guard = 7;
    (held, pass, SpinMutex::unlock(guard))
}
