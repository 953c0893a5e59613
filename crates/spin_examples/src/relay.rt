//! A value that threads leave under a lock for other threads. Begin at [`relay`].
ghost use Rattle.std.specs.Prelude.{◌≡◌};
ghost use mathlib.Core.List.{IsPrefix};
ghost use Rattle.spin_core.specs.Values.{IsLast};
ghost use Rattle.spin_flag.specs.Passes.{◌⨾◌, history, lock_of, name_of, opening, opening_of, Calls, Wrote, Lock, Release, Granted};

use spin_core::relax::RelaxStrategy;
use spin_flag::spin::{Pass, SpinMutex};
use std::sync::Wait;
use std::thread::{Threads, join};

/// Leaves the value. The pass acquires the lock and releases it, once.
fn leave<'a, T: Copy, R: RelaxStrategy, W: Wait>(
    rt: &W,
    pass: Pass<'a, T, R>,
    value: T,
) -> Pass<'a, T, R>
    ensures made { (Calls Lock Granted ⨾ Wrote Release value) pass.entry result }
    ensures left { IsLast (opening_of pass.entry) (history result) value }
    ensures later { IsPrefix (history pass.entry) (history result) }
    ensures lock { lock_of result ≡ lock_of pass.entry }
{
    let mut guard = pass.lock(rt);
    *guard = value;
    SpinMutex::unlock(guard)
}

/// Leaves a value. Then two threads each leave another, and when they have ended, the lock's value is read.
///
/// # Contract
/// What was left first is known (`start`). Each of the two threads knows the calls before it (`runs`), and the last pass
/// knows those of both (`ends`). So the value read is the one that a thread left, or one that was written later
/// (`found`).
pub fn relay<'a, T: Copy + Send + Sync, R: RelaxStrategy + Send + Sync, W: Threads + Wait + Sync>(
    rt: &W,
    lock: &'a SpinMutex<T, R>,
    values: (T, T, T),
) -> (
    Pass<'a, T, R>,
    (Pass<'a, T, R>, Pass<'a, T, R>),
    (T, Pass<'a, T, R>),
)
    ensures start { IsLast (opening lock.now) (history result.0) values.0 }
    ensures runs { IsPrefix (history result.0) (history result.1.0) × IsPrefix (history result.0) (history result.1.1) }
    ensures ends { IsPrefix (history result.1.0) (history result.2.1) × IsPrefix (history result.1.1) (history result.2.1) }
    ensures found { IsLast (opening lock.now) (history result.2.1) result.2.0 }
{
    let start = leave(rt, lock.pass(), values.0);
    let before = &start;
    let both = join(
        rt,
        move || -> Pass<'_, T, R>
            requires { lock_of before.now ≡ name_of lock.now }
            ensures later { IsPrefix (history before.entry.now) (history result) }
            ensures lock { lock_of result ≡ name_of lock.entry.now }
        { leave(rt, lock.pass().after(before), values.1) },
        move || -> Pass<'_, T, R>
            requires { lock_of before.now ≡ name_of lock.now }
            ensures later { IsPrefix (history before.entry.now) (history result) }
            ensures lock { lock_of result ≡ name_of lock.entry.now }
        { leave(rt, lock.pass().after(before), values.2) },
    );
    let guard = lock.pass().after(&both.0).after(&both.1).lock(rt);
    let found = *guard;
    (start, both, (found, SpinMutex::unlock(guard)))
}
