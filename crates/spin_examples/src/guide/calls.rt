//! What two threads know of each other's calls of one lock.
#![tactic(auto)]

ghost use Rattle.std.specs.Prelude.{◌≡◌, ◌⊎◌};
ghost use Rattle.spin_flag.specs.Passes.{◌⨾◌, history, lock_of, name_of, Calls, WroteSome, Lock, Release, Granted};
ghost use mathlib.Core.List.{IsPrefix};

use spin_core::relax::Spin;
use spin_flag::spin::{self, SpinMutex};
use std::sync::Wait;
use std::thread::{Threads, join};

type Pass<'a> = spin::Pass<'a, u64, Spin>;

/// Adds 1, unless the value is the largest number. The new calls of the pass are one `lock` and its release.
pub fn add<'a, W: Wait>(rt: &W, pass: Pass<'a>) -> Pass<'a>
    ensures made { (Calls Lock Granted ⨾ WroteSome Release) pass.entry result }
    ensures lock { lock_of result ≡ lock_of pass.entry }
{
    let mut guard = pass.lock(rt);
    *guard = guard.saturating_add(1);
    SpinMutex::unlock(guard)
}

/// Calls `add` in each of two threads. The history that one pass knows is a prefix of the history that the other
/// pass knows.
pub fn add_both<'a, R: Threads + Wait + Sync>(
    rt: &R,
    lock: &'a SpinMutex<u64>,
) -> (Pass<'a>, Pass<'a>)
    ensures { IsPrefix (history result.0) (history result.1) ⊎ IsPrefix (history result.1) (history result.0) }
{
    let by_one = || -> Pass<'_>
        ensures { lock_of result ≡ name_of lock.entry.now }
    { add(rt, lock.pass()) };
    let (one, other) = join(rt, &by_one, &by_one);
    one.compare(&other);
    (one, other)
}
