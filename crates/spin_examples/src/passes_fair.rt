//! Three threads call one `FairMutex`, each by a pass of its own. The contracts say what the passes know.
ghost use Rattle.std.specs.Prelude.{◌≡◌, ◌⊎◌};
ghost use mathlib.Core.List.{IsPrefix};
ghost use Rattle.spin.specs.FairPasses.{◌⨾◌, history, lock_of, name_of, Calls, WroteSome};
ghost use Rattle.spin.specs.FairCalls.{Lock, StarverLock, Release};
ghost use Rattle.spin.specs.Answers.{Granted};

use spin::Spin;
use spin::mutex::{FairMutex, fair};
use std::sync::Wait;
use std::thread::{Threads, join};

type Pass<'a> = fair::Pass<'a, u64, Spin>;

type Starver<'a> = fair::Starvation<'a, u64, Spin>;

/// Adds 1, unless the value is the largest number. The pass acquires the lock and releases it, once.
fn count<'a, W: Wait>(rt: &W, pass: Pass<'a>) -> Pass<'a>
    ensures made { (Calls Lock Granted ⨾ WroteSome Release) pass.entry result }
    ensures lock { lock_of result ≡ lock_of pass.entry }
{
    let mut guard = pass.lock(rt);
    *guard = guard.saturating_add(1);
    FairMutex::unlock(guard)
}

/// Adds 1 as a starver, unless the value is the largest number. The pass acquires the lock and releases it, once.
fn count_served<'a, W: Wait>(rt: &W, starving: Starver<'a>) -> Pass<'a>
    ensures made { (Calls StarverLock Granted ⨾ WroteSome Release) starving.entry result }
    ensures lock { lock_of result ≡ lock_of starving.entry }
{
    let mut guard = starving.lock(rt);
    *guard = guard.saturating_add(1);
    FairMutex::unlock(guard)
}

/// Adds 1 as a starver, unless the value is the largest number. Does nothing if too many threads starve.
fn count_starving<'a, W: Wait>(rt: &W, lock: &'a FairMutex<u64>) -> Pass<'a>
    ensures { lock_of result ≡ name_of lock.now }
{
    match lock.pass().starve(rt) {
        Ok(starving) => count_served(rt, starving),
        Err(pass) => pass,
    }
}

/// Calls `is_locked`, and then tries to acquire the lock, first as a newcomer and then as a starver. After a
/// try that succeeds, it releases the lock at once.
pub fn look_and_try<'a, W: Wait>(rt: &W, lock: &'a FairMutex<u64>) -> (bool, Pass<'a>) {
    let pass = lock.pass();
    let (held, pass) = pass.is_locked();
    let pass = match pass.try_lock() {
        Ok(guard) => FairMutex::unlock(guard),
        Err(pass) => pass,
    };
    let pass = match pass.try_lock_starver() {
        Ok(guard) => FairMutex::unlock(guard),
        Err((_, pass)) => pass,
    };
    let pass = match pass.starve(rt) {
        Ok(starving) => try_starving(starving),
        Err(pass) => pass,
    };
    (held, pass)
}

// Tries to acquire the lock as the only starver, then as one of several. If both tries fail, ends the registration.
fn try_starving(starving: Starver<'_>) -> Pass<'_> {
    let starving = match starving.try_lock_fair() {
        Ok(guard) => return FairMutex::unlock(guard),
        Err(starving) => starving,
    };
    match starving.try_lock() {
        Ok(guard) => FairMutex::unlock(guard),
        Err(starving) => starving.give_up(),
    }
}

/// Counts in each of three threads: two newcomers and a starver.
///
/// # Contract
/// Of any two of the passes, one knows a prefix of the history that the other knows.
pub fn count_by_three<'a, W: Threads + Wait + Sync>(
    rt: &W,
    lock: &'a FairMutex<u64>,
) -> (Pass<'a>, (Pass<'a>, Pass<'a>))
    ensures one_history { (IsPrefix (history result.0) (history result.1.0) ⊎ IsPrefix (history result.1.0) (history result.0)) × (IsPrefix (history result.1.0) (history result.1.1) ⊎ IsPrefix (history result.1.1) (history result.1.0)) × (IsPrefix (history result.0) (history result.1.1) ⊎ IsPrefix (history result.1.1) (history result.0)) }
{
    let all = join(
        rt,
        || -> Pass<'_>
            ensures lock { lock_of result ≡ name_of lock.entry.now }
        { count(rt, lock.pass()) },
        || -> (Pass<'_>, Pass<'_>)
            ensures lock { (lock_of result.0 ≡ name_of lock.entry.now) × (lock_of result.1 ≡ name_of lock.entry.now) }
        {
            join(
                rt,
                || -> Pass<'_>
                    ensures lock { lock_of result ≡ name_of lock.entry.now }
                { count(rt, lock.pass()) },
                || -> Pass<'_>
                    ensures lock { lock_of result ≡ name_of lock.entry.now }
                { count_starving(rt, lock) },
            )
        },
    );
    all.0.compare(&all.1.0);
    all.1.0.compare(&all.1.1);
    all.0.compare(&all.1.1);
    all
}
