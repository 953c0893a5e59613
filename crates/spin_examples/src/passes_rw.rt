//! Three threads call one read-write lock, each by a pass of its own. The contracts say what the passes know.
ghost use Rattle.std.specs.Prelude.{◌≡◌, ◌⊎◌};
ghost use mathlib.Core.List.{IsPrefix};
ghost use Rattle.spin.specs.RwPasses.{◌⨾◌, history, lock_of, name_of, Calls, WroteSome};
ghost use Rattle.spin.specs.RwCalls.{Read, UpgradeableRead, Upgrade, Write, Release};
ghost use Rattle.spin.specs.Answers.{Granted, Done};

use spin::Spin;
use spin::rwlock::{self, RwLock};
use std::sync::Wait;
use std::thread::{Threads, join};

type Pass<'a> = rwlock::Pass<'a, u64, Spin>;

/// Adds 1 as the writer, unless the value is the largest number.
fn add<'a, W: Wait>(rt: &W, pass: Pass<'a>) -> Pass<'a>
    ensures made { (Calls Write Granted ⨾ WroteSome Release) pass.entry result }
    ensures lock { lock_of result ≡ lock_of pass.entry }
{
    let mut guard = pass.write(rt);
    *guard = guard.saturating_add(1);
    RwLock::unlock(guard)
}

/// Reads the value once.
fn read<'a, W: Wait>(rt: &W, pass: Pass<'a>) -> (u64, Pass<'a>)
    ensures made { (Calls Read Granted ⨾ Calls Release Done) pass.entry result.1 }
    ensures lock { lock_of result.1 ≡ lock_of pass.entry }
{
    let guard = pass.read(rt);
    let value = *guard;
    (value, RwLock::unlock_shared(guard))
}

/// Acquires the lock as an upgradable reader, becomes the writer, and doubles the value, up to the largest number.
pub fn double<'a, W: Wait>(rt: &W, pass: Pass<'a>) -> Pass<'a>
    ensures made { (Calls UpgradeableRead Granted ⨾ Calls Upgrade Granted ⨾ WroteSome Release) pass.entry result }
    ensures lock { lock_of result ≡ lock_of pass.entry }
{
    let mut guard = pass.upgradeable_read(rt).upgrade(rt);
    *guard = guard.saturating_mul(2);
    RwLock::unlock(guard)
}

/// Writes in one thread, reads in another, and counts the readers in a third.
///
/// # Contract
/// Of any two of the passes, one knows a prefix of the history that the other knows.
pub fn write_beside_readers<'a, W: Threads + Wait + Sync>(
    rt: &W,
    lock: &'a RwLock<u64>,
) -> (Pass<'a>, ((u64, Pass<'a>), (usize, Pass<'a>)))
    ensures written_read { IsPrefix (history result.0) (history result.1.0.1) ⊎ IsPrefix (history result.1.0.1) (history result.0) }
    ensures written_counted { IsPrefix (history result.0) (history result.1.1.1) ⊎ IsPrefix (history result.1.1.1) (history result.0) }
    ensures read_counted { IsPrefix (history result.1.0.1) (history result.1.1.1) ⊎ IsPrefix (history result.1.1.1) (history result.1.0.1) }
{
    let all = join(
        rt,
        || -> Pass<'_>
            ensures { lock_of result ≡ name_of lock.entry.now }
        { add(rt, lock.pass()) },
        || -> ((u64, Pass<'_>), (usize, Pass<'_>))
            ensures { (lock_of result.0.1 ≡ name_of lock.entry.now) × (lock_of result.1.1 ≡ name_of lock.entry.now) }
        {
            join(
                rt,
                || -> (u64, Pass<'_>)
                    ensures { lock_of result.1 ≡ name_of lock.entry.now }
                { read(rt, lock.pass()) },
                || -> (usize, Pass<'_>)
                    ensures { lock_of result.1 ≡ name_of lock.entry.now }
                { lock.pass().reader_count() },
            )
        },
    );
    all.0.compare(&all.1.0.1);
    all.0.compare(&all.1.1.1);
    all.1.0.1.compare(&all.1.1.1);
    all
}

/// Adds 1, unless the value is the largest number. Then reads the value, which another thread may have changed since.
/// Both calls take a closure that gets the value under the lock.
pub fn add_and_read<'a, W: Wait>(rt: &W, pass: Pass<'a>) -> (u64, Pass<'a>)
    ensures lock { lock_of result.1 ≡ lock_of pass.entry }
{
    let (_, pass) = pass.with(rt, |value| *value = value.saturating_add(1));
    let (value, pass) = pass.with_shared(rt, |value| *value);
    (value, pass)
}

/// Tries once to acquire the lock in each way. As an upgradable reader it also tries once to upgrade. Each time it has
/// acquired the lock, it releases the lock again.
pub fn try_each<'a, W: Wait>(rt: &W, pass: Pass<'a>) -> Pass<'a> {
    let pass = match pass.try_read(rt) {
        Ok(guard) => RwLock::unlock_shared(guard),
        Err(pass) => pass,
    };
    let pass = match pass.try_write() {
        Ok(guard) => { RwLock::unlock_shared(guard.downgrade_to_upgradeable().downgrade()) }
        Err(pass) => pass,
    };
    match pass.try_upgradeable_read(rt) {
        Ok(guard) => match guard.try_upgrade() {
            Ok(guard) => RwLock::unlock_shared(guard.downgrade()),
            Err(guard) => RwLock::unlock_shared(guard),
        },
        Err(pass) => pass,
    }
}
