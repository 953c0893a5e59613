//! Callers' proofs: the value seen under one guard is found under the guard that it becomes, and what was written is
//! read back.
ghost use Rattle.std.specs.Prelude.{◌≡◌};

use crate::equal::equal;
use spin_core::relax::{Loop, RelaxStrategy};
use spin_rwlock::rwlock::{RwLock, RwLockReadGuard, RwLockUpgradableGuard, RwLockWriteGuard};
use std::sync::Wait;

fn sees_the_same_after_upgrade<R: RelaxStrategy, W: Wait>(
    rt: &W,
    guard: RwLockUpgradableGuard<'_, u64, R>,
) -> (u64, u64)
    ensures { result.0 ≡ result.1 }
{
    let seen = *guard;
    let guard = guard.upgrade(rt);
    (seen, *guard)
}

// Proves the same for `try_upgrade`, whether the try succeeds or not.
fn sees_the_same_after_a_try<R>(guard: RwLockUpgradableGuard<'_, u64, R>) -> (u64, u64)
    ensures { result.0 ≡ result.1 }
{
    let seen = *guard;
    match guard.try_upgrade() {
        Ok(guard) => (seen, *guard),
        Err(guard) => (seen, *guard),
    }
}

fn sees_the_same_after_downgrade<R>(guard: RwLockUpgradableGuard<'_, u64, R>) -> (u64, u64)
    ensures { result.0 ≡ result.1 }
{
    let seen = *guard;
    let guard = guard.downgrade();
    (seen, *guard)
}

fn reads_back_after_downgrade<R>(guard: RwLockWriteGuard<'_, u64, R>, value: u64) -> u64
    ensures { result ≡ value }
{
    let mut guard = guard;
    *guard = value;
    *guard.downgrade()
}

fn reads_back_after_downgrade_to_upgradeable<R>(
    guard: RwLockWriteGuard<'_, u64, R>,
    value: u64,
) -> u64
    ensures { result ≡ value }
{
    let mut guard = guard;
    *guard = value;
    *guard.downgrade_to_upgradeable()
}

fn sees_the_same_once_it_leaks<R>(guard: RwLockReadGuard<'_, u64, R>) -> (u64, u64)
    ensures { result.0 ≡ result.1 }
{
    let seen = (*guard, *guard);
    (seen.1, *RwLockReadGuard::leak(guard))
}

fn reads_back_once_it_leaks<R>(guard: RwLockWriteGuard<'_, u64, R>, value: u64) -> u64
    ensures { result ≡ value }
{
    let mut guard = guard;
    *guard = value;
    *RwLockWriteGuard::leak(guard)
}

#[test]
fn a_leak_keeps_the_value(rt: HostRuntime) {
    let lock: RwLock<u64, Loop> = RwLock::from(3);
    let seen = sees_the_same_once_it_leaks(lock.read(&rt));
    let lock: RwLock<u64, Loop> = RwLock::from(3);
    let written = reads_back_once_it_leaks(lock.write(&rt), 4);
    equal(&rt, (seen, [written, lock.into_inner()]), ((3, 3), [4; 2]));
}

#[test]
fn conversions_keep_the_value(rt: HostRuntime) {
    let mut lock: RwLock<u64, Loop> = RwLock::from(3);
    let upgraded = sees_the_same_after_upgrade(&rt, lock.upgradeable_read(&rt));
    let alone = sees_the_same_after_a_try(lock.upgradeable_read(&rt));
    let reader = lock.read(&rt);
    let beside_reader = sees_the_same_after_a_try(lock.upgradeable_read(&rt));
    let downgraded = sees_the_same_after_downgrade(lock.upgradeable_read(&rt));
    drop(reader);
    let seen = [upgraded, alone, beside_reader, downgraded];
    equal(&rt, seen, [(3, 3); 4]);
    let read = reads_back_after_downgrade(lock.write(&rt), 4);
    let read_upgradably = reads_back_after_downgrade_to_upgradeable(lock.write(&rt), 5);
    equal(&rt, [read, read_upgradably, *lock.get_mut()], [4, 5, 5]);
}
