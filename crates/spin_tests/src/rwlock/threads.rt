//! `RwLock` and its guards in several threads.

use crate::equal::equal;
use crate::mutex::threads::write_elsewhere;
use crate::parts::{Crew, in_threads};
use crate::waiting::{MAX_LOOKS, await_number, has_turn, is_kept_out, linger};
use spin_core::relax::Yield;
use spin_rwlock::rwlock::{RwLock, RwLockReadGuard};
use std::process::Abort;
use std::sync::Wait;
use std::sync::atomic::AtomicU64;
use std::sync::atomic::Ordering::SeqCst;

#[test]
fn a_guard_may_end_in_another_thread(rt: HostRuntime) {
    let lock: RwLock<u64> = RwLock::new(1);
    write_elsewhere(&rt, lock.write(&rt));
    equal(&rt, *lock.try_write().expect(&rt, "free"), 3);
}

/// Threads that read, and return their guards.
#[derive(Drop)]
struct Readers<'a>(&'a RwLock<u64>);

impl<'a> Crew for Readers<'a> {
    type Answer = RwLockReadGuard<'a, u64>;

    fn act<R: Abort + Wait>(&self, rt: &R, _index: usize) -> RwLockReadGuard<'a, u64> {
        self.0.read(rt)
    }
}

#[test]
fn guards_of_two_threads_read_one_lock(rt: HostRuntime) {
    let lock: RwLock<u64> = RwLock::new(1);
    let guards = in_threads(&rt, rt.alloc(), &Readers(&lock), 2);
    let refused = lock.try_write().is_none();
    equal(&rt, (lock.reader_count(), refused), (2, true));
    for guard in guards {
        equal(&rt, *guard, 1);
    }
}

/// A thread that upgrades beside two readers, and the thread that has these readers.
#[derive(Drop)]
struct UpgradesBesideTwo {
    lock: RwLock<u64, Yield>,
    reads: AtomicU64,
    came: AtomicU64,
}

impl Crew for UpgradesBesideTwo {
    type Answer = (bool, [usize; 2]);

    // The upgrade ends once the other thread has released its readers. The first thread returns whether the writer found
    // the value, and the counts beside this writer. The second one returns whether a try failed while it had its readers.
    fn act<R: Abort + Wait>(&self, rt: &R, index: usize) -> Self::Answer {
        if index == 0 {
            await_number(rt, &self.reads, 1);
            let guard = self.lock.upgradeable_read(rt);
            self.came.store(1, SeqCst);
            let writer = guard.upgrade(rt);
            let counts = [self.lock.reader_count(), self.lock.writer_count()];
            return (*writer == 1, counts);
        }
        let readers = (self.lock.read(rt), self.lock.read(rt));
        self.reads.store(1, SeqCst);
        await_number(rt, &self.came, 1);
        let kept_out = is_kept_out(rt, &self.lock, MAX_LOOKS);
        drop(readers);
        (kept_out, [0, 1])
    }
}

#[test]
fn no_reader_comes_once_an_upgrade_has_asked(rt: HostRuntime) {
    let both = UpgradesBesideTwo {
        lock: RwLock::new(1),
        reads: AtomicU64::new(0),
        came: AtomicU64::new(0),
    };
    let seen = in_threads(&rt, rt.alloc(), &both, 2);
    equal(&rt, seen.as_slice(), [(true, [0, 1]); 2].as_slice());
}

/// A thread that writes and then reads, and a thread that waits to write. The second thread finds the lock held by the
/// writer, and later by the reader.
#[derive(Drop)]
struct WriteInTurn {
    lock: RwLock<u64, Yield>,
    writes: AtomicU64,
    comes: AtomicU64,
}

impl Crew for WriteInTurn {
    type Answer = ();

    fn act<R: Abort + Wait>(&self, rt: &R, index: usize) {
        if index == 0 {
            let mut writer = self.lock.write(rt);
            self.writes.store(1, SeqCst);
            await_number(rt, &self.comes, 1);
            linger(rt);
            *writer = 3;
            let reader = writer.downgrade();
            linger(rt);
            drop(reader);
            return;
        }
        await_number(rt, &self.writes, 1);
        self.comes.store(1, SeqCst);
        let mut guard = self.lock.write(rt);
        *guard = guard.wrapping_mul(2);
    }
}

#[test]
fn a_writer_waits_for_a_writer_and_for_a_reader(rt: HostRuntime) {
    let both = WriteInTurn {
        lock: RwLock::new(1),
        writes: AtomicU64::new(0),
        comes: AtomicU64::new(0),
    };
    drop(in_threads(&rt, rt.alloc(), &both, 2));
    equal(&rt, *both.lock.try_write().expect(&rt, "free"), 6);
}

// So many turns that some tries overlap a try or a count of the other thread. If a count took the lock, such a try
// would fail.
const TURNS: u64 = 1_000_000;

/// Two threads that count the writers, and try to read while turns are left. The first one tries to read upgradably.
#[derive(Drop)]
struct TryToRead {
    lock: RwLock<u64>,
    turns: AtomicU64,
}

impl Crew for TryToRead {
    type Answer = bool;

    // Returns `true` if each try succeeded.
    fn act<R: Abort + Wait>(&self, rt: &R, index: usize) -> bool {
        let mut granted = true;
        for _ in 0..TURNS {
            if !has_turn(&self.turns, TURNS) {
                break;
            }
            self.lock.writer_count();
            granted = granted
                && if index == 0 {
                    self.lock.try_upgradeable_read(rt).is_some()
                } else {
                    self.lock.try_read(rt).is_some()
                };
        }
        granted
    }
}

#[test]
fn a_try_to_read_that_lost_a_race_tries_again(rt: HostRuntime) {
    let tries = TryToRead {
        lock: RwLock::new(1),
        turns: AtomicU64::new(0),
    };
    let granted = in_threads(&rt, rt.alloc(), &tries, 2);
    equal(&rt, granted.as_slice(), [true; 2].as_slice());
}

/// A thread that makes all its additions under one guard, and threads that read.
#[derive(Drop)]
struct AddOrRead(RwLock<u64, Yield>);

impl Crew for AddOrRead {
    type Answer = bool;

    // The first thread adds. A reader sees all of the additions or none. Returns `true` if this thread never saw only a
    // part of them.
    fn act<R: Abort + Wait>(&self, rt: &R, index: usize) -> bool {
        let mut sound = true;
        if index == 0 {
            let mut sum = self.0.write(rt);
            for _ in 0..10 {
                *sum = sum.wrapping_add(1);
            }
        } else {
            for _ in 0..100 {
                let sum = *self.0.read(rt);
                sound = sound && (sum == 0 || sum == 10);
            }
        }
        sound
    }
}

#[test]
fn a_writer_beside_five_readers(rt: HostRuntime) {
    let mut shared = AddOrRead(RwLock::new(0));
    let sound = in_threads(&rt, rt.alloc(), &shared, 6);
    equal(&rt, sound.as_slice(), [true; 6].as_slice());
    equal(&rt, *shared.0.get_mut(), 10);
}
