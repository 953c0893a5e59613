//! What has to succeed in several threads, and which thread waits for which.
use crate::equal::equal;
use crate::parts::{Crew, in_threads};
use crate::waiting::{await_number, comes_to, has_turn, is_kept_out, linger};
use spin_core::lock::SharedLock;
use spin_core::relax::{RelaxStrategy, Spin, Yield};
use spin_fair::fair::FairMutex;
use spin_once::once::Once;
use spin_rwlock::rwlock::RwLock;
use std::process::Abort;
use std::sync::Wait;
use std::sync::atomic::AtomicU64;
use std::sync::atomic::Ordering::SeqCst;

/// Two threads that share a lock.
#[derive(Drop)]
struct Meeting {
    lock: RwLock<u64, Yield>,
    came: AtomicU64,
}

impl Crew for Meeting {
    type Answer = bool;

    // Returns `true` if the other thread arrived while this thread had shared access.
    fn act<R: Abort + Wait>(&self, rt: &R, _index: usize) -> bool {
        self.lock.with_shared(rt, |_value| {
            self.came.fetch_add(1, SeqCst);
            comes_to(rt, &self.came, 2)
        })
    }
}

#[test]
fn two_share_a_lock_at_once(rt: HostRuntime) {
    let meeting = Meeting {
        lock: RwLock::new(1),
        came: AtomicU64::new(0),
    };
    let met = in_threads(&rt, rt.alloc(), &meeting, 2);
    equal(&rt, met.as_slice(), [true; 2].as_slice());
}

// Waits until the other thread waits, and then drops the guard for which that thread waits. Returns `true` if the other
// thread continues.
fn lets_go<G: Drop, R: Wait>(rt: &R, guard: G, came: &AtomicU64, done: &AtomicU64) -> bool {
    await_number(rt, came, 1);
    linger(rt);
    drop(guard);
    comes_to(rt, done, 1)
}

/// A thread that holds the upgradable place of a lock, and a thread that waits for this place.
#[derive(Drop)]
struct UpgradablePlace {
    lock: RwLock<u64, Yield>,
    held: AtomicU64,
    came: AtomicU64,
    done: AtomicU64,
}

impl Crew for UpgradablePlace {
    type Answer = bool;

    fn act<R: Abort + Wait>(&self, rt: &R, index: usize) -> bool {
        if index == 0 {
            let first = self.lock.upgradeable_read(rt);
            self.held.store(1, SeqCst);
            return lets_go(rt, first, &self.came, &self.done);
        }
        await_number(rt, &self.held, 1);
        self.came.store(1, SeqCst);
        drop(self.lock.upgradeable_read(rt));
        self.done.store(1, SeqCst);
        true
    }
}

#[test]
fn an_upgradable_reader_that_waited_is_let_in(rt: HostRuntime) {
    let both = UpgradablePlace {
        lock: RwLock::new(1),
        held: AtomicU64::new(0),
        came: AtomicU64::new(0),
        done: AtomicU64::new(0),
    };
    let let_in = in_threads(&rt, rt.alloc(), &both, 2);
    equal(&rt, let_in.as_slice(), [true; 2].as_slice());
}

/// A thread that starves and waits, and a newcomer.
#[derive(Drop)]
struct Newcomer {
    lock: FairMutex<u64, Yield>,
    starves: AtomicU64,
    done: AtomicU64,
}

impl Crew for Newcomer {
    type Answer = bool;

    // Returns `true` if the newcomer did not enter while the other thread starved.
    fn act<R: Abort + Wait>(&self, rt: &R, index: usize) -> bool {
        if index == 0 {
            let place = self.lock.starve(rt).expect(rt, "below the cap");
            self.starves.store(1, SeqCst);
            linger(rt);
            let early = self.done.load(SeqCst) == 1;
            drop(place);
            return !early;
        }
        await_number(rt, &self.starves, 1);
        drop(self.lock.lock(rt));
        self.done.store(1, SeqCst);
        true
    }
}

#[test]
fn a_newcomer_waits_while_somebody_starves(rt: HostRuntime) {
    let both = Newcomer {
        lock: FairMutex::new(1),
        starves: AtomicU64::new(0),
        done: AtomicU64::new(0),
    };
    let waited = in_threads(&rt, rt.alloc(), &both, 2);
    equal(&rt, waited.as_slice(), [true; 2].as_slice());
}

/// A thread that holds a lock and then starves, and a starver that waits for the lock.
#[derive(Drop)]
struct TwoStarve {
    lock: FairMutex<u64, Yield>,
    held: AtomicU64,
    came: AtomicU64,
    done: AtomicU64,
}

impl Crew for TwoStarve {
    type Answer = bool;

    fn act<R: Abort + Wait>(&self, rt: &R, index: usize) -> bool {
        if index == 0 {
            let guard = self.lock.lock(rt);
            self.held.store(1, SeqCst);
            await_number(rt, &self.came, 1);
            let other = self.lock.starve(rt);
            let entered = lets_go(rt, guard, &self.came, &self.done);
            drop(other);
            return entered;
        }
        await_number(rt, &self.held, 1);
        if let Some(place) = self.lock.starve(rt) {
            self.came.store(1, SeqCst);
            drop(place.lock(rt));
        }
        self.done.store(1, SeqCst);
        true
    }
}

#[test]
fn a_starver_that_waited_enters_beside_another(rt: HostRuntime) {
    let both = TwoStarve {
        lock: FairMutex::new(1),
        held: AtomicU64::new(0),
        came: AtomicU64::new(0),
        done: AtomicU64::new(0),
    };
    let entered = in_threads(&rt, rt.alloc(), &both, 2);
    equal(&rt, entered.as_slice(), [true; 2].as_slice());
}

/// A thread whose closure fails, and a thread that waits for it with a closure of its own.
#[derive(Drop)]
struct FailsAndMakes {
    once: Once<u64, Yield>,
    begun: AtomicU64,
    came: AtomicU64,
    done: AtomicU64,
}

impl Crew for FailsAndMakes {
    type Answer = Option<u64>;

    // Returns the value that this thread's call gave, if it gave one.
    fn act<R: Abort + Wait>(&self, rt: &R, index: usize) -> Option<u64> {
        if index == 0 {
            let value = self.once.try_call_once(rt, || {
                self.begun.store(1, SeqCst);
                await_number(rt, &self.came, 1);
                linger(rt);
                Err(())
            });
            equal(rt, comes_to(rt, &self.done, 1), true);
            return value.ok().copied();
        }
        await_number(rt, &self.begun, 1);
        self.came.store(1, SeqCst);
        let made = *self.once.call_once(rt, || 7);
        self.done.store(1, SeqCst);
        Some(made)
    }
}

#[test]
fn a_waiter_runs_its_closure_where_another_failed(rt: HostRuntime) {
    let both = FailsAndMakes {
        once: Once::new(),
        begun: AtomicU64::new(0),
        came: AtomicU64::new(0),
        done: AtomicU64::new(0),
    };
    let values = in_threads(&rt, rt.alloc(), &both, 2);
    equal(&rt, values.as_slice(), [None, Some(7)].as_slice());
}

/// A slow strategy.
struct Slow;

impl RelaxStrategy for Slow {
    fn relax<W: Wait>(rt: &W) {
        for _ in 0..100_000 {
            Spin::relax(rt);
        }
    }
}

const SLOW_LOOKS: u32 = 200;

/// A thread that upgrades beside a reader, and the thread that reads.
#[derive(Drop)]
struct UpgradesBesideReader {
    lock: RwLock<u64, Slow>,
    reads: AtomicU64,
    came: AtomicU64,
}

impl Crew for UpgradesBesideReader {
    type Answer = bool;

    // The first thread returns `true` if the writer finds the value. The second one returns `true` if the first one has
    // asked to upgrade while there was a reader.
    fn act<R: Abort + Wait>(&self, rt: &R, index: usize) -> bool {
        if index == 0 {
            await_number(rt, &self.reads, 1);
            let guard = self.lock.upgradeable_read(rt);
            self.came.store(1, SeqCst);
            return *guard.upgrade(rt) == 1;
        }
        let reader = self.lock.read(rt);
        self.reads.store(1, SeqCst);
        await_number(rt, &self.came, 1);
        let asked = is_kept_out(rt, &self.lock, SLOW_LOOKS);
        drop(reader);
        asked
    }
}

#[test]
fn an_upgrade_asks_before_it_relaxes(rt: HostRuntime) {
    let both = UpgradesBesideReader {
        lock: RwLock::new(1),
        reads: AtomicU64::new(0),
        came: AtomicU64::new(0),
    };
    let seen = in_threads(&rt, rt.alloc(), &both, 2);
    equal(&rt, seen.as_slice(), [true; 2].as_slice());
}

const TURNS: u64 = 600_000;

/// A thread that counts and a thread that reads, while turns are left.
#[derive(Drop)]
struct CountsAndReads {
    lock: RwLock<u64>,
    turns: AtomicU64,
}

impl Crew for CountsAndReads {
    type Answer = bool;

    // The first thread counts. Returns `true` if each try to read succeeded.
    fn act<R: Abort + Wait>(&self, rt: &R, index: usize) -> bool {
        let mut granted = true;
        for _ in 0..TURNS {
            if !has_turn(&self.turns, TURNS) {
                break;
            }
            if index == 0 {
                self.lock.reader_count();
            } else {
                granted = granted && self.lock.try_read(rt).is_some();
            }
        }
        granted
    }
}

#[test]
fn a_count_takes_no_lock(rt: HostRuntime) {
    let both = CountsAndReads {
        lock: RwLock::new(1),
        turns: AtomicU64::new(0),
    };
    let granted = in_threads(&rt, rt.alloc(), &both, 2);
    equal(&rt, granted.as_slice(), [true; 2].as_slice());
}
