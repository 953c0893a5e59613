//! When a waiting `lock` begins to starve.
use crate::equal::equal;
use crate::mutex::fair::{HELD, OPEN, fair_state, has_state, refusal};
use crate::parts::{Crew, in_threads};
use crate::waiting::await_number;
use spin_core::relax::{RelaxStrategy, Spin, Yield};
use spin_fair::fair::{FairMutex, LockRejectReason};
use std::process::Abort;
use std::sync::Wait;
use std::sync::atomic::AtomicU64;
use std::sync::atomic::Ordering::SeqCst;

const MAX_LOOKS: usize = 10_000_000;

const STARVED_LOOKS: u32 = 1_000_000;

// Returns `true` if a newcomer fails because of a starver within `MAX_LOOKS` looks.
fn comes_to_starve<R: Wait>(rt: &R, lock: &FairMutex<u64, Yield>) -> bool {
    for _ in 0..MAX_LOOKS {
        if refusal(lock) == Some(LockRejectReason::Starved) {
            return true;
        }
        Yield::relax(rt);
    }
    false
}

// Returns `true` if a newcomer fails because of a starver at each of `STARVED_LOOKS` looks.
fn stays_starved<R>(lock: &FairMutex<u64, R>) -> bool {
    let mut starved = true;
    for _ in 0..STARVED_LOOKS {
        starved = starved && refusal(lock) == Some(LockRejectReason::Starved);
    }
    starved
}

/// A thread that holds the lock, and a thread that waits for the lock.
#[derive(Drop)]
struct Held<S> {
    lock: FairMutex<u64, S>,
    held: AtomicU64,
}

impl<S> Held<S> {
    fn of(lock: FairMutex<u64, S>) -> Held<S> {
        Held {
            lock,
            held: AtomicU64::new(0),
        }
    }
}

impl Crew for Held<Yield> {
    type Answer = bool;

    // The first thread holds the lock until the waiting `lock` starves. Returns `true` if that call stays a starver.
    fn act<R: Abort + Wait>(&self, rt: &R, index: usize) -> bool {
        if index == 0 {
            let guard = self.lock.lock(rt);
            self.held.store(1, SeqCst);
            let starved = comes_to_starve(rt, &self.lock) && stays_starved(&self.lock);
            drop(guard);
            return starved;
        }
        await_number(rt, &self.held, 1);
        let mut own = self.lock.lock(rt);
        *own = 2;
        true
    }
}

#[test]
fn a_waiting_lock_comes_to_starve(rt: HostRuntime) {
    let both = Held::of(FairMutex::<u64, Yield>::new(1));
    let starved = in_threads(&rt, rt.alloc(), &both, 2);
    equal(&rt, starved.as_slice(), [true; 2].as_slice());
    has_state(&rt, &both.lock, OPEN);
    equal(&rt, both.lock.into_inner(), 2);
}

/// A slow strategy.
struct Slow;

impl RelaxStrategy for Slow {
    fn relax<W: Wait>(rt: &W) {
        for _ in 0..400_000 {
            Spin::relax(rt);
        }
    }
}

// The test looks for a starver this many times. Meanwhile the waiting `lock` makes about as many looks. The patience
// of `lock` is about 25 times this number.
const SLOW_LOOKS: u32 = 40;

impl Crew for Held<Slow> {
    type Answer = bool;

    // The first thread holds the lock for some looks. Returns `true` if the waiting `lock` did not starve meanwhile.
    fn act<R: Abort + Wait>(&self, rt: &R, index: usize) -> bool {
        let mut patient = true;
        if index == 0 {
            let guard = self.lock.lock(rt);
            self.held.store(1, SeqCst);
            for _ in 0..SLOW_LOOKS {
                Slow::relax(rt);
                patient = patient && fair_state(&self.lock) == HELD;
            }
            drop(guard);
        } else {
            await_number(rt, &self.held, 1);
            drop(self.lock.lock(rt));
        }
        patient
    }
}

#[test]
fn a_waiting_lock_is_patient(rt: HostRuntime) {
    let both = Held::of(FairMutex::<u64, Slow>::new(1));
    let patient = in_threads(&rt, rt.alloc(), &both, 2);
    equal(&rt, patient.as_slice(), [true; 2].as_slice());
}
