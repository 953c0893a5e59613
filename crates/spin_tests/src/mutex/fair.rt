//! A starver enters by each of its calls, and registers beside others.
use crate::equal::equal;
use crate::parts::{Crew, in_threads};
use spin_core::relax::RelaxStrategy;
use spin_fair::fair::{FairMutex, LockRejectReason, Starvation};
use std::process::Abort;
use std::sync::Wait;

// Whether a thread holds the lock, and the reason why `try_lock_starver` fails, if it fails.
pub type FairState = (bool, Option<LockRejectReason>);

pub const OPEN: FairState = (false, None);

pub const HELD: FairState = (true, Some(LockRejectReason::Locked));

pub const STARVED: FairState = (false, Some(LockRejectReason::Starved));

pub const HELD_AND_STARVED: FairState = (true, Some(LockRejectReason::Starved));

// Returns the reason why `try_lock_starver` fails, if it fails.
pub fn refusal<R>(lock: &FairMutex<u64, R>) -> Option<LockRejectReason> {
    lock.try_lock_starver().err()
}

pub fn fair_state<R>(lock: &FairMutex<u64, R>) -> FairState {
    let refused = refusal(lock);
    (lock.is_locked(), refused)
}

pub fn has_state<R>(rt: &impl Abort, lock: &FairMutex<u64, R>, wanted: FairState) {
    equal(rt, fair_state(lock), wanted);
}

pub fn starve_below_cap<'a, R>(
    rt: &(impl Abort + Wait),
    lock: &'a FairMutex<u64, R>,
) -> Starvation<'a, u64, R> {
    lock.starve(rt).expect(rt, "below the cap")
}

// Checks that a starver acquires the lock by `lock`, and that the lock is free afterwards.
pub fn enters_in_the_end<R: RelaxStrategy>(
    rt: &(impl Abort + Wait),
    lock: &FairMutex<u64, R>,
    starvation: Starvation<'_, u64, R>,
) {
    let guard = starvation.lock(rt);
    has_state(rt, lock, HELD);
    drop(guard);
    has_state(rt, lock, OPEN);
}

#[test]
fn each_call_of_a_starver_enters(rt: HostRuntime) {
    let lock: FairMutex<u64> = FairMutex::new(42);
    let starvation = starve_below_cap(&rt, &lock);
    let guard = starvation.try_lock_fair().ok().expect(&rt, "open");
    has_state(&rt, &lock, HELD);
    drop(guard);
    enters_in_the_end(&rt, &lock, starve_below_cap(&rt, &lock));
}

const STARVES: u32 = 100_000;

/// Threads that starve. Each `starve` succeeds, though other threads change the word.
#[derive(Drop)]
struct StarveOften(FairMutex<u64>);

impl Crew for StarveOften {
    type Answer = ();

    fn act<R: Abort + Wait>(&self, rt: &R, _index: usize) {
        for _ in 0..STARVES {
            drop(starve_below_cap(rt, &self.0));
        }
    }
}

#[test]
fn a_starver_that_lost_a_race_tries_again(rt: HostRuntime) {
    let often = StarveOften(FairMutex::new(1));
    drop(in_threads(&rt, rt.alloc(), &often, 2));
    has_state(&rt, &often.0, OPEN);
}
