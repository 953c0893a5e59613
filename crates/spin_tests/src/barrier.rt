//! What no contract says: a party waits for its group, one party of each group leads, and which party this is.
use super::equal::equal;
use super::parts::{Crew, in_threads};
use spin_barrier::barrier::Barrier;
use spin_core::relax::{RelaxStrategy, Spin, Yield};
use std::cell::Cell;
use std::process::Abort;
use std::sync::Wait;
use std::sync::atomic::{AtomicBool, AtomicU64, Ordering};

fn can_be_shared<T: Send + Sync>() {}

fn travels<R: 'static>() {
    can_be_shared::<Barrier<R>>();
}

#[test]
fn a_barrier_travels_whatever_its_strategy_is(rt: HostRuntime) {
    let _ = rt;
    travels::<Cell<u64>>();
    travels::<Spin>();
}

const LOOKS: u32 = 100_000;

/// The results of one round of ten threads.
#[derive(Drop)]
struct RoundOfTen {
    left: AtomicBool,
    leaders: AtomicU64,
    fewest: AtomicU64,
}

impl RoundOfTen {
    fn new() -> Self {
        RoundOfTen {
            left: AtomicBool::new(false),
            leaders: AtomicU64::new(0),
            fewest: AtomicU64::new(u64::MAX),
        }
    }
}

/// Two rounds of the same ten threads.
#[derive(Drop)]
struct TwoRounds {
    barrier: Barrier<Yield>,
    arrived: AtomicU64,
    left_early: AtomicBool,
    first: RoundOfTen,
    second: RoundOfTen,
}

impl TwoRounds {
    fn pass<R: Wait>(&self, rt: &R, round: &RoundOfTen) {
        self.arrived.fetch_add(1, Ordering::SeqCst);
        let waited = self.barrier.wait(rt);
        round.left.store(true, Ordering::SeqCst);
        let arrived = self.arrived.load(Ordering::SeqCst);
        round.fewest.fetch_min(arrived, Ordering::SeqCst);
        if waited.is_leader() {
            round.leaders.fetch_add(1, Ordering::SeqCst);
        }
    }
}

impl Crew for TwoRounds {
    type Answer = ();

    // Passes both rounds. The first thread checks that no thread leaves before the group is full.
    fn act<R: Abort + Wait>(&self, rt: &R, index: usize) {
        if index == 0 {
            for _ in 0..LOOKS {
                if self.first.left.load(Ordering::SeqCst) {
                    self.left_early.store(true, Ordering::SeqCst);
                }
                Yield::relax(rt);
            }
        }
        self.pass(rt, &self.first);
        self.pass(rt, &self.second);
    }
}

fn comes_to<R: Abort>(rt: &R, round: &RoundOfTen, arrived: u64) {
    equal(rt, round.leaders.load(Ordering::SeqCst), 1);
    equal(rt, round.fewest.load(Ordering::SeqCst) >= arrived, true);
}

#[test]
fn ten_threads_wait_for_one_another_twice_over(rt: HostRuntime) {
    let rounds = TwoRounds {
        barrier: Barrier::new(10),
        arrived: AtomicU64::new(0),
        left_early: AtomicBool::new(false),
        first: RoundOfTen::new(),
        second: RoundOfTen::new(),
    };
    drop(in_threads(&rt, rt.alloc(), &rounds, 10));
    equal(&rt, rounds.left_early.load(Ordering::SeqCst), false);
    comes_to(&rt, &rounds.first, 10);
    comes_to(&rt, &rounds.second, 20);
}
