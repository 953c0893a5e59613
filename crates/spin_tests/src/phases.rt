//! What no contract says: workers are threads, and each round is folded once, by its leader, when it is complete.
use super::equal::equal;
use spin_core::relax::{RelaxStrategy, Yield};
use spin_examples::phases::{Folded, Gate, Open, run_phases};
use std::sync::Wait;
use std::sync::atomic::AtomicU64;
use std::sync::atomic::Ordering::SeqCst;

#[test]
fn each_round_is_folded_whole(rt: HostRuntime) {
    let folded = Folded {
        total: 2400,
        rounds: 100,
        smallest: 24,
    };
    let nothing = Folded {
        total: 0,
        rounds: 0,
        smallest: u64::MAX,
    };
    let run = run_phases(&rt, rt.alloc(), &Open, 8, 100, 3);
    equal(&rt, run, Ok(folded));
    let without_workers = run_phases(&rt, rt.alloc(), &Open, 0, 7, 3);
    equal(&rt, without_workers, Ok(nothing));
    let without_rounds = run_phases(&rt, rt.alloc(), &Open, 2, 0, 3);
    equal(&rt, without_rounds, Ok(nothing));
}

const MAX_LOOKS: u32 = 10_000_000;

/// A gate at which two workers meet: each waits until both have arrived.
#[derive(Drop)]
struct Meeting {
    came: AtomicU64,
    met: AtomicU64,
}

impl Gate for Meeting {
    fn before<R: Wait>(&self, rt: &R, worker: usize) {
        self.came.fetch_or(1 << worker.min(2), SeqCst);
        for _ in 0..MAX_LOOKS {
            if self.came.load(SeqCst) == 3 {
                self.met.fetch_add(1, SeqCst);
                return;
            }
            Yield::relax(rt);
        }
    }
}

#[test]
fn workers_are_there_at_once(rt: HostRuntime) {
    let gate = Meeting {
        came: AtomicU64::new(0),
        met: AtomicU64::new(0),
    };
    let folded = Folded {
        total: 60,
        rounds: 10,
        smallest: 6,
    };
    let run = run_phases(&rt, rt.alloc(), &gate, 2, 10, 3);
    equal(&rt, run, Ok(folded));
    equal(&rt, gate.met.load(SeqCst), 2);
}
