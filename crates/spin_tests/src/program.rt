//! The program and its threads, which run proved code: counts, and that workers run at once.
ghost use Rattle.std.specs.Prelude.{◌≡◌, Some, None, false};

use crate::ends::{Paper, Tape};
use spin_core::relax::{RelaxStrategy, Yield};
use spin_run::run::{Gate, count_with, program};
use std::sync::Wait;
use std::sync::atomic::{AtomicU64, Ordering};

/// Commands that ask for a count, each with the total.
const COUNTS: &[(&[&str], &str)] = &[
    (&["count", "2", "100"], "200\n"),
    (&["count", "0", "5"], "0\n"),
    (&["count", "3", "0"], "0\n"),
    (&["count", "0", "0"], "0\n"),
    (&["count", "1", "1"], "1\n"),
    (&["count", "64", "1000"], "64000\n"),
    (&["count", "1", "1000000"], "1000000\n"),
    (&["count", "0", "1000000"], "0\n"),
];

#[test]
fn counts_are_told(rt: HostRuntime) {
    for (words, told) in COUNTS {
        let mut input = Tape::new(b"");
        let mut output = Paper::endless(rt.alloc());
        let mut errors = Paper::endless(rt.alloc());
        let status = program(
            &rt,
            rt.alloc(),
            *words,
            &mut input,
            &mut output,
            &mut errors,
        );
        assert_eq!(rt; (status, input.reads), (0, 0), "{words:?}");
        output.must_show(&rt, told.as_bytes());
        errors.must_show(&rt, b"");
    }
}

/// A gate at which two workers meet: each worker sets its own bit, and waits for the other worker's bit.
#[derive(Drop)]
struct Bits {
    raised: AtomicU64,
    seen: AtomicU64,
}

impl Gate for Bits {
    fn before<R: Wait>(&self, rt: &R, worker: usize) {
        let (mine, other) = match worker {
            0 => (1, 2),
            1 => (2, 1),
            _ => return,
        };
        self.raised.fetch_or(mine, Ordering::SeqCst);
        for _ in 0..10_000_000u32 {
            if self.raised.load(Ordering::SeqCst) & other != 0 {
                self.seen.fetch_or(mine, Ordering::SeqCst);
                return;
            }
            Yield::relax(rt);
        }
    }
}

#[test]
fn runs_workers_at_once(rt: HostRuntime) {
    let gate = Bits {
        raised: AtomicU64::new(0),
        seen: AtomicU64::new(0),
    };
    let counted = count_with(&rt, rt.alloc(), &gate, 2, 100);
    let found = (counted, gate.seen.load(Ordering::SeqCst));
    assert_eq!(rt; found, (Ok(200), 3));
}

/// A gate that counts in four fields of 16 bits: how often each of three workers passes, and how often all others do.
#[derive(Drop)]
struct Turnstile {
    passed: AtomicU64,
}

impl Gate for Turnstile {
    fn before<R: Wait>(&self, rt: &R, worker: usize) {
        let _ = rt;
        self.passed
            .fetch_add(1 << (16 * worker.min(3)), Ordering::SeqCst);
    }
}

#[test]
fn passes_the_gate_once_each(rt: HostRuntime) {
    for times in [0, 1, 5] {
        let gate = Turnstile {
            passed: AtomicU64::new(0),
        };
        let counted = count_with(&rt, rt.alloc(), &gate, 3, times);
        let found = (counted, gate.passed.load(Ordering::SeqCst));
        assert_eq!(rt; found, (Ok(3 * times), 0x0000_0001_0001_0001));
    }
}
