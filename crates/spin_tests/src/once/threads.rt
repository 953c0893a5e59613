//! `Once` in several threads.

use crate::equal::equal;
use crate::parts::{Crew, in_threads};
use spin_core::relax::{RelaxStrategy, Yield};
use spin_once::lazylock::LazyLock;
use spin_once::once::Once;
use std::process::Abort;
use std::sync::Wait;
use std::sync::atomic::AtomicU64;
use std::sync::atomic::Ordering::SeqCst;
use std::thread::map_indices;

/// Threads that call with closures. Each closure gives the index of its thread.
#[derive(Drop)]
struct Callers {
    once: Once<u64, Yield>,
    // How many closures have run.
    runs: AtomicU64,
}

impl Crew for Callers {
    type Answer = u64;

    fn act<R: Abort + Wait>(&self, rt: &R, index: usize) -> u64 {
        let value = self.once.call_once(rt, || {
            self.runs.fetch_add(1, SeqCst);
            index as u64
        });
        *value
    }
}

#[test]
fn ten_that_call_at_once_run_one_closure(rt: HostRuntime) {
    let callers = Callers {
        once: Once::new(),
        runs: AtomicU64::new(0),
    };
    let values = in_threads(&rt, rt.alloc(), &callers, 10);
    let value = *callers.once.get().expect(&rt, "all have called");
    equal(&rt, values.as_slice(), [value; 10].as_slice());
    equal(&rt, callers.runs.load(SeqCst), 1);
}

#[test]
fn ten_that_ask_at_once_run_it_once(rt: HostRuntime) {
    let runs = AtomicU64::new(0);
    let lazy: LazyLock<u64, _, Yield> = LazyLock::new(|| {
        runs.fetch_add(1, SeqCst);
        for _ in 0..100 {
            Yield::relax(&rt);
        }
        5
    });
    let ask = |_index: usize| *LazyLock::force(&lazy, &rt);
    let values = map_indices(&rt, rt.alloc(), 10, &ask).expect(&rt, "memory");
    equal(&rt, values.as_slice(), [5; 10].as_slice());
    equal(&rt, runs.load(SeqCst), 1);
}
