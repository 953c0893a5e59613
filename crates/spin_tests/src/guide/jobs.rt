//! A queue of jobs that threads share. Its type states the bound.
#![tactic(auto)]

ghost use Rattle.std.specs.Prelude.{◌≤◌, length};

use spin_mutex::mutex::Mutex;
use std::collections::VecDeque;
use std::sync::Wait;

/// The jobs that wait, at most two, the oldest first.
#[derive(Drop)]
pub struct Jobs {
    waiting: VecDeque<u64>,
    ghost bounded: { length waiting.items ≤ 2 },
}

/// Adds a job. Returns `false` if the queue is full, or memory is refused.
pub fn add<W: Wait>(rt: &W, jobs: &Mutex<Jobs>, job: u64) -> bool {
    let mut guard = jobs.lock(rt);
    let waiting = &mut guard.waiting;
    waiting.len() < 2 && waiting.push_back(job).is_ok()
}

/// Takes out the oldest job, if there is one.
pub fn next<W: Wait>(rt: &W, jobs: &Mutex<Jobs>) -> Option<u64> {
    jobs.lock(rt).waiting.pop_front()
}

#[test]
fn a_full_queue_refuses(rt: HostRuntime) {
    let waiting = VecDeque::new(rt.alloc());
    let jobs = Mutex::new(Jobs { waiting });
    assert!(rt; add(&rt, &jobs, 7) && add(&rt, &jobs, 8) && !add(&rt, &jobs, 9));
    assert_eq!(rt; next(&rt, &jobs), Some(7));
}
