//! Two threads count under one lock.
#![tactic(auto)]

use spin_core::relax::Yield;
use spin_flag::spin::SpinMutex;
use std::sync::Wait;

/// Adds one, unless the counter has the largest number.
pub fn count<W: Wait>(rt: &W, counter: &SpinMutex<u64, Yield>) {
    let mut guard = counter.lock(rt);
    *guard = guard.saturating_add(1);
}

#[test]
fn two_threads_count(rt: HostRuntime) {
    let counter = SpinMutex::new(0);
    let (lent, host) = (&counter, &rt);
    std::thread::join(host, || count(host, lent), || count(host, lent));
    assert_eq!(rt; counter.into_inner(), 2);
}
