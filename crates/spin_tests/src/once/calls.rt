//! A closure may look at the `Once` whose value it makes, and may wait for another.
use crate::equal::equal;
use spin_once::once::Once;
use std::sync::Wait;

// Shows that a caller's closure may be generic, may borrow, and may wait.
fn made_from<T: Copy, R: Wait>(rt: &R, once: &Once<T>, from: &Once<T>) -> T {
    *once.call_once(rt, || *from.wait(rt))
}

#[test]
fn a_closure_that_looks_at_its_own(rt: HostRuntime) {
    let once: Once<u64> = Once::new();
    let seen = *once.call_once(&rt, || if once.is_completed() { 1 } else { 2 });
    equal(&rt, seen, 2);
    let other: Once<u64> = Once::new();
    equal(&rt, made_from(&rt, &other, &once), 2);
}
