//! Threads that share a `Once` find one value, whoever made it.
use crate::equal::equal;
use spin_examples::agreed::{handed, made_before, race, read_given, set_then_read};
use spin_once::once::Once;

#[test]
fn a_race_has_one_winner(rt: HostRuntime) {
    let once: Once<u64> = Once::new();
    let (one, other) = race(&rt, &once);
    equal(&rt, (one, [1, 2].contains(&one)), (other, true));
    equal(&rt, once.get().copied(), Some(one));
}

#[test]
fn a_value_is_handed_to_another_thread(rt: HostRuntime) {
    let once: Once<u64> = Once::new();
    equal(&rt, handed(&rt, &once, 7), (7, 7));
    equal(&rt, handed(&rt, &once, 8), (7, 7));
}

#[test]
fn a_given_value_stays(rt: HostRuntime) {
    equal(&rt, made_before(&rt, 3), 3);
    equal(&rt, read_given(&Once::initialized(4), 4), Some(4));
    let once: Once<u64> = Once::new();
    equal(&rt, set_then_read(&rt, &once, 5), (5, 5));
}
