//! What no contract says of callers of a barrier that keeps its arrivals: they end, and each thread was there.
use super::equal::equal;
use spin_examples::meeting::meet_in_two;
use spin_examples::phases::{Folded, Open, run_phases};

#[test]
fn two_threads_meet_and_both_have_raised_the_number(rt: HostRuntime) {
    for _ in 0..50 {
        let ((_, first, then), (_, also_first, also_then)) = meet_in_two(&rt);
        equal(&rt, (first.max(also_first), then, also_then), (2, 2, 2));
    }
}

#[test]
fn the_leader_of_three_threads_sums_up_each_round(rt: HostRuntime) {
    let folded = Folded {
        total: 750,
        rounds: 50,
        smallest: 15,
    };
    let run = run_phases(&rt, rt.alloc(), &Open, 3, 50, 5);
    equal(&rt, run, Ok(folded));
}
