//! Rounds of threads. In each round every thread adds to the result, and one of them folds it.
#![tactic(auto)]

use spin_barrier::barrier::Barrier;
use spin_mutex::mutex::Mutex;
use std::sync::Wait;
use std::thread;

/// The result of this round, and the largest of those before.
#[derive(Default, Drop)]
pub struct RoundSums {
    round: u64,
    largest: u64,
}

/// Takes part in three rounds, and adds `gain` in each.
pub fn work<W: Wait>(rt: &W, barrier: &Barrier, results: &Mutex<RoundSums>, gain: u64) {
    for _ in 0..3 {
        let mut adding = results.lock(rt);
        adding.round = adding.round.saturating_add(gain);
        drop(adding);
        if barrier.wait(rt).is_leader() {
            let mut folding = results.lock(rt);
            folding.largest = folding.largest.max(folding.round);
            folding.round = 0;
        }
        barrier.wait(rt);
    }
}

#[test]
fn each_round_has_what_both_added(rt: HostRuntime) {
    let (barrier, results) = (Barrier::new(2), Mutex::default());
    let (meet, lent, host) = (&barrier, &results, &rt);
    thread::join(
        host,
        || work(host, meet, lent, 3),
        || work(host, meet, lent, 4),
    );
    assert_eq!(rt; results.into_inner().largest, 7);
}
