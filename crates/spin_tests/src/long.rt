//! A schedule of ten thousand entries, for as many parties as half of them. A world that refuses so many would keep each
//! contract, as if there were no memory.
use spin_world::{Answer, Flag, FlagCall, Move, Outcome, World};

const PARTIES: usize = 5_000;

#[test]
fn ten_thousand_entries_are_played(rt: HostRuntime) {
    let alloc = rt.alloc();
    let mut schedule = Vec::new(alloc);
    for party in 0..PARTIES {
        schedule
            .push((party, Move::Begin(FlagCall::TryLock)))
            .expect(&rt, "memory");
        schedule.push((party, Move::Step)).expect(&rt, "memory");
    }
    let mut world = World::new(alloc, Flag::new(5), PARTIES).expect(&rt, "memory");
    let played = world.run(&schedule).expect(&rt, "memory");
    assert_eq!(rt; played.events.len(), 10_000);
    let last = played.events.last().expect(&rt, "it has ten thousand");
    assert!(rt;
        matches!(
            last.outcome,
            Outcome::Answered {
                answer: Answer::Refused,
                began: Some(9_998)
            }
        )
    );
}
