//! One schedule in two runs: a caller cuts it within its length, as [`run_in_two`] asks.

use spin_world::{Flag, FlagCall, Move, World, run_in_two};

#[test]
fn a_schedule_is_cut_at_each_place(rt: HostRuntime) {
    let schedule = [
        (0, Move::Begin(FlagCall::Lock)),
        (0, Move::Step),
        (0, Move::Write(6)),
    ];
    for at in 0..=schedule.len() {
        let mut world = World::new(rt.alloc(), Flag::new(5), 1).expect(&rt, "memory");
        let (first, second) = run_in_two(&mut world, &schedule, at).expect(&rt, "memory");
        assert_eq!(rt;
            (first.events.len(), second.events.len()),
            (at, schedule.len() - at)
        );
        assert_eq!(rt; world.value(), Some(6));
    }
}
