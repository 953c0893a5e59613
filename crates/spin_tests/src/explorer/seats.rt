//! All that three parties on two seats may result in. Such a test finds a wrong step before anything is proved.

ghost use Rattle.std.specs.Prelude.{◌<◌, length};
ghost use Rattle.spin_explore.specs.Programs.{leads};
ghost use Rattle.spin_explore.specs.Walks.{AreTraced};

use spin_explore::{Course, Entry, Found, Lock, Programs, explore, schedule};
use spin_world::{Answer, Move, Outcome, World};
use spin_world_seats::{Seats, SeatsCall};
use std::alloc::AllocError;

/// Returns how many lines of a course were granted.
fn grants_in<L: Lock>(course: &Course<L>) -> usize {
    let mut granted = 0usize;
    for came in course.got() {
        if let Some(
            Outcome::Answered {
                answer: Answer::Granted,
                ..
            },
        ) = *came
        {
            granted = granted.saturating_add(1);
        }
    }
    granted
}

/// Returns the parties whose turns lead to this course, in their order.
fn turns_of<L: Lock>(found: &Found<L>, place: usize) -> Result<Vec<usize>, AllocError>
    requires within { place < length found.now.courses.items }
    requires traced { let f = found.now in
        AreTraced (leads L.rules f.programs.lines.items) f.programs.parties f.courses.items f.origins.items }
{
    let mut parties = Vec::new(found.programs.alloc);
    for entry in schedule(found, place)? {
        parties.push(entry.party)?;
    }
    Ok(parties)
}

#[test]
fn three_parties_come_to_two_seats(rt: HostRuntime) {
    let alloc = rt.alloc();
    let mut lines = Vec::new(alloc);
    for party in 0..3usize {
        let entry = Entry {
            party,
            lock: 0,
            action: Move::Begin(SeatsCall::TryEnter),
        };
        lines.push(entry).expect(&rt, "memory");
    }
    let world = World::new(alloc, Seats::new(2), 3).expect(&rt, "memory");
    let mut locks = Vec::new(alloc);
    locks.push(world).expect(&rt, "memory");
    let programs = Programs {
        alloc,
        lines,
        parties: 3,
    };
    let found = explore(programs, locks, 10_000).expect(&rt, "memory");
    for place in 0..found.courses.len() {
        if grants_in(&found.courses[place]) > 2 {
            let turns = turns_of(&found, place).expect(&rt, "memory");
            assert!(rt; false, "three sit on two seats after turns of {turns:?}");
        }
    }
}
