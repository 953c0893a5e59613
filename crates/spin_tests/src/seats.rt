//! What no contract says: no more threads sit than there are seats, and threads make progress.
mod passes;

use super::equal::equal;
use super::parts::{Crew, in_threads};
use spin_seats::seats::Seats;
use std::process::Abort;
use std::sync::Wait;
use std::sync::atomic::{AtomicU64, Ordering};

/// Threads that take a seat again and again, and count how many are taken.
#[derive(Drop)]
struct Visitors {
    seats: Seats<2>,
    inside: AtomicU64,
}

impl Crew for Visitors {
    type Answer = ();

    fn act<R: Abort + Wait>(&self, rt: &R, _index: usize) {
        for _turn in 0..2000 {
            let guard = self.seats.enter(rt);
            equal(rt, self.inside.fetch_add(1, Ordering::SeqCst) < 2, true);
            self.inside.fetch_sub(1, Ordering::SeqCst);
            drop(guard);
        }
    }
}

#[test]
fn three_visit_two_seats(rt: HostRuntime) {
    let visitors = Visitors {
        seats: Seats::new(),
        inside: AtomicU64::new(0),
    };
    drop(in_threads(&rt, rt.alloc(), &visitors, 3));
    equal(&rt, visitors.seats.count(), 0);
}

const TRIES: u64 = 400_000;

/// Threads that try often. They share the tries, so they end however they are scheduled.
#[derive(Drop)]
struct TryOften {
    seats: Seats<4>,
    tries: AtomicU64,
}

impl Crew for TryOften {
    type Answer = bool;

    // Returns whether each try succeeded.
    fn act<R: Abort + Wait>(&self, rt: &R, _index: usize) -> bool {
        let mut granted = true;
        for _ in 0..TRIES {
            if self.tries.fetch_add(1, Ordering::SeqCst) >= TRIES {
                break;
            }
            granted = granted && self.seats.try_enter(rt).is_some();
        }
        granted
    }
}

#[test]
fn a_try_that_lost_a_race_tries_again(rt: HostRuntime) {
    let both = TryOften {
        seats: Seats::new(),
        tries: AtomicU64::new(0),
    };
    let granted = in_threads(&rt, rt.alloc(), &both, 2);
    equal(&rt, granted.as_slice(), [true; 2].as_slice());
}
