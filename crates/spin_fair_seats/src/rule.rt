//! The rule of fair seats: its cell runs the table. Begin with [`FairSeatsRule`].
ghost use Rattle.spin_core.specs.Values.{untold};
ghost use Rattle.spin_session.specs.Meaning.{ways_of};
ghost use Rattle.spin_fair_seats.specs.Meaning.{fair_seats_meaning};
ghost use Rattle.spin_fair_seats.specs.Rule.{IsFairSeats, fair_seats_tables};

use crate::calls::{FairSeatsCall, FairSeatsPoint, FairSeatsTable, FairSeatsWords};
use spin_core::cell::Rule;
use spin_core::relax::MAX_HINTS;
use spin_core::tie::Opening;
use spin_core::trace::Trace;
use spin_session::table::{self, Runs};
use spin_session_more::leaps::Leaps;
use spin_step::{Answer, Hold, Next, Operation, Steps};

/// A party: its seat in the model, its number, and how long the trace was after the party's last step.
pub type Party = table::Party<FairSeatsCall, FairSeatsPoint>;

/// An entry of the lock's trace.
pub type Entry = table::Entry<FairSeatsCall, ()>;

/// The whole history of a lock, at its end.
pub type History = Trace<Entry, u64>;

/// The rule of a lock of `N` fair seats.
pub struct FairSeatsRule<const N: usize>;

impl<const N: usize> Rule<(), Party> for FairSeatsRule<N> {
    type Key = Opening<()>;

    type Second = History;

    ghost holds = { IsFairSeats N };

    ghost ways = { ways_of (fair_seats_meaning N) };

    ghost lent = { untold };
}

impl<const N: usize> Runs<()> for FairSeatsRule<N> {
    type Call = FairSeatsCall;

    type Word = u64;

    type Point = FairSeatsPoint;

    type Words = FairSeatsWords;

    ghost tables = { fair_seats_tables N };

    ghost meaning = { fair_seats_meaning N };

    fn start(call: FairSeatsCall, holds: Option<Hold>) -> Option<FairSeatsPoint> {
        FairSeatsTable { seats: N }.start(call, holds)
    }

    fn operation(
        call: FairSeatsCall,
        point: FairSeatsPoint,
        holds: Option<Hold>,
    ) -> (usize, Operation) {
        let table = FairSeatsTable { seats: N };
        (table.place(point), table.operation(call, point, holds))
    }

    fn next(
        call: FairSeatsCall,
        point: FairSeatsPoint,
        holds: Option<Hold>,
        found: u64,
    ) -> Next<FairSeatsPoint, Answer<()>> {
        FairSeatsTable { seats: N }.next(call, point, holds, found)
    }

    // A thread that is next gives one hint. The more have to leave before it, the more seldom it looks, so that it does not
    // disturb them.
    fn hints(
        call: FairSeatsCall,
        from: FairSeatsPoint,
        to: FairSeatsPoint,
        holds: Option<Hold>,
        found: u64,
        due: u32,
    ) -> u32 {
        let _ = (call, holds, due);
        match (from, to) {
            (FairSeatsPoint::Await(_), FairSeatsPoint::Await(ticket)) => {
                match ticket.saturating_sub(found).saturating_sub(N as u64) {
                    0 => 1,
                    1 => 16,
                    2 => 24,
                    _ => MAX_HINTS,
                }
            }
            (_, FairSeatsPoint::Take(_)) | (FairSeatsPoint::Take(_), FairSeatsPoint::Await(_)) => 0,
            _ => 1,
        }
    }

    fn laws() {}
}

// No call begins by several of its steps at once.
impl<const N: usize> Leaps<()> for FairSeatsRule<N> {}
