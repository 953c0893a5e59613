//! The rule of a lock of seats: its cell runs the table. Begin with [`SeatsRule`].
ghost use Rattle.spin_core.specs.Values.{untold};
ghost use Rattle.spin_session.specs.Meaning.{ways_of};
ghost use Rattle.spin_seats.specs.Meaning.{seats_meaning};
ghost use Rattle.spin_seats.specs.Rule.{IsSeats, seats_tables};

use crate::calls::{SeatsCall, SeatsPoint, SeatsTable};
use spin_core::cell::Rule;
use spin_core::tie::Opening;
use spin_core::trace::Trace;
use spin_session::table::{self, Runs};
use spin_session_more::leaps::Leaps;
use spin_step::{Answer, Hold, Next, Operation, Steps};

/// A party: its seat in the model, its number, and how long the trace was after the party's last step.
pub type Party = table::Party<SeatsCall, SeatsPoint>;

/// An entry of the lock's trace.
pub type Entry = table::Entry<SeatsCall, ()>;

/// The whole history of a lock, at its end.
pub type History = Trace<Entry>;

/// The rule of a lock of `N` seats: the word is the number of parties that sit, at most `N`. The trace is a schedule of
/// the lock's model that leads to this word and to each party's seat in the model.
pub struct SeatsRule<const N: usize>;

impl<const N: usize> Rule<(), Party> for SeatsRule<N> {
    type Key = Opening<()>;

    type Second = History;

    ghost holds = { IsSeats N };

    ghost ways = { ways_of (seats_meaning N) };

    ghost lent = { untold };
}

impl<const N: usize> Runs<()> for SeatsRule<N> {
    type Call = SeatsCall;

    type Word = ();

    type Point = SeatsPoint;

    type Words = usize;

    ghost tables = { seats_tables N };

    ghost meaning = { seats_meaning N };

    fn start(call: SeatsCall, holds: Option<Hold>) -> Option<SeatsPoint> {
        Steps::<(), SeatsCall, SeatsPoint>::start(&SeatsTable { seats: N }, call, holds)
    }

    fn operation(call: SeatsCall, point: SeatsPoint, holds: Option<Hold>) -> (usize, Operation) {
        let place = Steps::<(), SeatsCall, SeatsPoint>::place(&SeatsTable { seats: N }, point);
        let operation = Steps::<(), SeatsCall, SeatsPoint>::operation(
            &SeatsTable { seats: N },
            call,
            point,
            holds,
        );
        (place, operation)
    }

    fn next(
        call: SeatsCall,
        point: SeatsPoint,
        holds: Option<Hold>,
        found: u64,
    ) -> Next<SeatsPoint, Answer<()>> {
        Steps::<(), SeatsCall, SeatsPoint>::next(
            &SeatsTable { seats: N },
            call,
            point,
            holds,
            found,
        )
    }

    fn laws() {}
}

// No call begins by several of its steps at once.
impl<const N: usize> Leaps<()> for SeatsRule<N> {}
