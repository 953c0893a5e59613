//! The lock of fair seats, played by its table. Begin with [`FairSeats::new`].
ghost use Rattle.std.specs.Prelude.{◌≡◌, true};
ghost use Rattle.spin_step.specs.Acts.{step_by, can_by};
ghost use Rattle.spin_fair_seats.specs.Table.{act_of, fair_seats_machine, fair_seats_memory, word_of};
ghost use Rattle.spin_world_seats.specs.FairNamed.{IsFairSeatsMachine};

use spin_fair_seats::calls::{FairSeatsCall, FairSeatsPoint, FairSeatsTable, FairSeatsWords};
use spin_step::Steps;
use spin_world_core::stepping::{refused, stepped};
use spin_world_core::{Answer, Hold, Next, Object, Stepped};

/// The lock with a number of seats, on which parties sit in the order of their tickets. Its value is `()`.
///
/// # Examples
/// ```
/// use spin_world::{Move, Place, World};
/// use spin_world_seats::{FairSeats, FairSeatsCall};
///
/// let made = World::new(rt.alloc(), FairSeats::new(1), 2);
/// let mut world = made.expect(&rt, "there is memory");
/// for party in [1, 0] {
///     world.act(party, Move::Begin(FairSeatsCall::Enter));
///     for _step in 0..3 {
///         world.act(party, Move::Step);
///     }
/// }
/// assert_eq!(rt; (world.words().next, world.words().given), (2, 0));
/// assert!(rt; matches!(world.place(0), Some(Place::InCall)));
/// assert!(rt; matches!(world.place(1), Some(Place::Holding(_))));
/// ```
#[derive(Clone, Copy, PartialEq, Eq)]
pub struct FairSeats {
    seats: usize,
}

impl FairSeats {
    /// Creates a lock with `seats` free seats, but at most `spin_fair_seats::steps::MAX_SEATS`.
    ///
    /// # Contract
    /// The object keeps the number `seats`. Its machine is that of a lock with `seats` seats, or with `MAX_SEATS` if
    /// `seats` is larger (`IsFairSeatsMachine`). [`FairSeatsCall`] says what each call asks for.
    pub fn new(seats: usize) -> FairSeats
        ensures fields { result ≡ record { seats = seats } }
        ensures named { IsFairSeatsMachine seats (⟦<FairSeats as Object>⟧.machine result) }
    {
        FairSeats { seats }
    }
}

impl Object for FairSeats {
    type Words = FairSeatsWords;

    type Value = ();

    type Call = FairSeatsCall;

    type Local = FairSeatsPoint;

    type Answer = Answer<()>;

    ghost machine = { λ s. fair_seats_machine s.seats };

    fn opening_words(&self) -> FairSeatsWords {
        FairSeatsWords { next: 0, given: 0 }
    }

    fn opening_value(&self) -> Option<()> {
        Some(())
    }

    fn is_owned(&self) -> bool {
        true
    }

    fn begin(&self, call: FairSeatsCall, holds: Option<Hold>) -> Option<FairSeatsPoint> {
        FairSeatsTable { seats: self.seats }.start(call, holds)
    }

    fn step(
        &self,
        words: FairSeatsWords,
        value: Option<()>,
        call: FairSeatsCall,
        local: FairSeatsPoint,
        holds: Option<Hold>,
    ) -> Stepped<FairSeatsWords, (), FairSeatsPoint, Answer<()>>
        requires { can_by fair_seats_memory (word_of local) (act_of self.now.seats local holds) words ≡ true }
        ensures { result ≡ step_by fair_seats_memory (word_of local) (act_of self.now.seats local holds) words }
    {
        let _ = value;
        stepped(
            &FairSeatsTable { seats: self.seats },
            words,
            call,
            local,
            holds,
        )
    }

    fn refuse(
        &self,
        call: FairSeatsCall,
        local: FairSeatsPoint,
        holds: Option<Hold>,
    ) -> Option<Next<FairSeatsPoint, Answer<()>>> {
        refused(&FairSeatsTable { seats: self.seats }, call, local, holds)
    }

    fn laws() {}
}
