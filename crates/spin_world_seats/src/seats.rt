//! The lock of seats, played by its table. Begin with [`Seats::new`].
ghost use Rattle.std.specs.Prelude.{◌≡◌, true};
ghost use Rattle.spin_step.specs.Acts.{one_number, step_by, can_by};
ghost use Rattle.spin_seats.specs.Table.{act_of, seats_machine};
ghost use Rattle.spin_world_seats.specs.Named.{IsSeatsMachine};

use spin_seats::calls::{SeatsCall, SeatsPoint, SeatsTable};
use spin_step::Steps;
use spin_world_core::stepping::{refused, stepped};
use spin_world_core::{Answer, Hold, Next, Object, Stepped};

/// The lock with a number of seats. Its value is `()`.
///
/// # Examples
/// ```
/// use spin_world::{Move, Place, World};
/// use spin_world_seats::{Seats, SeatsCall};
///
/// let made = World::new(rt.alloc(), Seats::new(1), 2);
/// let mut world = made.expect(&rt, "there is memory");
/// for party in [0, 1] {
///     world.act(party, Move::Begin(SeatsCall::Enter));
///     world.act(party, Move::Step);
///     world.act(party, Move::Step);
/// }
/// assert_eq!(rt; world.words(), 1);
/// assert!(rt; matches!(world.place(1), Some(Place::InCall)));
/// ```
#[derive(Clone, Copy, PartialEq, Eq)]
pub struct Seats {
    seats: usize,
}

impl Seats {
    /// Creates a lock with `seats` free seats, but at most `spin_seats::steps::MAX_SEATS`.
    ///
    /// # Contract
    /// The object keeps the number `seats`. Its machine is that of a lock with `seats` seats, or with `MAX_SEATS` if
    /// `seats` is larger (`IsSeatsMachine`). At first all seats are free. [`SeatsCall`] says what each call asks for.
    pub fn new(seats: usize) -> Seats
        ensures fields { result ≡ record { seats = seats } }
        ensures named { IsSeatsMachine seats (⟦<Seats as Object>⟧.machine result) }
    {
        Seats { seats }
    }
}

impl Object for Seats {
    type Words = usize;

    type Value = ();

    type Call = SeatsCall;

    type Local = SeatsPoint;

    type Answer = Answer<()>;

    ghost machine = { λ s. seats_machine s.seats };

    fn opening_words(&self) -> usize {
        0
    }

    fn opening_value(&self) -> Option<()> {
        Some(())
    }

    fn is_owned(&self) -> bool {
        true
    }

    fn begin(&self, call: SeatsCall, holds: Option<Hold>) -> Option<SeatsPoint> {
        SeatsTable { seats: self.seats }.start(call, holds)
    }

    fn step(
        &self,
        words: usize,
        value: Option<()>,
        call: SeatsCall,
        local: SeatsPoint,
        holds: Option<Hold>,
    ) -> Stepped<usize, (), SeatsPoint, Answer<()>>
        requires { can_by one_number 0 (act_of self.now.seats call local holds) words ≡ true }
        ensures { result ≡ step_by one_number 0 (act_of self.now.seats call local holds) words }
    {
        let _ = value;
        stepped(&SeatsTable { seats: self.seats }, words, call, local, holds)
    }

    fn refuse(
        &self,
        call: SeatsCall,
        local: SeatsPoint,
        holds: Option<Hold>,
    ) -> Option<Next<SeatsPoint, Answer<()>>> {
        refused(&SeatsTable { seats: self.seats }, call, local, holds)
    }

    fn laws() {}
}
