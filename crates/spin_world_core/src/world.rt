//! A world of one object, which plays a schedule or one move. Begin with [`World::new`] and [`World::run`].
ghost use Rattle.std.specs.Prelude.{◌≡◌, ◌≤◌, [], length, IfOk, OnOk, OnErr, vec_capacity, slice_get, option_map};
ghost use Rattle.spin_step.specs.Schedules.{at_first, after, events_of, with_begins, happens, place_of};
ghost use Rattle.spin_world_core.specs.Runs.{IsReached, AfterAnyPast, CanAlways};
ghost use Rattle.spin_world_core.specs.Joined.{Promised};
ghost use Rattle.spin_world_core.specs.Transcripts.{TellsAfterAnyPast, SaysAfterAnyPast, TellsBegins};

use crate::object::Object;
use crate::schedule::Transcript;
use crate::table::Table;
use crate::telling::{forget_begins, no_begins, with_begin};
use spin_step::{Event, Move, Outcome, Place, Seat};
use std::alloc::{AllocError, Allocator, Global};
use std::marker::Model;

mod two_runs;

pub use two_runs::run_in_two;

/// An object, and the parties that share it. Parties are numbered from 0.
///
/// # Contract
/// Some schedule leads from the opening state to the state of the world (`IsReached`).
///
/// # Examples
/// ```
/// use spin_world::{Flag, FlagCall, Move, World};
///
/// let made = World::new(rt.alloc(), Flag::new(5), 2);
/// let mut world = made.expect(&rt, "there is memory");
/// world.act(0, Move::Begin(FlagCall::Lock));
/// world.act(0, Move::Step);
/// world.act(0, Move::Write(6));
/// assert!(rt; world.words());
/// assert_eq!(rt; world.value(), Some(6));
/// ```
#[derive(Drop)]
pub struct World<O: Object, A: Allocator = Global> {
    alloc: A,
    object: O,
    table: Table<O, A>,
}

/// For contracts a world is its object and a state that some schedule leads to.
impl<O: Object, A: Allocator> Model for World<O, A> {
    ghost use Rattle.spin_step.specs.Schedules.{Shown};
    ghost use Rattle.spin_world_core.specs.Runs.{IsReached};

    ghost Value = { Shown O O.Words O.Value O.Call O.Local };

    ghost view = { λ w. record { object = w.object; state = w.table } };

    ghost invariant = { λ w. IsReached (O.machine w.object) w.table };
}

impl<O: Object, A: Allocator + Copy> World<O, A> {
    /// Creates a world of this many parties, all idle. The world keeps the allocator for the transcripts of its runs.
    ///
    /// # Contract
    /// On `Ok` the world has this object, with its opening words and its opening value (`at_first`).
    pub fn new(alloc: A, object: O, parties: usize) -> Result<World<O, A>, AllocError>
        ensures { IfOk result (λ w. w ≡ record { object = object; state = at_first (O.machine object) parties }) }
    {
        let table = Table::new(alloc, &object, parties)?;
        Ok(World {
            alloc,
            object,
            table,
        })
    }

    /// Returns the words as they are now.
    ///
    /// # Contract
    /// They are the words of the world's state.
    pub fn words(&self) -> O::Words
        ensures { result ≡ self.now.state.words }
    {
        self.table.words
    }

    /// Returns the value as it is now, or `None` if the object has none.
    ///
    /// # Contract
    /// It is the value of the world's state.
    pub fn value(&self) -> Option<O::Value>
        ensures { result ≡ self.now.state.value }
    {
        self.table.value
    }

    /// Returns the place of the party, or `None` if it does not exist.
    ///
    /// # Contract
    /// The place is the one of the party's seat (`place_of`). The party's own moves and the owner's moves led to this
    /// place (`SaysAfterAnyPast`). The place implies what the lists of the plain lock have of the party.
    ///
    /// # Examples
    /// ```
    /// use spin_world::{Flag, FlagCall, Hold, Move, Place, World};
    ///
    /// let made = World::new(rt.alloc(), Flag::new(5), 2);
    /// let mut world = made.expect(&rt, "there is memory");
    /// world.act(1, Move::Begin(FlagCall::Lock));
    /// assert!(rt; matches!(world.place(1), Some(Place::InCall)));
    /// world.act(1, Move::Step);
    /// assert!(rt; matches!(world.place(1), Some(Place::Holding(Hold::Write))));
    /// ```
    pub fn place(&self, party: usize) -> Option<Place>
        ensures place { result ≡ option_map place_of (slice_get self.now.state.seats party) }

        // The party's moves and the owner's moves have led to this place. The lists of the plain lock have of the
        // party what the place implies.
        ensures says { SaysAfterAnyPast (O.machine self.now.object) self.now.state party result }
    {
        O::laws();
        self.table.place(party)
    }

    /// Returns the object.
    ///
    /// # Contract
    /// It is the object with which the world was created.
    pub fn object(&self) -> &O
        ensures { result.now ≡ self.now.object }
    {
        &self.object
    }

    /// Returns the seat of each party.
    ///
    /// # Contract
    /// They are the seats of the world's state.
    pub fn seats(&self) -> &[Seat<O::Call, O::Local>]
        ensures { result.now ≡ self.now.state.seats }
    {
        self.table.seats()
    }

    /// Creates another world with the same object in the same state.
    ///
    /// # Contract
    /// On `Ok` both worlds are equal. From then on each is played on its own.
    ///
    /// # Examples
    /// ```
    /// use spin_world::{Flag, FlagCall, Move, World};
    ///
    /// let made = World::new(rt.alloc(), Flag::new(5), 2);
    /// let world = made.expect(&rt, "there is memory");
    /// let mut other = world.copy().expect(&rt, "there is memory");
    /// other.act(0, Move::Begin(FlagCall::Lock));
    /// other.act(0, Move::Step);
    /// assert_eq!(rt; (world.words(), other.words()), (false, true));
    /// ```
    pub fn copy(&self) -> Result<World<O, A>, AllocError>
    where
        O: Copy,
        ensures { IfOk result (λ w. w ≡ self.now) }
    {
        Ok(World {
            alloc: self.alloc,
            object: self.object,
            table: self.table.copy(self.alloc)?,
        })
    }

    /// Makes one move of the party, and returns its outcome.
    ///
    /// A move that is not open to the party changes nothing ([`Outcome::Skipped`]). The answer does not tell where its
    /// call began. An answer in the transcript of [`World::run`] does.
    ///
    /// # Contract
    /// The outcome and the new state are those that `happens` says. Some schedule leads to the new state (`IsReached`),
    /// and what `run` promises of a schedule holds of that schedule.
    pub fn act(
        &mut self,
        party: usize,
        action: Move<O::Call, O::Value>,
    ) -> Outcome<O::Answer, O::Value>
        ensures happens { record { outcome = result; next = self.new.state } ≡ happens (O.machine self.old.object) self.old.state party action }
        ensures object { self.new.object ≡ self.old.object }
        ensures reached { IsReached (O.machine self.new.object) self.new.state }
    {
        O::laws();
        self.table.act(&self.object, party, action)
    }

    /// Plays a schedule, and returns its transcript. Each entry of the schedule is a party and its move.
    ///
    /// The call first allocates the transcript, and where each call began, and then no step allocates. An `Err` leaves the
    /// world unchanged.
    ///
    /// # Contract
    /// On `Ok` the new state is the one after the schedule (`after`). The transcript has its events (`events_of`). Each
    /// answer tells where in the transcript its call began, or `None` if the call began earlier (`TellsBegins`).
    ///
    /// Take any schedule that led to the old state, and append this schedule to it. All promises hold of the result
    /// (`Promised`): `KeepsAll`, `MomentsAll`, `CountsAll`, `ValuesAll`. The transcript tells what happens in the appended
    /// part (`TellsAfterAnyPast`).
    ///
    /// # Examples
    /// ```
    /// use spin_world::{Answer, Flag, FlagCall, Move, Outcome, World};
    ///
    /// let made = World::new(rt.alloc(), Flag::new(5), 2);
    /// let mut world = made.expect(&rt, "there is memory");
    /// let schedule = [
    ///     (0, Move::Begin(FlagCall::Lock)),
    ///     (1, Move::Begin(FlagCall::TryLock)),
    ///     (0, Move::Step),
    ///     (1, Move::Step),
    /// ];
    /// let transcript = world.run(&schedule).expect(&rt, "there is memory");
    /// let last = transcript.events.last().expect(&rt, "it has four");
    /// assert!(rt; matches!(
    ///     last.outcome,
    ///     Outcome::Answered {
    ///         answer: Answer::Refused,
    ///         began: Some(1)
    ///     }
    /// ));
    /// ```
    pub fn run(
        &mut self,
        schedule: &[(usize, Move<O::Call, O::Value>)],
    ) -> Result<Transcript<O, A>, AllocError>
        ensures state { OnOk result (self.new.state ≡ after (O.machine self.old.object) self.old.state schedule.now) }
        ensures object { self.new.object ≡ self.old.object }
        ensures events { let m = O.machine self.old.object in
            IfOk result (λ t. t.events.items ≡ with_begins [] (events_of m self.old.state schedule.now)) }
        ensures err { OnErr result (self.new ≡ self.old) }

        // Some schedule leads to the new state: any schedule that led to the old state, followed by this schedule.
        ensures reached { IsReached (O.machine self.new.object) self.new.state }
        ensures promised { let m = O.machine self.old.object in
            AfterAnyPast m self.old.state schedule.now (Promised m) }
        ensures tells { let m = O.machine self.old.object in
            IfOk result (λ t. TellsAfterAnyPast m self.old.state schedule.now t.events.items) }
        ensures begins { IfOk result (λ t. TellsBegins t.events.items) }
    {
        O::laws();
        let mut begins = no_begins(self.alloc, self.table.seats().len())?;
        let mut events = Vec::with_capacity(self.alloc, schedule.len())?;
        play_into(
            &self.object,
            &mut self.table,
            &mut begins,
            &mut events,
            schedule,
        );
        Ok(Transcript { events })
    }
}

/// Plays the schedule into a transcript that has room for it.
fn play_into<O: Object, A: Allocator>(
    object: &O,
    table: &mut Table<O, A>,
    begins: &mut [Option<usize>],
    events: &mut Vec<Event<O::Words, O::Value, O::Answer>, A>,
    schedule: &[(usize, Move<O::Call, O::Value>)],
)
    requires can { CanAlways (O.machine object.now) table.old schedule.now }
    requires empty { events.old.items ≡ [] }
    requires room { length schedule.now ≤ vec_capacity events.old }
    requires parties { length begins.old ≡ length table.old.seats }
    ensures table { table.new ≡ after (O.machine object.now) table.old schedule.now }
    ensures events { events.new.items ≡ with_begins [] (events_of (O.machine object.now) table.old schedule.now) }
    ensures parties { length begins.new ≡ length table.new.seats }
{
    forget_begins(begins);
    for (place, entry) in schedule.iter().enumerate() {
        let (party, action) = *entry;
        let outcome = with_begin(begins, party, place, table.act(object, party, action));
        events.push_reserved(Event {
            party,
            outcome,
            words: table.words,
        });
    }
}
