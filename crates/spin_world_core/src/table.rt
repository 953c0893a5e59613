//! The words, the value and the seats of a world. Begin with [`Table::act`], which makes one move.
ghost use Rattle.std.specs.Prelude.{◌≡◌, ◌<◌, Some, IfOk, length, map, replicate, slice_get, option_map};
ghost use Rattle.spin_step.specs.declared.place.Seat.TheVariants.{Idle};
ghost use Rattle.spin_step.specs.Schedules.{at_first, seated, let_go, seen_by_owner, resting, may_read, may_write, begun, begins, steps, weakly, reads, writes, leaks, owner_gets, owner_writes, owner_sets, goes_on, is_owners, moves, happens, place_of};
ghost use Rattle.spin_step.specs.Acts.{either};
ghost use Rattle.spin_world_core.specs.Sharing.{shares, has_leaked};
ghost use Rattle.spin_world_core.specs.Runs.{CanStep};

use crate::object::Object;
use spin_step::{Hold, Move, Next, Outcome, Place, Seat};
use std::alloc::{AllocError, Allocator};
use std::marker::Model;

/// The state of a world: the words, the value, and the seat of each party.
#[derive(Drop)]
pub struct Table<O: Object, A: Allocator> {
    pub words: O::Words,
    pub value: Option<O::Value>,
    seats: Vec<Seat<O::Call, O::Local>, A>,
    /// How many parties share the value. An owner's move looks at this number, and need not check each party.
    sharing: usize,
    /// How many parties have leaked, and are not gone.
    leaked: usize,
}

impl<O: Object, A: Allocator> Model for Table<O, A> {
    ghost use Rattle.spin_step.specs.Schedules.{State};
    ghost use Rattle.spin_world_core.specs.Sharing.{shares, has_leaked};
    ghost use Rattle.std.specs.Prelude.{◌≡◌};
    ghost use Rattle.std.specs.List.{count_by};

    ghost Value = { State O.Words O.Value O.Call O.Local };

    ghost view = { λ t. record { words = t.words; value = t.value; seats = t.seats.items } };

    ghost invariant = { λ t. (t.sharing ≡ count_by shares t.seats.items) × (t.leaked ≡ count_by has_leaked t.seats.items) };
}

fn reads_value(hold: Hold) -> bool
    ensures { result ≡ may_read hold }
{
    !matches!(hold, Hold::Starver)
}

fn writes_value(hold: Hold) -> bool
    ensures { result ≡ may_write hold }
{
    matches!(hold, Hold::Write | Hold::Ticket(_))
}

fn seat_of<C: Copy, L: Copy>(holds: Option<Hold>) -> Seat<C, L>
    ensures { result ≡ resting holds }
{
    match holds {
        None => Seat::Idle,
        Some(hold) => Seat::Holding(hold),
    }
}

/// Returns `true` if the party shares the value, so that the owner may not use it.
fn shares<C: Copy, L: Copy>(seat: Seat<C, L>) -> bool
    ensures { result ≡ shares seat }
{
    matches!(seat, Seat::Calling(_, _, _) | Seat::Holding(_))
}

fn has_leaked<C: Copy, L: Copy>(seat: Seat<C, L>) -> bool
    ensures { result ≡ has_leaked seat }
{
    matches!(seat, Seat::Leaked(_))
}

fn place_of<C: Copy, L: Copy>(seat: Seat<C, L>) -> Place
    ensures { result ≡ place_of seat }
{
    match seat {
        Seat::Idle => Place::Idle,
        Seat::Calling(_, _, _) => Place::InCall,
        Seat::Holding(hold) => Place::Holding(hold),
        Seat::Leaked(hold) => Place::Leaked(hold),
        Seat::Gone(_) => Place::Gone,
    }
}

fn without_leak<C: Copy, L: Copy>(seat: Seat<C, L>) -> Seat<C, L>
    ensures { result ≡ seen_by_owner seat }
{
    match seat {
        Seat::Leaked(hold) => Seat::Gone(hold),
        seat => seat,
    }
}

fn let_go_all<C: Copy, L: Copy>(seats: &mut [Seat<C, L>])
    ensures { seats.new ≡ map seen_by_owner seats.old }
{
    for i in 0..seats.len() {
        seats[i] = without_leak(seats[i]);
    }
}

/// Creates the seats of this many idle parties.
fn idle_seats<C: Copy, L: Copy, A: Allocator>(
    alloc: A,
    parties: usize,
) -> Result<Vec<Seat<C, L>, A>, AllocError>
    ensures { IfOk result (λ seats. seats.items ≡ replicate parties Idle) }
{
    vec![in alloc; Seat::Idle; parties]
}

impl<O: Object, A: Allocator> Table<O, A> {
    /// Creates the opening state of an object, with this many idle parties.
    pub fn new(alloc: A, object: &O, parties: usize) -> Result<Table<O, A>, AllocError>
        ensures { IfOk result (λ t. t ≡ at_first (O.machine object.now) parties) }
    {
        Ok(Table {
            words: object.opening_words(),
            value: object.opening_value(),
            seats: idle_seats(alloc, parties)?,
            sharing: 0,
            leaked: 0,
        })
    }

    /// Creates a copy of the state.
    pub fn copy(&self, alloc: A) -> Result<Table<O, A>, AllocError>
        ensures { IfOk result (λ t. t ≡ self.now) }
    {
        Ok(Table {
            words: self.words,
            value: self.value,
            seats: Vec::from_slice(alloc, &self.seats)?,
            sharing: self.sharing,
            leaked: self.leaked,
        })
    }

    /// Returns the seat of each party.
    pub fn seats(&self) -> &[Seat<O::Call, O::Local>]
        ensures { result.now ≡ self.now.seats }
    {
        &self.seats
    }

    /// Puts the party into this seat.
    fn sit(&mut self, party: usize, seat: Seat<O::Call, O::Local>)
        requires { party < length self.old.seats }
        ensures { self.new ≡ seated self.old party seat }
    {
        let before = self.seats[party];
        self.sharing = self.sharing - usize::from(shares(before)) + usize::from(shares(seat));
        self.leaked = self.leaked - usize::from(has_leaked(before)) + usize::from(has_leaked(seat));
        self.seats[party] = seat;
    }

    /// Returns the place of the party, or `None` if it does not exist.
    pub fn place(&self, party: usize) -> Option<Place>
        ensures { result ≡ option_map place_of (slice_get self.now.seats party) }
    {
        if party >= self.seats.len() {
            return None;
        }
        Some(place_of(self.seats[party]))
    }

    /// Makes one move of the party, and returns its outcome.
    pub fn act(
        &mut self,
        object: &O,
        party: usize,
        entry: Move<O::Call, O::Value>,
    ) -> Outcome<O::Answer, O::Value>
        requires { CanStep (O.machine object.now) self.old }
        ensures { record { outcome = result; next = self.new } ≡ happens (O.machine object.now) self.old party entry }
    {
        if party >= self.seats.len() {
            return Outcome::Skipped;
        }
        let seat = self.seats[party];
        self.act_from(object, party, entry, seat)
    }

    /// Makes one move of a party that has this seat.
    fn act_from(
        &mut self,
        object: &O,
        party: usize,
        entry: Move<O::Call, O::Value>,
        seat: Seat<O::Call, O::Local>,
    ) -> Outcome<O::Answer, O::Value>
        requires there { slice_get self.old.seats party ≡ Some seat }
        requires within { party < length self.old.seats }
        requires can { CanStep (O.machine object.now) self.old }
        ensures { record { outcome = result; next = self.new } ≡ moves (O.machine object.now) self.old party entry seat }
    {
        match entry {
            Move::Begin(call) => self.begin(object, party, call, seat),
            Move::Step | Move::Weak => {
                self.step(object, party, seat, matches!(entry, Move::Weak))
            }
            Move::Read => self.read(seat),
            Move::Write(value) => self.write(value, seat),
            Move::Leak => self.leak(party, seat),
            Move::OwnerGet => self.owner_get(object),
            Move::OwnerSet(value) => self.owner_set(object, value),
        }
    }

    fn begin(
        &mut self,
        object: &O,
        party: usize,
        call: O::Call,
        seat: Seat<O::Call, O::Local>,
    ) -> Outcome<O::Answer, O::Value>
        requires { party < length self.old.seats }
        ensures { record { outcome = result; next = self.new } ≡ begins (O.machine object.now) self.old party call seat }
    {
        match seat {
            Seat::Idle => self.begin_beside(object, party, call, None),
            Seat::Holding(hold) => self.begin_beside(object, party, call, Some(hold)),
            _ => Outcome::Skipped,
        }
    }

    /// Begins a call, if a party that holds `holds` may make it.
    fn begin_beside(
        &mut self,
        object: &O,
        party: usize,
        call: O::Call,
        holds: Option<Hold>,
    ) -> Outcome<O::Answer, O::Value>
        requires { party < length self.old.seats }
        ensures { record { outcome = result; next = self.new } ≡ begun self.old party call holds ((O.machine object.now).begin call holds) }
    {
        match object.begin(call, holds) {
            None => Outcome::Skipped,
            Some(local) => {
                self.sit(party, Seat::Calling(call, local, holds));
                Outcome::Begun
            }
        }
    }

    /// Makes the next step of the party's call. If `is_weak`, that step fails spuriously, or is skipped if it cannot.
    fn step(
        &mut self,
        object: &O,
        party: usize,
        seat: Seat<O::Call, O::Local>,
        is_weak: bool,
    ) -> Outcome<O::Answer, O::Value>
        requires there { slice_get self.old.seats party ≡ Some seat }
        requires can { CanStep (O.machine object.now) self.old }
        ensures { let m = O.machine object.now in let s = self.old in
            let happened = either is_weak (weakly m s party seat) (steps m s party seat) in
            record { outcome = result; next = self.new } ≡ happened }
    {
        let Seat::Calling(call, local, holds) = seat else {
            return Outcome::Skipped;
        };
        let next = if is_weak {
            match object.refuse(call, local, holds) {
                None => return Outcome::Skipped,
                Some(next) => next,
            }
        } else {
            let made = object.step(self.words, self.value, call, local, holds);
            self.words = made.words;
            if made.placed.is_some() {
                self.value = made.placed;
            }
            made.next
        };
        self.follow(party, call, holds, next)
    }

    fn follow(
        &mut self,
        party: usize,
        call: O::Call,
        holds: Option<Hold>,
        next: Next<O::Local, O::Answer>,
    ) -> Outcome<O::Answer, O::Value>
        requires { party < length self.old.seats }
        ensures { record { outcome = result; next = self.new } ≡ goes_on self.old party call holds next }
    {
        match next {
            Next::Continue(local) => {
                self.sit(party, Seat::Calling(call, local, holds));
                Outcome::GoingOn
            }
            Next::Answers(answer, after) => {
                self.sit(party, seat_of(after));
                Outcome::Answered {
                    answer,
                    began: None,
                }
            }
        }
    }

    fn read(&self, seat: Seat<O::Call, O::Local>) -> Outcome<O::Answer, O::Value>
        ensures { record { outcome = result; next = self.now } ≡ reads self.now seat }
    {
        match seat {
            Seat::Holding(hold) | Seat::Leaked(hold) if reads_value(hold) => {
                Outcome::Value(self.value)
            }
            _ => Outcome::Skipped,
        }
    }

    fn write(
        &mut self,
        value: O::Value,
        seat: Seat<O::Call, O::Local>,
    ) -> Outcome<O::Answer, O::Value>
        ensures { record { outcome = result; next = self.new } ≡ writes self.old value seat }
    {
        match seat {
            Seat::Holding(hold) | Seat::Leaked(hold) if writes_value(hold) => {
                self.value = Some(value);
                Outcome::Written
            }
            _ => Outcome::Skipped,
        }
    }

    fn leak(&mut self, party: usize, seat: Seat<O::Call, O::Local>) -> Outcome<O::Answer, O::Value>
        requires { party < length self.old.seats }
        ensures { record { outcome = result; next = self.new } ≡ leaks self.old party seat }
    {
        let Seat::Holding(hold) = seat else {
            return Outcome::Skipped;
        };
        self.sit(party, Seat::Leaked(hold));
        Outcome::Leaked
    }

    fn is_owners(&self, object: &O) -> bool
        ensures { result ≡ is_owners (O.machine object.now) self.now }
    {
        object.is_owned() && self.sharing == 0
    }

    /// Turns every leaked party into a gone one.
    fn let_go(&mut self)
        ensures { self.new ≡ let_go self.old }
    {
        if self.leaked > 0 {
            let_go_all(&mut self.seats);
            self.leaked = 0;
        }
    }

    fn owner_get(&mut self, object: &O) -> Outcome<O::Answer, O::Value>
        ensures { record { outcome = result; next = self.new } ≡ owner_gets self.old (is_owners (O.machine object.now) self.old) }
    {
        if !self.is_owners(object) {
            return Outcome::Skipped;
        }
        self.let_go();
        Outcome::Value(self.value)
    }

    fn owner_set(&mut self, object: &O, to: O::Value) -> Outcome<O::Answer, O::Value>
        ensures { record { outcome = result; next = self.new } ≡ owner_sets self.old to (is_owners (O.machine object.now) self.old) }
    {
        if !self.is_owners(object) {
            return Outcome::Skipped;
        }
        self.owner_writes(to)
    }

    /// Turns every leaked party into a gone one, and replaces the value if there is one.
    fn owner_writes(&mut self, to: O::Value) -> Outcome<O::Answer, O::Value>
        ensures { record { outcome = result; next = self.new } ≡ owner_writes self.old to self.old.value }
    {
        self.let_go();
        if self.value.is_none() {
            return Outcome::Value(None);
        }
        self.value = Some(to);
        Outcome::Written
    }
}
