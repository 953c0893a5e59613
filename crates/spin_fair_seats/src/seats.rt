//! A spinning lock of `N` seats, whose callers sit in the order in which they came. Begin with [`FairSeats::new`] and
//! [`FairSeats::enter`].
ghost use Rattle.std.specs.Prelude.{◌≡◌, ◌≤◌, Some, None, IfSome, IfOk, IfErr};
ghost use Rattle.spin_core.specs.Logs.{OneIsPrefix};
ghost use Rattle.spin_step.specs.declared.answer.Answer.TheVariants.{Granted, Refused, Count as Counted, Done as Left};
ghost use Rattle.spin_step.specs.declared.place.Hold.TheVariants.{Read};
ghost use Rattle.spin_session.specs.Turns.{Stands, history, lock_of, spot_of};
ghost use Rattle.spin_fair_seats.specs.Passes.{Calls, Ends, FairSeatsSpot, Learns, OpensWith, Recalls, new_in, opening};
ghost use Rattle.spin_fair_seats.specs.FairSeats.{seats};
ghost use Rattle.spin_fair_seats.specs.declared.calls.FairSeatsCall.TheVariants.{TryEnter, Enter, Count, Leave};

use crate::calls::FairSeatsCall;
pub use crate::rule::{Entry, History};
use crate::rule::{FairSeatsRule, Party};
use spin_core::cell::Cell;
use spin_core::relax::{RelaxStrategy, Spin, Strategy};
use spin_core::tie::Opening;
use spin_core::trace::{Knows, Trace, Watch};
use spin_session::calls::{SessionOf, after, enter, finish, in_three};
use spin_session_more::calls::{make, try_for, wait_or_refuse};
use spin_step::{Answer, Hold};
use std::marker::{Model, PhantomData};
use std::sync::Wait;

/// A lock of `N` seats, or of [`MAX_SEATS`](crate::steps::MAX_SEATS) if `N` exceeds that. Each guard takes one seat,
/// so no more threads have a guard at the same time than there are seats.
///
/// Each thread takes a ticket, and sits as soon as all before it but `N - 1` have left: so nobody sits before a thread
/// that came earlier may sit too. A waiting thread pauses with strategy `R`, the longer the more are before it.
///
/// # Examples
/// ```
/// use spin_fair_seats::seats::FairSeats;
///
/// let seats: FairSeats<2> = FairSeats::new();
/// let first = seats.enter(&rt);
/// let second = seats.try_enter(&rt).expect(&rt, "one is free");
/// assert!(rt; seats.try_enter(&rt).is_none());
/// drop(first);
/// assert_eq!(rt; seats.count(), 1);
/// drop(second);
/// ```
#[derive(Drop)]
pub struct FairSeats<const N: usize, R = Spin> {
    cell: Cell<(), Party, FairSeatsRule<N>>,
    strategy: Strategy<R>,
}

/// The guard of a seat of a [`FairSeats`]. Dropping it gives the seat back.
#[must_use = "dropping the guard at once gives the seat back: bind it, or write `drop(..)`"]
pub struct FairSeatGuard<'a, const N: usize, R = Spin> {
    session: SessionOf<'a, (), FairSeatsRule<N>>,
    strategy: PhantomData<R>,
}

impl<'a, const N: usize, R> Model for FairSeatGuard<'a, N, R> {
    ghost Value = { FairSeatsSpot };

    ghost view = { λ guard. spot_of guard.session };

    ghost invariant = { λ guard. Stands (Some Read) guard.session };
}

/// A thread's account of its calls of a [`FairSeats`], as the pass of `Seats` in `spin_seats` is.
///
/// # Contract
/// Each call takes the pass, and ensures `Calls`: the lock's history has grown, and among the new moves those of this
/// pass are exactly one call with the returned answer. The lock's model plays the moves of all threads in the order of
/// the history.
///
/// # Examples
/// ```
/// use spin_fair_seats::seats::FairSeats;
///
/// let seats: FairSeats<1> = FairSeats::new();
/// let guard = seats.pass().enter(&rt).ok().expect(&rt, "a ticket is left");
/// let other = seats.pass().try_enter(&rt).err().expect(&rt, "it is taken");
/// let (count, pass) = guard.leave().count();
/// assert_eq!(rt; count, 0);
/// assert!(rt; other.try_enter(&rt).is_ok());
/// drop(pass);
/// ```
#[must_use = "a pass that is dropped ends: bind it, or write `drop(..)`"]
pub struct Pass<'a, const N: usize, R = Spin> {
    session: SessionOf<'a, (), FairSeatsRule<N>>,
    strategy: PhantomData<R>,
}

impl<'a, const N: usize, R> Model for Pass<'a, N, R> {
    ghost Value = { FairSeatsSpot };

    ghost view = { λ pass. spot_of pass.session };

    ghost invariant = { λ pass. Stands None pass.session };
}

impl<const N: usize, R> FairSeats<N, R> {
    /// Creates a lock whose seats are all free.
    ///
    /// # Contract
    /// The lock's words open with 0 (`opens`). The call returns.
    pub const fn new() -> Self
        ensures opens { OpensWith tt (opening result) }
    {
        let trace = Trace::new(0);
        let opening = Opening::of(&trace, &());
        let cell = Cell::new((), 0, trace, &opening);
        opening.end();
        FairSeats {
            cell,
            strategy: Strategy::named(),
        }
    }

    /// Returns a pass that has made no call. It does not touch the lock's words.
    ///
    /// # Contract
    /// The pass is of this lock, and knows nothing of the lock's history yet (`new`).
    pub fn pass(&self) -> Pass<'_, N, R>
        ensures new { result ≡ new_in (opening self.now) }
    {
        Pass {
            session: enter(&self.cell),
            strategy: PhantomData,
        }
    }

    /// Consumes the lock, and returns its whole history.
    ///
    /// # Contract
    /// The history is a schedule of the lock's model (`Ends`). The call returns.
    pub fn into_history(self) -> History
        ensures { Ends N (opening self) result }
    {
        self.cell.into_parts().2
    }

    /// Returns a number of seats: at some moment during this call at least so many were taken, or kept for a thread
    /// whose turn it is. By the time the caller reads the answer it may be out of date.
    ///
    /// # Contract
    /// The answer is at most `N`, and at most [`MAX_SEATS`](crate::steps::MAX_SEATS).
    pub fn count(&self) -> usize
        ensures { result ≤ seats N }
    {
        self.pass().count().0
    }

    /// Tries once to take a seat. Returns `None` if no seat is free, or if another thread takes a ticket meanwhile.
    ///
    /// In the model the call takes at most four steps. It takes a ticket only if a seat is free, and then looks whether it
    /// may sit with this ticket.
    ///
    /// # Contract
    /// The guard's party has made one call `TryEnter`, its first, with the answer `Granted`. Whether and when the call
    /// returns is not promised.
    #[must_use = "dropping the guard at once gives the seat back: bind the answer, or write `drop(..)`"]
    pub fn try_enter<W: Wait>(&self, rt: &W) -> Option<FairSeatGuard<'_, N, R>>
        ensures { IfSome result (Calls N TryEnter Granted (new_in (opening self.now))) }
    {
        match self.pass().try_enter(rt) {
            Ok(guard) => Some(guard),
            Err(_pass) => None,
        }
    }
}

impl<const N: usize, R: RelaxStrategy> FairSeats<N, R> {
    /// Takes a ticket, and waits for its turn. After 2^64 - 1 tickets none is left: then the call spins for ever.
    ///
    /// # Contract
    /// The guard's party has made one call `Enter`, its first, with the answer `Granted`. Whether and when the call
    /// returns is not promised.
    pub fn enter<W: Wait>(&self, rt: &W) -> FairSeatGuard<'_, N, R>
        ensures { Calls N Enter Granted (new_in (opening self.now)) result }
    {
        for _ in rt.forever() {
            if let Ok(guard) = self.pass().enter(rt) {
                return guard;
            }
        }
        unreachable!()
    }
}

impl<'a, const N: usize, R: RelaxStrategy> Pass<'a, N, R> {
    /// Takes a ticket, and waits for its turn. Returns the pass if no ticket is left.
    ///
    /// # Contract
    /// The pass has made one call `Enter`. With a guard its answer is `Granted` (`granted`), otherwise `Refused`
    /// (`refused`). Whether and when the call returns is not promised.
    #[tactic(auto, using(crate::proofs::Seating::enter_answers))]
    pub fn enter<W: Wait>(self, rt: &W) -> Result<FairSeatGuard<'a, N, R>, Pass<'a, N, R>>
        ensures granted { IfOk result (Calls N Enter Granted self.entry) }
        ensures refused { IfErr result (Calls N Enter Refused self.entry) }
    {
        let Self { session, strategy } = self;
        let read = Some(Hold::Read);
        let by = Strategy::<R>::named();
        match wait_or_refuse(session, FairSeatsCall::Enter, None, read, by, rt) {
            Ok(session) => Ok(FairSeatGuard { session, strategy }),
            Err(session) => Err(Pass { session, strategy }),
        }
    }
}

impl<'a, const N: usize, R> Pass<'a, N, R> {
    /// Tries once to take a seat, as [`FairSeats::try_enter`] does. Returns the pass if it has no seat.
    ///
    /// # Contract
    /// The pass has made one call `TryEnter`. With a guard its answer is `Granted` (`granted`), otherwise `Refused`
    /// (`refused`). Whether and when the call returns is not promised.
    #[tactic(auto, using(crate::proofs::Seating::try_answers))]
    pub fn try_enter<W: Wait>(self, rt: &W) -> Result<FairSeatGuard<'a, N, R>, Pass<'a, N, R>>
        ensures granted { IfOk result (Calls N TryEnter Granted self.entry) }
        ensures refused { IfErr result (Calls N TryEnter Refused self.entry) }
    {
        let Self { session, strategy } = self;
        match try_for(session, FairSeatsCall::TryEnter, None, Some(Hold::Read), rt) {
            Ok(session) => Ok(FairSeatGuard { session, strategy }),
            Err(session) => Err(Pass { session, strategy }),
        }
    }

    /// Returns what [`FairSeats::count`] returns.
    ///
    /// # Contract
    /// The pass has made one call `Count` with this answer (`made`). The answer is at most `N`, and at most
    /// [`MAX_SEATS`](crate::steps::MAX_SEATS) (`few`).
    pub fn count(self) -> (usize, Pass<'a, N, R>)
        ensures made { Calls N Count (Counted result.0) self.entry result.1 }
        ensures few { result.0 ≤ seats N }
    {
        let Self { session, strategy } = self;
        let (answer, _, session, _) = in_three(session, FairSeatsCall::Count, None);
        match answer {
            Answer::Count(taken) => (taken, Pass { session, strategy }),
            _ => unreachable!(),
        }
    }

    /// Returns this pass, which then also knows what the other pass knows, or what was [`seen`](Pass::seen).
    ///
    /// # Contract
    /// The pass is of the same party, and has made no call (`Learns`).
    pub fn after<K: Knows<Entry>>(self, earlier: &K) -> Pass<'a, N, R>
        requires { lock_of self ≡ K.of earlier.now }
        ensures { Learns (K.entries earlier.now) self.entry result }
    {
        let Self { session, strategy } = self;
        Pass {
            session: after(session, &earlier.known()),
            strategy,
        }
    }

    /// Returns what this pass knows of the lock's history. It outlives the lock's borrow.
    ///
    /// # Contract
    /// It is what the pass knows (`Recalls`).
    pub fn seen(&self) -> Watch<Entry>
        ensures { Recalls self.now result }
    {
        self.session.seen.copy()
    }

    /// Compares what two passes of one lock know. It does nothing at run time.
    ///
    /// # Contract
    /// The history that one of the passes knows is a prefix of the history that the other knows.
    pub fn compare(&self, other: &Pass<'_, N, R>)
        requires { lock_of self.now ≡ lock_of other.now }
        ensures { OneIsPrefix (history self.now) (history other.now) }
    {
        self.session.seen.compare(&other.session.seen);
    }
}

impl<'a, const N: usize, R> FairSeatGuard<'a, N, R> {
    /// Gives the seat back, and returns the pass that took it. Dropping the guard gives it back too, but ends the pass.
    ///
    /// # Contract
    /// The pass has made one call `Leave`.
    pub fn leave(self) -> Pass<'a, N, R>
        ensures { Calls N Leave Left self.entry result }
    {
        let Self { session, strategy } = self;
        let read = Some(Hold::Read);
        Pass {
            session: make(session, FairSeatsCall::Leave, read, Answer::Done, None),
            strategy,
        }
    }
}

/// Creates a lock whose seats are all free.
impl<const N: usize, R> Default for FairSeats<N, R> {
    ghost is_default = { λ lock. OpensWith tt (opening lock) };

    fn default() -> Self {
        Self::new()
    }
}

impl<const N: usize, R> Drop for FairSeatGuard<'_, N, R> {
    fn drop(self) {
        drop(self.leave());
    }
}

impl<const N: usize, R> Knows<Entry> for Pass<'_, N, R> {
    ghost of = { λ pass. lock_of pass };

    ghost entries = { λ pass. history pass };

    fn known(&self) -> Watch<Entry> {
        self.session.seen.copy()
    }
}

impl<const N: usize, R> Drop for Pass<'_, N, R> {
    fn drop(self) {
        let Self {
            session,
            strategy: _,
        } = self;
        let _left = finish(session);
    }
}
