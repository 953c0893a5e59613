//! A spinning lock of `N` seats: a counting semaphore. Begin with [`Seats::new`] and [`Seats::enter`].
ghost use Rattle.std.specs.Prelude.{◌≡◌, ◌≤◌, Some, None, IfSome, IfOk, IfErr};
ghost use Rattle.spin_core.specs.Logs.{OneIsPrefix};
ghost use Rattle.spin_step.specs.declared.answer.Answer.TheVariants.{Granted, Refused, Count as Counted, Done as Left};
ghost use Rattle.spin_step.specs.declared.place.Hold.TheVariants.{Read};
ghost use Rattle.spin_session.specs.Turns.{Stands, history, lock_of, spot_of};
ghost use Rattle.spin_seats.specs.Passes.{Calls, Ends, OpensWith, Recalls, SeatsSpot, new_in, opening, Learns};
ghost use Rattle.spin_seats.specs.Seats.{seats};
ghost use Rattle.spin_seats.specs.declared.calls.SeatsCall.TheVariants.{TryEnter, TryEnterWeak, Enter, Count, Leave};

use crate::calls::SeatsCall;
pub use crate::rule::{Entry, History};
use crate::rule::{Party, SeatsRule};
use spin_core::cell::Cell;
use spin_core::lock::Acquire;
use spin_core::relax::{Spin, Strategy};
use spin_core::tie::Opening;
use spin_core::trace::{Knows, Trace, Watch};
use spin_session::calls::{SessionOf, after, ask, enter, finish};
use spin_session_more::calls::{attempt, make, try_for, wait_for};
use spin_step::{Answer, Hold};
use std::fmt;
use std::fmt::{Debug, Formatter};
use std::marker::Model;
use std::sync::Wait;

/// A lock of `N` seats, or of [`MAX_SEATS`](crate::steps::MAX_SEATS) if `N` exceeds that. Each guard takes one seat,
/// so no more threads have a guard at the same time than there are seats.
///
/// Waiting threads may overtake each other.
///
/// # Examples
/// ```
/// use spin_seats::seats::Seats;
///
/// let seats: Seats<2> = Seats::new();
/// let first = seats.enter(&rt);
/// let second = seats.try_enter(&rt).expect(&rt, "one is free");
/// assert!(rt; seats.try_enter(&rt).is_none());
/// drop(first);
/// assert_eq!(rt; seats.count(), 1);
/// drop(second);
/// ```
#[derive(Drop)]
pub struct Seats<const N: usize> {
    cell: Cell<(), Party, SeatsRule<N>>,
}

/// The guard of a seat of a [`Seats`]. Dropping it frees the seat.
#[must_use = "dropping the guard at once gives the seat back: bind it, or write `drop(..)`"]
pub struct SeatGuard<'a, const N: usize> {
    session: SessionOf<'a, (), SeatsRule<N>>,
}

impl<'a, const N: usize> Model for SeatGuard<'a, N> {
    ghost Value = { SeatsSpot };

    ghost view = { λ guard. spot_of guard.session };

    ghost invariant = { λ guard. Stands (Some Read) guard.session };
}

/// A thread's account of its calls of a [`Seats`].
///
/// The lock's cell keeps the list of all moves that threads have made in it: its history. A pass knows the
/// history up to its own last move, and which moves are its own. A pass is as large as a reference to the
/// lock, and is `Send`. A lock can have any number of passes.
///
/// # Contract
/// Each call takes the pass, and ensures `Calls`: the history has grown, and among the new moves those of
/// this pass are exactly one call with the returned answer. The lock's model plays the moves of all threads in the
/// order of the history. It skips no move, and gives this call the same answer.
///
/// # Examples
/// ```
/// use spin_seats::seats::Seats;
///
/// let seats: Seats<1> = Seats::new();
/// let guard = seats.pass().enter(&rt);
/// let other = seats.pass().try_enter(&rt).err().expect(&rt, "it is taken");
/// let (count, pass) = guard.leave().count();
/// assert_eq!(rt; count, 0);
/// assert!(rt; other.try_enter(&rt).is_ok());
/// drop(pass);
/// ```
#[must_use = "a pass that is dropped ends: bind it, or write `drop(..)`"]
pub struct Pass<'a, const N: usize> {
    session: SessionOf<'a, (), SeatsRule<N>>,
}

impl<'a, const N: usize> Model for Pass<'a, N> {
    ghost Value = { SeatsSpot };

    ghost view = { λ pass. spot_of pass.session };

    ghost invariant = { λ pass. Stands None pass.session };
}

impl<const N: usize> Seats<N> {
    /// Creates a lock whose seats are all free.
    ///
    /// # Contract
    /// The lock's word opens with 0 (`opens`). The call returns.
    pub const fn new() -> Self
        ensures opens { OpensWith tt (opening result) }
    {
        let trace = Trace::new(());
        let opening = Opening::of(&trace, &());
        let cell = Cell::new((), 0, trace, &opening);
        opening.end();
        Seats { cell }
    }

    /// Returns a pass that has made no call. It does not touch the lock's word.
    ///
    /// # Contract
    /// The pass is of this lock, and knows nothing of the lock's history yet (`new`).
    pub fn pass(&self) -> Pass<'_, N>
        ensures new { result ≡ new_in (opening self.now) }
    {
        Pass {
            session: enter(&self.cell),
        }
    }

    /// Consumes the lock, and returns its whole history.
    ///
    /// # Contract
    /// The history is a schedule of the lock's model (`Ends`). It begins with what a pass knew
    /// ([`covers`](spin_core::trace::Trace::covers)). The call returns.
    ///
    /// # Examples
    /// ```
    /// use spin_seats::seats::Seats;
    ///
    /// let seats: Seats<1> = Seats::new();
    /// let (taken, pass) = seats.pass().count();
    /// assert_eq!(rt; taken, 0);
    /// let known = pass.seen();
    /// drop(pass);
    /// seats.into_history().covers(&known);
    /// ```
    pub fn into_history(self) -> History
        ensures { Ends N (opening self.entry) result }
    {
        self.cell.into_parts().2
    }

    /// Returns how many seats were taken at some moment during this call. By the time the caller reads the answer it
    /// may be out of date.
    ///
    /// # Contract
    /// The answer is at most `N`, and at most [`MAX_SEATS`](crate::steps::MAX_SEATS).
    pub fn count(&self) -> usize
        ensures { result ≤ seats N }
    {
        self.pass().count().0
    }

    /// Tries to take a seat. Returns `None` if all seats are taken.
    ///
    /// It retries as long as other threads change the word and a seat is free.
    ///
    /// # Contract
    /// The guard's party has made one call `TryEnter`, its first, with the answer `Granted`. Whether and when the call
    /// returns is not promised.
    #[must_use = "dropping the guard at once gives the seat back: bind the answer, or write `drop(..)`"]
    pub fn try_enter<W: Wait>(&self, rt: &W) -> Option<SeatGuard<'_, N>>
        ensures { IfSome result (Calls N TryEnter Granted (new_in (opening self.now))) }
    {
        match self.pass().try_enter(rt) {
            Ok(guard) => Some(guard),
            Err(_pass) => None,
        }
    }

    /// Tries once to take a seat, by one load and at most one exchange. Returns `None` if all seats are taken, or if
    /// another thread takes or frees a seat between the two.
    ///
    /// It takes no right to wait, so code without one can call it, such as a `fmt` of `Debug`.
    ///
    /// # Contract
    /// The guard's party has made one call `TryEnterWeak`, its first, with the answer `Granted`. The call returns.
    ///
    /// # Examples
    /// ```
    /// use spin_seats::seats::Seats;
    ///
    /// let seats: Seats<1> = Seats::new();
    /// let guard = seats.try_enter_weak().expect(&rt, "one is free");
    /// assert!(rt; seats.try_enter_weak().is_none());
    /// drop(guard);
    /// ```
    #[must_use = "dropping the guard at once gives the seat back: bind the answer, or write `drop(..)`"]
    pub fn try_enter_weak(&self) -> Option<SeatGuard<'_, N>>
        ensures { IfSome result (Calls N TryEnterWeak Granted (new_in (opening self.now))) }
    {
        match self.pass().try_enter_weak() {
            Ok(guard) => Some(guard),
            Err(_pass) => None,
        }
    }

    /// Takes a seat, spinning until one is free. A waiting thread backs off: it pauses before each attempt,
    /// each time longer, up to a limit.
    ///
    /// # Contract
    /// The guard's party has made one call `Enter`, its first, with the answer `Granted`. Whether and when the call
    /// returns is not promised.
    pub fn enter<W: Wait>(&self, rt: &W) -> SeatGuard<'_, N>
        ensures { Calls N Enter Granted (new_in (opening self.now)) result }
    {
        self.pass().enter(rt)
    }
}

impl<'a, const N: usize> Pass<'a, N> {
    /// Takes a seat as [`Seats::enter`] does.
    ///
    /// # Contract
    /// The pass has made one call `Enter` with the answer `Granted`, however often it looked and tried.
    /// Whether and when the call returns is not promised.
    #[tactic(auto, using(crate::proofs::Seating::enter_answers))]
    pub fn enter<W: Wait>(self, rt: &W) -> SeatGuard<'a, N>
        ensures { Calls N Enter Granted self.entry result }
    {
        let Self { session } = self;
        let by = Strategy::<Spin>::named();
        let read = Some(Hold::Read);
        SeatGuard {
            session: wait_for(
                session,
                SeatsCall::Enter,
                None,
                Answer::Granted,
                read,
                by,
                rt,
            ),
        }
    }

    /// Tries to take a seat as [`Seats::try_enter`] does. Returns the pass if all seats are taken.
    ///
    /// # Contract
    /// The pass has made one call `TryEnter`. With a guard its answer is `Granted` (`granted`), otherwise
    /// `Refused` (`refused`). Whether and when the call returns is not promised.
    #[tactic(auto, using(crate::proofs::Seating::try_answers))]
    pub fn try_enter<W: Wait>(self, rt: &W) -> Result<SeatGuard<'a, N>, Pass<'a, N>>
        ensures granted { IfOk result (Calls N TryEnter Granted self.entry) }
        ensures refused { IfErr result (Calls N TryEnter Refused self.entry) }
    {
        let Self { session } = self;
        match try_for(session, SeatsCall::TryEnter, None, Some(Hold::Read), rt) {
            Ok(session) => Ok(SeatGuard { session }),
            Err(session) => Err(Pass { session }),
        }
    }

    /// Tries once to take a seat as [`Seats::try_enter_weak`] does. Returns the pass if it has no seat.
    ///
    /// # Contract
    /// The pass has made one call `TryEnterWeak`. With a guard its answer is `Granted` (`granted`), otherwise
    /// `Refused` (`refused`). The call returns.
    #[tactic(auto, using(crate::proofs::Seating::weak_answers))]
    pub fn try_enter_weak(self) -> Result<SeatGuard<'a, N>, Pass<'a, N>>
        ensures granted { IfOk result (Calls N TryEnterWeak Granted self.entry) }
        ensures refused { IfErr result (Calls N TryEnterWeak Refused self.entry) }
    {
        let Self { session } = self;
        let read = Some(Hold::Read);
        match attempt(session, SeatsCall::TryEnterWeak, None, read) {
            Ok(session) => Ok(SeatGuard { session }),
            Err(session) => Err(Pass { session }),
        }
    }

    /// Returns how many seats were taken at some moment during this call, as [`Seats::count`] does.
    ///
    /// # Contract
    /// The pass has made one call `Count`, with the returned answer (`made`).
    pub fn count(self) -> (usize, Pass<'a, N>)
        ensures made { Calls N Count (Counted result.0) self.entry result.1 }
        ensures few { result.0 ≤ seats N }
    {
        let Self { session } = self;
        match ask(session, SeatsCall::Count, None) {
            (Answer::Count(taken), session) => (taken, Pass { session }),
            _ => unreachable!(),
        }
    }

    /// Returns this pass, which then also knows what the other pass knows. It does nothing at run time.
    ///
    /// So the next call of this pass comes after the calls of the other that are known by now.
    ///
    /// # Contract
    /// The history that the returned pass knows is the longer of the two, of which the other is a prefix (`Learns`).
    ///
    /// # Examples
    /// ```
    /// use spin_seats::seats::Seats;
    ///
    /// let seats: Seats<1> = Seats::new();
    /// let earlier = seats.enter(&rt).leave();
    /// let (count, pass) = seats.pass().after(&earlier).count();
    /// assert_eq!(rt; count, 0);
    /// drop(pass);
    /// drop(earlier);
    /// ```
    pub fn after<K: Knows<Entry>>(self, earlier: &K) -> Pass<'a, N>
        requires { lock_of self ≡ K.of earlier.now }
        ensures { Learns (K.entries earlier.now) self.entry result }
    {
        let Self { session } = self;
        Pass {
            session: after(session, &earlier.known()),
        }
    }

    /// Returns what this pass knows of the lock's history. It outlives the lock's borrow.
    ///
    /// # Contract
    /// It is what the pass knows (`Recalls`).
    pub fn seen(&self) -> Watch<Entry>
        ensures { Recalls self.now result }
    {
        self.session.seen.copy()
    }

    /// Compares what two passes of one lock know. It does nothing at run time.
    ///
    /// # Contract
    /// The history that one of the passes knows is a prefix of the history that the other knows.
    pub fn compare(&self, other: &Pass<'_, N>)
        requires { lock_of self.now ≡ lock_of other.now }
        ensures { OneIsPrefix (history self.now) (history other.now) }
    {
        self.session.seen.compare(&other.session.seen);
    }
}

impl<'a, const N: usize> SeatGuard<'a, N> {
    /// Frees the seat, and returns the pass that took it. Dropping the guard frees the seat too, but ends the
    /// pass.
    ///
    /// # Contract
    /// The pass has made one call `Leave`.
    pub fn leave(self) -> Pass<'a, N>
        ensures { Calls N Leave Left self.entry result }
    {
        let Self { session } = self;
        let read = Some(Hold::Read);
        Pass {
            session: make(session, SeatsCall::Leave, read, Answer::Done, None),
        }
    }
}

/// Creates a lock whose seats are all free.
impl<const N: usize> Default for Seats<N> {
    ghost is_default = { λ lock. OpensWith tt (opening lock) };

    fn default() -> Self {
        Self::new()
    }
}

impl<const N: usize> Drop for SeatGuard<'_, N> {
    fn drop(self) {
        drop(self.leave());
    }
}

impl<const N: usize> Knows<Entry> for Pass<'_, N> {
    ghost of = { λ pass. lock_of pass };

    ghost entries = { λ pass. history pass };

    fn known(&self) -> Watch<Entry> {
        self.session.seen.copy()
    }
}

impl<const N: usize> Drop for Pass<'_, N> {
    fn drop(self) {
        let Self { session } = self;
        let _left = finish(session);
    }
}

impl<'a, const N: usize> Acquire<'a> for Seats<N> {
    type Guard = SeatGuard<'a, N>;

    type Relax = Spin;

    ghost grants = { λ lock guard. Calls N Enter Granted (new_in (opening lock)) guard };

    ghost tries = { λ lock guard. Calls N TryEnterWeak Granted (new_in (opening lock)) guard };

    fn acquire<W: Wait>(&'a self, rt: &W) -> SeatGuard<'a, N> {
        self.enter(rt)
    }

    fn try_acquire(&'a self) -> Option<SeatGuard<'a, N>> {
        self.try_enter_weak()
    }
}

/// Prints `Seats { .. }`.
impl<const N: usize> Debug for Seats<N> {
    fn fmt<W: fmt::Write>(&self, f: &mut Formatter<W>) -> fmt::Result {
        f.debug_struct("Seats").finish_non_exhaustive()
    }
}

/// Prints `SeatGuard { .. }`.
impl<const N: usize> Debug for SeatGuard<'_, N> {
    fn fmt<W: fmt::Write>(&self, f: &mut Formatter<W>) -> fmt::Result {
        f.debug_struct("SeatGuard").finish_non_exhaustive()
    }
}

/// Prints `Pass { .. }`.
impl<const N: usize> Debug for Pass<'_, N> {
    fn fmt<W: fmt::Write>(&self, f: &mut Formatter<W>) -> fmt::Result {
        f.debug_struct("Pass").finish_non_exhaustive()
    }
}
