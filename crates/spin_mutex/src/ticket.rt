//! A spinning mutex that serves the threads in the order of their tickets. Begin at [`TicketMutex::lock`].
ghost use Rattle.std.specs.Prelude.{Option, IfErr, IfOk, IfSome};
ghost use Rattle.std.specs.Fmt.{DisplaysOnOk};
ghost use Rattle.spin_core.specs.Texts.{lock_text};
ghost use types.Logic.{sem};
ghost use Rattle.spin_step.specs.declared.answer.Answer.TheVariants.{Is};
ghost use Rattle.spin_mutex.specs.TicketPasses.{Ends, Grants, IsLocked, Lock, OneCall, OpensAt, OpensWith, Settles, TryLock, known, new_in, opening};

use spin_core::cell::{Cell, WritePermit};
use spin_core::guard::{self, Guard};
use spin_core::lock::{Acquire, Lock, with_guard};
use spin_core::relax::{RelaxStrategy, Spin, Strategy};
use spin_core::texts::write_lock;
use spin_core::tie::Opening;
use spin_core::trace::{Trace, Watch};
use spin_session::calls::{acquire, enter};
use spin_step::TicketCall;
use std::fmt::{self, Debug, Formatter};
use std::sync::Wait;

mod pass;
mod rule;

pub use self::pass::Pass;
pub use self::rule::{Entry, History, Party, TicketRule};
pub use spin_core::laws::{a_guard_reads_the_last_value_written, two_guards_read_one_value};

/// A mutual exclusion lock that serves its threads in the order of their tickets, and on which a waiting thread spins.
///
/// Each call of [`lock`](Self::lock) takes a ticket with the next number, and enters when that number is served. With
/// more threads than processors the next one may have none, and the others wait for it too: a `SpinMutex` is many times as
/// fast then. A waiting thread relaxes with strategy `R`.
///
/// # Contract
/// While a guard or a hold of the lock lives, no other call acquires it. Threads enter in the order of their tickets
/// (`the_parties_of_a_ticket_mutex_enter_in_turn`). A guard gives a value of `T`, with all that the invariant of `T`
/// says. When the guard is acquired this is the value written last in the lock's history. Without a
/// [`pass`](Self::pass) a refusal promises nothing.
///
/// # Examples
/// ```
/// use spin::mutex::TicketMutex;
/// use std::thread;
///
/// let last: TicketMutex<u64> = TicketMutex::new(0);
/// thread::join(&rt, || *last.lock(&rt) = 1, || *last.lock(&rt) = 2);
/// assert!(rt; [1, 2].contains(&last.into_inner()));
/// ```
#[derive(Drop)]
pub struct TicketMutex<T, R = Spin> {
    cell: Cell<T, Party, TicketRule>,
    strategy: Strategy<R>,
}

/// The guard of a [`TicketMutex`]. Dropping it releases the lock, and serves the next ticket.
///
/// # Contract
/// `guard_value` is the lock's value. What is written through the guard is read through it.
pub type TicketMutexGuard<'a, T, R = Spin> = Guard<
    WritePermit<'a, T, Party, TicketRule>,
    Entry<T>,
    R,
>;

/// A hold on a [`TicketMutex`]: it keeps the lock without a guard, and gives no access to the value.
///
/// [`TicketMutex::force_unlock`] takes it and releases the lock. Dropping it does not release the lock.
///
/// # Contract
/// `held_value` is the value that the guard had.
pub type Held<'a, T, R = Spin> = guard::Held<'a, T, Party, Entry<T>, TicketRule, R>;

impl<T, R> TicketMutex<T, R> {
    /// Creates an unlocked mutex that holds `value`.
    ///
    /// # Contract
    /// The lock's history begins with this value, and its first ticket is 0 (`opens`). The call returns.
    pub const fn new(value: T) -> Self
        ensures opens { OpensWith value (opening result) }
    {
        Self::starting_at(value, 0)
    }

    // Creates an unlocked mutex whose first ticket has the number `first`.
    pub(crate) const fn starting_at(value: T, first: u64) -> Self
        ensures opens { OpensAt value first (opening result) }
    {
        let trace = Trace::new(first);
        let opening = Opening::starting_at(&trace, &value, &first);
        let cell = Cell::new(value, first, trace, &opening);
        opening.end();
        TicketMutex {
            cell,
            strategy: Strategy::named(),
        }
    }

    /// Consumes the mutex and returns the value with the lock's whole history.
    ///
    /// # Contract
    /// The history is a schedule of the lock's model. Unless a party still writes the value at its end (a guard was
    /// leaked, or a hold dropped), the value is the one written last (`Ends`). The history begins with what a pass knew
    /// ([`covers`](spin_core::trace::Trace::covers)). The call returns.
    pub fn into_history(self) -> (T, History<T>)
        ensures { Ends (opening self) result }
    {
        let (_, value, history) = self.cell.into_parts();
        (value, history)
    }

    /// Consumes the mutex and returns the value with the lock's whole history, in `Ok` if no ticket is out any more:
    /// no guard was leaked, and no hold dropped.
    ///
    /// # Contract
    /// The history is a schedule of the lock's model. In `Ok` the value is the one written last (`settled`). The call
    /// returns.
    ///
    /// # Examples
    /// ```
    /// use spin::mutex::{TicketMutex, TicketMutexGuard};
    ///
    /// let lock: TicketMutex<u64> = TicketMutex::new(4);
    /// *lock.lock(&rt) = 5;
    /// assert_eq!(rt; lock.try_into_history().ok().expect(&rt, "it is free").0, 5);
    /// let other: TicketMutex<u64> = TicketMutex::new(4);
    /// *TicketMutexGuard::leak(other.lock(&rt)) = 6;
    /// assert!(rt; other.try_into_history().is_err());
    /// ```
    pub fn try_into_history(self) -> Result<(T, History<T>), (T, History<T>)>
        ensures settled { IfOk result (Settles (opening self)) }
        ensures held { IfErr result (Ends (opening self)) }
    {
        let (next, value, history) = self.cell.into_parts();
        let (serving, history) = history.told();
        if next == serving {
            Ok((value, history))
        } else {
            Err((value, history))
        }
    }

    /// Consumes the mutex and returns the value.
    ///
    /// It takes no ticket, since no other thread has the mutex. So it also returns the value if a guard was leaked,
    /// or a hold dropped.
    ///
    /// # Contract
    /// Only that the call returns.
    pub fn into_inner(self) -> T {
        self.cell.into_inner()
    }

    /// Acquires the mutex, spinning until every thread with an earlier ticket has released it.
    ///
    /// The call takes a ticket, and waits with strategy `R` until the number of its ticket is served. With [`Spin`] the
    /// call looks less often the more tickets are before its own. The call never returns if its own thread holds the
    /// lock, or if it finds all 2^64 - 1 tickets used up.
    ///
    /// # Contract
    /// The guard is granted by one `Lock`, and its value is the one written last in the lock's history (`Grants`).
    /// Whether and when the call returns is not promised.
    pub fn lock<W: Wait>(&self, rt: &W) -> TicketMutexGuard<'_, T, R>
    where
        R: RelaxStrategy,
        ensures { Grants Lock (new_in (opening self.now)) result }
    {
        acquire(enter(&self.cell), TicketCall::Lock, None, rt)
    }

    /// Tries to acquire the mutex. Returns `None` at once if a thread holds it or waits for it, or if the tickets are
    /// used up.
    ///
    /// It makes at most two loads and one compare-exchange.
    ///
    /// # Contract
    /// The guard in `Some` is granted by one `TryLock` (`Grants`). `None` promises nothing. The call returns.
    #[must_use = "dropping the guard at once releases the lock: bind the answer, or write `drop(..)`"]
    pub fn try_lock<'a>(&'a self) -> Option<TicketMutexGuard<'a, T, R>>
        ensures { IfSome result (Grants TryLock (new_in (opening self.now))) }
    {
        match self.pass().try_lock() {
            Ok(guard) => Some(guard),
            Err(_) => None,
        }
    }

    /// Returns `true` if it finds that a thread holds the lock or waits for it, else `false`.
    ///
    /// It makes two loads. By the time the caller reads the answer it may be out of date.
    ///
    /// # Contract
    /// A new party has made exactly one `IsLocked`, with this answer (`did`). The call returns.
    ///
    /// # Examples
    /// ```
    /// use spin::mutex::TicketMutex;
    ///
    /// let lock: TicketMutex<u64> = TicketMutex::new(4);
    /// let guard = lock.lock(&rt);
    /// assert!(rt; lock.is_locked());
    /// drop(guard);
    /// assert!(rt; !lock.is_locked());
    /// ```
    pub fn is_locked(&self) -> bool
        ensures* did { sem 𝓛 (known T.row (OneCall IsLocked (Is result) (opening self.now))) }
    {
        let (is_locked, seen) = self.look();
        forget(seen);
        is_locked
    }

    // Makes the call of `is_locked`, and also returns what its party then knew.
    pub(crate) fn look(&self) -> (bool, Watch<Entry<T>>)
        ensures { OneCall IsLocked (Is result.0) (opening self.now) result.1 }
    {
        let (is_locked, pass) = self.pass().is_locked();
        (is_locked, pass.into_seen())
    }

    /// Releases the lock that this `Held` holds, and serves the next ticket.
    ///
    /// The call consumes the hold, so no lock is released twice.
    ///
    /// # Contract
    /// Only that the call returns.
    pub fn force_unlock(held: Held<'_, T, R>) {
        held.release();
    }

    /// Returns a mutable reference to the value.
    ///
    /// It takes no ticket, since no other thread has the mutex.
    ///
    /// # Contract
    /// Only that the call returns.
    pub fn get_mut(&mut self) -> &mut T {
        self.cell.get_mut()
    }
}

/// Tries once to acquire the lock, and holds it while it prints the value. If the try fails it prints `<locked>`.
impl<T: Debug, R> Debug for TicketMutex<T, R> {
    fn fmt<W: fmt::Write>(&self, f: &mut Formatter<W>) -> fmt::Result
        ensures { (found : Option T) × DisplaysOnOk W.write_str_gives f.old result (lock_text T.debug_output found) f.new }
    {
        write_lock(self.try_lock().as_ref().map(|guard| &**guard), f)
    }
}

// Ends a watch.
pub(crate) fn forget<T>(seen: Watch<Entry<T>>) {
    seen.end();
}

/// Creates an unlocked mutex that holds the default value.
impl<T: Default, R> Default for TicketMutex<T, R> {
    ghost is_default = { λ lock. (value : T) × T.is_default value × OpensWith value (opening lock) };

    fn default() -> Self {
        Self::new(T::default())
    }
}

/// Creates an unlocked mutex that holds the value.
impl<T, R> From<T> for TicketMutex<T, R> {
    ghost from_gives = { λ value lock. OpensWith value (opening lock) };

    fn from(value: T) -> Self {
        Self::new(value)
    }
}

impl<'a, T: 'a, R: RelaxStrategy + 'a> Acquire<'a> for TicketMutex<T, R> {
    type Guard = TicketMutexGuard<'a, T, R>;

    type Relax = R;

    ghost grants = { λ lock guard. Grants Lock (new_in (opening lock)) guard };

    ghost tries = { λ lock guard. Grants TryLock (new_in (opening lock)) guard };

    fn acquire<W: Wait>(&'a self, rt: &W) -> TicketMutexGuard<'a, T, R> {
        let session = enter(&self.cell);
        acquire(session, TicketCall::Lock, None, rt)
    }

    fn try_acquire(&'a self) -> Option<TicketMutexGuard<'a, T, R>> {
        self.try_lock()
    }
}

impl<T, R: RelaxStrategy> Lock<T> for TicketMutex<T, R> {
    fn with<A, F: FnOnce(&mut T) -> A, W: Wait>(&self, rt: &W, by: F) -> A {
        by(&mut *self.lock(rt))
    }

    fn try_with<A, F: FnOnce(&mut T) -> A>(&self, by: F) -> Result<A, F> {
        with_guard(self.try_lock(), by)
    }
}
