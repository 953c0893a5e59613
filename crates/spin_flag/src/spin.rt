//! A spinning mutex of one flag: the thread that finds the flag clear sets it. Begin at [`SpinMutex::lock`].
ghost use Rattle.std.specs.Prelude.{Option, IfSome, IfOk, IfErr};
ghost use Rattle.std.specs.Fmt.{DisplaysOnOk};
ghost use Rattle.spin_core.specs.Texts.{lock_text};
ghost use types.Logic.{sem};
ghost use Rattle.spin_step.specs.declared.answer.Answer.TheVariants.{Is};
ghost use Rattle.spin_step.specs.declared.flag_calls.FlagCall.TheVariants.{IsLocked, Lock, TryLock};
ghost use Rattle.spin_flag.specs.Passes.{Ends, Grants, OneCall, OpensWith, Settles, known, new_in, opening};

use spin_core::cell::{Cell, WritePermit};
use spin_core::guard::{self, Guard};
use spin_core::lock::{Acquire, Lock, with_guard};
use spin_core::relax::{RelaxStrategy, Spin, Strategy};
use spin_core::texts::write_lock;
use spin_core::tie::Opening;
use spin_core::trace::{Trace, Watch};
use spin_session::calls::{acquire, enter};
use spin_step::FlagCall;
use std::fmt;
use std::fmt::{Debug, Formatter};
use std::sync::Wait;

mod pass;
mod rule;

pub use self::pass::Pass;
pub use self::rule::{Entry, FlagRule, History, Party};
pub use spin_core::laws::{a_guard_reads_the_last_value_written, two_guards_read_one_value};

/// A mutual exclusion lock with one flag as its state, on which a waiting thread spins.
///
/// Waiting threads may overtake each other. If they have to be served in order of arrival, use `TicketMutex`. A
/// waiting thread relaxes with strategy `R`.
///
/// # Contract
/// While a guard or a hold of the lock lives, no other call acquires it. A guard gives a value of `T`, with all that
/// the invariant of `T` says. When the guard is acquired, this is the value written last in the lock's history. Without
/// a [`pass`](Self::pass) other answers promise nothing.
///
/// # Examples
/// ```
/// use spin::mutex::SpinMutex;
/// use std::thread;
///
/// let last: SpinMutex<u64> = SpinMutex::new(0);
/// thread::join(&rt, || *last.lock(&rt) = 1, || *last.lock(&rt) = 2);
/// assert!(rt; [1, 2].contains(&last.into_inner()));
/// ```
#[derive(Drop)]
pub struct SpinMutex<T, R = Spin> {
    cell: Cell<T, Party, FlagRule>,
    strategy: Strategy<R>,
}

/// The guard of a [`SpinMutex`]. Dropping it releases the lock.
///
/// # Contract
/// `guard_value` is the lock's value. What is written through the guard is read through it.
///
/// # Examples
/// ```
/// use spin::mutex::{SpinMutex, SpinMutexGuard};
///
/// fn push_up(guard: &mut SpinMutexGuard<'_, u64>, least: u64) {
///     if **guard < least {
///         **guard = least;
///     }
/// }
///
/// let lock: SpinMutex<u64> = SpinMutex::new(4);
/// push_up(&mut lock.lock(&rt), 6);
/// push_up(&mut lock.lock(&rt), 5);
/// assert_eq!(rt; lock.into_inner(), 6);
/// ```
pub type SpinMutexGuard<'a, T, R = Spin> = Guard<WritePermit<'a, T, Party, FlagRule>, Entry<T>, R>;

/// A hold on a [`SpinMutex`]: it keeps the lock without a guard, and gives no access to the value.
///
/// [`SpinMutex::force_unlock`] takes it and releases the lock. Dropping it does not release the lock.
///
/// # Contract
/// `held_value` is the value that the guard had.
///
/// # Examples
/// ```
/// use spin::mutex::{SpinMutex, SpinMutexGuard};
///
/// let lock: SpinMutex<u64> = SpinMutex::new(4);
/// let held = SpinMutexGuard::hold(lock.lock(&rt));
/// assert!(rt; lock.is_locked());
/// SpinMutex::force_unlock(held);
/// assert!(rt; !lock.is_locked());
/// ```
pub type Held<'a, T, R = Spin> = guard::Held<'a, T, Party, Entry<T>, FlagRule, R>;

impl<T, R> SpinMutex<T, R> {
    /// Creates an unlocked mutex that holds `value`.
    ///
    /// # Contract
    /// The lock's history begins with this value (`opens`). The call returns.
    pub const fn new(value: T) -> Self
        ensures opens { OpensWith value (opening result) }
    {
        let trace = Trace::new(());
        let opening = Opening::of(&trace, &value);
        let cell = Cell::new(value, 0, trace, &opening);
        opening.end();
        SpinMutex {
            cell,
            strategy: Strategy::named(),
        }
    }

    /// Consumes the mutex and returns the value with the lock's whole history.
    ///
    /// # Contract
    /// The history is a schedule of the lock's model. Unless a party still writes the value at its end (a guard was
    /// leaked, or a hold dropped), the value is the one written last (`Ends`). The history begins with what a pass knew
    /// ([`covers`](spin_core::trace::Trace::covers)). The call returns.
    pub fn into_history(self) -> (T, History<T>)
        ensures { Ends (opening self) result }
    {
        let (_, value, history) = self.cell.into_parts();
        (value, history)
    }

    /// Consumes the mutex and returns the value with the lock's whole history, in `Ok` if nobody holds the lock any
    /// more: no guard was leaked, and no hold dropped.
    ///
    /// # Contract
    /// The history is a schedule of the lock's model. In `Ok` the value is the one written last (`settled`). The call
    /// returns.
    pub fn try_into_history(self) -> Result<(T, History<T>), (T, History<T>)>
        ensures settled { IfOk result (Settles (opening self)) }
        ensures held { IfErr result (Ends (opening self)) }
    {
        let (word, value, history) = self.cell.into_parts();
        if word == 0 {
            Ok((value, history))
        } else {
            Err((value, history))
        }
    }

    /// Consumes the mutex and returns the value.
    ///
    /// It does not look at the flag, since no other thread has the mutex. So it also returns the value if a guard was
    /// leaked, or a hold dropped.
    ///
    /// # Contract
    /// Only that the call returns.
    pub fn into_inner(self) -> T {
        self.cell.into_inner()
    }
}

impl<T, R: RelaxStrategy> SpinMutex<T, R> {
    /// Acquires the mutex, spinning until it is free.
    ///
    /// After a failed attempt the thread backs off: it pauses with strategy `R`, and looks at the flag before it tries
    /// again. With [`Spin`] each pause is twice as long as the last one, up to a limit. The call never returns if its
    /// own thread holds the lock.
    ///
    /// # Contract
    /// The guard is granted by one `Lock`, and its value is the one written last in the lock's history (`Grants`). Whether
    /// and when the call returns is not promised.
    pub fn lock<W: Wait>(&self, rt: &W) -> SpinMutexGuard<'_, T, R>
        ensures { Grants Lock (new_in (opening self.now)) result }
    {
        acquire(enter(&self.cell), FlagCall::Lock, None, rt)
    }
}

impl<T, R> SpinMutex<T, R> {
    /// Tries to acquire the mutex. Returns `None` at once if it is held.
    ///
    /// It makes one compare-exchange.
    ///
    /// # Contract
    /// The guard in `Some` is granted by one `TryLock` (`Grants`). `None` promises nothing. The call returns.
    ///
    /// # Examples
    /// ```
    /// use spin::mutex::SpinMutex;
    ///
    /// let lock: SpinMutex<u64> = SpinMutex::new(4);
    /// let guard = lock.try_lock().expect(&rt, "no thread holds it");
    /// assert!(rt; lock.try_lock().is_none());
    /// assert_eq!(rt; *guard, 4);
    /// ```
    #[must_use = "dropping the guard at once releases the lock: bind the answer, or write `drop(..)`"]
    pub fn try_lock<'a>(&'a self) -> Option<SpinMutexGuard<'a, T, R>>
        ensures { IfSome result (Grants TryLock (new_in (opening self.now))) }
    {
        match self.pass().try_lock() {
            Ok(guard) => Some(guard),
            Err(_) => None,
        }
    }

    /// Like [`try_lock`](Self::try_lock), but may fail spuriously, so call it in a loop. (This implementation never
    /// does.)
    ///
    /// # Contract
    /// Like that of `try_lock`.
    #[must_use = "dropping the guard at once releases the lock: bind the answer, or write `drop(..)`"]
    pub fn try_lock_weak<'a>(&'a self) -> Option<SpinMutexGuard<'a, T, R>>
        ensures { IfSome result (Grants TryLock (new_in (opening self.now))) }
    {
        self.try_lock()
    }

    /// Returns `true` if its one load finds the lock held, else `false`.
    ///
    /// By the time the caller reads the answer it may be out of date.
    ///
    /// # Contract
    /// A new party has made exactly one `IsLocked`, with this answer (`did`). The call returns.
    pub fn is_locked(&self) -> bool
        ensures* did { sem 𝓛 (known T.row (OneCall IsLocked (Is result) (opening self.now))) }
    {
        let (is_locked, seen) = self.look();
        forget(seen);
        is_locked
    }

    // Makes the call of `is_locked`, and also returns what its party then knew.
    fn look(&self) -> (bool, Watch<Entry<T>>)
        ensures { OneCall IsLocked (Is result.0) (opening self.now) result.1 }
    {
        let (is_locked, pass) = self.pass().is_locked();
        (is_locked, pass.into_seen())
    }

    /// Releases the lock that this `Held` holds.
    ///
    /// The call consumes the hold, so no lock is released twice.
    ///
    /// # Contract
    /// Only that the call returns.
    pub fn force_unlock(held: Held<'_, T, R>) {
        held.release();
    }

    /// Returns a mutable reference to the value.
    ///
    /// It does not look at the flag, since no other thread has the mutex.
    ///
    /// # Contract
    /// Only that the call returns.
    pub fn get_mut(&mut self) -> &mut T {
        self.cell.get_mut()
    }
}

// Ends a watch.
fn forget<T>(seen: Watch<Entry<T>>) {
    seen.end();
}

/// Creates an unlocked mutex that holds the default value.
impl<T: Default, R> Default for SpinMutex<T, R> {
    ghost is_default = { λ lock. (value : T) × T.is_default value × OpensWith value (opening lock) };

    fn default() -> Self {
        Self::new(T::default())
    }
}

/// Creates an unlocked mutex that holds the value.
impl<T, R> From<T> for SpinMutex<T, R> {
    ghost from_gives = { λ value lock. OpensWith value (opening lock) };

    fn from(value: T) -> Self {
        Self::new(value)
    }
}

/// Tries once to acquire the lock, and holds it while it prints the value. If the lock is held it prints `<locked>`.
impl<T: Debug, R> Debug for SpinMutex<T, R> {
    fn fmt<W: fmt::Write>(&self, f: &mut Formatter<W>) -> fmt::Result
        ensures { (found : Option T) × DisplaysOnOk W.write_str_gives f.old result (lock_text T.debug_output found) f.new }
    {
        write_lock(self.try_lock().as_ref().map(|guard| &**guard), f)
    }
}

impl<'a, T: 'a, R: RelaxStrategy + 'a> Acquire<'a> for SpinMutex<T, R> {
    type Guard = SpinMutexGuard<'a, T, R>;

    type Relax = R;

    ghost grants = { λ lock guard. Grants Lock (new_in (opening lock)) guard };

    ghost tries = { λ lock guard. Grants TryLock (new_in (opening lock)) guard };

    fn acquire<W: Wait>(&'a self, rt: &W) -> SpinMutexGuard<'a, T, R> {
        let session = enter(&self.cell);
        acquire(session, FlagCall::Lock, None, rt)
    }

    fn try_acquire(&'a self) -> Option<SpinMutexGuard<'a, T, R>> {
        self.try_lock()
    }
}

impl<T, R: RelaxStrategy> Lock<T> for SpinMutex<T, R> {
    fn with<A, F: FnOnce(&mut T) -> A, W: Wait>(&self, rt: &W, by: F) -> A {
        by(&mut *self.lock(rt))
    }

    fn try_with<A, F: FnOnce(&mut T) -> A>(&self, by: F) -> Result<A, F> {
        with_guard(self.try_lock(), by)
    }
}
