//! A spinning mutex in which starvers go before newcomers. Begin at [`FairMutex::lock`] and [`FairMutex::starve`].
ghost use Rattle.std.specs.Prelude.{IfErr, IfSome, IfOk};
ghost use types.Logic.{sem};
ghost use Rattle.spin_step.specs.declared.answer.Answer.TheVariants.{Granted, Is};
ghost use Rattle.spin_step_more.specs.declared.fair_calls.FairCall.TheVariants.{IsLocked, Lock, TryLock, TryLockStarver, Starve};
ghost use Rattle.spin_fair.specs.FairPasses.{Calls, Ends, Grants, OneCall, OpensWith, Settles, known, new_in, opening};

use spin_core::cell::{Cell, WritePermit};
use spin_core::guard::{self, Guard};
use spin_core::lock::{Acquire, Lock, Reserve, with_guard};
use spin_core::relax::{RelaxStrategy, Spin, Strategy};
use spin_core::tie::Opening;
use spin_core::trace::{Trace, Watch};
use spin_session::calls::{acquire, enter};
use spin_step_more::{FairCall, fair};
use std::sync::Wait;

mod pass;
mod rule;
mod starvation;
mod texts;

pub use self::pass::Pass;
pub use self::rule::{Entry, FairRule, History, Party};
pub use self::starvation::Starvation;
pub use spin_core::laws::{a_guard_reads_the_last_value_written, two_guards_read_one_value};
pub use spin_step_more::fair::LockRejectReason;

/// The patience of [`FairMutex::lock`]. After more than this many looks that found the lock held, the next such look
/// makes the call starve.
pub const STARVATION_SPINS: usize = 1024;

/// A spinning mutual exclusion lock in which a thread that has waited for long goes before newcomers.
///
/// A thread that has waited for long becomes a starver. While a starver is registered, only starvers acquire the lock.
/// Starvers may overtake each other. Newcomers may overtake each other too. A waiting thread passes the time with the
/// strategy `R`.
///
/// While a guard or a hold of the lock lives, no other call acquires it. A newcomer that holds the lock acquired it
/// while no starver was registered (`no_newcomer_holds_that_came_behind_a_starver`). A guard gives a value of `T`, with
/// all that the invariant of `T` says, and knows which call of the lock's history granted it (see [`Pass`]).
///
/// # Examples
/// ```
/// use spin::mutex::FairMutex;
/// use std::thread;
///
/// let last: FairMutex<u64> = FairMutex::new(0);
/// thread::join(&rt, || *last.lock(&rt) = 1, || *last.lock(&rt) = 2);
/// assert!(rt; [1, 2].contains(&last.into_inner()));
/// ```
#[derive(Drop)]
pub struct FairMutex<T, R = Spin> {
    cell: Cell<T, Party, FairRule>,
    strategy: Strategy<R>,
}

/// The guard of a [`FairMutex`]. Dropping it releases the lock, and leaves the starvers registered.
///
/// # Contract
/// `guard_value` is the value behind the guard. What is written through the guard is read through it.
pub type FairMutexGuard<'a, T, R = Spin> = Guard<WritePermit<'a, T, Party, FairRule>, Entry<T>, R>;

/// A hold on a [`FairMutex`]: it keeps the lock without a guard, and gives no access to the value.
///
/// [`FairMutex::force_unlock`] takes it and releases the lock. Dropping it does not release the lock.
///
/// # Contract
/// `held_value` is the value that the guard had.
pub type Held<'a, T, R = Spin> = guard::Held<'a, T, Party, Entry<T>, FairRule, R>;

impl<T, R> FairMutex<T, R> {
    /// Creates an unlocked mutex that holds `value` and has no starvers.
    ///
    /// # Contract
    /// The lock's history begins with this value (`opens`). The call returns.
    pub const fn new(value: T) -> Self
        ensures opens { OpensWith value (opening result) }
    {
        let trace = Trace::new(());
        let opening = Opening::of(&trace, &value);
        let cell = Cell::new(value, 0, trace, &opening);
        opening.end();
        FairMutex {
            cell,
            strategy: Strategy::named(),
        }
    }

    /// Consumes the mutex and returns the value with the lock's whole history.
    ///
    /// # Contract
    /// The history is a schedule of the lock's model. Unless a party still writes the value at its end (a guard was
    /// leaked, or a hold dropped), the value is the one written last (`Ends`). The history begins with what a pass knew
    /// ([`covers`](spin_core::trace::Trace::covers)). The call returns.
    pub fn into_history(self) -> (T, History<T>)
        ensures { Ends (opening self) result }
    {
        let (_, value, history) = self.cell.into_parts();
        (value, history)
    }

    /// Consumes the mutex and returns the value with the lock's whole history, in `Ok` if nobody holds the lock any
    /// more: no guard was leaked, and no hold dropped. Forgotten starvers do not matter.
    ///
    /// # Contract
    /// The history is a schedule of the lock's model. In `Ok` the value is the one written last (`settled`). The call
    /// returns.
    ///
    /// # Examples
    /// ```
    /// use spin::mutex::{FairMutex, FairMutexGuard};
    ///
    /// let lock: FairMutex<u64> = FairMutex::new(4);
    /// *lock.lock(&rt) = 5;
    /// assert_eq!(rt; lock.try_into_history().ok().expect(&rt, "it is free").0, 5);
    /// let other: FairMutex<u64> = FairMutex::new(4);
    /// *FairMutexGuard::leak(other.lock(&rt)) = 6;
    /// assert!(rt; other.try_into_history().is_err());
    /// ```
    pub fn try_into_history(self) -> Result<(T, History<T>), (T, History<T>)>
        ensures settled { IfOk result (Settles (opening self)) }
        ensures held { IfErr result (Ends (opening self)) }
    {
        let (word, value, history) = self.cell.into_parts();
        if fair::is_locked(word as usize) {
            Err((value, history))
        } else {
            Ok((value, history))
        }
    }

    /// Consumes the mutex and returns the value.
    ///
    /// It does not look at the word: no other thread has the mutex. Leaked guards and forgotten starvers do not matter.
    ///
    /// # Contract
    /// Only that the call returns.
    pub fn into_inner(self) -> T {
        self.cell.into_inner()
    }
}

impl<T, R: RelaxStrategy> FairMutex<T, R> {
    /// Acquires the mutex, spinning until it is free. A newcomer also waits until no starver is registered.
    ///
    /// After a failed attempt the thread pauses with strategy `R`, and looks at the word before it tries again. After
    /// more than [`STARVATION_SPINS`] looks that found the lock held, the next such look makes the thread starve (see
    /// [`starve`](Self::starve)), unless too many threads starve. The call never returns if its own thread holds the
    /// lock.
    ///
    /// # Contract
    /// The guard is granted by one `Lock`, even if the call starves, and its value is the one written last in the
    /// lock's history (`Grants`). Whether and when the call returns is not promised.
    pub fn lock<W: Wait>(&self, rt: &W) -> FairMutexGuard<'_, T, R>
        ensures { Grants Lock (new_in (opening self.now)) result }
    {
        acquire(enter(&self.cell), FairCall::Lock, None, rt)
    }
}

impl<T, R> FairMutex<T, R> {
    /// Tries to acquire the mutex. Returns `None` at once if it is held, or if a starver is registered.
    ///
    /// It makes one compare-exchange.
    ///
    /// # Contract
    /// The guard in `Some` is granted by one `TryLock` (`Grants`): its party has made no other call in the lock's
    /// history, so it found no starver registered. `None` promises nothing. The call returns.
    #[must_use = "dropping the guard at once releases the lock: bind the answer, or write `drop(..)`"]
    pub fn try_lock<'a>(&'a self) -> Option<FairMutexGuard<'a, T, R>>
        ensures { IfSome result (Grants TryLock (new_in (opening self.now))) }
    {
        match self.pass().try_lock() {
            Ok(guard) => Some(guard),
            Err(_) => None,
        }
    }

    /// Like [`try_lock`](Self::try_lock), but returns the reason for a failure.
    ///
    /// # Contract
    /// `Ok` promises what `Some` of `try_lock` promises, with `TryLockStarver`. `Err` promises nothing. The call
    /// returns.
    ///
    /// # Examples
    /// ```
    /// use spin::mutex::FairMutex;
    /// use spin::mutex::fair::LockRejectReason;
    ///
    /// let lock: FairMutex<u64> = FairMutex::new(4);
    /// let guard = lock.lock(&rt);
    /// let reason = lock.try_lock_starver().err();
    /// assert_eq!(rt; reason, Some(LockRejectReason::Locked));
    /// drop(guard);
    /// assert!(rt; lock.try_lock_starver().is_ok());
    /// ```
    pub fn try_lock_starver<'a>(&'a self) -> Result<FairMutexGuard<'a, T, R>, LockRejectReason>
        ensures { IfOk result (Grants TryLockStarver (new_in (opening self.now))) }
    {
        match self.pass().try_lock_starver() {
            Ok(guard) => Ok(guard),
            Err((reason, _)) => Err(reason),
        }
    }

    /// Registers the caller as a starver. Returns `None` if [`fair::MAX_STARVERS`] are registered.
    ///
    /// From then on no newcomer acquires the lock, until the starver has the lock or is dropped. The first
    /// compare-exchange expects the word to be 0. If it fails, and the word found has room for a starver, a second one
    /// expects that word. More follow only while other threads change the word.
    ///
    /// # Contract
    /// The `Starvation` in `Some` is registered by one `Starve` (`Calls`). `None` promises nothing. Whether and when
    /// the call returns is not promised.
    ///
    /// # Examples
    /// ```
    /// use spin::mutex::FairMutex;
    ///
    /// let lock: FairMutex<u64> = FairMutex::new(4);
    /// let starver = lock.starve(&rt).expect(&rt, "few threads starve");
    /// assert!(rt; lock.try_lock().is_none());
    /// let guard = starver.lock(&rt);
    /// assert_eq!(rt; *guard, 4);
    /// ```
    #[must_use = "if the place is dropped at once, the thread starves no longer: bind the answer"]
    pub fn starve<W: Wait>(&self, rt: &W) -> Option<Starvation<'_, T, R>>
        ensures { IfSome result (Calls Starve Granted (new_in (opening self.now))) }
    {
        match self.pass().starve(rt) {
            Ok(starver) => Some(starver),
            Err(_) => None,
        }
    }

    /// Returns `true` if its one load finds the lock held, else `false`.
    ///
    /// By the time the caller reads the answer it may be out of date.
    ///
    /// # Contract
    /// A new party has made exactly one `IsLocked`, with this answer (`did`). The call returns.
    pub fn is_locked(&self) -> bool
        ensures* did { sem 𝓛 (known T.row (OneCall IsLocked (Is result) (opening self.now))) }
    {
        let (is_locked, seen) = self.look();
        forget(seen);
        is_locked
    }

    // Makes the call of `is_locked`, and also returns what its party then knew.
    fn look(&self) -> (bool, Watch<Entry<T>>)
        ensures { OneCall IsLocked (Is result.0) (opening self.now) result.1 }
    {
        let (is_locked, pass) = self.pass().is_locked();
        (is_locked, pass.into_seen())
    }

    /// Releases the lock that this `Held` holds.
    ///
    /// The call consumes the hold, so no lock is released twice. Starvers stay registered.
    ///
    /// # Contract
    /// Only that the call returns.
    pub fn force_unlock(held: Held<'_, T, R>) {
        held.release();
    }

    /// Returns a mutable reference to the value.
    ///
    /// It neither looks at the word nor acquires the lock: no other thread has the mutex.
    ///
    /// # Contract
    /// Only that the call returns.
    pub fn get_mut(&mut self) -> &mut T {
        self.cell.get_mut()
    }
}

// Ends a watch.
fn forget<T>(seen: Watch<Entry<T>>) {
    seen.end();
}

/// Creates an unlocked mutex that holds the default value.
impl<T: Default, R> Default for FairMutex<T, R> {
    ghost is_default = { λ lock. (value : T) × T.is_default value × OpensWith value (opening lock) };

    fn default() -> Self {
        Self::new(T::default())
    }
}

/// Creates an unlocked mutex that holds the value.
impl<T, R> From<T> for FairMutex<T, R> {
    ghost from_gives = { λ value lock. OpensWith value (opening lock) };

    fn from(value: T) -> Self {
        Self::new(value)
    }
}

impl<'a, T: 'a, R: RelaxStrategy + 'a> Acquire<'a> for FairMutex<T, R> {
    type Guard = FairMutexGuard<'a, T, R>;

    type Relax = R;

    ghost grants = { λ lock guard. Grants Lock (new_in (opening lock)) guard };

    ghost tries = { λ lock guard. Grants TryLock (new_in (opening lock)) guard };

    fn acquire<W: Wait>(&'a self, rt: &W) -> FairMutexGuard<'a, T, R> {
        let session = enter(&self.cell);
        acquire(session, FairCall::Lock, None, rt)
    }

    fn try_acquire(&'a self) -> Option<FairMutexGuard<'a, T, R>> {
        self.try_lock()
    }
}

impl<T, R: RelaxStrategy> Lock<T> for FairMutex<T, R> {
    fn with<A, F: FnOnce(&mut T) -> A, W: Wait>(&self, rt: &W, by: F) -> A {
        by(&mut *self.lock(rt))
    }

    fn try_with<A, F: FnOnce(&mut T) -> A>(&self, by: F) -> Result<A, F> {
        with_guard(self.try_lock(), by)
    }
}

impl<'a, T: 'a, R: RelaxStrategy + 'a> Reserve<'a> for FairMutex<T, R> {
    type Place = Starvation<'a, T, R>;

    ghost has = { λ lock place. Calls Starve Granted (new_in (opening lock)) place };

    fn reserve<W: Wait>(&'a self, rt: &W) -> Option<Starvation<'a, T, R>> {
        self.starve(rt)
    }
}
