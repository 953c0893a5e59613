//! `Mutex`, which uses only the contract of an inner lock. Begin at [`Mutex::lock`].
ghost use Rattle.std.specs.Prelude.{◌≡◌, IfErr, IfOk, IfSome};
ghost use types.Logic.{sem};
ghost use Rattle.spin_step.specs.declared.answer.Answer.TheVariants.{Is};
ghost use Rattle.spin_mutex.specs.Mutex.{Ends, Grants, IsLocked, Lock, OneCall, OpensWith, Settles, TryLock, known, new_in, opening};

use crate::ticket::{self, Entry, TicketMutex, TicketMutexGuard, forget};
use spin_core::lock::{Acquire, Lock, with_guard};
use spin_core::relax::{RelaxStrategy, Spin};
use spin_core::trace::Watch;
use std::sync::Wait;

mod texts;
pub mod tickets;

/// A mutual exclusion lock on which a waiting thread spins.
///
/// It contains a [`TicketMutex`], so threads are served in the order of their tickets. The contract does not
/// say which lock that is. A waiting thread passes the time with the strategy `R`. With more threads than processors the
/// next in the queue may have none, and the others wait for it too: a `SpinMutex` is many times as fast then.
///
/// # Contract
/// While a guard or a hold of the lock lives, no other call acquires the lock. A guard gives a value of `T`,
/// which satisfies the invariant of `T`. When the guard is acquired this is the value written last in the mutex's
/// history. Without a [`pass`](Self::pass) a refusal promises nothing.
///
/// # Examples
/// ```
/// use spin::Yield;
/// use spin::mutex::Mutex;
///
/// let total: Mutex<u64, Yield> = Mutex::new(1);
/// *total.lock(&rt) = 5;
/// assert_eq!(rt; total.into_inner(), 5);
/// ```
#[derive(Drop)]
pub struct Mutex<T, R = Spin> {
    pub(crate) inner: TicketMutex<T, R>,
}

/// The guard of a [`Mutex`]. Dropping it releases the lock.
///
/// It gives access to the value by `Deref` and `DerefMut`.
///
/// # Contract
/// `guard_value` is the lock's value. What is written through the guard is read through it.
///
/// # Examples
/// ```
/// use spin::{Mutex, MutexGuard};
///
/// let total: Mutex<u64> = Mutex::new(1);
/// let held = MutexGuard::hold(total.lock(&rt));
/// let guard = held.into_guard();
/// assert_eq!(rt; *guard, 1);
/// drop(guard);
/// assert!(rt; !total.is_locked());
/// ```
pub type MutexGuard<'a, T, R = Spin> = TicketMutexGuard<'a, T, R>;

/// A hold on a [`Mutex`]: it keeps the lock held without a guard, and gives no access to the value.
///
/// [`Mutex::force_unlock`] consumes the hold and releases the lock. Dropping the hold does not release the
/// lock.
///
/// # Contract
/// `held_value` is the value of the guard that became this hold.
pub type Held<'a, T, R = Spin> = ticket::Held<'a, T, R>;

impl<T, R> Mutex<T, R> {
    /// Creates an unlocked mutex that holds `value`.
    ///
    /// # Contract
    /// The lock's history begins with this value (`opens`). The call returns.
    pub const fn new(value: T) -> Self
        ensures opens { OpensWith value (opening result) }
    {
        Mutex {
            inner: TicketMutex::new(value),
        }
    }

    /// Consumes the mutex and returns the value with the mutex's whole history, as `TicketMutex::into_history` does.
    ///
    /// # Contract
    /// The history is a schedule of the model. Unless a party still writes the value at its end (by a leaked guard or a
    /// dropped hold), the value is the one written last (`Ends`). The call returns.
    pub fn into_history(self) -> (T, ticket::History<T>)
        ensures { Ends (opening self) result }
    {
        self.inner.into_history()
    }

    /// Consumes the mutex and returns the value with the mutex's whole history, in `Ok` if nobody holds it any more, as
    /// `TicketMutex::try_into_history` does.
    ///
    /// # Contract
    /// The history is a schedule of the model. In `Ok` the value is the one written last (`settled`). The call returns.
    ///
    /// # Examples
    /// ```
    /// use spin::Mutex;
    ///
    /// let total: Mutex<u64> = Mutex::new(1);
    /// *total.lock(&rt) = 7;
    /// assert_eq!(rt; total.try_into_history().ok().expect(&rt, "it is free").0, 7);
    /// ```
    pub fn try_into_history(self) -> Result<(T, ticket::History<T>), (T, ticket::History<T>)>
        ensures settled { IfOk result (Settles (opening self)) }
        ensures held { IfErr result (Ends (opening self)) }
    {
        self.inner.try_into_history()
    }

    /// Consumes the mutex and returns the value.
    ///
    /// It does not acquire the lock, since no other thread can have the mutex. So it also returns the value if
    /// a guard was leaked, or a hold dropped.
    ///
    /// # Contract
    /// Only that the call returns.
    pub fn into_inner(self) -> T {
        self.inner.into_inner()
    }

    /// Returns a mutable reference to the value.
    ///
    /// It does not acquire the lock, since no other thread can have the mutex.
    ///
    /// # Contract
    /// Only that the call returns.
    ///
    /// # Examples
    /// ```
    /// use spin::Mutex;
    ///
    /// let mut total: Mutex<u64> = Mutex::default();
    /// *total.get_mut() = 7;
    /// assert_eq!(rt; total.into_inner(), 7);
    /// ```
    pub fn get_mut(&mut self) -> &mut T {
        self.inner.get_mut()
    }

    /// Tries to acquire the mutex. Returns `None` at once if it is held.
    ///
    /// It also returns `None` while another thread waits, or if the tickets of the ticket lock inside are used up. The
    /// contract does not say which lock the mutex contains, so it allows `None` for a free mutex too.
    ///
    /// # Contract
    /// The guard in `Some` is granted by one `TryLock` (`Grants`). `None` promises nothing. The call returns.
    ///
    /// # Examples
    /// ```
    /// use spin::Mutex;
    ///
    /// let total: Mutex<u64> = Mutex::new(1);
    /// let guard = total.lock(&rt);
    /// assert!(rt; total.try_lock().is_none());
    /// drop(guard);
    /// assert!(rt; total.try_lock().is_some());
    /// ```
    #[must_use = "dropping the guard at once releases the lock: bind the answer, or write `drop(..)`"]
    pub fn try_lock(&self) -> Option<MutexGuard<'_, T, R>>
        ensures { IfSome result (Grants TryLock (new_in (opening self.now))) }
    {
        self.inner.try_lock()
    }

    /// Returns `true` if it finds that a thread holds the lock or waits for it, else `false`.
    ///
    /// By the time the caller reads the answer it may be out of date.
    ///
    /// # Contract
    /// A new party has made exactly one `IsLocked`, with this answer (`did`). The call returns.
    ///
    /// # Examples
    /// ```
    /// use spin::Mutex;
    ///
    /// let total: Mutex<u64> = Mutex::from(1);
    /// let guard = total.lock(&rt);
    /// assert!(rt; total.is_locked());
    /// drop(guard);
    /// assert!(rt; !total.is_locked());
    /// ```
    pub fn is_locked(&self) -> bool
        ensures* did { sem 𝓛 (known T.row (OneCall IsLocked (Is result) (opening self.now))) }
    {
        let (is_locked, seen) = self.look();
        forget(seen);
        is_locked
    }

    // Makes the call of `is_locked`, and also returns what its party then knew.
    fn look(&self) -> (bool, Watch<Entry<T>>)
        ensures { OneCall IsLocked (Is result.0) (opening self.now) result.1 }
    {
        self.inner.look()
    }

    /// Returns a pass that has made no call. It does not touch the lock.
    ///
    /// The calls of the pass are those of the ticket lock inside, so the guard is a [`TicketMutexGuard`].
    ///
    /// # Contract
    /// The pass is of this mutex, and knows nothing of its history yet (`new`).
    pub fn pass(&self) -> ticket::Pass<'_, T, R>
        ensures new { result ≡ new_in (opening self.now) }
    {
        self.inner.pass()
    }

    /// Releases the lock that this `Held` holds.
    ///
    /// The call consumes the hold, so no lock can be released twice.
    ///
    /// # Contract
    /// Only that the call returns.
    pub fn force_unlock(held: Held<'_, T, R>) {
        TicketMutex::force_unlock(held);
    }
}

impl<T, R: RelaxStrategy> Mutex<T, R> {
    /// Acquires the mutex, spinning until it is free.
    ///
    /// A waiting thread passes the time with the strategy `R`. The call never returns if its own thread holds
    /// the lock, or if it finds all 2^64 - 1 tickets of the ticket lock inside used up.
    ///
    /// # Contract
    /// The guard is granted by one `Lock`, and its value is the one written last in the mutex's history (`Grants`).
    /// Whether and when the call returns is not promised.
    ///
    /// # Examples
    /// ```
    /// use spin::Mutex;
    ///
    /// let total: Mutex<u64> = Mutex::new(1);
    /// let mut guard = total.lock(&rt);
    /// *guard = guard.wrapping_add(1);
    /// drop(guard);
    /// assert_eq!(rt; total.into_inner(), 2);
    /// ```
    pub fn lock<W: Wait>(&self, rt: &W) -> MutexGuard<'_, T, R>
        ensures { Grants Lock (new_in (opening self.now)) result }
    {
        self.inner.lock(rt)
    }
}

impl<T: Default, R> Default for Mutex<T, R> {
    ghost is_default = { λ lock. (value : T) × T.is_default value × OpensWith value (opening lock) };

    fn default() -> Self {
        Self::new(T::default())
    }
}

/// Creates an unlocked mutex that holds the value.
impl<T, R> From<T> for Mutex<T, R> {
    ghost from_gives = { λ value lock. OpensWith value (opening lock) };

    fn from(value: T) -> Self {
        Self::new(value)
    }
}

impl<'a, T: 'a, R: RelaxStrategy + 'a> Acquire<'a> for Mutex<T, R> {
    type Guard = MutexGuard<'a, T, R>;

    type Relax = R;

    ghost grants = { λ lock guard. Grants Lock (new_in (opening lock)) guard };

    ghost tries = { λ lock guard. Grants TryLock (new_in (opening lock)) guard };

    fn acquire<W: Wait>(&'a self, rt: &W) -> MutexGuard<'a, T, R> {
        self.inner.acquire(rt)
    }

    fn try_acquire(&'a self) -> Option<MutexGuard<'a, T, R>> {
        self.try_lock()
    }
}

impl<T, R: RelaxStrategy> Lock<T> for Mutex<T, R> {
    fn with<A, F: FnOnce(&mut T) -> A, W: Wait>(&self, rt: &W, by: F) -> A {
        by(&mut *self.lock(rt))
    }

    fn try_with<A, F: FnOnce(&mut T) -> A>(&self, by: F) -> Result<A, F> {
        with_guard(self.try_lock(), by)
    }
}

// SAFETY: the inner lock owns the value, and is `Send`.
unsafe impl<T: Send, R> Send for Mutex<T, R> {}

// SAFETY: the inner lock gives the value to one holder at a time, on whatever thread.
unsafe impl<T: Send, R> Sync for Mutex<T, R> {}
