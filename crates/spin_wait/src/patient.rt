//! What each lock with a guard can wait for. Begin at [`Patient::lock_when`].
ghost use Rattle.std.specs.Prelude.{true, IfSome};
ghost use Rattle.std.specs.Fn.{FnReturnsAt};

use spin_core::lock::{Acquire, Lent};
use spin_core::relax::{BACK_OFF_STEP, MAX_BACK_OFF, RelaxStrategy};
use std::hint::spin_loop;
use std::sync::Wait;
use std::time::{Clock, Duration, Instant};

/// The calls of a lock that wait for a condition, or give up. Each lock with [`Acquire`] whose guard shows a value has
/// them: a mutex, and an `RwLock` for its writer.
///
/// # Examples
/// ```
/// use spin::lock::Patient;
/// use spin::mutex::SpinMutex;
/// use std::thread;
///
/// let places: SpinMutex<u64> = SpinMutex::new(0);
/// let take = || {
///     let mut guard = places.lock_when(&rt, |free| *free > 0);
///     *guard -= 1;
/// };
/// thread::join(&rt, take, || *places.lock(&rt) = 2);
/// assert_eq!(rt; places.into_inner(), 1);
/// ```
pub trait Patient<'a, T>: Acquire<'a>
where
    Self::Guard: Lent<Target = T>,
{
    /// Acquires the lock when its value meets a condition, and keeps it.
    ///
    /// The thread acquires the lock, and releases it again if the value does not meet the condition. Before it looks
    /// again it pauses by the lock's strategy, each time longer, up to a limit. So no thread sleeps, and whoever writes the
    /// value wakes nobody. Each look keeps other threads out for as long as it lasts.
    ///
    /// The thread has no place in an order of arrival. Of a `Mutex` or a `TicketMutex` it takes a new ticket for each
    /// look, behind all that wait then; of a `FairMutex` it comes as a newcomer each time. If several threads wait for one
    /// condition, any of them may be the next to find it.
    ///
    /// # Contract
    /// The condition has to be always callable. The guard is one that `acquire` returned (`granted`), and the condition
    /// answers `true` for its value (`met`). Whether and when the call returns is not promised.
    final fn lock_when<F: Fn(&T) -> bool, W: Wait>(&'a self, rt: &W, when: F) -> Self::Guard
        requires { F.IsAlwaysCallable when }
        ensures granted { Self.Acquire.grants self.now result }
        ensures met { FnReturnsAt F.Fn when (Self.Guard.shown result) true }
    {
        let mut hints = BACK_OFF_STEP;
        let mut given = 0;
        for _ in rt.forever() {
            let guard = self.acquire(rt);
            if when(guard.whole()) {
                return guard;
            }
            drop(guard);
            given = Self::Relax::bounded_pause(rt, hints, given);
            hints = hints.saturating_mul(BACK_OFF_STEP).min(MAX_BACK_OFF);
        }
        unreachable!()
    }

    /// Like [`lock_when`](Patient::lock_when), but gives up after some time. It looks at least once, and never waits for
    /// the lock itself.
    ///
    /// # Contract
    /// The condition has to be always callable. The guard in `Some` is one that `try_acquire` returned (`granted`), and
    /// the condition answers `true` for its value (`met`). `None` promises nothing: the time is over, or the clock cannot
    /// be read. Whether and when the call returns is not promised.
    ///
    /// # Examples
    /// ```
    /// use spin::lock::Patient;
    /// use spin::mutex::SpinMutex;
    /// use std::time::Duration;
    ///
    /// let places: SpinMutex<u64> = SpinMutex::new(0);
    /// let brief = Duration::from_millis(2);
    /// assert!(rt; places.lock_when_for(&rt, brief, |free| *free > 0).is_none());
    /// assert!(rt; places.lock_when_for(&rt, brief, |free| *free == 0).is_some());
    /// ```
    #[must_use = "dropping the guard at once releases the lock: bind the answer, or write `drop(..)`"]
    final fn lock_when_for<F: Fn(&T) -> bool, W: Wait + Clock>(
        &'a self,
        rt: &W,
        time: Duration,
        when: F,
    ) -> Option<Self::Guard>
        requires { F.IsAlwaysCallable when }
        ensures granted { IfSome result (Self.Acquire.tries self.now) }
        ensures met { IfSome result (λ guard. FnReturnsAt F.Fn when (Self.Guard.shown guard) true) }
    {
        let start = Instant::now(rt).ok()?;
        let mut hints = BACK_OFF_STEP;
        let mut given = 0;
        for _ in rt.forever() {
            if let Some(guard) = self.try_acquire() {
                if when(guard.whole()) {
                    return Some(guard);
                }
                drop(guard);
            }
            if start.elapsed(rt).ok()? >= time {
                return None;
            }
            given = Self::Relax::bounded_pause(rt, hints, given);
            hints = hints.saturating_mul(BACK_OFF_STEP).min(MAX_BACK_OFF);
        }
        unreachable!()
    }

    /// Tries to acquire the lock for some time, at least once.
    ///
    /// # Contract
    /// The guard in `Some` is one that `try_acquire` returned. `None` promises nothing: the time is over, or the clock
    /// cannot be read. Whether and when the call returns is not promised.
    ///
    /// # Examples
    /// ```
    /// use spin::lock::Patient;
    /// use spin::mutex::SpinMutex;
    /// use std::time::Duration;
    ///
    /// let lock: SpinMutex<u64> = SpinMutex::new(4);
    /// let guard = lock.lock(&rt);
    /// assert!(rt; lock.try_lock_for(&rt, Duration::from_millis(2)).is_none());
    /// drop(guard);
    /// assert!(rt; lock.try_lock_for(&rt, Duration::from_millis(2)).is_some());
    /// ```
    #[must_use = "dropping the guard at once releases the lock: bind the answer, or write `drop(..)`"]
    final fn try_lock_for<W: Wait + Clock>(&'a self, rt: &W, time: Duration) -> Option<Self::Guard>
        ensures { IfSome result (Self.Acquire.tries self.now) }
    {
        self.lock_when_for(rt, time, |_| true)
    }

    /// Tries to acquire the lock until a moment, at least once.
    ///
    /// # Contract
    /// Like that of [`try_lock_for`](Patient::try_lock_for).
    ///
    /// # Examples
    /// ```
    /// use spin::lock::Patient;
    /// use spin::mutex::SpinMutex;
    /// use std::time::Instant;
    ///
    /// let lock: SpinMutex<u64> = SpinMutex::new(4);
    /// let now = Instant::now(&rt).expect(&rt, "a clock");
    /// assert!(rt; lock.try_lock_until(&rt, now).is_some());
    /// ```
    #[must_use = "dropping the guard at once releases the lock: bind the answer, or write `drop(..)`"]
    final fn try_lock_until<W: Wait + Clock>(&'a self, rt: &W, end: Instant) -> Option<Self::Guard>
        ensures { IfSome result (Self.Acquire.tries self.now) }
    {
        let left = end.duration_since(Instant::now(rt).ok()?);
        self.try_lock_for(rt, left)
    }

    /// Tries to acquire the lock so many times, with spin hints in between. It takes no right to wait, so code without
    /// one can call it, such as a `drop`.
    ///
    /// # Contract
    /// The guard in `Some` is one that `try_acquire` returned. `None` promises nothing. The call returns.
    ///
    /// # Examples
    /// ```
    /// use spin::lock::Patient;
    /// use spin::mutex::SpinMutex;
    ///
    /// let lock: SpinMutex<u64> = SpinMutex::new(4);
    /// let guard = lock.lock(&rt);
    /// assert!(rt; lock.try_lock_times(9).is_none());
    /// drop(guard);
    /// assert!(rt; lock.try_lock_times(9).is_some());
    /// ```
    #[must_use = "dropping the guard at once releases the lock: bind the answer, or write `drop(..)`"]
    final fn try_lock_times(&'a self, times: u32) -> Option<Self::Guard>
        ensures { IfSome result (Self.Acquire.tries self.now) }
    {
        let mut hints = BACK_OFF_STEP;
        for _ in 0..times {
            if let Some(guard) = self.try_acquire() {
                return Some(guard);
            }
            for _ in 0..hints {
                spin_loop();
            }
            hints = hints.saturating_mul(BACK_OFF_STEP).min(MAX_BACK_OFF);
        }
        None
    }
}

impl<'a, T, L: Acquire<'a>> Patient<'a, T> for L
where
    L::Guard: Lent<Target = T>,
{}
