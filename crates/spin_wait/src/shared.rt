//! What each lock with readers can wait for. Begin at [`PatientShared::read_when`].
ghost use Rattle.std.specs.Prelude.{true, IfSome};
ghost use Rattle.std.specs.Fn.{FnReturnsAt};

use spin_core::lock::AcquireShared;
use spin_core::relax::{BACK_OFF_STEP, MAX_BACK_OFF, RelaxStrategy};
use std::ops::Deref;
use std::sync::Wait;
use std::time::{Clock, Duration, Instant};

/// The calls of a lock that wait for a condition with shared access, or give up: those of [`Patient`](super::Patient)
/// for readers.
///
/// # Examples
/// ```
/// use spin::RwLock;
/// use spin::lock::PatientShared;
/// use std::thread;
///
/// let version: RwLock<u64> = RwLock::new(1);
/// let wait = || *version.read_when(&rt, |version| *version >= 2);
/// let (seen, ()) = thread::join(&rt, wait, || *version.write(&rt) = 3);
/// assert_eq!(rt; seen, 3);
/// ```
pub trait PatientShared<'a, T>: AcquireShared<'a>
where
    Self::Shared: Deref<Target = T>,
{
    /// Acquires shared access when the value meets a condition, and keeps it.
    ///
    /// It waits as [`Patient::lock_when`](super::Patient::lock_when) does. Other readers may look at the same time.
    ///
    /// # Contract
    /// The condition has to be always callable. The guard is one that `acquire_shared` returned (`lent`), and the
    /// condition answers `true` for its value (`met`). Whether and when the call returns is not promised.
    final fn read_when<F: Fn(&T) -> bool, W: Wait>(&'a self, rt: &W, when: F) -> Self::Shared
        requires { F.IsAlwaysCallable when }
        ensures lent { Self.AcquireShared.lends self.now result }
        ensures met { (value : T) × Self.Shared.deref_gives result value × FnReturnsAt F.Fn when value true }
    {
        let mut hints = BACK_OFF_STEP;
        let mut given = 0;
        for _ in rt.forever() {
            let guard = self.acquire_shared(rt);
            if when(&*guard) {
                return guard;
            }
            drop(guard);
            given = Self::Relax::bounded_pause(rt, hints, given);
            hints = hints.saturating_mul(BACK_OFF_STEP).min(MAX_BACK_OFF);
        }
        unreachable!()
    }

    /// Tries to acquire shared access for some time, at least once.
    ///
    /// # Contract
    /// The guard in `Some` is one that `try_acquire_shared` returned. `None` promises nothing: the time is over, or the
    /// clock cannot be read. Whether and when the call returns is not promised.
    ///
    /// # Examples
    /// ```
    /// use spin::RwLock;
    /// use spin::lock::PatientShared;
    /// use std::time::Duration;
    ///
    /// let version: RwLock<u64> = RwLock::new(1);
    /// let brief = Duration::from_millis(2);
    /// let writer = version.write(&rt);
    /// assert!(rt; version.try_read_for(&rt, brief).is_none());
    /// drop(writer);
    /// assert!(rt; version.try_read_for(&rt, brief).is_some());
    /// ```
    #[must_use = "dropping the guard at once releases the lock: bind the answer, or write `drop(..)`"]
    final fn try_read_for<W: Wait + Clock>(&'a self, rt: &W, time: Duration) -> Option<Self::Shared>
        ensures { IfSome result (Self.AcquireShared.tries self.now) }
    {
        let start = Instant::now(rt).ok()?;
        let mut hints = BACK_OFF_STEP;
        let mut given = 0;
        for _ in rt.forever() {
            if let Some(guard) = self.try_acquire_shared(rt) {
                return Some(guard);
            }
            if start.elapsed(rt).ok()? >= time {
                return None;
            }
            given = Self::Relax::bounded_pause(rt, hints, given);
            hints = hints.saturating_mul(BACK_OFF_STEP).min(MAX_BACK_OFF);
        }
        unreachable!()
    }

    /// Tries to acquire shared access until a moment, at least once.
    ///
    /// # Contract
    /// Like that of [`try_read_for`](PatientShared::try_read_for).
    ///
    /// # Examples
    /// ```
    /// use spin::RwLock;
    /// use spin::lock::PatientShared;
    /// use std::time::Instant;
    ///
    /// let version: RwLock<u64> = RwLock::new(1);
    /// let now = Instant::now(&rt).expect(&rt, "a clock");
    /// assert!(rt; version.try_read_until(&rt, now).is_some());
    /// ```
    #[must_use = "dropping the guard at once releases the lock: bind the answer, or write `drop(..)`"]
    final fn try_read_until<W: Wait + Clock>(&'a self, rt: &W, end: Instant) -> Option<Self::Shared>
        ensures { IfSome result (Self.AcquireShared.tries self.now) }
    {
        let left = end.duration_since(Instant::now(rt).ok()?);
        self.try_read_for(rt, left)
    }
}

impl<'a, T, L: AcquireShared<'a>> PatientShared<'a, T> for L
where
    L::Shared: Deref<Target = T>,
{}
