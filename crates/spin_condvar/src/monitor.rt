//! A lock and a condition variable in one, whose guards notify. Begin at [`Monitor::lock_when`].
ghost use Rattle.std.specs.Prelude.{◌≡◌, true, IfSome};
ghost use Rattle.std.specs.Borrow.{Lends, sem};
ghost use Rattle.std.specs.Fn.{FnReturnsAt};

use crate::time::Timer;
use spin_core::lock::{Acquire, Lent};
use spin_event::Event;
use std::ops::{Deref, DerefMut};
use std::sync::Wait;
use std::time::{Clock, Duration};

/// A lock whose threads may sleep until its value meets a condition. The drop of each guard wakes them.
///
/// The only way to the value is a guard, so no change goes without its notification, as it may with a `Condvar`. Any lock
/// with [`Acquire`] may be in it: a mutex, or an `RwLock` for its writers. A drop that finds nobody asleep makes an
/// addition and a load, besides the release.
///
/// # Contract
/// What is known of a guard is what the call of the lock in it says (`grants` and `tries` of [`Acquire`]). A notification is
/// one of an [`Event`].
///
/// # Examples
/// ```
/// use spin::Monitor;
/// use spin::mutex::SpinMutex;
/// use std::thread;
///
/// let jobs: Monitor<SpinMutex<u64>> = Monitor::new(SpinMutex::new(0));
/// let take = || {
///     let mut jobs = jobs.lock_when(&rt, |jobs| *jobs > 0);
///     *jobs -= 1;
/// };
/// thread::join(&rt, take, || *jobs.lock(&rt) = 2);
/// assert_eq!(rt; jobs.into_inner().into_inner(), 1);
/// ```
#[derive(Drop)]
pub struct Monitor<L> {
    lock: L,
    changed: Event,
}

/// A guard, and what is dropped after it. See [`MonitorGuard`].
#[must_use = "dropping the guard at once releases the lock: bind it, or write `drop(..)`"]
#[derive(Drop)]
pub struct Followed<G, B> {
    // The fields are dropped in this order.
    guard: G,
    bell: B,
}

/// Its drop wakes each thread that sleeps in a [`Monitor`].
pub struct Bell<'a> {
    changed: &'a Event,
}

/// A guard of a [`Monitor`]. Dropping it releases the lock, and then wakes each thread that sleeps in the monitor.
pub type MonitorGuard<'a, G> = Followed<G, Bell<'a>>;

impl Drop for Bell<'_> {
    fn drop(self) {
        let Self { changed } = self;
        changed.notify_all();
    }
}

impl<L> Monitor<L> {
    /// Creates a monitor over a lock.
    pub const fn new(lock: L) -> Self
        ensures { result.lock ≡ lock }
    {
        Monitor {
            lock,
            changed: Event::new(),
        }
    }

    /// Consumes the monitor and returns the lock in it.
    pub fn into_inner(self) -> L
        ensures { result ≡ self.lock }
    {
        let Self { lock, changed: _ } = self;
        lock
    }

    // Makes a guard of one of the lock.
    fn guarded<G>(&self, guard: G) -> MonitorGuard<'_, G>
        ensures { result.guard ≡ guard }
    {
        let bell = Bell {
            changed: &self.changed,
        };
        Followed { guard, bell }
    }

    /// Acquires the lock, as `lock` of a mutex or `write` of an `RwLock` does.
    ///
    /// # Contract
    /// The guard has one that the lock's `acquire` returned. Whether and when the call returns is not promised.
    ///
    /// # Examples
    /// ```
    /// use spin::{Monitor, Mutex};
    ///
    /// let jobs: Monitor<Mutex<u64>> = Monitor::new(Mutex::new(3));
    /// *jobs.lock(&rt) += 1;
    /// assert_eq!(rt; *jobs.lock(&rt), 4);
    /// ```
    pub fn lock<'a, W: Wait>(&'a self, rt: &W) -> MonitorGuard<'a, L::Guard>
    where
        L: Acquire<'a>,
        ensures { L.grants self.now.lock result.guard }
    {
        self.guarded(self.lock.acquire(rt))
    }

    /// Tries to acquire the lock, as `try_lock` of a mutex or `try_write` of an `RwLock` does.
    ///
    /// # Contract
    /// The guard in `Some` has one that the lock's `try_acquire` returned. `None` promises nothing. The call returns.
    ///
    /// # Examples
    /// ```
    /// use spin::{Monitor, RwLock};
    ///
    /// let jobs: Monitor<RwLock<u64>> = Monitor::new(RwLock::new(3));
    /// let guard = jobs.lock(&rt);
    /// assert!(rt; jobs.try_lock().is_none());
    /// drop(guard);
    /// assert!(rt; jobs.try_lock().is_some());
    /// ```
    #[must_use = "dropping the guard at once releases the lock: bind the answer, or write `drop(..)`"]
    pub fn try_lock<'a>(&'a self) -> Option<MonitorGuard<'a, L::Guard>>
    where
        L: Acquire<'a>,
        ensures { IfSome result (λ it. L.tries self.now.lock it.guard) }
    {
        match self.lock.try_acquire() {
            Some(guard) => Some(self.guarded(guard)),
            None => None,
        }
    }

    /// Acquires the lock when its value meets a condition. Until then the thread sleeps, after 2,000 spin hints.
    ///
    /// The thread looks after each drop of a guard. It has no place in an order of arrival: of several threads that wait
    /// for one condition any may be the next to find it.
    ///
    /// # Contract
    /// The condition has to be always callable. The guard has one that the lock's `acquire` returned (`granted`), and the
    /// condition answers `true` for its value (`met`). Whether and when the call returns is not promised.
    ///
    /// # Examples
    /// ```
    /// use spin::Monitor;
    /// use spin::mutex::FairMutex;
    /// use std::thread;
    ///
    /// let ready: Monitor<FairMutex<bool>> = Monitor::new(FairMutex::new(false));
    /// let wait = || drop(ready.lock_when(&rt, |ready| *ready));
    /// thread::join(&rt, wait, || *ready.lock(&rt) = true);
    /// assert!(rt; *ready.lock(&rt));
    /// ```
    pub fn lock_when<'a, T, F: Fn(&T) -> bool, W: Wait>(
        &'a self,
        rt: &W,
        when: F,
    ) -> MonitorGuard<'a, L::Guard>
    where
        L: Acquire<'a>,
        L::Guard: Lent<Target = T>,
        requires { F.IsAlwaysCallable when }
        ensures granted { L.grants self.now.lock result.guard }
        ensures met { FnReturnsAt F.Fn when (L.Guard.shown result.guard) true }
    {
        for _ in rt.forever() {
            let guard = self.lock.acquire(rt);
            if when(guard.whole()) {
                return self.guarded(guard);
            }
            // It listens while it has the lock, so whoever changes the value later ends the wait.
            let heard = self.changed.listen();
            drop(guard);
            heard.wait(rt);
        }
        unreachable!()
    }

    /// Like [`lock_when`](Monitor::lock_when), but gives up after some time. It looks at least once.
    ///
    /// # Contract
    /// As of `lock_when` for the guard in `Some`. `None` promises nothing: the time is over, or the clock cannot be read.
    /// Whether and when the call returns is not promised: to acquire the lock may take longer.
    ///
    /// # Examples
    /// ```
    /// use spin::Monitor;
    /// use spin::mutex::SpinMutex;
    /// use std::time::Duration;
    ///
    /// let jobs: Monitor<SpinMutex<u64>> = Monitor::new(SpinMutex::new(0));
    /// let brief = Duration::from_millis(2);
    /// assert!(rt; jobs.lock_when_for(&rt, brief, |jobs| *jobs > 0).is_none());
    /// assert!(rt; jobs.lock_when_for(&rt, brief, |jobs| *jobs == 0).is_some());
    /// ```
    #[must_use = "dropping the guard at once releases the lock: bind the answer, or write `drop(..)`"]
    pub fn lock_when_for<'a, T, F: Fn(&T) -> bool, W: Wait + Clock>(
        &'a self,
        rt: &W,
        time: Duration,
        when: F,
    ) -> Option<MonitorGuard<'a, L::Guard>>
    where
        L: Acquire<'a>,
        L::Guard: Lent<Target = T>,
        requires { F.IsAlwaysCallable when }
        ensures granted { IfSome result (λ it. L.grants self.now.lock it.guard) }
        ensures met { IfSome result (λ it. FnReturnsAt F.Fn when (L.Guard.shown it.guard) true) }
    {
        let timer = Timer::new(rt, time);
        for _ in rt.forever() {
            let guard = self.lock.acquire(rt);
            if when(guard.whole()) {
                return Some(self.guarded(guard));
            }
            let left = timer.left(rt)?;
            let heard = self.changed.listen();
            drop(guard);
            heard.wait_timeout(rt, left);
        }
        unreachable!()
    }
}

impl<'a, L: Acquire<'a> + 'a> Acquire<'a> for Monitor<L> {
    type Guard = MonitorGuard<'a, L::Guard>;

    type Relax = L::Relax;

    ghost grants = { λ it guard. L.grants it.lock guard.guard };

    ghost tries = { λ it guard. L.tries it.lock guard.guard };

    fn acquire<W: Wait>(&'a self, rt: &W) -> MonitorGuard<'a, L::Guard> {
        self.lock(rt)
    }

    fn try_acquire(&'a self) -> Option<MonitorGuard<'a, L::Guard>> {
        self.try_lock()
    }
}

impl<G: Deref, B> Deref for Followed<G, B> {
    type Target = G::Target;

    ghost deref_gives = { λ it x. G.deref_gives it.guard x };

    fn deref(&self) -> &G::Target {
        &*self.guard
    }
}

impl<G: Lent, B> DerefMut for Followed<G, B> {
    ghost use Rattle.spin_condvar.specs.contracts.monitor.Followed.{the_row};
    ghost use Rattle.spin_condvar.specs.Monitors.{around};

    ghost deref_mut_gives = { λ it x. x ≡ G.shown it.guard };

    fn deref_mut(&mut self) -> &mut G::Target
        ensures* writes_back { sem 𝓛 (Lends (the_row G.row B.row) G.Target.row self.entry result (λ x. around self.old (G.leaving self.old.guard x))) }
        ensures value { result.now ≡ G.shown self.old.guard }
    {
        self.guard.whole_mut()
    }
}

impl<G: Lent, B> Lent for Followed<G, B> {
    ghost use Rattle.spin_condvar.specs.Monitors.{around};

    ghost shown = { λ it. G.shown it.guard };

    ghost leaving = { λ it x. around it (G.leaving it.guard x) };

    fn whole(&self) -> &G::Target {
        self.guard.whole()
    }

    fn whole_mut(&mut self) -> &mut G::Target {
        &mut **self
    }
}
