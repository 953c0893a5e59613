//! A condition variable whose waiters sleep. Begin at [`Condvar::wait_while`].
ghost use Rattle.std.specs.Sync.Condvar.{AnsweredAt, StoppedAt};
ghost use Rattle.std.specs.Iterator.Runs.{CallKeepsClosure};
ghost use Rattle.spin_condvar.specs.Waits.{Waited, has_timed_out};

use crate::relock::Relock;
use crate::time::{Timer, WaitTimeoutResult};
use spin_event::{Event, Heard};
use std::fmt;
use std::fmt::{Debug, Formatter};
use std::sync::Wait;
use std::time::{Clock, Duration};

/// A condition variable: a thread that holds a lock releases it and sleeps, until another thread notifies it.
///
/// It serves any lock whose guard is [`Relock`], and may serve several at once, other than that of the Rust standard
/// library. A wait may return for no reason: look again, or call [`wait_while`](Condvar::wait_while). What a thread
/// changes under the lock and does not notify wakes nobody.
///
/// A wait listens before it releases the lock. So a notification that comes after another thread has acquired the lock
/// ends the wait, even if the waiting thread does not sleep yet. It gives 2,000 spin hints before it sleeps. A
/// notification that finds nobody asleep is an addition and a load.
///
/// # Contract
/// A wait takes a guard that a call of its lock returned, and returns a guard of the same party. The party has written
/// the guard's value, made one release, and then acquired the lock by one call, and it has made no other call
/// (`Waited`). A notification is one of an [`Event`].
///
/// # Examples
/// ```
/// use spin::Condvar;
/// use spin::mutex::SpinMutex;
/// use std::thread;
///
/// let (jobs, more): (SpinMutex<u64>, Condvar) = (SpinMutex::new(0), Condvar::new());
/// let take = || {
///     let mut guard = more.wait_while(&rt, jobs.lock(&rt), |jobs| *jobs == 0);
///     *guard -= 1;
/// };
/// let bring = || {
///     *jobs.lock(&rt) = 2;
///     more.notify_one();
/// };
/// thread::join(&rt, take, bring);
/// assert_eq!(rt; jobs.into_inner(), 1);
/// ```
#[derive(Drop)]
pub struct Condvar {
    event: Event,
}

impl Condvar {
    /// Creates a condition variable on which no thread waits.
    pub const fn new() -> Self {
        Condvar {
            event: Event::new(),
        }
    }

    /// Listens while the caller holds a lock, for a wait of the caller's own: release the lock, and then wait.
    ///
    /// It takes the guard only to show that the lock is still held: who listens after the release may miss a
    /// notification.
    ///
    /// # Examples
    /// ```
    /// use spin::Condvar;
    /// use spin::mutex::SpinMutex;
    ///
    /// let (lock, changed): (SpinMutex<u64>, Condvar) = (SpinMutex::new(0), Condvar::new());
    /// let guard = lock.lock(&rt);
    /// let heard = changed.listen(&guard);
    /// drop(guard);
    /// changed.notify_all();
    /// heard.wait(&rt);
    /// assert!(rt; !lock.is_locked());
    /// ```
    pub fn listen<G: Relock>(&self, held: &G) -> Heard<'_> {
        let _ = held;
        self.event.listen()
    }

    /// Releases the lock, sleeps until a notification, and acquires the lock again.
    ///
    /// It may also return for no reason.
    ///
    /// # Contract
    /// The guard has to be one that a call of its lock returned (`holds`), and so is the result. Between the two its
    /// party has written the guard's value, has released the lock, and has acquired it again (`Waited`), so the value
    /// is the one written last. Whether and when the call returns is not promised.
    ///
    /// # Examples
    /// ```
    /// use spin::Condvar;
    /// use spin::mutex::SpinMutex;
    /// use std::thread;
    ///
    /// let (ready, changed): (SpinMutex<bool>, Condvar) = (SpinMutex::new(false), Condvar::new());
    /// let wait = || {
    ///     let mut guard = ready.lock(&rt);
    ///     for _ in rt.forever() {
    ///         if *guard {
    ///             break;
    ///         }
    ///         guard = changed.wait(&rt, guard);
    ///     }
    ///     *guard = false;
    /// };
    /// let tell = || {
    ///     *ready.lock(&rt) = true;
    ///     changed.notify_one();
    /// };
    /// thread::join(&rt, wait, tell);
    /// assert!(rt; !ready.into_inner());
    /// ```
    pub fn wait<G: Relock, W: Wait>(&self, rt: &W, guard: G) -> G
        requires { G.holds guard }
        ensures waited { Waited G.unlocks G.grants guard result }
        ensures holds { G.holds result }
    {
        let heard = self.listen(&guard);
        let pass = guard.unlock();
        heard.wait(rt);
        G::relock(rt, pass)
    }

    /// Waits like [`wait`](Condvar::wait), but sleeps for at most a time.
    ///
    /// # Contract
    /// As of `wait`. Whether the time was over promises nothing. Whether and when the call returns is not promised: to
    /// acquire the lock again may take longer.
    ///
    /// # Examples
    /// ```
    /// use spin::{Condvar, Mutex};
    /// use std::time::Duration;
    ///
    /// let (jobs, more): (Mutex<u64>, Condvar) = (Mutex::new(0), Condvar::new());
    /// let (guard, result) = more.wait_timeout(&rt, jobs.lock(&rt), Duration::from_millis(2));
    /// assert!(rt; *guard == 0 && result.timed_out());
    /// ```
    pub fn wait_timeout<G: Relock, W: Wait + Clock>(
        &self,
        rt: &W,
        guard: G,
        time: Duration,
    ) -> (G, WaitTimeoutResult)
        requires { G.holds guard }
        ensures waited { Waited G.unlocks G.grants guard result.0 }
        ensures holds { G.holds result.0 }
    {
        let timer = Timer::new(rt, time);
        let heard = self.listen(&guard);
        let pass = guard.unlock();
        heard.wait_timeout(rt, time);
        let timed_out = timer.left(rt).is_none();
        (G::relock(rt, pass), WaitTimeoutResult { timed_out })
    }

    /// Waits while the condition holds.
    ///
    /// # Contract
    /// The condition has to be always callable, and the guard has to be one that a call of its lock returned (`holds`),
    /// as is the result. The last call of the condition answered `false`, and left the value that the guard shows
    /// (`StoppedAt`). Whether and when the call returns is not promised.
    ///
    /// # Examples
    /// ```
    /// use spin::{Condvar, RwLock};
    /// use std::thread;
    ///
    /// let (jobs, more): (RwLock<u64>, Condvar) = (RwLock::new(0), Condvar::new());
    /// let take = || {
    ///     let mut writer = more.wait_while(&rt, jobs.write(&rt), |jobs| *jobs == 0);
    ///     *writer -= 1;
    /// };
    /// let bring = || {
    ///     *jobs.write(&rt) = 2;
    ///     more.notify_all();
    /// };
    /// thread::join(&rt, take, bring);
    /// assert_eq!(rt; jobs.into_inner(), 1);
    /// ```
    pub fn wait_while<G: Relock, W: Wait, F: FnMut(&mut G::Target) -> bool>(
        &self,
        rt: &W,
        guard: G,
        condition: F,
    ) -> G
        requires callable { F.IsAlwaysCallable condition }
        requires holds { G.holds guard }
        ensures stopped { StoppedAt F.step (CallKeepsClosure F.FnMut condition) condition (G.shown result) }
        ensures holds { G.holds result }
    {
        let mut guard = guard;
        let mut condition = condition;
        for _ in rt.forever() {
            if !condition(guard.whole_mut()) {
                return guard;
            }
            guard = self.wait(rt, guard);
        }
        unreachable!()
    }

    /// Waits while the condition holds, for at most a time.
    ///
    /// It calls the condition at least once, and reports that the time was over only if the condition still held.
    ///
    /// # Contract
    /// The condition has to be always callable, and the guard has to be one that a call of its lock returned (`holds`),
    /// as is the result. The last call of the condition answered whether the time was over, and left the value that the
    /// guard shows (`AnsweredAt`). Whether and when the call returns is not promised.
    ///
    /// # Examples
    /// ```
    /// use spin::Condvar;
    /// use spin::mutex::FairMutex;
    /// use std::time::Duration;
    ///
    /// let (jobs, more): (FairMutex<u64>, Condvar) = (FairMutex::new(3), Condvar::new());
    /// let brief = Duration::from_millis(2);
    /// let (guard, result) = more.wait_timeout_while(&rt, jobs.lock(&rt), brief, |jobs| *jobs == 3);
    /// assert!(rt; *guard == 3 && result.timed_out());
    /// let (guard, result) = more.wait_timeout_while(&rt, guard, brief, |jobs| *jobs == 0);
    /// assert!(rt; *guard == 3 && !result.timed_out());
    /// ```
    pub fn wait_timeout_while<G: Relock, W: Wait + Clock, F: FnMut(&mut G::Target) -> bool>(
        &self,
        rt: &W,
        guard: G,
        time: Duration,
        condition: F,
    ) -> (G, WaitTimeoutResult)
        requires callable { F.IsAlwaysCallable condition }
        requires holds { G.holds guard }
        ensures answered { AnsweredAt F.step (CallKeepsClosure F.FnMut condition) condition (has_timed_out result.1) (G.shown result.0) }
        ensures holds { G.holds result.0 }
    {
        let timer = Timer::new(rt, time);
        let mut guard = guard;
        let mut condition = condition;
        for _ in rt.forever() {
            if !condition(guard.whole_mut()) {
                return (guard, WaitTimeoutResult { timed_out: false });
            }
            let Some(left) = timer.left(rt) else {
                return (guard, WaitTimeoutResult { timed_out: true });
            };
            guard = self.wait_timeout(rt, guard, left).0;
        }
        unreachable!()
    }

    /// Wakes one thread that sleeps in a wait, and ends each wait that does not sleep yet.
    ///
    /// Call it after the change, with the lock held or just released.
    pub fn notify_one(&self) {
        self.event.notify_one();
    }

    /// Ends each wait that has begun.
    pub fn notify_all(&self) {
        self.event.notify_all();
    }
}

impl Default for Condvar {
    fn default() -> Condvar {
        Condvar::new()
    }
}

/// Prints `Condvar { .. }`.
impl Debug for Condvar {
    fn fmt<W: fmt::Write>(&self, f: &mut Formatter<W>) -> fmt::Result {
        f.debug_struct("Condvar").finish_non_exhaustive()
    }
}
