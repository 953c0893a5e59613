//! A spinning lock for many readers or one writer. Begin at [`RwLock::read`] and [`RwLock::write`].
ghost use Rattle.std.specs.Prelude.{◌≤◌, IfErr, IfOk, IfSome};
ghost use types.Logic.{sem};
ghost use Rattle.spin_step.specs.declared.answer.Answer.TheVariants.{Count, Granted, Is};
ghost use Rattle.spin_step_more.specs.Readers.{reader_limit};
ghost use Rattle.spin_step_more.specs.declared.rw_calls.RwCall.TheVariants.{IsLocked, ReaderCount, WriterCount, TryRead, Read, TryUpgradeableRead, UpgradeableRead, TryWrite, Write};
ghost use Rattle.spin_session.specs.Meaning.{ways_of};
ghost use Rattle.spin_rwlock.specs.Rw.{IsRw, rw_meaning};
ghost use Rattle.spin_rwlock.specs.RwPasses.{Ends, Grants, Lends, OneCall, OneCallFor, OpensWith, Settles, key_of, known, new_in, opening};

use self::pass::{grant, lend};
use spin_core::cell::{Cell, Rule};
use spin_core::lock::{Acquire, AcquireShared, Lock, Reserve, SharedLock, with_guard};
use spin_core::relax::{RelaxStrategy, Spin};
use spin_core::tie::Opening;
use spin_core::trace::{Trace, Watch};
use spin_session::calls::{enter, finish, in_three};
use spin_session::table::Ahead;
use spin_session_more::calls::exchange_for;
use spin_step::Hold;
use spin_step_more::rw;
use spin_step_more::rw_calls::{RwCall, RwPoint};
use std::marker::PhantomData;
use std::sync::Wait;

mod pass;
mod reader;
mod rule;
mod texts;
mod upgradable;
mod writer;

pub use self::pass::Pass;
pub use self::reader::{ReadHeld, RwLockReadGuard, SharedGuard};
pub use self::rule::{Entry, History, Kind, Party, Reader, RwRule, Upgrader};
pub use self::upgradable::RwLockUpgradableGuard;
pub use self::writer::{RwLockWriteGuard, WriteHeld};
pub use spin_core::laws::{a_guard_reads_the_last_value_written, two_guards_read_one_value};

/// A reader-writer lock: many readers share the value, or one writer has it alone. A waiting thread spins.
///
/// One reader at a time may be upgradable: it may become the writer without releasing the lock. The lock admits other
/// readers until this reader asks to become the writer ([`upgrade`](RwLockUpgradableGuard::upgrade)). Then no reader is
/// admitted until the writer releases the lock or downgrades. Writers are not preferred: readers that keep acquiring
/// the lock may keep a writer out. A waiting thread relaxes with strategy `R`. `V` is always `Party` and `P` is always
/// `RwRule<T>`. Callers never name them.
///
/// # Contract
/// While the guard or the hold of a writer lives, no other guard gives access to the value. A guard gives a value of
/// `T`, with all that the invariant of `T` says. Its value is the one written last in the lock's history. An upgrade
/// and a downgrade keep the value.
///
/// # Examples
/// ```
/// use spin::Yield;
/// use spin::rwlock::RwLock;
/// use std::thread;
///
/// let limit: RwLock<u64, Yield> = RwLock::new(3);
/// let read = || *limit.read(&rt);
/// assert_eq!(rt; thread::join(&rt, &read, &read), (3, 3));
/// ```
#[derive(Drop)]
pub struct RwLock<T, R = Spin, V = Party, P: Rule<T, V> = RwRule<T>> {
    cell: Cell<T, V, P>,
    strategy: PhantomData<R>,
}

impl<T, R> RwLock<T, R> {
    /// Creates an unlocked lock that holds `value`.
    ///
    /// # Contract
    /// The lock's history begins with this value (`opens`). The call returns.
    pub const fn new(value: T) -> Self
        ensures opens { OpensWith value (opening result) }
    {
        let trace = Trace::new(());
        let opening = Opening::of(&trace, &value);
        let cell = Cell::new(value, 0, trace, &opening);
        opening.end();
        RwLock {
            cell,
            strategy: PhantomData,
        }
    }

    /// Consumes the lock and returns the value with the lock's whole history, in `Ok` if nobody writes the value any
    /// more: no writer's guard was leaked, and no writer's hold dropped. Readers do not matter.
    ///
    /// # Contract
    /// The history is a schedule of the lock's model. In `Ok` the value is the one written last (`settled`). The call
    /// returns.
    ///
    /// # Examples
    /// ```
    /// use spin::{RwLock, RwLockReadGuard, RwLockWriteGuard};
    ///
    /// let limit: RwLock<u64> = RwLock::new(3);
    /// *limit.write(&rt) = 4;
    /// RwLockReadGuard::leak(limit.read(&rt));
    /// assert_eq!(rt; limit.try_into_history().ok().expect(&rt, "nobody writes").0, 4);
    /// let other: RwLock<u64> = RwLock::new(3);
    /// *RwLockWriteGuard::leak(other.write(&rt)) = 6;
    /// assert!(rt; other.try_into_history().is_err());
    /// ```
    pub fn try_into_history(self) -> Result<(T, History<T>), (T, History<T>)>
        ensures settled { IfOk result (Settles (opening self)) }
        ensures held { IfErr result (Ends (IsRw (opening self)) (ways_of rw_meaning (opening self))) }
    {
        let (word, value, history) = self.cell.into_parts();
        if rw::writers(word as usize) == 0 {
            Ok((value, history))
        } else {
            Err((value, history))
        }
    }

    /// Returns a mutable reference to the value.
    ///
    /// It neither looks at the word nor acquires the lock: no other thread has the lock.
    ///
    /// # Contract
    /// Only that the call returns.
    pub fn get_mut(&mut self) -> &mut T {
        self.cell.get_mut()
    }

    /// Tries to acquire shared access. Returns `None` if a writer holds the lock or an upgrade is pending.
    ///
    /// It also returns `None` at the limit of readers, `rw::MAX_READERS`. The first compare-exchange expects a free
    /// lock. If there are readers, a second one expects the word found. More follow only while other threads change the
    /// word.
    ///
    /// # Contract
    /// The guard in `Some` is granted by one `TryRead`, and its value is the one written last in the lock's history
    /// (`Lends`). `None` promises nothing. Whether and when the call returns is not promised.
    #[must_use = "dropping the guard at once releases the lock: bind the answer, or write `drop(..)`"]
    pub fn try_read<W: Wait>(&self, rt: &W) -> Option<RwLockReadGuard<'_, T, R>>
        ensures { IfSome result (Lends TryRead Granted (new_in (opening self.now))) }
    {
        match self.pass().try_read(rt) {
            Ok(guard) => Some(guard),
            Err(_) => None,
        }
    }

    /// Like [`try_read`](Self::try_read), but needs no right to wait: it also returns `None` if another thread changes
    /// the word at the same time.
    ///
    /// It makes one load and at most one compare-exchange.
    ///
    /// # Contract
    /// The guard in `Some` is granted by one `TryRead` (`Lends`). `None` promises nothing. The call returns.
    ///
    /// # Examples
    /// ```
    /// use spin::RwLock;
    ///
    /// fn shown(limit: &RwLock<u64>) -> Option<u64> {
    ///     Some(*limit.try_read_weak()?)
    /// }
    ///
    /// let limit: RwLock<u64> = RwLock::new(3);
    /// assert_eq!(rt; shown(&limit), Some(3));
    /// let writer = limit.write(&rt);
    /// assert_eq!(rt; shown(&limit), None);
    /// drop(writer);
    /// ```
    #[must_use = "dropping the guard at once releases the lock: bind the answer, or write `drop(..)`"]
    pub fn try_read_weak(&self) -> Option<RwLockReadGuard<'_, T, R>>
        ensures { IfSome result (Lends TryRead Granted (new_in (opening self.now))) }
    {
        let (_, _, counted, word) = in_three(enter(&self.cell), RwCall::ReaderCount, None);
        let _left = finish(counted);
        let next = rw::read(word as usize, rw::MAX_READERS)?;
        let ahead = Ahead {
            old: word,
            new: next as u64,
            point: RwPoint::Exchange(word as usize),
            number: word,
            looks: true,
        };
        match exchange_for(
            enter(&self.cell),
            RwCall::TryRead,
            RwCall::ReaderCount,
            None,
            Some(Hold::Read),
            ahead,
        ) {
            Ok(session) => Some(SharedGuard::lent(session)),
            Err(session) => {
                let _left = finish(session);
                None
            }
        }
    }

    /// Tries to acquire upgradable shared access. Returns `None` if a writer or an upgradable reader holds the lock.
    ///
    /// It also returns `None` at the limit of readers. Like [`try_read`](Self::try_read) it makes a second
    /// compare-exchange if there are readers, and more only while other threads change the word.
    ///
    /// # Contract
    /// The guard in `Some` is granted by one `TryUpgradeableRead`, and its value is the one written last in the lock's
    /// history (`Lends`). `None` promises nothing. Whether and when the call returns is not promised.
    #[must_use = "dropping the guard at once releases the lock: bind the answer, or write `drop(..)`"]
    pub fn try_upgradeable_read<W: Wait>(&self, rt: &W) -> Option<RwLockUpgradableGuard<'_, T, R>>
        ensures { IfSome result (Lends TryUpgradeableRead Granted (new_in (opening self.now))) }
    {
        match self.pass().try_upgradeable_read(rt) {
            Ok(guard) => Some(guard),
            Err(_) => None,
        }
    }

    /// Tries to acquire exclusive access. Returns `None` at once if any thread holds the lock.
    ///
    /// It makes one compare-exchange.
    ///
    /// # Contract
    /// The guard in `Some` is granted by one `TryWrite`, and its value is the one written last in the lock's history
    /// (`Grants`). `None` promises nothing. The call returns.
    ///
    /// # Examples
    /// ```
    /// use spin::RwLock;
    ///
    /// let limit: RwLock<u64> = RwLock::new(3);
    /// let reader = limit.read(&rt);
    /// assert!(rt; limit.try_write().is_none());
    /// drop(reader);
    /// assert!(rt; limit.try_write().is_some());
    /// ```
    #[must_use = "dropping the guard at once releases the lock: bind the answer, or write `drop(..)`"]
    pub fn try_write<'a>(&'a self) -> Option<RwLockWriteGuard<'a, T, R>>
        ensures { IfSome result (Grants TryWrite (new_in (opening self.now))) }
    {
        match self.pass().try_write() {
            Ok(guard) => Some(guard),
            Err(_) => None,
        }
    }

    /// Like [`try_write`](Self::try_write), but may fail spuriously, so call it in a loop. (This implementation never
    /// does.)
    ///
    /// # Contract
    /// Like that of `try_write`.
    #[must_use = "dropping the guard at once releases the lock: bind the answer, or write `drop(..)`"]
    pub fn try_write_weak<'a>(&'a self) -> Option<RwLockWriteGuard<'a, T, R>>
        ensures { IfSome result (Grants TryWrite (new_in (opening self.now))) }
    {
        self.try_write()
    }

    /// Returns the number of readers at some moment during this call, including the upgradable reader.
    ///
    /// It makes one load. By the time the caller reads the answer it may be out of date.
    ///
    /// # Contract
    /// A new party has made exactly one `ReaderCount`, with this answer (`did`). It is at most `rw::MAX_READERS`
    /// (`reader_limit`). The call returns.
    ///
    /// # Examples
    /// ```
    /// use spin::RwLock;
    ///
    /// let limit: RwLock<u64> = RwLock::new(3);
    /// let (first, second) = (limit.read(&rt), limit.upgradeable_read(&rt));
    /// assert_eq!(rt; limit.reader_count(), 2);
    /// drop(first);
    /// drop(second);
    /// assert_eq!(rt; limit.reader_count(), 0);
    /// ```
    pub fn reader_count(&self) -> usize
        ensures limit { result ≤ reader_limit }
        ensures* did { sem 𝓛 (known T.row (OneCall ReaderCount (Count result) (opening self.now))) }
    {
        let (count, seen) = self.count_readers();
        forget(seen);
        count
    }

    // Makes the call of `reader_count`, and also returns what its party then knew.
    fn count_readers(&self) -> (usize, Watch<Entry<T>>)
        ensures { OneCall ReaderCount (Count result.0) (opening self.now) result.1 × (result.0 ≤ reader_limit) }
    {
        let (count, pass) = self.pass().reader_count();
        (count, pass.into_seen())
    }

    /// Returns the number of writers at some moment during this call: 0 or 1.
    ///
    /// It makes one load. By the time the caller reads the answer it may be out of date.
    ///
    /// # Contract
    /// A new party has made exactly one `WriterCount`, with this answer (`did`), which is at most 1. The call returns.
    ///
    /// # Examples
    /// ```
    /// use spin::RwLock;
    ///
    /// let limit: RwLock<u64> = RwLock::new(3);
    /// assert_eq!(rt; limit.writer_count(), 0);
    /// let writer = limit.write(&rt);
    /// assert_eq!(rt; limit.writer_count(), 1);
    /// drop(writer);
    /// ```
    pub fn writer_count(&self) -> usize
        ensures limit { result ≤ 1 }
        ensures* did { sem 𝓛 (known T.row (OneCall WriterCount (Count result) (opening self.now))) }
    {
        let (count, seen) = self.count_writers();
        forget(seen);
        count
    }

    // Makes the call of `writer_count`, and also returns what its party then knew.
    fn count_writers(&self) -> (usize, Watch<Entry<T>>)
        ensures { OneCall WriterCount (Count result.0) (opening self.now) result.1 × (result.0 ≤ 1) }
    {
        let (count, pass) = self.pass().writer_count();
        (count, pass.into_seen())
    }

    /// Returns `true` if any thread holds the lock at some moment during this call, as a reader or as the writer.
    ///
    /// It makes one load. By the time the caller reads the answer it may be out of date.
    ///
    /// # Contract
    /// A new party has made exactly one `IsLocked`, with this answer (`did`). The call returns.
    ///
    /// # Examples
    /// ```
    /// use spin::RwLock;
    ///
    /// let limit: RwLock<u64> = RwLock::new(3);
    /// let reader = limit.read(&rt);
    /// assert_eq!(rt; (limit.is_locked(), limit.is_locked_exclusive()), (true, false));
    /// drop(reader);
    /// assert!(rt; !limit.is_locked());
    /// ```
    pub fn is_locked(&self) -> bool
        ensures* did { sem 𝓛 (known T.row (OneCall IsLocked (Is result) (opening self.now))) }
    {
        let (is_locked, seen) = self.look();
        forget(seen);
        is_locked
    }

    // Makes the call of `is_locked`, and also returns what its party then knew.
    fn look(&self) -> (bool, Watch<Entry<T>>)
        ensures { OneCall IsLocked (Is result.0) (opening self.now) result.1 }
    {
        let (is_locked, pass) = self.pass().is_locked();
        (is_locked, pass.into_seen())
    }

    /// Returns `true` if a writer holds the lock at some moment during this call.
    ///
    /// It makes one load. By the time the caller reads the answer it may be out of date.
    ///
    /// # Contract
    /// A new party has made exactly one `WriterCount`, whose answer is 1 exactly if this one is `true` (`did`). The call
    /// returns.
    ///
    /// # Examples
    /// ```
    /// use spin::RwLock;
    ///
    /// let limit: RwLock<u64> = RwLock::new(3);
    /// let writer = limit.write(&rt);
    /// assert!(rt; limit.is_locked_exclusive());
    /// drop(writer);
    /// assert!(rt; !limit.is_locked_exclusive());
    /// ```
    pub fn is_locked_exclusive(&self) -> bool
        ensures* did { sem 𝓛 (known T.row (OneCallFor result (opening self.now))) }
    {
        let (is_locked, seen) = self.look_for_a_writer();
        forget(seen);
        is_locked
    }

    // Makes the call of `is_locked_exclusive`, and also returns what its party then knew.
    fn look_for_a_writer(&self) -> (bool, Watch<Entry<T>>)
        ensures { OneCallFor result.0 (opening self.now) result.1 }
    {
        let (count, seen) = self.count_writers();
        (count == 1, seen)
    }

    /// Releases the shared access that the hold keeps.
    ///
    /// A hold releases its access at most once, since the call consumes it.
    ///
    /// # Contract
    /// Only that the call returns.
    pub fn force_read_decrement(held: ReadHeld<'_, T, R>) {
        drop(held.into_guard());
    }

    /// Releases the exclusive access that the hold keeps.
    ///
    /// A hold releases its access at most once, since the call consumes it.
    ///
    /// # Contract
    /// Only that the call returns.
    pub fn force_write_unlock(held: WriteHeld<'_, T, R>) {
        drop(held.into_guard());
    }
}

impl<T, R, V, P: Rule<T, V>> RwLock<T, R, V, P> {
    /// Consumes the lock and returns the value.
    ///
    /// It does not look at the word: no other thread has the lock. The value is returned even
    /// if a guard was leaked, or a hold dropped.
    ///
    /// # Contract
    /// Only that the call returns.
    pub fn into_inner(self) -> T {
        self.cell.into_inner()
    }

    /// Consumes the lock and returns the value with the lock's whole history.
    ///
    /// # Contract
    /// The history is a schedule of the lock's model. Unless a party still writes the value at its end (a guard was
    /// leaked, or a hold dropped), the value is the one written last (`Ends`). The history begins with what a pass knew
    /// ([`covers`](spin_core::trace::Trace::covers)). The call returns.
    pub fn into_history(self) -> (T, P::Second)
        ensures { Ends (P.holds (key_of self)) (P.ways (key_of self)) result }
    {
        let (_, value, history) = self.cell.into_parts();
        (value, history)
    }
}

impl<T, R: RelaxStrategy> RwLock<T, R> {
    /// Acquires shared access, spinning while a writer holds the lock or an upgrade is pending.
    ///
    /// It also spins at the limit of readers, `rw::MAX_READERS`. A waiting thread relaxes with strategy `R`; a reader
    /// whose exchange fails twice backs off. The call never returns if its own thread holds the lock as a writer.
    ///
    /// # Contract
    /// The guard is granted by one `Read`, and its value is the one written last in the lock's history (`Lends`).
    /// Whether and when the call returns is not promised.
    #[inline(always)]
    pub fn read<W: Wait>(&self, rt: &W) -> RwLockReadGuard<'_, T, R>
        ensures { Lends Read Granted (new_in (opening self.now)) result }
    {
        lend(enter(&self.cell), rt)
    }

    /// Acquires upgradable shared access, spinning while a writer or an upgradable reader holds the lock.
    ///
    /// It waits as [`read`](Self::read) does. The call never returns if its own thread is the writer or the upgradable
    /// reader.
    ///
    /// # Contract
    /// The guard is granted by one `UpgradeableRead`, and its value is the one written last in the lock's history
    /// (`Lends`). Whether and when the call returns is not promised.
    ///
    /// # Examples
    /// ```
    /// use spin::RwLock;
    ///
    /// let limit: RwLock<u64> = RwLock::new(3);
    /// let guard = limit.upgradeable_read(&rt);
    /// assert!(rt; limit.try_read(&rt).is_some());
    /// assert!(rt; limit.try_upgradeable_read(&rt).is_none());
    /// assert_eq!(rt; *guard, 3);
    /// ```
    #[inline(always)]
    pub fn upgradeable_read<W: Wait>(&self, rt: &W) -> RwLockUpgradableGuard<'_, T, R>
        ensures { Lends UpgradeableRead Granted (new_in (opening self.now)) result }
    {
        lend(enter(&self.cell), rt)
    }

    /// Acquires exclusive access, spinning until no thread holds the lock.
    ///
    /// After a failed attempt the thread backs off: it pauses with strategy `R` and tries again. With [`Spin`] each
    /// pause is twice as long as the last one, up to a limit. The call never returns if its own thread holds the lock.
    ///
    /// # Contract
    /// The guard is granted by one `Write`, and its value is the one written last in the lock's history (`Grants`).
    /// Whether and when the call returns is not promised.
    ///
    /// # Examples
    /// ```
    /// use spin::RwLock;
    ///
    /// let limit: RwLock<u64> = RwLock::new(3);
    /// let mut writer = limit.write(&rt);
    /// *writer = 4;
    /// assert!(rt; limit.try_read(&rt).is_none());
    /// drop(writer);
    /// assert_eq!(rt; *limit.read(&rt), 4);
    /// ```
    #[inline(always)]
    pub fn write<W: Wait>(&self, rt: &W) -> RwLockWriteGuard<'_, T, R>
        ensures { Grants Write (new_in (opening self.now)) result }
    {
        grant(enter(&self.cell), rt)
    }
}

// Ends a watch.
fn forget<T>(seen: Watch<Entry<T>>) {
    seen.end();
}

/// Creates an unlocked lock that holds the default value.
impl<T: Default, R> Default for RwLock<T, R> {
    ghost is_default = { λ lock. (value : T) × T.is_default value × OpensWith value (opening lock) };

    fn default() -> Self {
        Self::new(T::default())
    }
}

/// Creates an unlocked lock that holds the value.
impl<T, R> From<T> for RwLock<T, R> {
    ghost from_gives = { λ value lock. OpensWith value (opening lock) };

    fn from(value: T) -> Self {
        Self::new(value)
    }
}

impl<'a, T: 'a, R: RelaxStrategy + 'a> Acquire<'a> for RwLock<T, R> {
    type Guard = RwLockWriteGuard<'a, T, R>;

    type Relax = R;

    ghost grants = { λ lock guard. Grants Write (new_in (opening lock)) guard };

    ghost tries = { λ lock guard. Grants TryWrite (new_in (opening lock)) guard };

    fn acquire<W: Wait>(&'a self, rt: &W) -> RwLockWriteGuard<'a, T, R> {
        self.write(rt)
    }

    fn try_acquire(&'a self) -> Option<RwLockWriteGuard<'a, T, R>> {
        self.try_write()
    }
}

impl<'a, T: 'a, R: RelaxStrategy + 'a> AcquireShared<'a> for RwLock<T, R> {
    type Shared = RwLockReadGuard<'a, T, R>;

    type Relax = R;

    ghost lends = { λ lock guard. Lends Read Granted (new_in (opening lock)) guard };

    ghost tries = { λ lock guard. Lends TryRead Granted (new_in (opening lock)) guard };

    fn acquire_shared<W: Wait>(&'a self, rt: &W) -> RwLockReadGuard<'a, T, R> {
        self.read(rt)
    }

    fn try_acquire_shared<W: Wait>(&'a self, rt: &W) -> Option<RwLockReadGuard<'a, T, R>> {
        self.try_read(rt)
    }
}

impl<T, R: RelaxStrategy> Lock<T> for RwLock<T, R> {
    fn with<A, F: FnOnce(&mut T) -> A, W: Wait>(&self, rt: &W, by: F) -> A {
        by(&mut *self.write(rt))
    }

    fn try_with<A, F: FnOnce(&mut T) -> A>(&self, by: F) -> Result<A, F> {
        with_guard(self.try_write(), by)
    }
}

impl<T, R: RelaxStrategy> SharedLock<T> for RwLock<T, R> {
    fn with_shared<A, F: FnOnce(&T) -> A, W: Wait>(&self, rt: &W, by: F) -> A {
        by(&*self.read(rt))
    }

    fn try_with_shared<A, F: FnOnce(&T) -> A, W: Wait>(&self, rt: &W, by: F) -> Result<A, F> {
        match self.try_read(rt) {
            Some(guard) => Ok(by(&*guard)),
            None => Err(by),
        }
    }
}

impl<'a, T: 'a, R: RelaxStrategy + 'a> Reserve<'a> for RwLock<T, R> {
    type Place = RwLockUpgradableGuard<'a, T, R>;

    ghost has = { λ lock reader. Lends UpgradeableRead Granted (new_in (opening lock)) reader };

    fn reserve<W: Wait>(&'a self, rt: &W) -> Option<RwLockUpgradableGuard<'a, T, R>> {
        Some(self.upgradeable_read(rt))
    }
}

// SAFETY: sending the lock sends its cell, which owns the value. No value of the rule exists.
unsafe impl<T: Send, R, V, P: Rule<T, V>> Send for RwLock<T, R, V, P> {}

// SAFETY: any thread may write the value, and several may read it at once. The cell also asks that its rule is `Sync`.
unsafe impl<T: Send + Sync, R, V, P: Rule<T, V> + Sync> Sync for RwLock<T, R, V, P> {}
