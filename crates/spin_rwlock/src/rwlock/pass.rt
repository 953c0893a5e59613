//! The calls of an [`RwLock`] by a thread that keeps track of them. Begin at [`RwLock::pass`].
ghost use Rattle.std.specs.Prelude.{◌≡◌, ◌≤◌, true, false, None, Some, Option, IfOk, IfErr};
ghost use Rattle.spin_core.specs.Logs.{OneIsPrefix};
ghost use Rattle.spin_core.specs.Calls.{AnswersOf, AnswersOfShared};
ghost use Rattle.spin_core.specs.Own.{what};
ghost use Rattle.spin_step.specs.declared.answer.Answer.{Answer as AnAnswer};
ghost use Rattle.spin_step.specs.declared.answer.Answer.TheVariants.{Granted, Refused, Count, Done, Is};
ghost use Rattle.spin_step.specs.declared.place.Hold.{Hold as AHold};
ghost use Rattle.spin_step_more.specs.Readers.{reader_limit};
ghost use Rattle.spin_step_more.specs.declared.rw_calls.RwCall.TheVariants.{TryRead, Read, TryUpgradeableRead, UpgradeableRead, TryWrite, Write, ReaderCount, WriterCount, IsLocked, Release};
ghost use Rattle.spin_session.specs.Turns.{Ended, GoesOn, Knows, SeesLast, SeesOn, Stands, StaysQuiet, Under, is_granted, spot_of};
ghost use Rattle.spin_rwlock.specs.Rw.{call_of, rw_meaning, rw_tables};
ghost use Rattle.spin_rwlock.specs.RwPasses.{◌⨾◌, Calls, Grants, KnowsItsSteps, Learns, Lends, Recalls, RwSpot, ShowsLast, Unlocks, WroteSome, history, lock_of, new_in, opening, opening_of, shared_spot};

use super::RwLock;
use super::reader::{RwLockReadGuard, SharedGuard};
use super::rule::{Entry, Kind, Party, Reader, RwRule, RwSession, Upgrader, call_of};
use super::upgradable::RwLockUpgradableGuard;
use super::writer::RwLockWriteGuard;
use spin_core::relax::RelaxStrategy;
use spin_core::trace::{Knows, Watch};
use spin_session::calls::{self, after, ask, enter, finish};
use spin_session::session::Session;
use spin_session_more::calls::{attempt, try_for};
use spin_session_more::leaps::begin_ahead;
use spin_step::{Answer, Hold, Next};
use spin_step_more::rw_calls::{RwCall, RwPoint};
use std::fmt;
use std::fmt::{Debug, Formatter};
use std::marker::{Model, PhantomData};
use std::sync::Wait;

/// A thread's record of its calls of an [`RwLock`].
///
/// The lock's cell keeps the list of all moves that threads have made in it (its history). A pass knows which of these
/// moves are its own, and the whole list up to its own last move. Calls without a pass are in the history too, as calls
/// of others. A pass is as large as a reference to the lock. It can be sent, and a lock can have any number of passes.
///
/// # Contract
/// A call takes the pass, or a guard, which knows what its party knew when it acquired the lock. It returns the pass or
/// a guard. The call ensures `Calls`: in the history the pass's new moves are those of exactly one call, and this
/// call has the returned answer. (`with` and `with_shared` make two calls: one acquires the lock, the other releases
/// it.) The lock's model plays the moves of all threads in the order of the history. It skips no move, and gives this
/// call the same answer.
///
/// Before a writer releases or downgrades, it records its value in the history (`Unlocks`). So the value of a guard is
/// the one written last in the history (`Lends`, `Grants`), until the owner borrows the value by `get_mut`.
///
/// # Examples
/// ```
/// use spin::RwLock;
///
/// let limit: RwLock<u64> = RwLock::new(3);
/// let reader = limit.pass().read(&rt);
/// assert_eq!(rt; *reader, 3);
/// let (count, pass) = RwLock::unlock_shared(reader).reader_count();
/// assert_eq!(rt; count, 0);
/// drop(pass);
/// ```
#[must_use = "a pass that is dropped ends: bind it, or write `drop(..)`"]
pub struct Pass<'a, T, R> {
    pub(super) session: Session<'a, T, Party, Entry<T>, RwRule<T>>,
    pub(super) strategy: PhantomData<R>,
}

impl<'a, T, R> Model for Pass<'a, T, R> {
    ghost Value = { RwSpot T };

    ghost view = { λ pass. spot_of pass.session };

    ghost invariant = { λ pass. Stands None pass.session };
}

impl<T, R> RwLock<T, R> {
    /// Returns a pass that has made no call. It makes no operation on the lock.
    ///
    /// # Contract
    /// The pass is of this lock, and knows nothing of its history yet (`new`).
    pub fn pass(&self) -> Pass<'_, T, R>
        ensures new { result ≡ new_in (opening self.now) }
    {
        Pass {
            session: enter(&self.cell),
            strategy: PhantomData,
        }
    }

    /// Releases the shared access of a reader of either kind, and returns the pass of its party.
    ///
    /// A guard that is dropped releases the lock too, and ends its pass.
    ///
    /// # Contract
    /// The release is the next call of the party that acquired the guard, with or without a pass (`made`). The guard's
    /// value is still the one written last in the history (`still`).
    pub fn unlock_shared<'a, K: Kind>(guard: SharedGuard<'a, T, K, R>) -> Pass<'a, T, R>
        ensures still { ShowsLast guard.entry result }
        ensures made { Calls Release Done (shared_spot guard.entry) result }
    {
        Pass {
            session: guard.release(),
            strategy: PhantomData,
        }
    }

    /// Releases the exclusive access of the writer, and returns the pass of its party.
    ///
    /// A guard that is dropped releases the lock too, and ends its pass.
    ///
    /// # Contract
    /// The guard has to be one that a call of this lock returned (`KnowsItsSteps`), with or without a pass. The release is the
    /// next call of its party. Just before the release the party writes the guard's value into the history, so this
    /// value is the one written last (`Unlocks`).
    pub fn unlock<'a>(guard: RwLockWriteGuard<'a, T, R>) -> Pass<'a, T, R>
        requires { KnowsItsSteps guard }
        ensures { Unlocks Release guard.entry result }
    {
        Pass {
            session: guard.leave(RwCall::Release, None),
            strategy: PhantomData,
        }
    }
}

impl<'a, T, R: RelaxStrategy> Pass<'a, T, R> {
    /// Acquires shared access as [`RwLock::read`] does.
    ///
    /// # Contract
    /// The call is one `Read` with the answer `Granted`, however often it looked and tried. The guard's value is the
    /// one written last in the history (`Lends`). Whether and when the call returns is not promised.
    #[inline(always)]
    pub fn read<W: Wait>(self, rt: &W) -> RwLockReadGuard<'a, T, R>
        ensures { Lends Read Granted self.entry result }
    {
        lend(self.into_session(), rt)
    }

    /// Acquires upgradable shared access as [`RwLock::upgradeable_read`] does.
    ///
    /// # Contract
    /// The call is one `UpgradeableRead` with the answer `Granted`, however often it looked and tried. The guard's
    /// value is the one written last in the history (`Lends`). Whether and when the call returns is not promised.
    #[inline(always)]
    pub fn upgradeable_read<W: Wait>(self, rt: &W) -> RwLockUpgradableGuard<'a, T, R>
        ensures { Lends UpgradeableRead Granted self.entry result }
    {
        lend(self.into_session(), rt)
    }

    /// Acquires exclusive access as [`RwLock::write`] does.
    ///
    /// # Contract
    /// The call is one `Write` with the answer `Granted`, however often it tried. The guard's value is the one written
    /// last in the history (`Grants`). Whether and when the call returns is not promised.
    ///
    /// # Examples
    /// ```
    /// use spin::RwLock;
    ///
    /// let limit: RwLock<u64> = RwLock::new(3);
    /// let mut writer = limit.pass().write(&rt);
    /// *writer = 4;
    /// let reader = writer.downgrade();
    /// assert_eq!(rt; *reader, 4);
    /// let (count, pass) = RwLock::unlock_shared(reader).writer_count();
    /// assert_eq!(rt; count, 0);
    /// drop(pass);
    /// ```
    pub fn write<W: Wait>(self, rt: &W) -> RwLockWriteGuard<'a, T, R>
        ensures { Grants Write self.entry result }
    {
        grant(self.into_session(), rt)
    }

    /// Acquires exclusive access, calls the closure with the value, and releases the access, as the lock's own
    /// [`with`](spin_core::lock::Lock::with) does.
    ///
    /// # Contract
    /// The closure has to be always callable. Its answer is returned (`answers`). The pass made one `Write`. Then it
    /// wrote the value that the closure left, and made one `Release` (`made`). Whether and when the call returns is not
    /// promised.
    ///
    /// # Examples
    /// ```
    /// use spin::RwLock;
    ///
    /// let limit: RwLock<u64> = RwLock::new(3);
    /// let (_, pass) = limit.pass().with(&rt, |value| *value = 4);
    /// let (value, pass) = pass.with_shared(&rt, |value| *value);
    /// assert_eq!(rt; value, 4);
    /// drop(pass);
    /// ```
    pub fn with<A, F: FnOnce(&mut T) -> A, W: Wait>(self, rt: &W, by: F) -> (A, Pass<'a, T, R>)
        requires { F.IsAlwaysCallable by }
        ensures answers { AnswersOf F.FnOnce by result.0 }
        ensures made { (Calls Write Granted ⨾ WroteSome Release) self.entry result.1 }
    {
        let mut guard = self.write(rt);
        let answer = by(&mut *guard);
        (answer, RwLock::unlock(guard))
    }

    /// Acquires shared access, calls the closure with the value, and releases the access, as the lock's own
    /// [`with_shared`](spin_core::lock::SharedLock::with_shared) does.
    ///
    /// # Contract
    /// The closure has to be always callable. Its answer is returned (`answers`). The pass made one `Read`, and then
    /// one `Release` (`made`): it never held the lock as a writer. Whether and when the call returns is not promised.
    pub fn with_shared<A, F: FnOnce(&T) -> A, W: Wait>(self, rt: &W, by: F) -> (A, Pass<'a, T, R>)
        requires { F.IsAlwaysCallable by }
        ensures answers { AnswersOfShared F.FnOnce by result.0 }
        ensures made { (Calls Read Granted ⨾ Calls Release Done) self.entry result.1 }
    {
        let guard = self.read(rt);
        let answer = by(&*guard);
        (answer, RwLock::unlock_shared(guard))
    }
}

impl<'a, T, R> Pass<'a, T, R> {
    fn into_session(self) -> RwSession<'a, T>
        ensures { (spot_of result ≡ self.entry) × Stands None result }
    {
        let Self {
            session,
            strategy: _,
        } = self;
        session
    }

    /// Tries to acquire shared access as [`RwLock::try_read`] does. A failure returns the pass.
    ///
    /// # Contract
    /// The call is one `TryRead`, with the answer `Granted` and a guard (`granted`), or else `Refused` (`refused`). The
    /// guard's value is the one written last in the history. Whether and when the call returns is not
    /// promised.
    pub fn try_read<W: Wait>(self, rt: &W) -> Result<RwLockReadGuard<'a, T, R>, Pass<'a, T, R>>
        ensures granted { IfOk result (Lends TryRead Granted self.entry) }
        ensures refused { IfErr result (λ pass. Calls TryRead Refused self.entry pass) }
    {
        self.try_lend::<Reader, _>(rt)
    }

    /// Tries to acquire upgradable shared access as [`RwLock::try_upgradeable_read`] does. A failure returns the pass.
    ///
    /// # Contract
    /// The call is one `TryUpgradeableRead`, with the answer `Granted` and a guard (`granted`), or else `Refused`
    /// (`refused`). The guard's value is the one written last in the history. Whether and when the call
    /// returns is not promised.
    pub fn try_upgradeable_read<W: Wait>(
        self,
        rt: &W,
    ) -> Result<RwLockUpgradableGuard<'a, T, R>, Pass<'a, T, R>>
        ensures granted { IfOk result (Lends TryUpgradeableRead Granted self.entry) }
        ensures refused { IfErr result (λ pass. Calls TryUpgradeableRead Refused self.entry pass) }
    {
        self.try_lend::<Upgrader, _>(rt)
    }

    /// Tries to acquire exclusive access as [`RwLock::try_write`] does. Returns the pass at once if any thread holds
    /// the lock.
    ///
    /// # Contract
    /// The call is one `TryWrite`, with the answer `Granted` and a guard (`granted`), or else `Refused`
    /// (`refused`). The guard's value is the one written last in the history. The call returns.
    ///
    /// # Examples
    /// ```
    /// use spin::RwLock;
    ///
    /// let limit: RwLock<u64> = RwLock::new(3);
    /// let reader = limit.read(&rt);
    /// let pass = limit.pass().try_write().err().expect(&rt, "it has a reader");
    /// drop(reader);
    /// assert!(rt; pass.try_write().is_ok());
    /// ```
    pub fn try_write(self) -> Result<RwLockWriteGuard<'a, T, R>, Pass<'a, T, R>>
        ensures granted { IfOk result (Grants TryWrite self.entry) }
        ensures refused { IfErr result (λ pass. Calls TryWrite Refused self.entry pass) }
    {
        let Self { session, strategy } = self;
        match attempt(session, RwCall::TryWrite, None, Some(Hold::Write)) {
            Ok(session) => Ok(RwLockWriteGuard::written(session)),
            Err(session) => Err(Pass { session, strategy }),
        }
    }

    // Tries to come as a reader of this kind.
    fn try_lend<K: Kind, W: Wait>(self, rt: &W) -> Result<SharedGuard<'a, T, K, R>, Pass<'a, T, R>>
        ensures granted { IfOk result (Lends (call_of K.hold false) Granted self.entry) }
        ensures refused { IfErr result (Calls (call_of K.hold false) Refused self.entry) }
    {
        let Self { session, strategy } = self;
        match try_for(
            session,
            call_of(K::hold(), false),
            None,
            Some(K::hold()),
            rt,
        ) {
            Ok(session) => Ok(SharedGuard::lent(session)),
            Err(session) => Err(Pass { session, strategy }),
        }
    }

    /// Counts the readers, as [`RwLock::reader_count`] does.
    ///
    /// # Contract
    /// The call is one `ReaderCount`, with the returned answer (`made`), which is at most `rw::MAX_READERS`
    /// (`reader_limit`).
    pub fn reader_count(self) -> (usize, Pass<'a, T, R>)
        ensures limit { result.0 ≤ reader_limit }
        ensures made { Calls ReaderCount (Count result.0) self.entry result.1 }
    {
        let Self { session, strategy } = self;
        match ask(session, RwCall::ReaderCount, None) {
            (Answer::Count(number), session) => (number, Pass { session, strategy }),
            _ => unreachable!(),
        }
    }

    /// Counts the writers, as [`RwLock::writer_count`] does.
    ///
    /// # Contract
    /// The call is one `WriterCount`, with the returned answer, 0 or 1 (`made`).
    pub fn writer_count(self) -> (usize, Pass<'a, T, R>)
        ensures limit { result.0 ≤ 1 }
        ensures made { Calls WriterCount (Count result.0) self.entry result.1 }
    {
        let Self { session, strategy } = self;
        match ask(session, RwCall::WriterCount, None) {
            (Answer::Count(number), session) => (number, Pass { session, strategy }),
            _ => unreachable!(),
        }
    }

    /// Returns whether any thread holds the lock, as [`RwLock::is_locked`] does.
    ///
    /// # Contract
    /// The call is one `IsLocked`, with the returned answer.
    ///
    /// # Examples
    /// ```
    /// use spin::RwLock;
    ///
    /// let limit: RwLock<u64> = RwLock::new(3);
    /// let reader = limit.read(&rt);
    /// let (is_locked, pass) = limit.pass().is_locked();
    /// assert!(rt; is_locked);
    /// drop(reader);
    /// assert!(rt; !pass.is_locked().0);
    /// ```
    pub fn is_locked(self) -> (bool, Pass<'a, T, R>)
        ensures { Calls IsLocked (Is result.0) self.entry result.1 }
    {
        let Self { session, strategy } = self;
        match ask(session, RwCall::IsLocked, None) {
            (Answer::Is(is_locked), session) => (is_locked, Pass { session, strategy }),
            _ => unreachable!(),
        }
    }

    /// Returns this pass, which then also knows what the other knows: a pass, a guard, or what one has
    /// [`seen`](Pass::seen). It does nothing when it runs.
    ///
    /// So the next call of this pass comes after the calls that the other knows by now.
    ///
    /// # Contract
    /// The history that the returned pass knows is the longer of the two, of which the other is a prefix (`Learns`).
    ///
    /// # Examples
    /// ```
    /// use spin::RwLock;
    ///
    /// let limit: RwLock<u64> = RwLock::new(3);
    /// let mut guard = limit.write(&rt);
    /// *guard = 4;
    /// let writer = RwLock::unlock(guard);
    /// let reader = limit.pass().after(&writer);
    /// assert_eq!(rt; *reader.read(&rt), 4);
    /// drop(writer);
    /// ```
    pub fn after<K: Knows<Entry<T>>>(self, earlier: &K) -> Pass<'a, T, R>
        requires { lock_of self ≡ K.of earlier.now }
        ensures { Learns (K.entries earlier.now) self.entry result }
    {
        let Self { session, strategy } = self;
        Pass {
            session: after(session, &earlier.known()),
            strategy,
        }
    }

    /// Returns what this pass knows of the lock's history. It outlives the lock's borrow.
    ///
    /// # Contract
    /// It is what the pass knows (`Recalls`).
    pub fn seen(&self) -> Watch<Entry<T>>
        ensures { Recalls self.now result }
    {
        self.session.seen.copy()
    }

    // Ends the pass, and returns what it knew.
    pub(super) fn into_seen(self) -> Watch<Entry<T>>
        ensures { Recalls self.entry result }
    {
        let seen = self.seen();
        drop(self);
        seen
    }

    /// Compares what two passes of one lock know. It does nothing when it runs.
    ///
    /// # Contract
    /// The history that one of the passes knows is a prefix of the history that the other knows. The longer of the two
    /// histories has the calls of both passes, in the order in which each pass made them.
    pub fn compare(&self, other: &Pass<'_, T, R>)
        requires { lock_of self.now ≡ lock_of other.now }
        ensures { OneIsPrefix (history self.now) (history other.now) }
    {
        self.session.seen.compare(&other.session.seen);
    }
}

// Waits until the lock admits a reader of this kind. It begins the call itself, since each call of a function that may wait
// tests a byte.
#[inline(always)]
pub(super) fn lend<'a, T, K: Kind, R: RelaxStrategy, W: Wait>(
    session: RwSession<'a, T>,
    rt: &W,
) -> SharedGuard<'a, T, K, R>
    requires { Stands None session }
    ensures { Lends (call_of K.hold true) Granted (spot_of session.entry) result }
{
    let call = call_of(K::hold(), true);
    let (next, point, found, session) = begin_ahead(session, call, None);
    match next {
        Next::Answers(_, _) => SharedGuard::lent(session),
        Next::Continue(_) => SharedGuard::lent(wait::<T, R, W>(session, call, point, found, rt).0),
    }
}

// Waits until the lock admits a writer, as `lend` does.
#[inline(always)]
pub(super) fn grant<'a, T, R: RelaxStrategy, W: Wait>(
    session: RwSession<'a, T>,
    rt: &W,
) -> RwLockWriteGuard<'a, T, R>
    requires { Stands None session }
    ensures { Grants Write (spot_of session.entry) result }
{
    let call = RwCall::Write;
    let (next, point, found, session) = begin_ahead(session, call, None);
    match next {
        Next::Answers(_, _) => RwLockWriteGuard::written(session),
        Next::Continue(_) => {
            RwLockWriteGuard::written(wait::<T, R, W>(session, call, point, found, rt).0)
        }
    }
}

// Goes on with the call of a party that holds nothing. `calls::wait` takes what a party holds through memory: here a
// caller that is admitted at once does not write it.
#[cold]
#[inline(never)]
fn wait<'a, T, R: RelaxStrategy, W: Wait>(
    session: RwSession<'a, T>,
    call: RwCall,
    point: RwPoint,
    found: u64,
    rt: &W,
) -> (RwSession<'a, T>, bool)
    requires knows { Knows rw_meaning (spot_of session) }
    requires goes { GoesOn rw_tables call point None found session.permit.key (what session.permit.view) }
    requires quiet { StaysQuiet rw_meaning call None }
    ensures knows { Knows rw_meaning (spot_of result.0) }
    ensures ended { (p : RwSpot T) → Under rw_tables rw_meaning call p (spot_of session.entry) → (a : AnAnswer (Unit {0})) × (after : Option AHold) × Ended rw_tables rw_meaning call None a after p (spot_of result.0) × (is_granted a ≡ result.1) }
    ensures last { SeesLast result.0 }
    ensures sees { (v : Option T) → SeesOn rw_meaning call None v session.entry → SeesOn rw_meaning call None v result.0 }
{
    calls::wait::<T, RwRule<T>, R, W>(session, call, point, None, found, rt)
}

impl<T, R> Knows<Entry<T>> for Pass<'_, T, R> {
    ghost of = { λ pass. lock_of pass };

    ghost entries = { λ pass. history pass };

    fn known(&self) -> Watch<Entry<T>> {
        self.session.seen.copy()
    }
}

impl<T, R> Drop for Pass<'_, T, R> {
    fn drop(self) {
        let Self {
            session,
            strategy: _,
        } = self;
        let _left = finish(session);
    }
}

/// Prints `Pass { .. }`.
impl<T, R> Debug for Pass<'_, T, R> {
    fn fmt<W: fmt::Write>(&self, f: &mut Formatter<W>) -> fmt::Result {
        f.debug_struct("Pass").finish_non_exhaustive()
    }
}
