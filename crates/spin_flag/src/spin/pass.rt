//! The calls of a [`SpinMutex`] by a thread that keeps track of them. Begin at [`SpinMutex::pass`].
ghost use Rattle.std.specs.Prelude.{◌≡◌, None, IfOk, IfErr};
ghost use Rattle.spin_core.specs.Logs.{OneIsPrefix};
ghost use Rattle.spin_session.specs.Turns.{Stands, history, lock_of, spot_of};
ghost use Rattle.spin_flag.specs.Passes.{Calls, FlagSpot, Grants, Holds, Learns, Recalls, Unlocks, new_in, opening};
ghost use Rattle.spin_step.specs.declared.answer.Answer.TheVariants.{Refused, Is};
ghost use Rattle.spin_step.specs.declared.flag_calls.FlagCall.TheVariants.{Lock, TryLock, IsLocked};

use super::rule::{Entry, FlagRule};
use super::{SpinMutex, SpinMutexGuard};
use spin_core::guard::Guard;
use spin_core::relax::RelaxStrategy;
use spin_core::trace::{Knows, Watch};
use spin_session::calls::{SessionOf, acquire, after, ask, enter, finish, give, try_to_acquire};
use spin_step::{Answer, FlagCall, Hold};
use std::fmt;
use std::fmt::{Debug, Formatter};
use std::marker::{Model, PhantomData};
use std::sync::Wait;

/// A thread's record of its calls of a [`SpinMutex`].
///
/// The lock's cell keeps the list of all moves that threads have made in it (its history). A pass knows which of these
/// moves are its own, and the whole list up to its own last move. Calls without a pass are in the history too, as calls
/// of others. A pass is as large as a reference to the lock. It can be sent, and a lock can have any number of passes.
///
/// # Contract
/// A call takes the pass, or a guard, which knows what its party knew when it acquired the lock. It returns the pass or
/// a guard. The call ensures `Calls`: in the history the pass's new moves are those of exactly one call, and this
/// call has the returned answer. (`unlock` also writes the guard's value: `Unlocks`.) The lock's model plays the moves
/// of all threads in the order of the history. It skips no move, and gives this call the same answer.
///
/// # Examples
/// ```
/// use spin::mutex::SpinMutex;
///
/// let lock: SpinMutex<u64> = SpinMutex::new(4);
/// let mut guard = lock.pass().lock(&rt);
/// *guard = 5;
/// let pass = SpinMutex::unlock(guard);
/// let (is_locked, pass) = pass.is_locked();
/// assert!(rt; !is_locked);
/// drop(pass);
/// ```
#[must_use = "a pass that is dropped ends: bind it, or write `drop(..)`"]
pub struct Pass<'a, T, R> {
    session: SessionOf<'a, T, FlagRule>,
    strategy: PhantomData<R>,
}

impl<'a, T, R> Model for Pass<'a, T, R> {
    ghost Value = { FlagSpot T };

    ghost view = { λ pass. spot_of pass.session };

    ghost invariant = { λ pass. Stands None pass.session };
}

impl<T, R> SpinMutex<T, R> {
    /// Returns a pass that has made no call. It makes no operation on the lock.
    ///
    /// # Contract
    /// The pass is of this lock, and knows nothing of its history yet (`new`).
    pub fn pass(&self) -> Pass<'_, T, R>
        ensures new { result ≡ new_in (opening self.now) }
    {
        Pass {
            session: enter(&self.cell),
            strategy: PhantomData,
        }
    }

    /// Releases the lock, and returns the pass of the party that held it.
    ///
    /// A guard that is dropped releases the lock too, and ends its pass.
    ///
    /// # Contract
    /// The guard has to be one that a call of this lock returned (`Holds`), with or without a pass. The release is the
    /// next call of its party. Just before the release the party writes the guard's value into the history, so this
    /// value is the one written last (`Unlocks`).
    pub fn unlock<'a>(guard: SpinMutexGuard<'a, T, R>) -> Pass<'a, T, R>
        requires { Holds guard }
        ensures { Unlocks guard.entry result }
    {
        let (writer, seen) = Guard::into_parts(guard);
        Pass {
            session: give::<T, FlagRule>(writer, seen, FlagCall::Release, Hold::Write, None),
            strategy: PhantomData,
        }
    }
}

impl<'a, T, R: RelaxStrategy> Pass<'a, T, R> {
    /// Acquires the lock as [`SpinMutex::lock`] does.
    ///
    /// # Contract
    /// The call is one `Lock` with the answer `Granted`, however often it looked and tried. The guard belongs to a
    /// holder of the lock, and its value is the one written last in the history (`Grants`). Whether and when the call
    /// returns is not promised.
    pub fn lock<W: Wait>(self, rt: &W) -> SpinMutexGuard<'a, T, R>
        ensures { Grants Lock self.entry result }
    {
        let Self {
            session,
            strategy: _,
        } = self;
        acquire(session, FlagCall::Lock, None, rt)
    }
}

impl<'a, T, R> Pass<'a, T, R> {
    /// Tries to acquire the lock as [`SpinMutex::try_lock`] does. Returns the pass at once if the lock is held.
    ///
    /// # Contract
    /// The call is one `TryLock`. Its answer is `Granted` with a guard (`granted`), else `Refused` (`refused`). The
    /// guard's value is the one written last in the history.
    ///
    /// # Examples
    /// ```
    /// use spin::mutex::SpinMutex;
    ///
    /// let lock: SpinMutex<u64> = SpinMutex::new(4);
    /// let guard = lock.lock(&rt);
    /// let pass = lock.pass().try_lock().err().expect(&rt, "it is held");
    /// drop(guard);
    /// assert!(rt; pass.try_lock().is_ok());
    /// ```
    pub fn try_lock(self) -> Result<SpinMutexGuard<'a, T, R>, Pass<'a, T, R>>
        ensures granted { IfOk result (Grants TryLock self.entry) }
        ensures refused { IfErr result (λ pass. Calls TryLock Refused self.entry pass) }
    {
        let Self { session, strategy } = self;
        match try_to_acquire(session, FlagCall::TryLock, None) {
            Ok(guard) => Ok(guard),
            Err(session) => Err(Pass { session, strategy }),
        }
    }

    /// Returns whether the lock is held, as [`SpinMutex::is_locked`] does.
    ///
    /// # Contract
    /// The call is one `IsLocked`, with the returned answer.
    pub fn is_locked(self) -> (bool, Pass<'a, T, R>)
        ensures { Calls IsLocked (Is result.0) self.entry result.1 }
    {
        let Self { session, strategy } = self;
        match ask(session, FlagCall::IsLocked, None) {
            (Answer::Is(is_locked), session) => (is_locked, Pass { session, strategy }),
            _ => unreachable!(),
        }
    }

    /// Returns this pass, which then also knows what the other knows: a pass, a guard, or what one has
    /// [`seen`](Pass::seen). It does nothing when it runs.
    ///
    /// So the next call of this pass comes after the calls that the other knows by now.
    ///
    /// # Contract
    /// The history that the returned pass knows is the longer of the two, of which the other is a prefix (`Learns`).
    ///
    /// # Examples
    /// ```
    /// use spin::mutex::SpinMutex;
    ///
    /// let lock: SpinMutex<u64> = SpinMutex::new(4);
    /// let mut guard = lock.lock(&rt);
    /// *guard = 5;
    /// let writer = SpinMutex::unlock(guard);
    /// let reader = lock.pass().after(&writer);
    /// assert_eq!(rt; *reader.lock(&rt), 5);
    /// drop(writer);
    /// ```
    pub fn after<K: Knows<Entry<T>>>(self, earlier: &K) -> Pass<'a, T, R>
        requires { lock_of self ≡ K.of earlier.now }
        ensures { Learns (K.entries earlier.now) self.entry result }
    {
        let Self { session, strategy } = self;
        Pass {
            session: after(session, &earlier.known()),
            strategy,
        }
    }

    /// Returns what this pass knows of the lock's history. It outlives the lock's borrow.
    ///
    /// # Contract
    /// It is what the pass knows (`Recalls`).
    pub fn seen(&self) -> Watch<Entry<T>>
        ensures { Recalls self.now result }
    {
        self.session.seen.copy()
    }

    // Ends the pass, and returns what it knew.
    pub(super) fn into_seen(self) -> Watch<Entry<T>>
        ensures { Recalls self.entry result }
    {
        let seen = self.seen();
        drop(self);
        seen
    }

    /// Compares what two passes of one lock know. It does nothing when it runs.
    ///
    /// # Contract
    /// The history that one of the passes knows is a prefix of the history that the other knows. The longer of the two
    /// histories has the calls of both passes, in the order in which each pass made them.
    pub fn compare(&self, other: &Pass<'_, T, R>)
        requires { lock_of self.now ≡ lock_of other.now }
        ensures { OneIsPrefix (history self.now) (history other.now) }
    {
        self.session.seen.compare(&other.session.seen);
    }
}

impl<T, R> Knows<Entry<T>> for Pass<'_, T, R> {
    ghost of = { λ pass. lock_of pass };

    ghost entries = { λ pass. history pass };

    fn known(&self) -> Watch<Entry<T>> {
        self.session.seen.copy()
    }
}

impl<T, R> Drop for Pass<'_, T, R> {
    fn drop(self) {
        let Self {
            session,
            strategy: _,
        } = self;
        let _left = finish(session);
    }
}

/// Prints `Pass { .. }`.
impl<T, R> Debug for Pass<'_, T, R> {
    fn fmt<W: fmt::Write>(&self, f: &mut Formatter<W>) -> fmt::Result {
        f.debug_struct("Pass").finish_non_exhaustive()
    }
}
