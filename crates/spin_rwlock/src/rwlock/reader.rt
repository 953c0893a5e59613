//! The guard of a reader, of either kind, and a reader's hold without a guard. Begin at [`RwLockReadGuard`].
ghost use Rattle.std.specs.Prelude.{◌≡◌, Some, None};
ghost use Rattle.std.specs.Option.{IfSome};
ghost use Rattle.spin_core.specs.Values.{IsLast};
ghost use Rattle.spin_step.specs.declared.answer.Answer.{Answer as AnAnswer};
ghost use Rattle.spin_step.specs.declared.answer.Answer.TheVariants.{Done};
ghost use Rattle.spin_step.specs.declared.place.Hold.TheVariants.{Read as Reads};
ghost use Rattle.spin_step_more.specs.declared.rw_calls.RwCall.{RwCall as ACall};
ghost use Rattle.spin_step_more.specs.declared.rw_calls.RwCall.TheVariants.{Release};
ghost use Rattle.spin_session.specs.Turns.{Calls, SeesLast, Stands, spot_of};
ghost use Rattle.spin_rwlock.specs.Rw.{IsLent, rw_tables};

use super::rule::{Entry, Kind, Party, Reader, RwRule, RwSession};
use spin_core::relax::Spin;
use spin_core::trace::{Knows, Watch};
use spin_session::calls::{after, finish};
use spin_session::session::Session;
use spin_session_more::calls::make;
use spin_step::Answer;
use spin_step_more::rw_calls::RwCall;
use std::marker::PhantomData;
use std::ops::Deref;

/// The guard of a reader of kind `K`. Dropping it releases the shared access.
///
/// It gives access to the value by `Deref`. Its two kinds are [`RwLockReadGuard`] and
/// [`RwLockUpgradableGuard`](super::RwLockUpgradableGuard).
///
/// # Contract
/// `shared_value` is `Some` of the lock's value, which stays the same while the guard lives.
#[must_use = "dropping the guard at once releases the lock: bind it, or write `drop(..)`"]
pub struct SharedGuard<'a, T, K: Kind, R = Spin> {
    session: Session<'a, T, Party, Entry<T>, RwRule<T>>,
    marker: PhantomData<(K, R)>,
    ghost lent: { IsLent K.hold session },
}

/// The guard of a reader of an [`RwLock`](super::RwLock). Dropping it releases the shared access.
///
/// # Contract
/// Like that of [`SharedGuard`].
pub type RwLockReadGuard<'a, T, R = Spin> = SharedGuard<'a, T, Reader, R>;

/// A reader's hold on an `RwLock`: it keeps the shared access without a guard, and shows no value.
///
/// [`force_read_decrement`](super::RwLock::force_read_decrement) takes it and releases the access. Dropping it does not
/// release the access.
///
/// # Contract
/// The hold's party still reads (`reading`). `read_held_value` is the value that the guard showed.
#[must_use = "dropping a hold does not release the lock: pass it to `force_read_decrement`"]
pub struct ReadHeld<'a, T, R = Spin> {
    session: Session<'a, T, Party, Entry<T>, RwRule<T>>,
    strategy: PhantomData<R>,
    ghost reading: { IsLent Reads session },
}

impl<T, K: Kind, R> Knows<Entry<T>> for SharedGuard<'_, T, K, R> {
    ghost use Rattle.spin_rwlock.specs.Guards.{shared_spot};
    ghost use Rattle.spin_rwlock.specs.RwPasses.{history, lock_of};

    ghost of = { λ guard. lock_of (shared_spot guard) };

    ghost entries = { λ guard. history (shared_spot guard) };

    fn known(&self) -> Watch<Entry<T>> {
        self.session.seen.copy()
    }
}

impl<'a, T, K: Kind, R> SharedGuard<'a, T, K, R> {
    ghost use Rattle.spin_rwlock.specs.Guards.{RwSpot, shared_value, shared_spot};
    ghost use Rattle.spin_rwlock.specs.RwPasses.{Learns, Lends, lock_of};

    // Returns the guard of this party. A call by which the party came here has lent it.
    pub(super) fn lent(session: RwSession<'a, T>) -> Self
        requires { IsLent K.hold session }
        ensures same { result.session ≡ session.entry }
        ensures lends { SeesLast session.entry → (call : ACall) (answer : AnAnswer (Unit {0})) (before : RwSpot T) → Calls rw_tables call answer before (spot_of session.entry) → Lends call answer before result }
    {
        SharedGuard {
            session,
            marker: PhantomData,
        }
    }

    /// Consumes the guard and returns a reference to the value.
    ///
    /// The reference lives as long as the borrow of the lock. The reader stays for ever, so no thread ever acquires
    /// exclusive access again. If the reader was upgradable, no other ever becomes upgradable.
    ///
    /// # Contract
    /// The reference has the value of the guard. The call returns.
    ///
    /// # Examples
    /// ```
    /// use spin::{RwLock, RwLockReadGuard};
    ///
    /// let limit: RwLock<u64> = RwLock::new(3);
    /// let value: &u64 = RwLockReadGuard::leak(limit.read(&rt));
    /// assert_eq!(rt; *value, 3);
    /// assert!(rt; limit.try_write().is_none());
    /// ```
    pub fn leak(this: Self) -> &'a T
        ensures { Some result.now ≡ shared_value this.entry }
    {
        let Session { permit, seen: _ } = this.into_session();
        permit.see()
    }

    /// Returns this guard, which then also knows what the other knows. It does nothing when it runs.
    ///
    /// So the next call of the guard's party comes after the calls that the other knows by now.
    ///
    /// # Contract
    /// The value stays (`same`). The history that the guard knows is the longer of the two, of which the other is a
    /// prefix (`learns`).
    pub fn after<X: Knows<Entry<T>>>(this: Self, earlier: &X) -> Self
        requires { lock_of (shared_spot this) ≡ X.of earlier.now }
        ensures same { shared_value result ≡ shared_value this.entry }
        ensures learns { Learns (X.entries earlier.now) (shared_spot this.entry) (shared_spot result) }
    {
        SharedGuard::lent(after(this.into_session(), &earlier.known()))
    }

    pub(super) fn into_session(self) -> RwSession<'a, T>
        ensures same { result ≡ self.entry.session }
        ensures lent { IsLent K.hold result }
    {
        let Self { session, marker: _ } = self;
        session
    }

    // Releases the shared access. The party is then in no call, and holds nothing.
    pub(super) fn release(self) -> RwSession<'a, T>
        ensures stands { Stands None result }
        ensures made { Calls rw_tables Release Done (shared_spot self.entry) (spot_of result) }
        ensures still { IfSome (shared_value self.entry) (IsLast result.permit.key result.seen.entries) }
    {
        make(
            self.into_session(),
            RwCall::Release,
            Some(K::hold()),
            Answer::Done,
            None,
        )
    }
}

impl<'a, T, R> SharedGuard<'a, T, Reader, R> {
    ghost use Rattle.spin_rwlock.specs.Guards.{shared_value, read_held_value, shared_spot, read_held_spot};

    /// Consumes the guard and keeps the shared access.
    ///
    /// # Contract
    /// `read_held_value` of the hold is the value of the guard. The hold has the guard's party, and knows what the
    /// guard knows (`party`). The call returns.
    ///
    /// # Examples
    /// ```
    /// use spin::{RwLock, RwLockReadGuard};
    ///
    /// let limit: RwLock<u64> = RwLock::new(3);
    /// let held = RwLockReadGuard::hold(limit.read(&rt));
    /// assert!(rt; limit.try_write().is_none());
    /// RwLock::force_read_decrement(held);
    /// assert!(rt; limit.try_write().is_some());
    /// ```
    pub fn hold(this: Self) -> ReadHeld<'a, T, R>
        ensures value { read_held_value result ≡ shared_value this.entry }
        ensures party { read_held_spot result ≡ shared_spot this.entry }
    {
        ReadHeld {
            session: this.into_session(),
            strategy: PhantomData,
        }
    }
}

impl<'a, T, R> ReadHeld<'a, T, R> {
    ghost use Rattle.spin_rwlock.specs.Guards.{shared_value, read_held_value, shared_spot, read_held_spot};

    /// Turns the hold into a guard again.
    ///
    /// If a pass acquired the access, that pass can then release it.
    ///
    /// # Contract
    /// The guard has the hold's value and its party (`value`, `party`). The call returns.
    pub fn into_guard(self) -> RwLockReadGuard<'a, T, R>
        ensures value { shared_value result ≡ read_held_value self.entry }
        ensures party { shared_spot result ≡ read_held_spot self.entry }
    {
        let Self {
            session,
            strategy: _,
        } = self;
        SharedGuard::lent(session)
    }
}

impl<T, K: Kind, R> Deref for SharedGuard<'_, T, K, R> {
    ghost use Rattle.spin_rwlock.specs.Guards.{shared_value};

    type Target = T;

    ghost deref_gives = { λ g x. Some x ≡ shared_value g };

    fn deref(&self) -> &T
        ensures { Some result.now ≡ shared_value self.now }
    {
        self.session.permit.get()
    }
}

impl<T, K: Kind, R> Drop for SharedGuard<'_, T, K, R> {
    fn drop(self) {
        let _left = finish(self.release());
    }
}

impl<T, R> Drop for ReadHeld<'_, T, R> {
    fn drop(self) {
        let Self {
            session,
            strategy: _,
        } = self;
        let Session { permit, seen: _ } = session;
        permit.leak();
    }
}

// SAFETY: in its new thread an upgradable reader may become the writer. Other threads may read until then.
unsafe impl<T: Send + Sync, K: Kind, R> Send for SharedGuard<'_, T, K, R> {}

// SAFETY: a shared reference to a guard lends a `&T` and no more.
unsafe impl<T: Sync, K: Kind, R> Sync for SharedGuard<'_, T, K, R> {}

// SAFETY: the new thread releases the access, as it would with a guard. The bounds are those of a guard.
unsafe impl<T: Send + Sync, R> Send for ReadHeld<'_, T, R> {}

// SAFETY: a shared reference to a hold lends nothing. The bounds are those of the lock.
unsafe impl<T: Send + Sync, R> Sync for ReadHeld<'_, T, R> {}
