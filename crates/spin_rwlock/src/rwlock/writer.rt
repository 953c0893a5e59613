//! The writer's guard, and its hold without a guard. Begin at [`RwLockWriteGuard`].
ghost use Rattle.std.specs.Prelude.{◌≡◌, ◌≢◌, ℕ, Some};
ghost use Rattle.std.specs.Borrow.{Lends, sem};
ghost use Rattle.spin_core.specs.Cell.{off};
ghost use Rattle.spin_step.specs.declared.answer.Answer.TheVariants.{Granted};
ghost use Rattle.spin_step.specs.declared.place.Hold.TheVariants.{Write};
ghost use Rattle.spin_step.specs.Schedules.{resting};
ghost use Rattle.spin_step_more.specs.declared.rw_calls.RwCall.{RwCall as ACall};
ghost use Rattle.spin_step_more.specs.declared.rw_calls.RwCall.TheVariants.{Downgrade, DowngradeToUpgradeable};
ghost use Rattle.spin_session.specs.Meaning.{use_at};
ghost use Rattle.spin_session.specs.Turns.{SeesLast, Stands, spot_of};
ghost use Rattle.spin_rwlock.specs.Rw.{MayLeave, downgrade_to, rw_meaning};

use super::reader::{RwLockReadGuard, SharedGuard};
use super::rule::{Entry, Kind, RwRule, RwSession, Writer, downgrade_to};
use super::upgradable::RwLockUpgradableGuard;
use spin_core::guard::Guard;
use spin_core::lock::Lent;
use spin_core::relax::Spin;
use spin_core::trace::{Knows, Watch};
use spin_session::calls::give;
use spin_session::session::Session;
use spin_step::Hold;
use spin_step_more::rw_calls::RwCall;
use std::ops::{Deref, DerefMut};

/// The guard of a writer, over the guard `G` that releases the lock. It adds what a writer can become.
#[must_use = "dropping the guard at once releases the lock: bind it, or write `drop(..)`"]
#[derive(Drop)]
pub struct WriteGuard<G> {
    guard: G,
}

/// The guard of the writer of an [`RwLock`](super::RwLock). Dropping it releases the exclusive access.
///
/// It gives access to the value by `Deref` and `DerefMut`.
///
/// # Contract
/// `write_value` is the lock's value. What is written through the guard is read through it.
pub type RwLockWriteGuard<'a, T, R = Spin> = WriteGuard<Guard<Writer<'a, T>, Entry<T>, R>>;

/// The writer's hold on an `RwLock`: it keeps the exclusive access without a guard, and shows no value.
///
/// [`force_write_unlock`](super::RwLock::force_write_unlock) takes it and releases the access. Dropping it does not
/// release the access.
///
/// # Contract
/// The hold's party still writes. `write_held_value` is the value that the guard had.
#[must_use = "dropping a hold does not release the lock: pass it to `force_write_unlock`"]
pub struct WriteHeld<'a, T, R = Spin> {
    guard: Guard<Writer<'a, T>, Entry<T>, R>,
}

impl<'a, T, R> RwLockWriteGuard<'a, T, R> {
    ghost use Rattle.spin_core.specs.Guard.{guard_key};
    ghost use Rattle.spin_rwlock.specs.Guards.{HasFound, RwSpot, shared_value, write_value, write_held_value, shared_spot, write_spot, write_held_spot, KnowsItsSteps};
    ghost use Rattle.spin_rwlock.specs.RwPasses.{Calls, Grants, Learns, Lowers, Unlocks, lock_of};

    // Returns the guard of this party. A call by which the party came here has granted it.
    pub(super) fn written(session: RwSession<'a, T>) -> Self
        requires { Stands (Some Write) session }
        ensures value { Some (write_value result) ≡ session.entry.permit.value }
        ensures grants { SeesLast session.entry → (call : ACall) (before : RwSpot T) → Calls call Granted before (spot_of session.entry) → Grants call before result }
    {
        let Session { permit, seen } = session;
        WriteGuard {
            guard: Guard::new(permit.into_writer(), seen),
        }
    }

    /// Becomes a reader. Other readers are then admitted too. It never fails.
    ///
    /// It makes one atomic addition, so no other writer acquires the lock in between.
    ///
    /// # Contract
    /// The reader's guard has the value that this one had (`value`). If this guard knows the history (`KnowsItsSteps`), which
    /// each call that grants it says, its party writes the value into the history, and then makes one call, `Downgrade`
    /// (`made`). The call returns.
    ///
    /// # Examples
    /// ```
    /// use spin::RwLock;
    ///
    /// let limit: RwLock<u64> = RwLock::new(3);
    /// let mut writer = limit.write(&rt);
    /// *writer = 4;
    /// let reader = writer.downgrade();
    /// assert!(rt; limit.try_read(&rt).is_some());
    /// assert_eq!(rt; *reader, 4);
    /// ```
    pub fn downgrade(self) -> RwLockReadGuard<'a, T, R>
        ensures value { shared_value result ≡ Some (write_value self.entry) }
        ensures made { Lowers Downgrade self.entry result }
    {
        self.lend()
    }

    /// Becomes the upgradable reader. It never fails.
    ///
    /// It makes one atomic addition, so no other writer acquires the lock in between.
    ///
    /// # Contract
    /// The upgradable reader's guard has the value that this one had (`value`). If this guard knows the history
    /// (`KnowsItsSteps`), its party writes the value into the history, and then makes one call, `DowngradeToUpgradeable`
    /// (`made`). The call returns.
    ///
    /// # Examples
    /// ```
    /// use spin::RwLock;
    ///
    /// let limit: RwLock<u64> = RwLock::new(3);
    /// let guard = limit.write(&rt).downgrade_to_upgradeable();
    /// assert_eq!(rt; *limit.read(&rt), 3);
    /// assert!(rt; guard.try_upgrade().is_ok());
    /// ```
    pub fn downgrade_to_upgradeable(self) -> RwLockUpgradableGuard<'a, T, R>
        ensures value { shared_value result ≡ Some (write_value self.entry) }
        ensures made { Lowers DowngradeToUpgradeable self.entry result }
    {
        self.lend()
    }

    // Becomes a reader of kind `K`.
    fn lend<K: Kind>(self) -> SharedGuard<'a, T, K, R>
        ensures value { shared_value result ≡ Some (write_value self.entry) }
        ensures made { Lowers (downgrade_to K.hold) self.entry result }
    {
        let call = downgrade_to(K::hold());
        let after = Some(K::hold());
        SharedGuard::lent(self.leave(call, after))
    }

    // Makes a call by which the party no longer writes.
    pub(super) fn leave(self, call: RwCall, after: Option<Hold>) -> RwSession<'a, T>
        requires { MayLeave call after (guard_key self.guard) }
        ensures stands { Stands after result }
        ensures made { KnowsItsSteps self.entry → Unlocks call self.entry (spot_of result) }
        ensures same { use_at rw_meaning (resting after) ≢ off → result.permit.value ≡ Some (write_value self.entry) }
    {
        let Self { guard } = self;
        let (writer, seen) = Guard::into_parts(guard);
        let known = watch_of(&writer, &seen);
        give::<T, RwRule<T>>(writer, known, call, Hold::Write, after)
    }

    /// Consumes the guard and returns a mutable reference to the value.
    ///
    /// The lock stays held, and the reference lives as long as the borrow of the lock.
    ///
    /// # Contract
    /// The reference has the value of the guard. The call returns.
    pub fn leak(this: Self) -> &'a mut T
        ensures { result.now ≡ write_value this.entry }
    {
        let Self { guard } = this;
        Guard::leak(guard)
    }

    /// Consumes the guard and keeps the lock held.
    ///
    /// # Contract
    /// `write_held_value` of the hold is the value of the guard. The hold has the guard's party, and knows what the
    /// guard knows (`party`). The call returns.
    ///
    /// # Examples
    /// ```
    /// use spin::{RwLock, RwLockWriteGuard};
    ///
    /// let limit: RwLock<u64> = RwLock::new(3);
    /// let held = RwLockWriteGuard::hold(limit.write(&rt));
    /// assert!(rt; limit.try_read(&rt).is_none());
    /// RwLock::force_write_unlock(held);
    /// assert_eq!(rt; *limit.read(&rt), 3);
    /// ```
    pub fn hold(this: Self) -> WriteHeld<'a, T, R>
        ensures value { write_held_value result ≡ Some (write_value this.entry) }
        ensures party { write_held_spot result ≡ write_spot this.entry }
    {
        let Self { guard } = this;
        WriteHeld { guard }
    }

    /// Returns this guard, which then also knows what the other knows. It does nothing when it runs.
    ///
    /// So the next call of the guard's party comes after the calls that the other knows by now.
    ///
    /// # Contract
    /// The party and the value stay (`same`). The history that the guard knows is the longer of the two, of which the
    /// other is a prefix (`learns`).
    pub fn after<K: Knows<Entry<T>>>(this: Self, earlier: &K) -> Self
        requires knows { KnowsItsSteps this }
        requires one { lock_of (write_spot this) ≡ K.of earlier.now }
        ensures knows { KnowsItsSteps result }
        ensures same { write_value result ≡ write_value this.entry }
        ensures learns { Learns (K.entries earlier.now) (write_spot this.entry) (write_spot result) }
    {
        let Self { guard } = this;
        WriteGuard {
            guard: Guard::after(guard, earlier),
        }
    }

    /// States that the guard's party found this value. It does nothing when it runs.
    ///
    /// A caller calls it before it writes, to tell afterwards what it found.
    ///
    /// # Contract
    /// The guard has to show the value still (`shows`), and to have found the one that it shows (`found`), which each
    /// call that grants a guard says.
    pub fn found(this: &Self, value: &T)
        requires shows { value.now ≡ write_value this.now }
        requires found { HasFound (write_value this.now) this.now }
        ensures { HasFound value.now this.now }
    {
        let _ = this;
        let _ = value;
    }
}

impl<E, G: Knows<E>> Knows<E> for WriteGuard<G> {
    ghost of = { λ it. G.of it.guard };

    ghost entries = { λ it. G.entries it.guard };

    fn known(&self) -> Watch<E> {
        self.guard.known()
    }
}

impl<'a, T, R> WriteHeld<'a, T, R> {
    ghost use Rattle.spin_rwlock.specs.Guards.{write_value, write_held_value, write_spot, write_held_spot};

    /// Turns the hold into a guard again.
    ///
    /// If a pass acquired the lock, that pass can then release it.
    ///
    /// # Contract
    /// The guard has the hold's value and its party (`value`, `party`). The call returns.
    pub fn into_guard(self) -> RwLockWriteGuard<'a, T, R>
        ensures value { Some (write_value result) ≡ write_held_value self.entry }
        ensures party { write_spot result ≡ write_held_spot self.entry }
    {
        let Self { guard } = self;
        WriteGuard { guard }
    }
}

// Returns what this watch knows of the history of the writer's lock, under the name that the caller chooses.
fn watch_of<T>(writer: &Writer<'_, T>, seen: &Watch<Entry<T>>) -> Watch<Entry<T>>
    ghost name: { ℕ }
    ensures { (result.name ≡ name) × (seen.now.name ≡ name → result.entries ≡ seen.now.entries) }
{
    let _ = writer;
    seen.under()
}

impl<G: Lent> Deref for WriteGuard<G> {
    type Target = G::Target;

    ghost deref_gives = { λ it x. x ≡ G.shown it.guard };

    fn deref(&self) -> &G::Target
        ensures { result.now ≡ G.shown self.now.guard }
    {
        self.guard.whole()
    }
}

impl<G: Lent> DerefMut for WriteGuard<G> {
    ghost use Rattle.spin_rwlock.specs.contracts.rwlock.writer.WriteGuard.{the_row};

    ghost deref_mut_gives = { λ it x. x ≡ G.shown it.guard };

    fn deref_mut(&mut self) -> &mut G::Target
        ensures* writes_back { sem 𝓛 (Lends (the_row G.row) G.Target.row self.entry result (λ x. record { guard = G.leaving self.old.guard x })) }
        ensures value { result.now ≡ G.shown self.old.guard }
    {
        self.guard.whole_mut()
    }
}

impl<G: Lent> Lent for WriteGuard<G> {
    ghost shown = { λ it. G.shown it.guard };

    ghost leaving = { λ it x. record { guard = G.leaving it.guard x } };

    fn whole(&self) -> &G::Target {
        &**self
    }

    fn whole_mut(&mut self) -> &mut G::Target {
        &mut **self
    }
}

impl<T, R> Drop for WriteHeld<'_, T, R> {
    fn drop(self) {
        let Self { guard } = self;
        Guard::leak(guard);
    }
}
