//! The guard of the upgradable reader, and what it can do besides reading. Begin at `upgrade`.
ghost use Rattle.std.specs.Prelude.{◌≡◌, Some, IfOk, IfErr};
ghost use Rattle.spin_step.specs.declared.answer.Answer.TheVariants.{Refused, Done};
ghost use Rattle.spin_step_more.specs.declared.rw_calls.RwCall.TheVariants.{TryUpgrade, Upgrade, Downgrade};
ghost use Rattle.spin_rwlock.specs.RwPasses.{Grants, Lends};

use super::reader::{RwLockReadGuard, SharedGuard};
use super::rule::Upgrader;
use super::writer::RwLockWriteGuard;
use spin_core::lock::Claim;
use spin_core::relax::{RelaxStrategy, Spin, Strategy};
use spin_session_more::calls::{attempt, make, wait_for};
use spin_step::{Answer, Hold};
use spin_step_more::rw_calls::RwCall;
use std::sync::Wait;

/// The guard of the upgradable reader of an [`RwLock`](super::RwLock). Dropping it releases the shared access.
///
/// Other readers may acquire the lock until this guard's `upgrade` asks to become the writer.
///
/// # Contract
/// Like that of [`SharedGuard`]. The value stays the same when the reader becomes the writer.
pub type RwLockUpgradableGuard<'a, T, R = Spin> = SharedGuard<'a, T, Upgrader, R>;

impl<'a, T, R> SharedGuard<'a, T, Upgrader, R> {
    ghost use Rattle.spin_rwlock.specs.Guards.{shared_value, write_value, shared_spot};

    /// Tries to become the writer. Fails at once if another reader holds the lock.
    ///
    /// A failure returns the same guard. The call makes one compare-exchange. It does not ask first, so new readers are
    /// still admitted.
    ///
    /// # Contract
    /// The guard's party makes one call, `TryUpgrade`, which is granted with a writer's guard (`granted`), or refused
    /// with a reader's (`refused`). The returned guard has the value that this one had, which is the one written last
    /// in the lock's history. The call returns.
    ///
    /// # Examples
    /// ```
    /// use spin::RwLock;
    ///
    /// let limit: RwLock<u64> = RwLock::new(3);
    /// let reader = limit.read(&rt);
    /// let guard = limit.upgradeable_read(&rt);
    /// let guard = guard.try_upgrade().err().expect(&rt, "another thread reads");
    /// drop(reader);
    /// assert!(rt; guard.try_upgrade().is_ok());
    /// ```
    pub fn try_upgrade(self) -> Result<RwLockWriteGuard<'a, T, R>, Self>
        ensures granted_value { IfOk result (λ g. Some (write_value g) ≡ shared_value self.entry) }
        ensures refused_value { IfErr result (λ g. shared_value g ≡ shared_value self.entry) }
        ensures granted { IfOk result (Grants TryUpgrade (shared_spot self.entry)) }
        ensures refused { IfErr result (Lends TryUpgrade Refused (shared_spot self.entry)) }
    {
        match attempt(
            self.into_session(),
            RwCall::TryUpgrade,
            Some(Hold::Upgradable),
            Some(Hold::Write),
        ) {
            Ok(session) => Ok(RwLockWriteGuard::written(session)),
            Err(session) => Err(SharedGuard::lent(session)),
        }
    }

    /// Like [`try_upgrade`](Self::try_upgrade), but may fail spuriously, so call it in a loop. (This implementation
    /// never does.)
    ///
    /// # Contract
    /// Like that of `try_upgrade`.
    pub fn try_upgrade_weak(self) -> Result<RwLockWriteGuard<'a, T, R>, Self>
        ensures granted_value { IfOk result (λ g. Some (write_value g) ≡ shared_value self.entry) }
        ensures refused_value { IfErr result (λ g. shared_value g ≡ shared_value self.entry) }
        ensures granted { IfOk result (Grants TryUpgrade (shared_spot self.entry)) }
        ensures refused { IfErr result (Lends TryUpgrade Refused (shared_spot self.entry)) }
    {
        self.try_upgrade()
    }

    /// Becomes a plain reader, so that another thread may become upgradable. It never fails.
    ///
    /// It makes one atomic addition.
    ///
    /// # Contract
    /// The guard's party makes one call, `Downgrade` (`made`). The reader's guard has the value that this one had,
    /// which is the one written last in the lock's history. The call returns.
    ///
    /// # Examples
    /// ```
    /// use spin::RwLock;
    ///
    /// let limit: RwLock<u64> = RwLock::new(3);
    /// let guard = limit.upgradeable_read(&rt);
    /// assert!(rt; limit.try_upgradeable_read(&rt).is_none());
    /// let reader = guard.downgrade();
    /// assert!(rt; limit.try_upgradeable_read(&rt).is_some());
    /// assert_eq!(rt; *reader, 3);
    /// ```
    pub fn downgrade(self) -> RwLockReadGuard<'a, T, R>
        ensures value { shared_value result ≡ shared_value self.entry }
        ensures made { Lends Downgrade Done (shared_spot self.entry) result }
    {
        SharedGuard::lent(make(
            self.into_session(),
            RwCall::Downgrade,
            Some(Hold::Upgradable),
            Answer::Done,
            Some(Hold::Read),
        ))
    }
}

impl<'a, T, R: RelaxStrategy> SharedGuard<'a, T, Upgrader, R> {
    ghost use Rattle.spin_rwlock.specs.Guards.{shared_value, write_value, shared_spot};

    /// Becomes the writer, spinning until every other reader has released the lock.
    ///
    /// The reader asks first, and from then on no new reader is admitted. The reader keeps its access until it is the
    /// writer, so the value does not change. The call never returns if its own thread holds a second guard of the lock.
    ///
    /// # Contract
    /// The guard's party makes one call, `Upgrade`, which asks by its first step, and is granted (`made`). The writer's
    /// guard has the value that this one had, which is the one written last in the lock's history. Whether and when the
    /// call returns is not promised.
    ///
    /// # Examples
    /// ```
    /// use spin::RwLock;
    ///
    /// let limit: RwLock<u64> = RwLock::new(3);
    /// let guard = limit.upgradeable_read(&rt);
    /// if *guard < 4 {
    ///     *guard.upgrade(&rt) = 4;
    /// }
    /// assert_eq!(rt; *limit.read(&rt), 4);
    /// ```
    pub fn upgrade<W: Wait>(self, rt: &W) -> RwLockWriteGuard<'a, T, R>
        ensures value { Some (write_value result) ≡ shared_value self.entry }
        ensures made { Grants Upgrade (shared_spot self.entry) result }
    {
        let session = self.into_session();
        RwLockWriteGuard::written(wait_for(
            session,
            RwCall::Upgrade,
            Some(Hold::Upgradable),
            Answer::Granted,
            Some(Hold::Write),
            Strategy::<R>::named(),
            rt,
        ))
    }
}

/// The upgradable reader becomes the writer.
impl<'a, T, R: RelaxStrategy> Claim for SharedGuard<'a, T, Upgrader, R> {
    ghost use Rattle.spin_rwlock.specs.Guards.{shared_value, write_value, shared_spot};

    type Guard = RwLockWriteGuard<'a, T, R>;

    ghost claims = { λ reader guard. (Some (write_value guard) ≡ shared_value reader) × Grants Upgrade (shared_spot reader) guard };

    fn claim<W: Wait>(self, rt: &W) -> RwLockWriteGuard<'a, T, R> {
        self.upgrade(rt)
    }
}
