//! A registered starver of a `FairMutex`. The starver goes before newcomers until it has the lock or gives up. Begin at
//! [`Starvation::lock`].
ghost use Rattle.std.specs.Prelude.{Some, IfOk, IfErr};
ghost use Rattle.spin_session.specs.Turns.{Stands, spot_of};
ghost use Rattle.spin_step.specs.declared.answer.Answer.TheVariants.{Refused, Done};
ghost use Rattle.spin_step.specs.declared.place.Hold.TheVariants.{Starver};
ghost use Rattle.spin_step_more.specs.declared.fair_calls.FairCall.TheVariants.{StarverTryLock, StarverTryLockFair, StarverLock, StarverDrop};
ghost use Rattle.spin_fair.specs.FairPasses.{Calls, FairSpot, Grants};

use super::FairMutexGuard;
use super::pass::Pass;
use super::rule::FairRule;
use spin_core::lock::Claim;
use spin_core::relax::{RelaxStrategy, Spin, Strategy};
use spin_session::calls::{SessionOf, guarded};
use spin_session_more::calls::{attempt, make, wait_for};
use spin_step::{Answer, Hold};
use spin_step_more::FairCall;
use std::marker::{Model, PhantomData};
use std::sync::Wait;

/// A registered starver of a `FairMutex`. Dropping it ends the registration.
///
/// While it lives, no newcomer acquires the lock. If it is forgotten (`forget`), no newcomer ever acquires the lock
/// again.
///
/// # Contract
/// The starver's party is registered: it holds `Starver`. Each call ensures `Calls`, as the calls of a [`Pass`] do.
#[must_use = "if the place is dropped at once, the thread starves no longer: call `lock` on it"]
pub struct Starvation<'a, T, R = Spin> {
    pub(super) session: SessionOf<'a, T, FairRule>,
    pub(super) strategy: PhantomData<R>,
}

impl<'a, T, R> Model for Starvation<'a, T, R> {
    ghost Value = { FairSpot T };

    ghost view = { λ starver. spot_of starver.session };

    ghost invariant = { λ starver. Stands (Some Starver) starver.session };
}

impl<'a, T, R> Starvation<'a, T, R> {
    /// Tries to acquire the mutex as its only starver. Fails at once if it is held, or if another starver is
    /// registered.
    ///
    /// A failure returns the same starver, which stays registered. The call makes one compare-exchange.
    ///
    /// # Contract
    /// The call is one `StarverTryLockFair`. Its answer is `Granted` with a guard (`granted`), else `Refused` with the
    /// starver, which is still registered (`refused`). The guard's value is the one written last in the history. The
    /// call returns.
    ///
    /// # Examples
    /// ```
    /// use spin::mutex::FairMutex;
    ///
    /// let lock: FairMutex<u64> = FairMutex::new(4);
    /// let first = lock.starve(&rt).expect(&rt, "few threads starve");
    /// let second = lock.starve(&rt).expect(&rt, "few threads starve");
    /// let first = first.try_lock_fair().err().expect(&rt, "two starve");
    /// drop(second);
    /// assert!(rt; first.try_lock_fair().is_ok());
    /// ```
    pub fn try_lock_fair(self) -> Result<FairMutexGuard<'a, T, R>, Starvation<'a, T, R>>
        ensures granted { IfOk result (Grants StarverTryLockFair self.entry) }
        ensures refused { IfErr result (Calls StarverTryLockFair Refused self.entry) }
    {
        let Self { session, strategy } = self;
        let (starves, writes) = (Some(Hold::Starver), Some(Hold::Write));
        match attempt(session, FairCall::StarverTryLockFair, starves, writes) {
            Ok(session) => Ok(guarded(session)),
            Err(session) => Err(Starvation { session, strategy }),
        }
    }

    /// Tries to acquire the mutex. Fails at once if it is held.
    ///
    /// A failure returns the same starver, which stays registered.
    ///
    /// # Contract
    /// The call is one `StarverTryLock`. Its answer is `Granted` with a guard (`granted`), else `Refused` with the
    /// starver, which is still registered (`refused`). A first exchange that fails is no step of the model: it only
    /// begins the call. The guard's value is the one written last in the history. The call returns.
    ///
    /// # Examples
    /// ```
    /// use spin::mutex::FairMutex;
    ///
    /// let lock: FairMutex<u64> = FairMutex::new(4);
    /// let starver = lock.starve(&rt).expect(&rt, "few threads starve");
    /// let mut guard = starver.try_lock().ok().expect(&rt, "no thread holds it");
    /// *guard = 5;
    /// drop(guard);
    /// assert_eq!(rt; lock.into_inner(), 5);
    /// ```
    pub fn try_lock(self) -> Result<FairMutexGuard<'a, T, R>, Starvation<'a, T, R>>
        ensures granted { IfOk result (Grants StarverTryLock self.entry) }
        ensures refused { IfErr result (Calls StarverTryLock Refused self.entry) }
    {
        let Self { session, strategy } = self;
        let (starves, writes) = (Some(Hold::Starver), Some(Hold::Write));
        match attempt(session, FairCall::StarverTryLock, starves, writes) {
            Ok(session) => Ok(guarded(session)),
            Err(session) => Err(Starvation { session, strategy }),
        }
    }

    /// Ends the registration, and returns the pass of the starver's party.
    ///
    /// # Contract
    /// The call is one `StarverDrop`.
    ///
    /// # Examples
    /// ```
    /// use spin::mutex::FairMutex;
    ///
    /// let lock: FairMutex<u64> = FairMutex::new(4);
    /// let starver = lock.starve(&rt).expect(&rt, "few threads starve");
    /// assert!(rt; lock.try_lock().is_none());
    /// let pass = starver.give_up();
    /// assert!(rt; pass.try_lock().is_ok());
    /// ```
    pub fn give_up(self) -> Pass<'a, T, R>
        ensures { Calls StarverDrop Done self.entry result }
    {
        let Self { session, strategy } = self;
        let (call, held) = (FairCall::StarverDrop, Some(Hold::Starver));
        Pass {
            session: make(session, call, held, Answer::Done, None),
            strategy,
        }
    }
}

impl<'a, T, R: RelaxStrategy> Starvation<'a, T, R> {
    /// Acquires the mutex, spinning until it is free.
    ///
    /// It tries once as the only starver (see [`try_lock_fair`](Self::try_lock_fair)). If that try fails, it sets the
    /// flag, and acquires the lock if the flag was clear. If the flag was set, the thread pauses with strategy `R`,
    /// and looks at the word before it sets the flag again. Other starvers may overtake it.
    ///
    /// # Contract
    /// The call is one `StarverLock` with the answer `Granted`, which ends the registration. The guard's value is the
    /// one written last in the history (`Grants`). Whether and when the call returns is not promised.
    #[inline(always)]
    pub fn lock<W: Wait>(self, rt: &W) -> FairMutexGuard<'a, T, R>
        ensures { Grants StarverLock self.entry result }
    {
        let Self {
            session,
            strategy: _,
        } = self;
        let (starves, writes) = (Some(Hold::Starver), Some(Hold::Write));
        let call = FairCall::StarverLock;
        guarded(wait_for(
            session,
            call,
            starves,
            Answer::Granted,
            writes,
            Strategy::<R>::named(),
            rt,
        ))
    }
}

impl<'a, T, R: RelaxStrategy> Claim for Starvation<'a, T, R> {
    type Guard = FairMutexGuard<'a, T, R>;

    ghost claims = { λ starvation guard. Grants StarverLock starvation guard };

    fn claim<W: Wait>(self, rt: &W) -> FairMutexGuard<'a, T, R> {
        self.lock(rt)
    }
}

impl<T, R> Drop for Starvation<'_, T, R> {
    fn drop(self) {
        drop(self.give_up());
    }
}

// SAFETY: a `Starvation` is a starver's permit. The thread that receives it may acquire the lock and use the value.
unsafe impl<T: Send, R> Send for Starvation<'_, T, R> {}

// SAFETY: a shared reference to a `Starvation` gives access to nothing. The bound on `T` is the one that the lock has.
unsafe impl<T: Send, R> Sync for Starvation<'_, T, R> {}
