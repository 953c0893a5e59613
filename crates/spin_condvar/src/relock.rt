//! Guards whose party can release the lock, and acquire it again. Begin at [`Relock`].
ghost use Rattle.std.specs.Prelude.{◌≡◌, refl};

use spin_core::lock::Lent;
use spin_core::relax::RelaxStrategy;
use spin_fair::fair;
use spin_fair::fair::{FairMutex, FairMutexGuard};
use spin_flag::spin;
use spin_flag::spin::{SpinMutex, SpinMutexGuard};
use spin_mutex::ticket;
use spin_mutex::ticket::{TicketMutex, TicketMutexGuard};
use spin_rwlock::rwlock;
use spin_rwlock::rwlock::{RwLock, RwLockWriteGuard};
use std::sync::Wait;

/// The guard of a writer whose party can release the lock, and acquire it again by a pass.
///
/// The guards of the mutexes are, and that of the writer of an `RwLock`. The guard of a `Mutex` is that of the
/// `TicketMutex` in it.
///
/// # Contract
/// The calls do what those of the lock's pass do, for a guard that one of them returned (`holds`). A guard with another
/// value in place of its own shows that value, and is still such a guard (`shows`, `stays`).
pub trait Relock: Lent {
    /// What the party has while it does not hold the lock.
    type Pass: Drop;

    // A call of the lock returned this guard.
    ghost holds: { Self → Type 0 };

    // The guard's party has written its value, and has then released the lock.
    ghost unlocks: { Self → Self.Pass → Type 0 };

    // The pass's party has acquired the lock, and the guard has the value written last.
    ghost grants: { Self.Pass → Self → Type 0 };

    /// Releases the lock, as `unlock` of the lock does.
    fn unlock(self) -> Self::Pass
        requires { holds self }
        ensures { unlocks self result };

    /// Acquires the lock again, as `lock` of the pass does.
    ///
    /// # Contract
    /// Whether and when the call returns is not promised.
    fn relock<W: Wait>(rt: &W, pass: Self::Pass) -> Self
        ensures granted { grants pass result }
        ensures holds { holds result };

    ghost shows: { (guard : Self) (x : Self.Target) → Self.shown (Self.leaving guard x) ≡ x };

    ghost stays: { (guard : Self) (x : Self.Target) → Self.holds guard → Self.holds (Self.leaving guard x) };
}

impl<'a, T, R: RelaxStrategy> Relock for SpinMutexGuard<'a, T, R> {
    ghost use Rattle.spin_flag.specs.Passes.{Grants, Holds, Lock, Unlocks};

    type Pass = spin::Pass<'a, T, R>;

    ghost holds = { Holds };

    ghost unlocks = { Unlocks };

    ghost grants = { Grants Lock };

    fn unlock(self) -> spin::Pass<'a, T, R> {
        SpinMutex::unlock(self)
    }

    fn relock<W: Wait>(rt: &W, pass: spin::Pass<'a, T, R>) -> SpinMutexGuard<'a, T, R> {
        pass.lock(rt)
    }

    ghost shows = { λ guard x. refl };

    ghost stays = { λ guard x held. held };
}

impl<'a, T, R: RelaxStrategy> Relock for TicketMutexGuard<'a, T, R> {
    ghost use Rattle.spin_mutex.specs.TicketPasses.{Grants, Holds, Lock, Unlocks};

    type Pass = ticket::Pass<'a, T, R>;

    ghost holds = { Holds };

    ghost unlocks = { Unlocks };

    ghost grants = { Grants Lock };

    fn unlock(self) -> ticket::Pass<'a, T, R> {
        TicketMutex::unlock(self)
    }

    fn relock<W: Wait>(rt: &W, pass: ticket::Pass<'a, T, R>) -> TicketMutexGuard<'a, T, R> {
        pass.lock(rt)
    }

    ghost shows = { λ guard x. refl };

    ghost stays = { λ guard x held. held };
}

impl<'a, T, R: RelaxStrategy> Relock for FairMutexGuard<'a, T, R> {
    ghost use Rattle.spin_fair.specs.FairPasses.{Grants, Holds, Unlocks};
    ghost use Rattle.spin_step_more.specs.declared.fair_calls.FairCall.TheVariants.{Lock};

    type Pass = fair::Pass<'a, T, R>;

    ghost holds = { Holds };

    ghost unlocks = { Unlocks };

    ghost grants = { Grants Lock };

    fn unlock(self) -> fair::Pass<'a, T, R> {
        FairMutex::unlock(self)
    }

    fn relock<W: Wait>(rt: &W, pass: fair::Pass<'a, T, R>) -> FairMutexGuard<'a, T, R> {
        pass.lock(rt)
    }

    ghost shows = { λ guard x. refl };

    ghost stays = { λ guard x held. held };
}

impl<'a, T, R: RelaxStrategy> Relock for RwLockWriteGuard<'a, T, R> {
    ghost use Rattle.spin_rwlock.specs.RwPasses.{Grants, KnowsItsSteps, Unlocks};
    ghost use Rattle.spin_step_more.specs.declared.rw_calls.RwCall.TheVariants.{Release, Write};

    type Pass = rwlock::Pass<'a, T, R>;

    ghost holds = { KnowsItsSteps };

    ghost unlocks = { Unlocks Release };

    ghost grants = { Grants Write };

    fn unlock(self) -> rwlock::Pass<'a, T, R> {
        RwLock::unlock(self)
    }

    fn relock<W: Wait>(rt: &W, pass: rwlock::Pass<'a, T, R>) -> RwLockWriteGuard<'a, T, R> {
        pass.write(rt)
    }

    ghost shows = { λ guard x. refl };

    ghost stays = { λ guard x held. held };
}
