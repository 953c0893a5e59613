//! How a caller uses the laws. It first calls the function of a law, and so learns what the law states. Then it makes
//! the call of its pass.
ghost use Rattle.std.specs.Prelude.{◌≡◌, ◌⊎◌, true, false, IfErr};
ghost use Rattle.spin_fair.specs.Fair as fair_mutex;
ghost use Rattle.spin_fair.specs.FairPasses as fair_passes;
ghost use Rattle.spin_flag.specs.Passes as spin_passes;
ghost use Rattle.spin_step.specs.Calls.{readers};
ghost use Rattle.spin_step.specs.TicketCalls.{is_left};
ghost use Rattle.spin_step.specs.FlagCalls.{flag_machine};
ghost use Rattle.spin_step.specs.declared.flag_calls.FlagCall.TheVariants as flag;
ghost use Rattle.spin_step.specs.declared.ticket_calls.TicketCall.TheVariants as ticket;
ghost use Rattle.spin_step.specs.OnceCalls.{once_machine};
ghost use Rattle.spin_step.specs.declared.once_calls.OnceCall.TheVariants as once;
ghost use Rattle.spin_once.specs.Foretold.{foretold};
ghost use Rattle.spin_once.specs.OncePasses as once_passes;
ghost use Rattle.spin_rwlock.specs.Rw as rwlock;
ghost use Rattle.spin_rwlock.specs.RwPasses as rw_passes;
ghost use Rattle.spin_step.specs.Parties.{is_held};
ghost use Rattle.spin_step_more.specs.declared.fair_calls.FairCall.TheVariants as fair;
ghost use Rattle.spin_step_more.specs.declared.rw_calls.RwCall.TheVariants as rw;
ghost use Rattle.spin_mutex.specs.Queue as ticket_mutex;
ghost use Rattle.spin_mutex.specs.TicketPasses as ticket_passes;
ghost use Rattle.spin_laws.specs.Moments.{AtAMoment, Was};
ghost use Rattle.spin_laws.specs.Onces.{foretold_till, has_value};

use crate::a_look_beside_a_guard_of_a_spin_mutex_is_true;
use crate::answers::{
    a_count_of_a_rwlock_was_so_at_a_moment, a_look_at_a_fair_mutex_was_so_at_a_moment,
    a_look_at_a_once_was_so_at_a_moment, a_look_at_a_rwlock_was_so_at_a_moment,
    a_look_at_a_spin_mutex_was_so_at_a_moment,
    a_refused_try_found_the_ticket_mutex_held_or_used_up,
};
use spin_core::relax::RelaxStrategy;
use spin_fair::fair::Pass as FairPass;
use spin_flag::spin::{Pass as SpinPass, SpinMutex, SpinMutexGuard};
use spin_mutex::ticket::{Pass as TicketPass, TicketMutexGuard};
use spin_once::once::Pass as OncePass;
use spin_rwlock::rwlock::Pass as RwPass;
use std::sync::Wait;

/// Asks once whether a `SpinMutex` is held.
pub fn look_at_a_spin_mutex<T, R>(pass: SpinPass<'_, T, R>) -> (bool, SpinPass<'_, T, R>)
    ensures { AtAMoment (flag_machine (spin_passes.opening_of pass.entry).value) flag.IsLocked (spin_passes.party result.1)
        (spin_passes.history pass.entry) (spin_passes.history result.1) (Was is_held result.0) }
{
    a_look_at_a_spin_mutex_was_so_at_a_moment::<T>();
    pass.is_locked()
}

/// Tries once to acquire a `TicketMutex`.
pub fn try_a_ticket_mutex<'a, T, R>(
    pass: TicketPass<'a, T, R>,
) -> Result<TicketMutexGuard<'a, T, R>, TicketPass<'a, T, R>>
    ensures { IfErr result (λ now.
        AtAMoment (ticket_mutex.model (ticket_passes.opening_of pass.entry)) ticket.TryLock (ticket_passes.party now)
        (ticket_passes.history pass.entry) (ticket_passes.history now)
        (λ s. (is_held s ≡ true) ⊎ (is_left s.next ≡ false))) }
{
    a_refused_try_found_the_ticket_mutex_held_or_used_up::<T>();
    pass.try_lock()
}

/// Asks once whether a `FairMutex` is held.
pub fn look_at_a_fair_mutex<T, R>(pass: FairPass<'_, T, R>) -> (bool, FairPass<'_, T, R>)
    ensures { AtAMoment (fair_mutex.model (fair_passes.opening_of pass.entry).value) fair.IsLocked (fair_passes.party result.1)
        (fair_passes.history pass.entry) (fair_passes.history result.1) (Was is_held result.0) }
{
    a_look_at_a_fair_mutex_was_so_at_a_moment::<T>();
    pass.is_locked()
}

/// Counts the readers of an `RwLock` once.
pub fn count_the_readers<T, R>(pass: RwPass<'_, T, R>) -> (usize, RwPass<'_, T, R>)
    ensures { AtAMoment (rwlock.model (rw_passes.opening_of pass.entry).value) rw.ReaderCount (rw_passes.party result.1)
        (rw_passes.history pass.entry) (rw_passes.history result.1) (Was readers result.0) }
{
    a_count_of_a_rwlock_was_so_at_a_moment::<T>();
    pass.reader_count()
}

/// Asks once whether an `RwLock` is held.
pub fn look_at_a_rwlock<T, R>(pass: RwPass<'_, T, R>) -> (bool, RwPass<'_, T, R>)
    ensures { AtAMoment (rwlock.model (rw_passes.opening_of pass.entry).value) rw.IsLocked (rw_passes.party result.1)
        (rw_passes.history pass.entry) (rw_passes.history result.1) (Was is_held result.0) }
{
    a_look_at_a_rwlock_was_so_at_a_moment::<T>();
    pass.is_locked()
}

/// Asks once whether a `Once` has a value.
pub fn look_at_a_once<T, R>(pass: OncePass<'_, T, R>) -> (bool, OncePass<'_, T, R>)
    ensures { AtAMoment (once_machine (once_passes.given pass.entry)) once.IsCompleted (once_passes.party result.1)
        (foretold_till (once_passes.moves_made pass.entry) (once_passes.moves_made result.1))
        (foretold (once_passes.moves_made result.1)) (Was has_value result.0) }
{
    a_look_at_a_once_was_so_at_a_moment();
    pass.is_completed()
}

/// Asks whether a `SpinMutex` is held, beside a guard of it. It is.
pub fn look_beside_a_guard<'a, T, R: RelaxStrategy, W: Wait>(
    rt: &W,
    lock: &'a SpinMutex<T, R>,
) -> (bool, SpinPass<'a, T, R>)
    ensures { result.0 ≡ true }
{
    a_look_beside_a_guard_of_a_spin_mutex_is_true::<T>();
    let guard = lock.lock(rt);
    let looker = lock.pass().after(&guard);
    let (held, looked) = looker.is_locked();
    let later = SpinMutexGuard::after(guard, &looked);
    (held, SpinMutex::unlock(later))
}
