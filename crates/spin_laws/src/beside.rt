//! Laws of what other parties meet while a party holds a lock. Each law is the contract of a function that does nothing.
//! A caller that calls this function learns what the law states.
//!
//! A call that begins after a grant, and that the holder knows of before it makes its next move, lies between the two:
//! `after` of passes and guards says both. [`crate::uses::look_beside_a_guard`] is a caller.
ghost use Rattle.std.specs.Prelude.{◌≡◌, true, None};
ghost use mathlib.Core.List.{IsPrefix};
ghost use Rattle.spin_fair.specs.Fair.{fair_tables};
ghost use Rattle.spin_flag.specs.Flag.{flag_tables};
ghost use Rattle.spin_mutex.specs.Queue.{ticket_tables};
ghost use Rattle.spin_rwlock.specs.Rw.{rw_tables};
ghost use Rattle.spin_rwlock.specs.RwPasses.{RwSpot, Calls, history, party};
ghost use Rattle.spin_session.specs.Passes.{AreTwo};
ghost use Rattle.spin_step.specs.declared.answer.Answer.{Answer};
ghost use Rattle.spin_step.specs.declared.flag_calls.FlagCall.TheVariants as flag;
ghost use Rattle.spin_step.specs.declared.ticket_calls.TicketCall.TheVariants as ticket;
ghost use Rattle.spin_step_more.specs.declared.fair_calls.FairCall.TheVariants as fair;
ghost use Rattle.spin_step_more.specs.declared.rw_calls.RwCall.{RwCall};
ghost use Rattle.spin_step_more.specs.declared.rw_calls.RwCall.TheVariants as rw;
ghost use Rattle.spin_laws.specs.Beside.{LooksTrue, WritesBehind, is_exclusive, is_lock};

/// If a pass called `is_locked` of a `SpinMutex` while another party held it, the answer was `true`.
///
/// # Contract
/// `LooksTrue`: the look began after the party was granted the lock, and the party knew of it before its next move.
pub fn a_look_beside_a_guard_of_a_spin_mutex_is_true<T>()
    ensures { LooksTrue {V = T} flag_tables (λ call. true) flag.IsLocked }
{}

/// If a pass called `is_locked` of a `TicketMutex` while another party held it, the answer was `true`.
///
/// # Contract
/// `LooksTrue`: the look began after the party was granted the lock, and the party knew of it before its next move.
pub fn a_look_beside_a_guard_of_a_ticket_mutex_is_true<T>()
    ensures { LooksTrue {V = T} ticket_tables (λ call. true) ticket.IsLocked }
{}

/// If a pass called `is_locked` of a `FairMutex` while another party held it, the answer was `true`.
///
/// # Contract
/// `LooksTrue`: the look began after the party was granted the lock, and the party knew of it before its next move. The
/// call `Starve` grants a registration, and not the lock.
pub fn a_look_beside_a_guard_of_a_fair_mutex_is_true<T>()
    ensures { LooksTrue {V = T} fair_tables is_lock fair.IsLocked }
{}

/// If a pass called `is_locked` of an `RwLock` while another party held it, as a reader or the writer, the answer was
/// `true`.
///
/// # Contract
/// `LooksTrue`: the look began after the party was granted the lock, and the party knew of it before its next move.
pub fn a_look_beside_a_guard_of_a_rwlock_is_true<T>()
    ensures { LooksTrue {V = T} rw_tables (λ call. true) rw.IsLocked }
{}

/// A writer is granted an `RwLock` only after the release of each reader that it knew to hold the lock.
///
/// # Contract
/// `WritesBehind`: the writer's pass knows of the reader's grant, and the two passes are two parties (`AreTwo`). In all that
/// the reader's pass knows after its release, the reader makes no move after the writer's grant.
pub fn a_writer_of_a_rwlock_comes_after_the_readers_before_it<T>()
    ensures { WritesBehind {V = T} rw_tables (λ call. true) is_exclusive rw.Release }
{}

/// A pass of an `RwLock` whose first call comes after a call of another pass is another party.
///
/// # Contract
/// `AreTwo`: the passes have different numbers, that is, places among all parties of the lock.
pub fn a_pass_of_a_rwlock_that_calls_after_another_is_another_party<T>()
    ensures { (c d : RwCall) (a b : Answer (Unit {0})) (one one' other other' : RwSpot T) → Calls c a one one' → IsPrefix (history one') (history other) → party other ≡ None → Calls d b other other' → AreTwo one' other' }
{}
