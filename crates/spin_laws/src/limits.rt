//! How many steps a call takes. Each law is the contract of a function that does nothing. A caller that calls this
//! function learns what the law states.
//!
//! Each law `.._keeps_its_limit` speaks of every call of every pass of its lock. The call kept the limit that it has in
//! the model (`limit` of `spin_step`), also before it was answered. A step is one of the model. Changes of the first
//! word by others during the call may raise this limit. The exchanges that the call repeats failed at most as often as
//! others changed that word (`KeepsLimits`, `IsWithinLimit`). No limit bounds the looks of a call that waits.
ghost use Rattle.std.specs.Prelude.{ℕ, Option, List};
ghost use Rattle.spin_core.specs.declared.tie.Opening.{Opening};
ghost use Rattle.spin_core.specs.Own.{Numbered};
ghost use Rattle.spin_core.specs.Passes.{IsCall, Made};
ghost use Rattle.spin_fair.specs.Fair as fair_mutex;
ghost use Rattle.spin_fair.specs.Fair.{View as FairMutexView};
ghost use Rattle.spin_flag.specs.Flag as spin_mutex;
ghost use Rattle.spin_step.specs.FlagCalls.{flag_machine};
ghost use Rattle.spin_step.specs.declared.answer.Answer.TheVariants.{Granted};
ghost use Rattle.spin_step.specs.declared.ticket_calls.TicketCall.TheVariants.{Lock};
ghost use Rattle.spin_step_more.specs.declared.rw_calls.RwCall.TheVariants.{Upgrade};
ghost use Rattle.spin_rwlock.specs.Rw as rwlock;
ghost use Rattle.spin_rwlock.specs.Rw.{View as RwLockView};
ghost use Rattle.spin_seats.specs.Rule as seats;
ghost use Rattle.spin_mutex.specs.Queue as ticket_mutex;
ghost use Rattle.spin_mutex.specs.Queue.{View as TicketMutexView};
ghost use Rattle.spin_laws.specs.Counts.{KeepsLimits, StepsOfCall, TakesTicketWithin, HasChanged};
ghost use Rattle.spin_laws.specs.TicketTurns.{EntersInTurn};

/// A try, an `is_locked` and a release of a pass of a `SpinMutex` take one step each.
///
/// # Contract
/// `KeepsLimits` says that each call of a pass keeps its limit.
pub fn a_call_of_a_spin_mutex_keeps_its_limit<T>()
    ensures { (opening : T) → KeepsLimits (flag_machine opening) spin_mutex.View }
{}

/// An `is_locked` of a pass of a `TicketMutex` takes at most two steps, a try three, and a release one. The exchange by
/// which `lock` takes its ticket fails at most as often as others take a ticket meanwhile.
///
/// # Contract
/// `KeepsLimits` says that each call of a pass keeps its limit.
pub fn a_call_of_a_ticket_mutex_keeps_its_limit<T>()
    ensures { (key : Opening T) → KeepsLimits (ticket_mutex.model key) TicketMutexView }
{}

/// Of a pass of a `FairMutex`, a newcomer's try takes one step, and a starver's try at most two. `starve` takes at most
/// two, and one more for each change of the word by others meanwhile. An `is_locked` and a release take one.
///
/// # Contract
/// `KeepsLimits` says that each call of a pass keeps its limit.
pub fn a_call_of_a_fair_mutex_keeps_its_limit<T>()
    ensures { (opening : T) → KeepsLimits (fair_mutex.model opening) FairMutexView }
{}

/// Of a pass of an `RwLock`, a try to read, also upgradably, takes at most two steps, and one more for each change of
/// the word by others meanwhile. A try to write or to upgrade, a count, a downgrade and a release take one step.
///
/// # Contract
/// `KeepsLimits` says that each call of a pass keeps its limit.
pub fn a_call_of_a_rwlock_keeps_its_limit<T>()
    ensures { (opening : T) → KeepsLimits (rwlock.model opening) RwLockView }
{}

/// Of a pass of a `Seats`, a try takes at most two steps, and one more for each change of the word by others meanwhile.
/// A count and a release take one step.
///
/// # Contract
/// `KeepsLimits` says that each call of a pass keeps its limit.
pub fn a_call_of_seats_keeps_its_limit()
    ensures { (n : ℕ) → KeepsLimits (seats.model n) seats.View }
{}

/// A `lock` of a pass of a `TicketMutex` has its ticket after at most two steps, and one more for each change of the
/// first word by others meanwhile, or it has found no ticket left.
///
/// # Contract
/// `StepsOfCall` says this of each step of the call but the last one, by which it acquires the lock
/// (`TakesTicketWithin`).
pub fn a_lock_of_a_ticket_mutex_has_its_ticket_in_time<T>()
    ensures { (key : Opening T) (before now : Option (Numbered TicketMutexView)) (old new : List (ticket_mutex.Made T)) →
        Made (ticket_mutex.model key) before old now new (IsCall Lock Granted)
        → StepsOfCall (ticket_mutex.model key) now old new (TakesTicketWithin 2 (ticket_mutex.model key).lock_kind) }
{}

/// An `upgrade` of an `RwLock` asks to upgrade, or upgrades, by its first step.
///
/// # Contract
/// `StepsOfCall` says that after each step of the call but the last one the party has made a plain step (`HasChanged`).
pub fn an_upgrade_of_a_rwlock_asks_by_its_first_step<T>()
    ensures { (opening : T) (before now : Option (Numbered RwLockView)) (old new : List (rwlock.Done T)) →
        Made (rwlock.model opening) before old now new (IsCall Upgrade Granted) → StepsOfCall (rwlock.model opening) now old new HasChanged }
{}

/// Suppose that a pass acquired a `TicketMutex` by `lock` with the ticket t. Take any moment before that, and let s be
/// the number served then. From that moment until the pass acquired the lock, exactly t - s tickets left the queue.
///
/// # Contract
/// `EntersInTurn` says this by the history that the pass knows after the call.
pub fn a_lock_of_a_ticket_mutex_enters_in_turn<T>()
    ensures { (key : Opening T) (before now : Option (Numbered TicketMutexView)) (old new : List (ticket_mutex.Made T)) →
        Made (ticket_mutex.model key) before old now new (IsCall Lock Granted) → EntersInTurn key now old new }
{}
