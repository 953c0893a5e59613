//! Progress in the history of a lock on threads. Each law is the contract of a function that does nothing. A caller that
//! calls this function learns what the law states.
//!
//! The same laws of schedules (`rounds`) also allow that an exchange fails spuriously. In a history of threads no exchange
//! does (`sure` of `Between`). So here some thread is granted what it asks. A round is a part of the history in which
//! each thread that is in a call makes a step of it, and each thread that holds the lock begins to release it
//! (`AreRounds`). No contract promises that threads make rounds: that is up to the machine's scheduler.
ghost use Rattle.std.specs.Prelude.{ℕ, List};
ghost use Rattle.spin_core.specs.Own.{Numbered};
ghost use Rattle.spin_core.specs.declared.tie.Opening.{Opening};
ghost use Rattle.spin_core.specs.declared.trace.Trace.{Trace};
ghost use Rattle.spin_flag.specs.Flag as spin_mutex;
ghost use Rattle.spin_step.specs.FlagCalls.{flag_machine};
ghost use Rattle.spin_rwlock.specs.Rw as rwlock;
ghost use Rattle.spin_rwlock.specs.Rw.{View as RwLockView};
ghost use Rattle.spin_laws.specs.Progress.{InHistory, GrantsInFour, GrantsBeside, GrantsTheUpgrade};

/// While a thread waits in a `lock` of a `SpinMutex`, some thread is granted the lock in every four rounds.
///
/// # Contract
/// `GrantsInFour` says this of each four rounds of the moves in the cell's trace.
pub fn some_thread_acquires_a_spin_mutex_in_four_rounds<T>()
    ensures { (opening : Opening T) (word : ℕ) (trace : Trace (spin_mutex.Done T) (Unit {0})) (parties : List (Numbered spin_mutex.View)) → spin_mutex.IsFlag opening word trace parties → InHistory (flag_machine opening.value) trace.entries (GrantsInFour (flag_machine opening.value)) }
{}

/// While a thread that holds nothing waits for an `RwLock`, some thread is granted what it asks in at most six rounds.
/// The number of rounds depends on the holders.
///
/// # Contract
/// `GrantsBeside` says this of the moves in the cell's trace, with the number of rounds that `rounds_beside` gives.
pub fn some_thread_acquires_a_rwlock_in_the_rounds_of_the_holders<T>()
    ensures { (opening : Opening T) (word : ℕ) (trace : Trace (rwlock.Done T) (Unit {0})) (parties : List (Numbered RwLockView)) → rwlock.IsRw opening word trace parties → InHistory (rwlock.model opening.value) trace.entries (GrantsBeside (rwlock.model opening.value)) }
{}

/// A thread that has asked to upgrade its access to an `RwLock` is granted the upgrade in three rounds.
///
/// # Contract
/// `GrantsTheUpgrade` says this of each three rounds of the moves in the cell's trace.
pub fn an_upgrade_of_a_rwlock_is_granted_in_three_rounds<T>()
    ensures { (opening : Opening T) (word : ℕ) (trace : Trace (rwlock.Done T) (Unit {0})) (parties : List (Numbered RwLockView)) → rwlock.IsRw opening word trace parties → InHistory (rwlock.model opening.value) trace.entries (GrantsTheUpgrade (rwlock.model opening.value)) }
{}
