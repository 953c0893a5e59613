//! Laws that an answer was right at some moment of its call. Each law is the contract of a function that does nothing.
//! A caller that calls this function learns what the law states.
//!
//! Each law speaks of every pass that has made one call and got one answer, as the call's clause says (`Calls`). At some
//! moment at which the pass was in that call, the plain lock was as the law says (`Found`, `FoundOnce`). But the last law
//! speaks of the moment just after the step that answered the call. The test `is_held` says that a party holds the lock,
//! or is in its queue. [`crate::uses`] has callers.
ghost use Rattle.std.specs.Prelude.{◌≡◌, ◌⊎◌, ◌<◌, ◌≤◌, ℕ, Bool, true, false, length};
ghost use Rattle.spin_core.specs.declared.tie.Opening.{Opening};
ghost use Rattle.spin_fair.specs.Fair as fair_mutex;
ghost use Rattle.spin_fair.specs.Fair.{View as FairMutexView};
ghost use Rattle.spin_flag.specs.Flag as spin_mutex;
ghost use Rattle.spin_step.specs.Calls.{is_starved, readers, writers};
ghost use Rattle.spin_step.specs.TicketCalls.{is_left};
ghost use Rattle.spin_step.specs.declared.answer.Answer.TheVariants.{Refused, Locked, Starved, Is, Count, NoValue};
ghost use Rattle.spin_step.specs.FlagCalls.{flag_machine};
ghost use Rattle.spin_step.specs.declared.flag_calls.FlagCall.TheVariants as flag;
ghost use Rattle.spin_step.specs.declared.once_calls.OnceCall.TheVariants as once;
ghost use Rattle.spin_step.specs.declared.ticket_calls.TicketCall.TheVariants as ticket;
ghost use Rattle.spin_rwlock.specs.Rw as rwlock;
ghost use Rattle.spin_rwlock.specs.Rw.{View as RwLockView};
ghost use Rattle.spin_seats.specs.Rule as seats;
ghost use Rattle.spin_seats.specs.Seats.{seats as as_many_as_seats};
ghost use Rattle.spin_seats.specs.declared.calls.SeatsCall.TheVariants as call;
ghost use Rattle.spin_step.specs.Parties.{is_held};
ghost use Rattle.spin_step.specs.Plain.{asking, count_kind, is_nothing, upgraders};
ghost use Rattle.spin_step_more.specs.Readers.{reader_limit};
ghost use Rattle.spin_step_more.specs.Starvers.{most_starvers};
ghost use Rattle.spin_step_more.specs.declared.fair_calls.FairCall.TheVariants as fair;
ghost use Rattle.spin_step_more.specs.declared.rw_calls.RwCall.TheVariants as rw;
ghost use Rattle.spin_mutex.specs.Queue as ticket_mutex;
ghost use Rattle.spin_mutex.specs.Queue.{View as TicketMutexView};
ghost use Rattle.spin_laws.specs.Moments.{Was, Found};
ghost use Rattle.spin_laws.specs.Onces.{FoundOnce, GaveOnce, has_value};

/// If a pass tried once to acquire a `SpinMutex` and failed, some party held the lock at a moment of the call.
///
/// # Contract
/// `Found`: at a moment of the call the plain lock passed the test `is_held`.
pub fn a_refused_try_found_the_spin_mutex_held<T>()
    ensures { (opening : T) → Found (flag_machine opening) spin_mutex.View flag.TryLock Refused (Was is_held true) }
{}

/// If a pass called `is_locked` of a `SpinMutex` once, then at some moment of the call the lock was as the answer says.
///
/// # Contract
/// `Found`: at a moment of the call the test `is_held` of the plain lock gave the same answer as the call.
pub fn a_look_at_a_spin_mutex_was_so_at_a_moment<T>()
    ensures { (opening : T) (held : Bool) → Found (flag_machine opening) spin_mutex.View flag.IsLocked (Is held) (Was is_held held) }
{}

/// If a pass tried once to acquire a `TicketMutex` and failed, the failure was right at a moment of the call. A party
/// held the lock then or waited for it, or all tickets had been taken.
///
/// # Contract
/// `Found`: at a moment of the call the plain lock passed the test `is_held`, or no next number was left (`is_left`).
pub fn a_refused_try_found_the_ticket_mutex_held_or_used_up<T>()
    ensures { (key : Opening T) → Found (ticket_mutex.model key) TicketMutexView ticket.TryLock Refused (λ s.
        (is_held s ≡ true) ⊎ (is_left s.next ≡ false)) }
{}

/// If a pass called `is_locked` of a `TicketMutex` once, then at some moment of the call the lock was as the answer
/// says.
///
/// # Contract
/// `Found`: at a moment of the call the test `is_held` of the plain lock gave the same answer as the call.
pub fn a_look_at_a_ticket_mutex_was_so_at_a_moment<T>()
    ensures { (key : Opening T) (held : Bool) →
        Found (ticket_mutex.model key) TicketMutexView ticket.IsLocked (Is held) (Was is_held held) }
{}

/// If a pass tried once to acquire a `FairMutex` and failed, the failure was right at a moment of the call. A party
/// held the lock then, or was registered as a starver.
///
/// # Contract
/// `Found`: at a moment of the call the plain lock passed the test `is_held` or the test `is_starved`.
pub fn a_refused_try_found_the_fair_mutex_held_or_starved<T>()
    ensures { (opening : T) → Found (fair_mutex.model opening) FairMutexView fair.TryLock Refused (λ s.
        (is_held s ≡ true) ⊎ (is_starved s ≡ true)) }
{}

/// If a pass tried once to acquire a `FairMutex` and failed with a reason, the reason was right at a moment of the
/// call. `Locked`: a party held the lock then, and none was registered as a starver. `Starved`: a party was registered
/// then.
///
/// # Contract
/// `Found`: at a moment of the call the plain lock passed the test of the clause `locked` or `starved`.
pub fn the_reason_for_a_refusal_was_so_at_a_moment<T>()
    ensures locked { (opening : T) → Found (fair_mutex.model opening) FairMutexView fair.TryLockStarver Locked (λ s.
        (is_held s ≡ true) × (is_starved s ≡ false)) }
    ensures starved { (opening : T) → Found (fair_mutex.model opening) FairMutexView fair.TryLockStarver Starved (Was is_starved true) }
{}

/// If a pass called `is_locked` of a `FairMutex` once, then at some moment of the call the lock was as the answer says.
///
/// # Contract
/// `Found`: at a moment of the call the test `is_held` of the plain lock gave the same answer as the call.
pub fn a_look_at_a_fair_mutex_was_so_at_a_moment<T>()
    ensures { (opening : T) (held : Bool) →
        Found (fair_mutex.model opening) FairMutexView fair.IsLocked (Is held) (Was is_held held) }
{}

/// If a pass tried once to register as a starver of a `FairMutex` and failed, the failure was right at a moment of the
/// call. As many starvers were registered then as the lock allows.
///
/// # Contract
/// `Found`: at a moment of the call the plain lock had at least `most_starvers` starvers.
pub fn a_refused_starve_found_as_many_as_may_starve<T>()
    ensures { (opening : T) → Found (fair_mutex.model opening) FairMutexView fair.Starve Refused (λ s. most_starvers ≤ length s.starvers) }
{}

/// If a pass that starves tried once to acquire a `FairMutex` by `try_lock` and failed, some party held the lock at a
/// moment of the call. If `try_lock_fair` failed, some party held the lock, or another starver was registered, at a
/// moment of the call.
///
/// # Contract
/// `Found`: at a moment of the call the plain lock passed the test `is_held`. For `try_lock_fair` it may instead have
/// had two or more starvers.
pub fn a_refused_starver_was_kept_out_at_a_moment<T>()
    ensures try_lock { (opening : T) → Found (fair_mutex.model opening) FairMutexView fair.StarverTryLock Refused (Was is_held true) }
    ensures try_lock_fair { (opening : T) → Found (fair_mutex.model opening) FairMutexView fair.StarverTryLockFair Refused (λ s.
        (is_held s ≡ true) ⊎ (1 < length s.starvers)) }
{}

/// If a pass tried once to acquire shared access to an `RwLock` and failed, the failure was right at a moment of the
/// call. A writer or a reader that had asked to upgrade held the lock then, or as many parties held it as it allows.
///
/// # Contract
/// `Found`: at a moment of the call one of the clause's three cases was true of the plain lock.
pub fn a_refused_try_read_was_kept_out_at_a_moment<T>()
    ensures { (opening : T) → Found (rwlock.model opening) RwLockView rw.TryRead Refused (λ s.
        (0 < writers s) ⊎ (0 < count_kind asking s.holders) ⊎ (length s.holders ≡ reader_limit)) }
{}

/// If a pass tried once to acquire upgradable access to an `RwLock` and failed, the failure was right at a moment of
/// the call. A writer or an upgradable reader held the lock then, or as many parties held it as it allows.
///
/// # Contract
/// `Found`: at a moment of the call one of the clause's three cases was true of the plain lock.
pub fn a_refused_try_upgradeable_read_was_kept_out_at_a_moment<T>()
    ensures { (opening : T) → Found (rwlock.model opening) RwLockView rw.TryUpgradeableRead Refused (λ s.
        (0 < writers s) ⊎ (0 < upgraders s.holders) ⊎ (length s.holders ≡ reader_limit)) }
{}

/// If a pass tried once to acquire exclusive access to an `RwLock` and failed, then at a moment of the call some party
/// held the lock.
///
/// # Contract
/// `Found`: at a moment of the call the plain lock passed the test `is_held`.
pub fn a_refused_try_write_was_kept_out_at_a_moment<T>()
    ensures { (opening : T) → Found (rwlock.model opening) RwLockView rw.TryWrite Refused (Was is_held true) }
{}

/// If a pass with upgradable access to an `RwLock` tried once to upgrade and failed, then at a moment of the call
/// another party held the lock.
///
/// # Contract
/// `Found`: at a moment of the call the plain lock had more than one holder.
pub fn a_refused_try_upgrade_was_kept_out_at_a_moment<T>()
    ensures { (opening : T) → Found (rwlock.model opening) RwLockView rw.TryUpgrade Refused (λ s. 1 < length s.holders) }
{}

/// If a pass counted the readers or the writers of an `RwLock` once, the count was right at a moment of the call.
///
/// # Contract
/// `Found`: at a moment of the call the plain lock had as many readers or writers as the answer says.
pub fn a_count_of_a_rwlock_was_so_at_a_moment<T>()
    ensures readers { (opening : T) (count : ℕ) →
        Found (rwlock.model opening) RwLockView rw.ReaderCount (Count count) (Was readers count) }
    ensures writers { (opening : T) (count : ℕ) →
        Found (rwlock.model opening) RwLockView rw.WriterCount (Count count) (Was writers count) }
{}

/// If a pass called `is_locked` of an `RwLock` once, then at some moment of the call the lock was as the answer says.
///
/// # Contract
/// `Found`: at a moment of the call the test `is_held` of the plain lock gave the same answer as the call.
pub fn a_look_at_a_rwlock_was_so_at_a_moment<T>()
    ensures { (opening : T) (held : Bool) → Found (rwlock.model opening) RwLockView rw.IsLocked (Is held) (Was is_held held) }
{}

/// If a pass counted the taken seats of a `Seats` once, the count was right at a moment of the call.
///
/// # Contract
/// `Found`: at a moment of the call the plain lock had as many readers as the answer says. A party with a seat reads.
pub fn a_count_of_seats_was_so_at_a_moment()
    ensures { (n count : ℕ) → Found (seats.model n) seats.View call.Count (Count count) (Was readers count) }
{}

/// If a pass tried once to take a seat and was refused, all seats were taken at a moment of the call.
///
/// # Contract
/// `Found`: at a moment of the call the plain lock had as many holders as there are seats.
pub fn a_refused_try_found_all_seats_taken()
    ensures { (n : ℕ) → Found (seats.model n) seats.View call.TryEnter Refused (λ s. length s.holders ≡ as_many_as_seats n) }
{}

/// If a pass called `is_completed` of a `Once` once, then at some moment of the call the `Once` was as the answer says.
///
/// # Contract
/// `FoundOnce`: at a moment of the call the test `has_value` of the plain lock gave the same answer as the call.
pub fn a_look_at_a_once_was_so_at_a_moment()
    ensures { (there : Bool) → FoundOnce once.IsCompleted (Is there) (Was has_value there) }
{}

/// If a pass called `get` or `poll` of a `Once` and got no value, there was no value at a moment of the call. After
/// `poll`, it is also known that no closure ran at that moment.
///
/// # Contract
/// `FoundOnce`: at a moment of the call `has_value` was false. For `poll` the phase was `nothing` at that moment.
pub fn a_call_without_a_value_found_none_at_a_moment()
    ensures get { FoundOnce once.Get NoValue (Was has_value false) }
    ensures poll { FoundOnce once.Poll NoValue (λ s. is_nothing s.phase ≡ true) }
{}

/// If a call of a pass of a `Once` or a `LazyLock` returned a value, there was a value when the call was answered.
///
/// # Contract
/// `GaveOnce`: just after the step that answered the call with `Value`, the plain lock passed the test `has_value`.
pub fn there_was_a_value_as_a_once_gave_it()
    ensures { GaveOnce }
{}
