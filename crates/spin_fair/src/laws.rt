//! What follows from the rule of a `FairMutex`. Each law is the contract of a function that does nothing; begin at
//! [`every_run_of_a_fair_mutex_is_a_schedule`].
ghost use Rattle.std.specs.Prelude.{◌≡◌, ◌⊎◌, ◌≤◌, ◌+◌, ◌-◌, ◌%◌, ◌^◌, ℕ, List, length, true, bit_or, slice_get, unwrap_or};
ghost use Rattle.spin_core.specs.Own.{Numbered, IsRun};
ghost use Rattle.spin_core.specs.declared.tie.Opening.{Opening};
ghost use Rattle.spin_core.specs.declared.trace.Trace.{Trace};
ghost use Rattle.spin_step.specs.Schedules.{State};
ghost use Rattle.spin_step.specs.Plain.{Plain, fair_word, holder_weight, starver_weight};
ghost use Rattle.spin_step.specs.declared.schedule.Move.{Move as TheMove};
ghost use Rattle.spin_step_more.specs.declared.fair_calls.FairCall.{FairCall as TheCall};
ghost use Rattle.spin_step_more.specs.declared.fair_calls.FairPoint.{FairPoint as ThePoint};
ghost use Rattle.spin_step_more.specs.Starvers.{most_starvers, is_held_word, unlocked, unstarved, lock_starved};
ghost use Rattle.spin_fair.specs.Fair.{Done, EndsRegistration, Enters, HoldsWith, IsFair, StarvesAt, View, model, views_of, words_of};

/// Each run of a [`FairMutex`](crate::fair::FairMutex) on threads is a schedule of its model.
///
/// The lock's cell keeps the list of all moves that threads have made in it. An entry names the party and its move. The
/// list is ghost state, and takes no memory.
///
/// # Contract
/// The law holds between any two steps of threads (`IsFair`): no move of the list is skipped in the model. After all
/// these moves the model has the lock's word, and each party is where its view says.
pub fn every_run_of_a_fair_mutex_is_a_schedule<T>()
    ensures { (opening : Opening T) (word : ℕ) (trace : Trace (Done T) (Unit {0})) (parties : List (Numbered View)) → IsFair opening word trace parties → IsRun (model opening.value) (λ view. view) words_of trace.entries (word, trace.word) parties }
{}

/// States that a newcomer acquires a `FairMutex` only while nobody holds it and no starver is registered.
///
/// # Contract
/// If a move of the model grants the lock to its party (`Enters`), it found the word 0, or it ends the party's
/// registration. By [`every_run_of_a_fair_mutex_is_a_schedule`] all moves of threads are moves of the model. The word 0
/// encodes a lock without holders and starvers (`free`). While the word is 0, no party holds the lock or is registered
/// (`nobody`).
pub fn no_newcomer_holds_that_came_behind_a_starver<T>()
    ensures granted { (value : T) (s : State ℕ T TheCall ThePoint) (p : ℕ) (move : TheMove TheCall T)
        → Enters value s p move → (s.words ≡ 0) ⊎ EndsRegistration (slice_get s.seats p) }
    ensures free { (s : Plain) → fair_word s ≡ 0 → (length s.holders ≡ 0) × (length s.starvers ≡ 0) }
    ensures nobody { (opening : Opening T) (trace : Trace (Done T) (Unit {0})) (parties : List (Numbered View)) (p : ℕ)
        → IsFair opening 0 trace parties → (HoldsWith (views_of parties) p → ⊥) × (StarvesAt (views_of parties) p → ⊥) }
{}

/// States that the blind operations on the word of a `FairMutex` do what its step functions say.
///
/// Both the release and the end of a registration are subtractions. A starver sets the flag by a bit operation. No
/// operand of these operations depends on a word that was loaded.
///
/// # Contract
/// If the rule holds (`IsFair`), a holder's subtraction gives the word that `unlocked` gives. A starver's subtraction
/// gives the word that `unstarved` gives. On any word the bit operation gives the word that `lock_starved` gives. If
/// `lock_starved` returns `None`, the bit operation leaves the word as it is.
pub fn an_addition_is_its_step_function<T>()
    ensures unlock { (opening : Opening T) (word : ℕ) (trace : Trace (Done T) (Unit {0})) (parties : List (Numbered View)) (p : ℕ) → IsFair opening word trace parties → HoldsWith (views_of parties) p → (is_held_word word ≡ true) × ((word + (2 ^ 64 - holder_weight)) % 2 ^ 64 ≡ unlocked word) }
    ensures unstarve { (opening : Opening T) (word : ℕ) (trace : Trace (Done T) (Unit {0})) (parties : List (Numbered View)) (p : ℕ) → IsFair opening word trace parties → StarvesAt (views_of parties) p → (starver_weight ≤ word) × ((word + (2 ^ 64 - starver_weight)) % 2 ^ 64 ≡ unstarved word) }
    ensures lock_starved { (word : ℕ) → bit_or word holder_weight ≡ unwrap_or (lock_starved word) word }
{}
