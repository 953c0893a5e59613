//! Each function here states that a wrong cell breaks a law, in most cases on one schedule. So they show what the
//! laws keep out. Begin with [`a_second_closure_does_not_run`].
ghost use Rattle.std.specs.Prelude.{◌++◌, ◌≡◌, Some, None, []};
ghost use Rattle.spin_step.specs.Operations.{Stepwise};
ghost use Rattle.spin_world_core.specs.Runs.{KeepsAll, MomentsAll, CountsAll};
ghost use Rattle.spin_world_core.specs.Values.{ValuesAll};
ghost use Rattle.spin_step.specs.OnceCalls.{once_machine};
ghost use Rattle.spin_world.specs.OnceClosures.{AnswersAtOnce, LooksFirst, LooksWhereComplete, MayRunAgain, OneRuns};
ghost use Rattle.spin_world.specs.Once.{IsOnceMachine};
ghost use Rattle.spin_step.specs.declared.once_calls.OnceCall.TheVariants.{CallOnce, Get, Poll, TryCallOnceErr, Wait};
ghost use Rattle.spin_tests.specs.Schedules.{calls, steps, weak};
ghost use Rattle.spin_tests.specs.WrongOnce.{wrong, peeks, runs_on, waits_idly, always_fails, never_gets, never_looks, loses_by_chance, opens_at_nothing, replaces, sticks, sticks_silently, gets_early, polls_early, tells_another, places_another, hesitates, begins_again, polls_twice, fails_late};

/// A second closure whose value replaces the first value. Its call makes no plain step, so this closure has not
/// completed.
pub fn a_second_closure_does_not_run<V: Copy>()
    ensures { (u v : V) → (u ≡ v → ⊥) → KeepsAll (wrong V replaces) 1
        (calls 0 (CallOnce u) 3 ++ calls 0 (CallOnce v) 1) → ⊥ }
{}

/// A closure that fails and leaves the word at running. The answer says that the closure has failed, but its call has
/// not made the plain step of a failure.
pub fn a_failure_lets_go<V: Copy>()
    ensures { KeepsAll (wrong V sticks) 1 (calls 0 TryCallOnceErr 3) → ⊥ }
{}

/// A closure that fails and leaves the word at running, in a machine that names the failure as this step's plain step.
/// Then the word is not that of the plain lock.
pub fn a_failure_clears_the_word<V: Copy>()
    ensures { KeepsAll (wrong V sticks_silently) 1 (calls 0 TryCallOnceErr 3) → ⊥ }
{}

/// A `get` that answers a value while a closure runs. At no moment of the call is there a value.
pub fn a_get_finds_a_value<V: Copy>()
    ensures { (v : V) → MomentsAll (wrong V (gets_early v)) 2 (calls 0 (CallOnce v) 2 ++ calls 1 Get 1) → ⊥ }
{}

/// A `get` that loads the value without the word. No schedule shows this, but a closure may be writing the value.
pub fn a_get_looks_at_the_word<V: Copy>()
    ensures { (v : V) → LooksWhereComplete (wrong V peeks) → ⊥ }
{}

/// A `poll` that answers while a closure runs, and says that there is no value.
pub fn a_poll_waits_for_the_closure<V: Copy>()
    ensures { (v : V) → MomentsAll (wrong V polls_early) 2 (calls 0 (CallOnce v) 2 ++ calls 1 Poll 1) → ⊥ }
{}

/// A call that completes and answers another value than it stored.
pub fn an_answer_is_the_value_placed<V: Copy>()
    ensures { (u v : V) → (u ≡ v → ⊥) → ValuesAll (wrong V (tells_another u v)) 1 (calls 0 (CallOnce u) 3) → ⊥ }
{}

/// A call that stores and answers another value than that of its closure.
pub fn a_value_is_the_closures_own<V: Copy>()
    ensures { (u v : V) → (u ≡ v → ⊥) → ValuesAll (wrong V (places_another v)) 1 (calls 0 (CallOnce u) 3) → ⊥ }
{}

/// A closure that never ends. If nobody disturbs a call whose closure runs, this call has to be answered within four
/// steps.
pub fn a_closure_ends<V: Copy>()
    ensures { (v : V) → CountsAll (wrong V runs_on) 1 (calls 0 (CallOnce v) 6) → ⊥ }
{}

/// A `wait` that looks once more though there is a value.
pub fn a_wait_answers_what_it_sees<V: Copy>()
    ensures { (v : V) → AnswersAtOnce (wrong V (waits_idly v)) 1 (calls 0 Wait 0) → ⊥ }
{}

/// A `try_call_once` that fails whatever its closure returns, and is right otherwise.
pub fn a_try_call_once_runs_its_closure<V: Copy>()
    ensures { (v : V) → IsOnceMachine None (wrong V always_fails) → ⊥ }
{}

/// A cell that has lost its opening value, and is right otherwise.
pub fn an_initialized_cell_has_its_value<V: Copy>()
    ensures { (v : V) → IsOnceMachine (Some v) (once_machine None) → ⊥ }
{}

/// A `get` that can never begin.
pub fn a_get_begins<V: Copy>()
    ensures { Stepwise (wrong V never_gets) → ⊥ }
{}

/// A `call_once` that begins with its exchange, and a call that makes a failed exchange again without a look.
pub fn a_call_once_looks_first<V: Copy>()
    ensures first { (v : V) → LooksFirst (wrong V never_looks) 1 (calls 0 (CallOnce v) 0) → ⊥ }
    // The closure that runs then fails.
    ensures again { (v : V) → LooksFirst (wrong V begins_again) 2
        (calls 0 TryCallOnceErr 0 ++ calls 1 (CallOnce v) 1 ++ steps 0 2 ++ steps 1 1 ++ steps 0 1) → ⊥ }
{}

/// A `call_once` whose exchange may fail spuriously.
pub fn a_lost_exchange_has_a_cause<V: Copy>()
    ensures { (v : V) → KeepsAll (wrong V loses_by_chance) 1 (calls 0 (CallOnce v) 1 ++ weak 0) → ⊥ }
{}

/// A cell with a value, but whose word says that there is none.
pub fn a_cell_with_a_value_opens_complete<V: Copy>()
    ensures { (v : V) → KeepsAll (wrong V (opens_at_nothing v)) 1 [] → ⊥ }
{}

/// A call that waits for a closure that fails, and then looks twice before it runs its own closure. While there is no
/// value and no closure runs, the call has to run its closure by its second step.
pub fn a_waiting_call_takes_over<V: Copy>()
    // A closure runs, another call waits for it, and the closure fails.
    ensures { (v : V) → MayRunAgain (wrong V hesitates) 2
        (calls 0 TryCallOnceErr 2 ++ calls 1 (CallOnce v) 2 ++ steps 0 1) → ⊥ }
{}

/// A `poll` that looks once more though there is neither a value nor a closure.
pub fn a_poll_answers_what_it_sees<V: Copy>()
    ensures { AnswersAtOnce (wrong V polls_twice) 1 (calls 0 Poll 0) → ⊥ }
{}

/// A call whose closure has failed, and which gets its answer only after a further step.
pub fn a_failure_is_told_at_once<V: Copy>()
    ensures { OneRuns (wrong V fails_late) 1 (calls 0 TryCallOnceErr 2) → ⊥ }
{}
