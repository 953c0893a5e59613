//! What holds of each `SpinMutex` between any two steps of threads, and of its passes.
ghost use Rattle.std.specs.Prelude.{◌≡◌, ℕ, List, None};
ghost use mathlib.Core.List.{IsPrefix};
ghost use Rattle.spin_core.specs.Own.{Numbered, IsRun};
ghost use Rattle.spin_core.specs.declared.tie.Opening.{Opening};
ghost use Rattle.spin_core.specs.declared.trace.Trace.{Trace};
ghost use Rattle.spin_step.specs.FlagCalls.{flag_machine};
ghost use Rattle.spin_step.specs.declared.answer.Answer.{Answer};
ghost use Rattle.spin_flag.specs.Flag.{Done, IsFlag, View, words_of};
ghost use Rattle.spin_flag.specs.Passes.{AreTwo, Calls, FlagCall, FlagSpot, history, party};

/// States that each run of a [`SpinMutex`](crate::spin::SpinMutex) on threads is a schedule of its model.
///
/// The lock's cell keeps the list of all moves that threads have made in it. An entry names the party and its move. The
/// list is ghost state, and takes no memory.
///
/// # Contract
/// The law holds between any two steps of threads (`IsFlag`): no move of the list is skipped in the model. After all
/// these moves the model has the lock's word, and each party is where its view says.
pub fn every_run_of_a_spin_mutex_is_a_schedule<T>()
    ensures { (opening : Opening T) (word : ℕ) (trace : Trace (Done T) (Unit {0})) (parties : List (Numbered View)) → IsFlag opening word trace parties → IsRun (flag_machine opening.value) (λ view. view) words_of trace.entries (word, trace.word) parties }
{}

/// States that a pass whose first call comes after a call of another pass is another party.
///
/// So of two passes that have both called, and that then learn of each other, each is told that the other is another.
///
/// # Contract
/// `AreTwo`: the passes have different numbers, that is, places among all parties of the lock.
pub fn a_pass_that_calls_after_another_is_another_party<T>()
    ensures { (c d : FlagCall) (a b : Answer (Unit {0})) (one one' other other' : FlagSpot T) → Calls c a one one' → IsPrefix (history one') (history other) → party other ≡ None → Calls d b other other' → AreTwo one' other' }
{}
