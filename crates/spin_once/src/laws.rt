//! What holds of each `Once` and `LazyLock` between any two steps of threads, and what follows for their callers.
ghost use Rattle.std.specs.Prelude.{◌≡◌, ℕ, List, true, map};
ghost use mathlib.Core.List.{IsPrefix};
ghost use Rattle.spin_core.specs.Own.{Numbered, IsRun};
ghost use Rattle.spin_core.specs.declared.tie.Opening.{Opening};
ghost use Rattle.spin_core.specs.declared.trace.Trace.{Trace};
ghost use Rattle.spin_step.specs.OnceCalls.{once_machine};
ghost use Rattle.spin_once.specs.Foretold.{foretold, counted, place_of};
ghost use Rattle.spin_once.specs.Once.{View, IsOnce, words_of};
ghost use Rattle.spin_once.specs.OnceValues.{Valued, bare, given_of, IsValue};
ghost use Rattle.spin_once.specs.declared.once_core.rule.Stage.{Stage};

/// Each run of a [`Once`](crate::once::Once) or a [`LazyLock`](crate::lazylock::LazyLock) on threads is a schedule of
/// its object.
///
/// The cell keeps the list of all moves that threads have made in it so far. An entry names the party and its move. The
/// list is ghost state, and takes no memory. In the object's table the name of a call says whether its closure will
/// fail. On threads this shows only when the closure ends. So the schedule names each call by how its closure ended,
/// and leaves out the moves that report failures (`foretold`). In place of each write in the list the schedule has a
/// step, the last one of its call (`bare`).
///
/// # Contract
/// The law holds between any two steps of threads (`IsOnce`): no move of the schedule is skipped in the object. After
/// all these moves the object has the cell's word, and each party is where its view says. `opening` says whether the
/// cell was made with a value. A party's place after its last move is a place in this schedule (`counted`).
pub fn every_run_of_a_once_is_a_schedule<T, S>()
    ensures { (opening : Opening (Stage T S)) (word : ℕ) (trace : Trace (Valued T) (Unit {0})) (parties : List (Numbered View)) → IsOnce opening word trace parties → IsRun (once_machine (given_of opening.value)) place_of words_of (foretold (bare trace.entries)) (word, trace.word) (map (counted (bare trace.entries)) parties) }
{}

/// Until the owner borrows the value by `get_mut`, all calls of one `Once` or `LazyLock` that answer with a value
/// answer with the same value.
///
/// Each call of a [`Pass`](crate::once::Pass) that answers with a reference says that its value is the only one in the
/// history that the pass knows (`found`). Of the histories that two passes know, one is a prefix of the other
/// (`compare`).
///
/// # Contract
/// Let `x` be the value of a history `old`, and `y` that of a history `new` that begins with `old` (`IsValue`). If the
/// owner has not borrowed the value (`told`), `x` and `y` are one value.
pub fn two_answers_of_a_once_agree<T, S>()
    ensures { (opening : Opening (Stage T S)) (old new : List (Valued T)) (x y : T) → opening.told ≡ true → IsPrefix old new → IsValue opening old x → IsValue opening new y → x ≡ y }
{}
