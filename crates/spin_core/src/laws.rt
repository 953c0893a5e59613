//! What callers of any lock know of the values under it. Each law is the contract of a function that does nothing;
//! begin at [`a_guard_reads_the_last_value_written`].
ghost use Rattle.std.specs.Prelude.{◌≡◌, ◌++◌, List, true};
ghost use Rattle.spin_step.specs.Schedules.{Entry};
ghost use Rattle.spin_core.specs.Values.{IsLast, latest};
ghost use Rattle.spin_core.specs.declared.tie.Opening.{Opening};

/// A guard reads the value that any thread wrote last in the lock's history.
///
/// `C` is the type of the lock's calls, and `T` the type of its values. A contract of a pass says which value
/// was last in the history that the pass knows: the clause `found` of an acquire, and the clause `left` of a
/// writer's release.
///
/// # Contract
/// Suppose that the owner has not borrowed the value (`opening.told`). Let `x` be the last value of a history `old`,
/// and `y` that of a longer history of the lock (`IsLast`). Then `y` is the value that the further moves write last,
/// or `x` if they write nothing (`latest`).
pub fn a_guard_reads_the_last_value_written<C, T>()
    ensures { (opening : Opening T) (old new more : List (Entry C T)) (x y : T) → opening.told ≡ true → new ≡ old ++ more → IsLast opening old x → IsLast opening new y → latest x more ≡ y }
{}

/// Two guards read the same value if nothing was written in between.
///
/// # Contract
/// Suppose that the owner has not borrowed the value (`opening.told`). Let `x` be the last value of a history `old`,
/// and `y` that of a longer history of the lock (`IsLast`). If the further moves write nothing (`latest`), `x` and
/// `y` are the same.
pub fn two_guards_read_one_value<C, T>()
    ensures { (opening : Opening T) (old new more : List (Entry C T)) (x y : T) → opening.told ≡ true → new ≡ old ++ more → ((z : T) → latest z more ≡ z) → IsLast opening old x → IsLast opening new y → x ≡ y }
{}
