//! Each function here states that a wrong flag breaks a law, in most cases on one schedule. So they show what the
//! laws keep out. Begin with [`a_lock_tries_again`].
ghost use Rattle.std.specs.Prelude.{◌++◌, ◌≡◌, []};
ghost use Rattle.spin_world_core.specs.Runs.{MomentsAll, CountsAll};
ghost use Rattle.spin_step.specs.Operations.{Stepwise};
ghost use Rattle.spin_world_core.specs.Runs.{KeepsAll};
ghost use Rattle.spin_step.specs.declared.flag_calls.FlagCall.TheVariants.{IsLocked, Lock, Release, TryLock};
ghost use Rattle.spin_tests.specs.Schedules.{calls, steps, weak};
ghost use Rattle.spin_tests.specs.WrongFlag.{wrong, never_looks, refuses_at_its_look, looks_first, looks_for_ever, tries_by_chance, looks_by_chance, never_releases, locks_to_read, opens_set, grants_to_read, retries_at_once};

/// A flag whose `lock` never tries again after its first failure. If the flag is clear and nobody disturbs this call,
/// it has to be answered within two steps.
pub fn a_lock_tries_again<V: Copy>()
    // One party sets the flag, the other finds the flag set, and two looks after the release find the flag clear.
    ensures { (value : V) → CountsAll (wrong value looks_for_ever) 2
        (calls 0 TryLock 1 ++ calls 1 Lock 1 ++ calls 0 Release 1 ++ steps 1 2) → ⊥ }
{}

/// A strong try that fails spuriously: the refusal has no moment.
pub fn a_strong_try_has_a_cause<V: Copy>()
    ensures { (value : V) → MomentsAll (wrong value tries_by_chance) 1 (calls 0 TryLock 0 ++ weak 0) → ⊥ }
{}

/// An `is_locked` that may answer spuriously that nobody holds.
pub fn a_look_has_a_cause<V: Copy>()
    ensures { (value : V) → MomentsAll (wrong value looks_by_chance) 2
        (calls 0 TryLock 1 ++ calls 1 IsLocked 0 ++ weak 1) → ⊥ }
{}

/// A flag whose `release` can never begin. A call has to begin whenever its party holds what the call needs.
pub fn a_holder_may_release<V: Copy>()
    ensures { (value : V) → Stepwise (wrong value never_releases) → ⊥ }
{}

/// A flag whose `lock` asks to read. Such a grant needs a plain step that no flag makes.
pub fn a_lock_asks_what_a_flag_grants<V: Copy>()
    ensures { (value : V) → Stepwise (wrong value locks_to_read) → ⊥ }
{}

/// A flag that is set at first, though nobody holds it.
pub fn a_flag_opens_clear<V: Copy>()
    ensures { (value : V) → KeepsAll (wrong value opens_set) 1 [] → ⊥ }
{}

/// A `lock` that begins with its look. If the lock is free, the first step has to acquire it.
pub fn a_lock_begins_by_its_exchange<V: Copy>()
    ensures { (value : V) → CountsAll (wrong value looks_first) 1 (calls 0 Lock 1) → ⊥ }
{}

/// A `lock` that may fail spuriously at its look. Only an exchange may fail spuriously: it makes a plain step when it
/// finds the expected number, and a look never makes a plain step.
pub fn a_look_refuses_by_no_chance<V: Copy>()
    ensures { (value : V) → Stepwise (wrong value refuses_at_its_look) → ⊥ }
{}

/// A `lock` that repeats its exchange when it fails, and never looks. Also a `lock` that repeats it after a spurious
/// failure: such a failure has to lead where any other failure leads.
pub fn a_lock_looks_between_its_exchanges<V: Copy>()
    ensures found { (value : V) → CountsAll (wrong value never_looks) 2 (calls 0 TryLock 1 ++ calls 1 Lock 2) → ⊥ }
    ensures chance { (value : V) → Stepwise (wrong value retries_at_once) → ⊥ }
{}

/// A `try_lock` whose party is told that it reads, though it holds the lock to write.
pub fn a_place_is_what_the_party_holds<V: Copy>()
    ensures { (value : V) → KeepsAll (wrong value grants_to_read) 1 (calls 0 TryLock 1) → ⊥ }
{}
