//! Each function here states that a wrong lock of seats breaks a law, in most cases on one schedule. So they show
//! what the laws keep out. Begin with [`nobody_sits_beyond_the_seats`].
ghost use Rattle.std.specs.Prelude.{◌++◌, ◌≡◌, []};
ghost use Rattle.spin_step.specs.Operations.{Stepwise};
ghost use Rattle.spin_world_core.specs.Lawful.{Promises};
ghost use Rattle.spin_world_core.specs.Runs.{KeepsAll, CountsAll, MomentsAll};
ghost use Rattle.spin_seats.specs.Table.{seats_machine};
ghost use Rattle.spin_world_seats.specs.Named.{IsSeatsMachine};
ghost use Rattle.spin_seats.specs.declared.calls.SeatsCall.TheVariants as call;
ghost use Rattle.spin_tests.specs.Schedules.{calls, steps, weak};
ghost use Rattle.spin_tests.specs.WrongSeats.{wrong, seats_one_too_many, leaves_for_two, tries_for_ever, looks_twice, enters_in_one, enters_by_a_guess, enters_by_chance, nobody_leaves, enters_or_not, opens_taken, seats_one_on_none, counts_free, looks_on, keeps_all, enters_anew, counts_without_a_limit, tries_and_waits, sits_in_sections};

/// A lock of one seat on which two parties sit. The second one's plain step is not open.
pub fn nobody_sits_beyond_the_seats()
    ensures { KeepsAll (wrong seats_one_too_many) 2 (calls 0 call.TryEnter 2 ++ calls 1 call.TryEnter 2) → ⊥ }
{}

/// A leave that frees two seats. Then the word is not the number of parties that have a seat.
pub fn a_leave_frees_one_seat()
    ensures { KeepsAll (wrong leaves_for_two) 2
        (calls 0 call.TryEnter 2 ++ calls 1 call.TryEnter 2 ++ calls 0 call.Leave 1) → ⊥ }
{}

/// A try that loads the word for ever. A try may take at most two steps, and one more for each change of the word by
/// another party.
pub fn a_try_is_answered()
    ensures { CountsAll (wrong tries_for_ever) 1 (calls 0 call.TryEnter 2) → ⊥ }
{}

/// An `enter` that looks twice, and one that loads again when its exchange has failed. If a seat is free and nobody
/// disturbs this call, it has to be answered within two steps.
pub fn an_enter_is_answered()
    ensures twice { CountsAll (wrong looks_twice) 1 (calls 0 call.Enter 2) → ⊥ }
    // Another party enters between the load and the exchange of `enter`, which then loads again.
    ensures anew { CountsAll (wrong enters_anew) 2 (calls 0 call.Enter 1 ++ calls 1 call.TryEnter 2 ++ steps 0 2) → ⊥ }
{}

/// A try that checks for a free seat and takes it in one event. No processor does both in one step.
pub fn a_step_is_one_operation()
    ensures { Stepwise (wrong enters_in_one) → ⊥ }
{}

/// An `enter` that begins by guessing the word, and counts no failure if the guess was wrong.
pub fn a_wrong_guess_is_counted()
    ensures { CountsAll (wrong enters_by_a_guess) 2 (calls 0 call.TryEnter 2 ++ calls 1 call.Enter 1) → ⊥ }
{}

/// A try that may fail spuriously.
pub fn a_try_fails_by_no_chance()
    ensures { KeepsAll (wrong enters_by_chance) 1 (calls 0 call.TryEnter 0 ++ weak 0) → ⊥ }
{}

/// A lock that nobody can leave. A call has to begin whenever its party holds what the call needs.
pub fn a_seated_party_may_leave()
    ensures { Stepwise (wrong nobody_leaves) → ⊥ }
{}

/// An `enter` that makes the steps of a `try_enter` and promises what a `try_enter` promises.
pub fn an_enter_waits()
    ensures { IsSeatsMachine 2 (wrong enters_or_not) → ⊥ }
{}

/// A lock whose word says at first that a seat is taken, though no party has a seat.
pub fn all_seats_are_free_at_first()
    ensures { KeepsAll (wrong opens_taken) 1 [] → ⊥ }
{}

/// A lock with fewer seats than asked for.
pub fn a_lock_has_its_seats()
    ensures { IsSeatsMachine 2 (seats_machine 1) → ⊥ }
{}

/// A lock that has no seats, but lets one party sit.
pub fn nobody_sits_where_there_are_no_seats()
    ensures { KeepsAll (wrong seats_one_on_none) 1 (calls 0 call.TryEnter 2) → ⊥ }
{}

/// A `count` that tells how many seats are free. At no moment of the call do that many parties have a seat.
pub fn a_count_tells_the_seated_parties()
    ensures { MomentsAll (wrong counts_free) 1 (calls 0 call.Count 1) → ⊥ }
{}

/// An `enter` that looks again and again, and promises its answer in a thousand undisturbed steps. No call may take
/// more than four.
pub fn a_kind_of_lock_has_four_steps()
    ensures { CountsAll (wrong looks_on) 1 (calls 0 call.Enter 4) → ⊥ }
{}

/// Seats whose promise of `leave` lets no party begin this call. `IsSeatsMachine` says what each call promises.
pub fn a_lock_is_of_its_kind()
    ensures { IsSeatsMachine 2 (wrong keeps_all) → ⊥ }
{}

/// Seats whose promises leave too much open: a `count` without a limit, a try that waits, a `leave` that no party may
/// begin, and steps that may be sections.
pub fn promises_leave_little_open()
    ensures limited { Promises (wrong counts_without_a_limit).lock_kind (wrong counts_without_a_limit).asks → ⊥ }
    ensures tries { Promises (wrong tries_and_waits).lock_kind (wrong tries_and_waits).asks → ⊥ }
    ensures begins { Promises (wrong keeps_all).lock_kind (wrong keeps_all).asks → ⊥ }
    ensures sections { Promises (wrong sits_in_sections).lock_kind (wrong sits_in_sections).asks → ⊥ }
{}
