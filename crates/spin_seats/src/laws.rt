//! Laws of the lock. Each law is the contract of a function that does nothing, so none has an example.
ghost use Rattle.std.specs.Prelude.{◌≡◌, ◌≤◌, ◌+◌, ◌-◌, ◌%◌, ◌^◌, ℕ, List};
ghost use Rattle.spin_step.specs.Plain.{reading};
ghost use Rattle.spin_core.specs.Own.{Numbered, IsRun};
ghost use Rattle.spin_core.specs.Views.{holds, part_at};
ghost use Rattle.spin_core.specs.declared.tie.Opening.{Opening};
ghost use Rattle.spin_core.specs.declared.trace.Trace.{Trace};
ghost use Rattle.spin_seats.specs.Seats.{freed};
ghost use Rattle.spin_seats.specs.Rule.{Done, IsSeats, IsWord, View, model, part, seats_taken, words_of};

/// States what the rule of a lock of `n` seats says of its word: the word is the number of parties that sit,
/// at most `n`.
pub fn no_more_sit_than_there_are_seats()
    ensures { (n word : ℕ) (views : List View) → IsWord n word tt views → (word ≡ seats_taken views) × (word ≤ n) }
{}

/// States that the subtraction of a party that sits frees a seat as the step function says, on each word that the
/// rule allows. A thread that frees its seat subtracts without a load.
pub fn a_subtraction_is_its_step_function()
    ensures { (n word : ℕ) (views : List View) (p : ℕ) → IsWord n word tt views → part_at (part n) views p ≡ holds reading → (1 ≤ word) × ((word + (2 ^ 64 - 1)) % 2 ^ 64 ≡ freed word) }
{}

/// States that each run of a [`Seats`](crate::seats::Seats) on threads is a schedule of its model.
///
/// The lock's cell keeps the list of all moves that threads have made in it, each with its party. The list is
/// ghost state, and takes no memory.
///
/// # Contract
/// The law holds between any two steps of threads (`IsSeats`). The model skips no move of the list. After all
/// these moves the model has the lock's word, and each party is in its seat.
pub fn every_run_of_seats_is_a_schedule()
    ensures { (n word : ℕ) (opening : Opening (Unit {0})) (trace : Trace Done (Unit {0})) (parties : List (Numbered View)) → IsSeats n opening word trace parties → IsRun (model n) (λ seat. seat) words_of trace.entries (word, trace.word) parties }
{}
