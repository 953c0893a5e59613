//! Laws of the lock. Each law is the contract of a function that does nothing.
ghost use Rattle.std.specs.Prelude.{◌≤◌, ℕ, List};
ghost use Rattle.spin_core.specs.Own.{Numbered, IsRun};
ghost use Rattle.spin_core.specs.declared.tie.Opening.{Opening};
ghost use Rattle.spin_core.specs.declared.trace.Trace.{Trace};
ghost use Rattle.spin_fair_seats.specs.FairSeats.{seats};
ghost use Rattle.spin_fair_seats.specs.Rule.{AreFairSeats, IsFairSeats, Made, View, model, sitting, words_of};

/// States that no more parties sit than there are seats, between any two steps of threads.
pub fn no_more_sit_than_there_are_seats()
    ensures { (n next given : ℕ) (views : List View) → AreFairSeats n next given views → sitting views ≤ seats n }
{}

/// States that each run on threads is a schedule of the lock's model.
pub fn every_run_of_fair_seats_is_a_schedule()
    ensures { (n word : ℕ) (opening : Opening (Unit {0})) (trace : Trace Made ℕ) (parties : List (Numbered View)) → IsFairSeats n opening word trace parties → IsRun (model n) (λ seat. seat) words_of trace.entries (word, trace.word) parties }
{}
