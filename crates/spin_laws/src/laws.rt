//! One law for each kind of lock, except for a `Barrier` and the seated locks. Each law is the contract of a function
//! that does nothing. A caller that calls this function learns what the law states. Each law also says that no exchange
//! of a thread has failed spuriously (`sure` of `Between`).
ghost use Rattle.std.specs.Prelude.{◌≡◌, ◌++◌, ◌∷◌, ℕ, List};
ghost use Rattle.spin_core.specs.Own.{Numbered};
ghost use Rattle.spin_core.specs.Run.{IsPlayed};
ghost use Rattle.spin_core.specs.declared.tie.Opening.{Opening};
ghost use Rattle.spin_core.specs.declared.trace.Trace.{Trace};
ghost use Rattle.spin_fair.specs.Fair as fair_mutex;
ghost use Rattle.spin_fair.specs.Fair.{View as FairMutexView};
ghost use Rattle.spin_flag.specs.Flag as spin_mutex;
ghost use Rattle.spin_step.specs.FlagCalls.{flag_machine};
ghost use Rattle.spin_step.specs.OnceCalls.{once_machine};
ghost use Rattle.spin_once.specs.Foretold.{foretold, place_of};
ghost use Rattle.spin_once.specs.Once as once;
ghost use Rattle.spin_once.specs.OnceValues as once_values;
ghost use Rattle.spin_once.specs.declared.once_core.rule.Stage.{Stage as OnceStage};
ghost use Rattle.spin_rwlock.specs.Rw as rwlock;
ghost use Rattle.spin_rwlock.specs.Rw.{View as RwLockView};
ghost use Rattle.spin_seats.specs.Rule as seats;
ghost use Rattle.spin_mutex.specs.Queue as ticket_mutex;
ghost use Rattle.spin_mutex.specs.Queue.{View as TicketMutexView};
ghost use Rattle.spin_laws.specs.Between.{Between};
ghost use Rattle.spin_world.specs.Fairness.{ComesAfterStarvers};

/// Between any two steps of the threads that use a `SpinMutex`, the lock's word is 1 if a party holds the lock, else 0.
/// At most one party holds the lock. Each party holds or waits in the plain lock as its view says.
///
/// # Contract
/// `Between` says this of the word and the parties of the lock's cell, after the moves in the cell's trace.
pub fn between_any_two_steps_of_a_spin_mutex<T>()
    ensures { (opening : Opening T) (word : ℕ) (trace : Trace (spin_mutex.Done T) (Unit {0})) (parties : List (Numbered spin_mutex.View)) → spin_mutex.IsFlag opening word trace parties → Between (flag_machine opening.value) (λ view. view) spin_mutex.words_of trace.entries (word, trace.word) parties }
{}

/// Between any two steps of the threads that use a `TicketMutex`, the lock's words are the next number and the served
/// number of a queue of tickets. At most one ticket has entered. Each party holds or waits in the plain lock as its
/// view says.
///
/// # Contract
/// `Between` says this of the words and the parties of the lock's cell, after the moves in the cell's trace.
pub fn between_any_two_steps_of_a_ticket_mutex<T>()
    ensures { (key : Opening T) (next : ℕ) (trace : Trace (ticket_mutex.Made T) ℕ) (parties : List (Numbered TicketMutexView)) → ticket_mutex.IsQueue key next trace parties → Between (ticket_mutex.model key) ticket_mutex.seat_of ticket_mutex.words_of trace.entries (next, trace.word) parties }
{}

/// Between any two steps of the threads that use a `FairMutex`, the lock's word encodes exactly its holders and its
/// registered starvers. At most one party holds the lock. Each party holds or waits in the plain lock as its view says.
///
/// # Contract
/// `Between` says this of the word and the parties of the lock's cell, after the moves in the cell's trace.
pub fn between_any_two_steps_of_a_fair_mutex<T>()
    ensures { (opening : Opening T) (word : ℕ) (trace : Trace (fair_mutex.Done T) (Unit {0})) (parties : List (Numbered FairMutexView)) → fair_mutex.IsFair opening word trace parties → Between (fair_mutex.model opening.value) (λ view. view) fair_mutex.words_of trace.entries (word, trace.word) parties }
{}

/// Between any two steps of the threads that use a `Seats`, the lock's word is the number of parties that have a seat.
/// Each party holds or waits in the plain lock as its seat in the model says.
///
/// # Contract
/// `Between` says this of the word and the parties of the lock's cell, after the moves in the cell's trace.
pub fn between_any_two_steps_of_seats()
    ensures { (n word : ℕ) (opening : Opening (Unit {0})) (trace : Trace seats.Done (Unit {0})) (parties : List (Numbered seats.View)) → seats.IsSeats n opening word trace parties → Between (seats.model n) (λ seat. seat) seats.words_of trace.entries (word, trace.word) parties }
{}

/// Between any two steps of the threads that use an `RwLock`, the lock's word encodes exactly its holders. A writer
/// holds alone, and at most one reader may upgrade. Each party holds or waits in the plain lock as its view says.
///
/// # Contract
/// `Between` says this of the word and the parties of the lock's cell, after the moves in the cell's trace.
pub fn between_any_two_steps_of_a_rwlock<T>()
    ensures { (opening : Opening T) (word : ℕ) (trace : Trace (rwlock.Done T) (Unit {0})) (parties : List (Numbered RwLockView)) → rwlock.IsRw opening word trace parties → Between (rwlock.model opening.value) rwlock.seat_of rwlock.words_of trace.entries (word, trace.word) parties }
{}

/// Between any two steps of the threads that use a `Once` or a `LazyLock`, the word tells the phase: 1 while a closure
/// runs, 2 with a value, else 0. At most one closure runs, and none once there is a value. Each party is in the plain
/// lock what its view says.
///
/// # Contract
/// `Between` says this of the word and the parties of the cell. The moves in the cell's trace make a schedule of the
/// object `Once` (`bare`, `foretold`). `opening` says whether the cell was made with a value.
pub fn between_any_two_steps_of_a_once<T, S>()
    ensures { (opening : Opening (OnceStage T S)) (word : ℕ) (trace : Trace (once_values.Valued T) (Unit {0})) (parties : List (Numbered once.View)) → once.IsOnce opening word trace parties → Between (once_machine (once_values.given_of opening.value)) place_of once.words_of (foretold (once_values.bare trace.entries)) (word, trace.word) parties }
{}

/// No newcomer acquires a `FairMutex` while a starver is registered. A newcomer is a party that neither holds the lock nor
/// is registered.
///
/// # Contract
/// The moves in the cell's trace are a schedule of the model for so many parties, and none of them is skipped. By
/// `ComesAfterStarvers` a move of this schedule by which a newcomer acquires the lock finds no starver registered.
pub fn no_newcomer_acquires_a_fair_mutex_beside_a_starver<T>()
    ensures { (opening : Opening T) (word : ℕ) (trace : Trace (fair_mutex.Done T) (Unit {0})) (parties : List (Numbered FairMutexView)) → fair_mutex.IsFair opening word trace parties
        → (came : ℕ) × IsPlayed (fair_mutex.model opening.value) came trace.entries
        × ((past rest : List (fair_mutex.Done T)) (next : fair_mutex.Done T) → trace.entries ≡ past ++ (next ∷ rest) → ComesAfterStarvers (fair_mutex.model opening.value) came past next.0 next.1) }
{}
