//! What follows from the rule of a `TicketMutex`. Each law is the contract of a function that does nothing; begin at
//! [`the_parties_of_a_ticket_mutex_enter_in_turn`].
ghost use Rattle.std.specs.Prelude.{ℕ, List};
ghost use Rattle.spin_step.specs.Plain.{Plain};
ghost use Rattle.spin_core.specs.Own.{Numbered, IsRun};
ghost use Rattle.spin_core.specs.declared.tie.Opening.{Opening};
ghost use Rattle.spin_core.specs.declared.trace.Trace.{Trace};
ghost use Rattle.spin_mutex.specs.Queue.{IsQueue, Made, View, views, model, seat_of, words_of};
ghost use Rattle.spin_mutex.specs.TicketQueue.{IsInTurn, IsPlainQueue};

/// States that the two words of a `TicketMutex` encode a plain lock, whose tickets are those of its parties.
///
/// # Contract
/// If the rule holds (`IsQueue`), a plain lock exists whose next number and served number are the two words. In this
/// plain lock each party has just the ticket that its seat names (`IsPlainQueue`).
pub fn the_words_of_a_ticket_mutex_are_its_queue<T>()
    ensures { (key : Opening T) (next : ℕ) (trace : Trace (Made T) ℕ) (parties : List (Numbered View)) → IsQueue key next trace parties → (s : Plain) × IsPlainQueue s next trace.word (views parties) }
{}

/// States that the parties of a `TicketMutex` enter in the order of their tickets.
///
/// # Contract
/// If the rule holds (`IsQueue`), each number from the served one up to the last one taken is the ticket of one party.
/// No party but the one with the served number has entered (`IsInTurn`).
pub fn the_parties_of_a_ticket_mutex_enter_in_turn<T>()
    ensures { (key : Opening T) (next : ℕ) (trace : Trace (Made T) ℕ) (parties : List (Numbered View)) → IsQueue key next trace parties → IsInTurn next trace.word (views parties) }
{}

/// States that each run of a [`TicketMutex`](crate::ticket::TicketMutex) on threads is a schedule of its model.
///
/// The lock's cell keeps the list of all moves that threads have made in it. An entry names the party and its move. The
/// list is ghost state, and takes no memory.
///
/// # Contract
/// The law holds between any two steps of threads (`IsQueue`): no move of the list is skipped in the model, which opens
/// with the lock's first ticket. After all these moves the model has the lock's two words, and each party is in its
/// seat.
pub fn every_run_of_a_ticket_mutex_is_a_schedule<T>()
    ensures { (key : Opening T) (next : ℕ) (trace : Trace (Made T) ℕ) (parties : List (Numbered View)) → IsQueue key next trace parties → IsRun (model key) seat_of words_of trace.entries (next, trace.word) parties }
{}
