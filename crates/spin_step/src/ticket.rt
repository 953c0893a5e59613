//! Tickets: each thread takes the next number, and enters when that number is served. Begin with [`take`].
//!
//! # Examples
//! ```
//! use spin::step::ticket;
//!
//! assert_eq!(rt; ticket::take(7), Some(8));
//! assert_eq!(rt; ticket::take(u64::MAX), None);
//! assert!(rt; ticket::is_turn(7, 7));
//! assert_eq!(rt; ticket::serve(7), 8);
//! ```
ghost use Rattle.std.specs.Prelude.{◌≡◌, ◌<◌, ◌≤◌, ◌+◌, ◌==◌, ℕ, Some, None, length, nat_lt, if◌then◌else◌};
ghost use Rattle.spin_step.specs.Plain.{Plain, ticket_limit, gets, serves, to_take_ticket, to_take_and_enter, next_word, serving_word};
ghost use Rattle.spin_step.specs.Steps.{Decides, GivesWord};
ghost use Rattle.spin_step.specs.Tickets.{IsTurn, take, served};

/// Returns the number of the next ticket after a thread takes ticket `next`, or `None` if no number is left.
///
/// If no other thread has a ticket, it is at once this thread's turn.
///
/// # Contract
/// The answer is `None` exactly where the plain lock refuses the step. Otherwise it is the word of the next
/// state (`Decides`). If number `next` is being served, the same is true of the plain step that takes the
/// ticket and enters at once.
pub fn take(next: u64) -> Option<u64>
    ensures exact { result ≡ take next }
    ensures plain { (s : Plain) (party : ℕ) → next_word s ≡ next → Decides s (gets party to_take_ticket) next_word result }
    ensures enters { (s : Plain) (party : ℕ) → length s.tickets ≤ next_word s → next_word s ≡ next → serving_word s ≡ next → Decides s (gets party to_take_and_enter) next_word result }
{
    if next < u64::MAX {
        Some(next + 1)
    } else {
        None
    }
}

/// Returns the number that is served after the thread with `ticket` leaves.
///
/// # Contract
/// The ticket has to be below the limit of tickets. Where the plain lock allows the step, the answer is the
/// word of the next state (`GivesWord`).
pub fn serve(ticket: u64) -> u64
    requires { ticket < ticket_limit }
    ensures exact { result ≡ served ticket }
    ensures plain { (s : Plain) (party : ℕ) → length s.tickets ≤ next_word s → serving_word s ≡ ticket → GivesWord s (serves party) serving_word result }
{
    ticket + 1
}

/// Returns `true` if the thread with `ticket` may enter while `serving` is served.
///
/// # Contract
/// The answer is `true` exactly if the plain lock lets the thread enter (`IsTurn`).
#[tactic(auto, using(crate::proofs::Tickets::enters_in_turn))]
pub fn is_turn(serving: u64, ticket: u64) -> bool
    ensures exact { result ≡ (serving == ticket) }
    ensures plain { IsTurn serving ticket result }
{
    serving == ticket
}
