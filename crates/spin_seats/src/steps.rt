//! Step functions of a lock of seats, whose word is the number of seats taken. Begin with [`enter`].
//!
//! # Examples
//! ```
//! use spin_seats::steps;
//!
//! assert_eq!(rt; steps::enter(1, 2), Some(2));
//! assert_eq!(rt; steps::enter(2, 2), None);
//! assert_eq!(rt; steps::leave(2), 1);
//! ```
ghost use Rattle.std.specs.Prelude.{◌≡◌, ◌≤◌, ℕ};
ghost use Rattle.spin_step.specs.Plain.{Plain, gets, releases, to_read, reading};
ghost use Rattle.spin_step.specs.Steps.{Decides, GivesWord};
ghost use Rattle.spin_seats.specs.Seats.{AllRead, entered, freed, seats, seats_word};

/// The most seats of a lock. A lock that is made for more has this many.
pub const MAX_SEATS: usize = usize::MAX / 8;

/// Returns the word after a thread takes one of `room` seats, or `None` if all seats are taken. No lock has
/// more than [`MAX_SEATS`].
///
/// # Contract
/// The plain lock here is one of readers, whose cap is the number of seats. The answer is `None` exactly
/// where this lock refuses the step. Otherwise it is the word of the next state (`Decides`).
pub fn enter(word: usize, room: usize) -> Option<usize>
    ensures exact { result ≡ entered room word }
    ensures plain { (s : Plain) (party : ℕ) → AllRead s → s.cap ≡ seats room → seats_word s ≡ word → Decides s (gets party to_read) seats_word result }
{
    if word < room.min(MAX_SEATS) {
        Some(word + 1)
    } else {
        None
    }
}

/// Returns the word after a thread frees its seat.
///
/// # Contract
/// A seat has to be taken. Where the plain lock allows the step, the answer is the word of the next state
/// (`GivesWord`).
pub fn leave(word: usize) -> usize
    requires { 1 ≤ word }
    ensures exact { result ≡ freed word }
    ensures plain { (s : Plain) (party : ℕ) → seats_word s ≡ word → GivesWord s (releases party reading) seats_word result }
{
    word - 1
}
