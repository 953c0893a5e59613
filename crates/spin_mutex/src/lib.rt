//! `Mutex`, a spinning mutex that uses only the contract of the `TicketMutex` in it, which serves threads in the order of
//! their tickets.
//!
//! Begin at [`mutex::Mutex`], and there at `lock`; for the queue at [`ticket::TicketMutex`]. [`laws`] says what follows
//! from its rule.
#![tactic(auto)]

pub mod laws;
pub mod mutex;
pub mod ticket;
pub mod tickets;

pub use laws::every_run_of_a_ticket_mutex_is_a_schedule;
