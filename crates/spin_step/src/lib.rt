//! Each change of the words of the flag, the ticket lock and the `Once`, as a pure function from the word before to the
//! word after. Each of these functions makes one step of the plain lock, which is defined here too. Also the model of
//! parties: a party's place, the outcomes of its moves, and what a schedule does.
//!
//! Begin with [`flag`], the smallest lock. A function that may fail returns `None` in place of a new word. In the model,
//! begin with [`Move`] and [`Stepped`]: `after` in `specs/Schedules.antt` says what a schedule does. `spin_world_core`
//! plays schedules by these definitions, and proves what holds of every schedule.
//!
//! # Contract
//! The plain lock is a state without words or bits: lists of the threads that hold or wait
//! (`specs/Plain.antt`). Most functions have two clauses:
//!
//! - `exact`: the answer is the one of the function's definition in `specs/`.
//! - `plain`: take the word of a plain state that the lock may be in. The function returns `None` exactly where the
//!   plain lock does not allow the step. Otherwise it returns the word of the next state (`Decides`). A function that
//!   never fails returns that word wherever the plain lock allows the step (`Gives`).
#![tactic(auto)]

mod answer;
mod copies;
pub mod flag;
mod flag_calls;
pub mod once;
mod once_calls;
mod place;
mod schedule;
mod stepped;
pub mod table;
pub mod ticket;
mod ticket_calls;
mod words;

pub use answer::Answer;
pub use flag_calls::{FlagCall, FlagPoint, FlagTable};
pub use once_calls::{OnceCall, OncePoint, OnceTable};
pub use place::{Hold, Place, Seat};
pub use schedule::{Event, Move, Outcome};
pub use stepped::{Next, Stepped};
pub use table::{Operation, Steps};
pub use ticket_calls::{TicketCall, TicketPoint, TicketTable, TicketWords};
pub use words::Words;
