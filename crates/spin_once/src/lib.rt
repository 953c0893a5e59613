//! `Once` and `LazyLock`: a value that is made once, and then read at the cost of a load.
//!
//! Begin with [`once::Once`]. A [`lazylock::LazyLock`] has its own initialiser.
#![tactic(auto)]

mod exclusive;
mod laws;
pub mod lazylock;
pub mod once;
mod once_core;
mod texts;

pub use laws::{every_run_of_a_once_is_a_schedule, two_answers_of_a_once_agree};
