//! Two programs: one counts in threads under one lock and plays schedules, the other finds all that a few threads
//! may do.
//!
//! Begin in [`run`] or in [`explore`] with `program`, which does what the words of a command line ask for.
//! Other code counts by [`count_with`](run::count_with).
#![tactic(auto)]

pub mod explore;
mod faults;
pub mod run;
