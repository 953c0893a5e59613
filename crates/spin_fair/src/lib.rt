//! `FairMutex`: a spinning mutex in which starvers go before newcomers.
//!
//! Begin at [`fair::FairMutex`], and there at `lock` and `starve`. [`laws`] says what follows from its rule.
#![tactic(auto)]

pub mod fair;
pub mod laws;

pub use laws::every_run_of_a_fair_mutex_is_a_schedule;
