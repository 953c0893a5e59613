//! `SpinMutex`: a spinning mutex of one flag.
//!
//! Begin at [`spin::SpinMutex`], and there at `lock`.
#![tactic(auto)]

mod laws;
pub mod spin;

pub use laws::{
    a_pass_that_calls_after_another_is_another_party, every_run_of_a_spin_mutex_is_a_schedule,
};
pub use spin_core::laws::a_guard_reads_the_last_value_written;
