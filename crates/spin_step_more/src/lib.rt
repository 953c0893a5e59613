//! The changes of the words of the larger locks: the fair lock, the read-write lock and the barrier.
//! They have the same form as those of `spin_step`, over the same plain lock.
//!
//! Begin with [`fair`].
#![tactic(auto)]

pub mod barrier;
pub mod fair;
mod fair_calls;
pub mod laws;
pub mod rw;

pub use fair_calls::{FairCall, FairPoint, FairTable};

pub mod rw_calls;
