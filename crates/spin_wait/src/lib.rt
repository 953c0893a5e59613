//! Waiting for a condition, for some time, or so many times, over any lock. Begin with [`Patient`].
#![tactic(auto)]

mod patient;
mod shared;

pub use patient::Patient;
pub use shared::PatientShared;
