//! Calls of sessions that only larger locks make.
#![tactic(auto)]

pub mod calls;
pub mod leaps;
