//! `Seats`: a counting semaphore that spins. It is the example of a new lock of a caller's own.
//!
//! Begin with [`seats::Seats`]. [`calls`] says how each call goes, and [`steps`] how it changes the word.
#![tactic(auto)]

pub mod calls;
pub mod laws;
pub mod rule;
pub mod seats;
pub mod steps;
