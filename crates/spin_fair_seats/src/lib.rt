//! `FairSeats`: a counting semaphore that spins, whose callers sit in the order in which they came. It is the example of
//! a lock of two words.
//!
//! Begin with [`seats::FairSeats`]. [`calls`] says how each call goes.
#![tactic(auto)]

pub mod calls;
pub mod laws;
pub mod rule;
pub mod seats;
pub mod steps;
