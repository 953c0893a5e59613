//! `RwLock`: a spinning lock for many readers, one of which may upgrade, or for one writer.
//!
//! Begin at [`rwlock::RwLock`], and there at `read` and `write`. [`laws`] says what follows from its rule.
#![tactic(auto)]

pub mod laws;
pub mod rwlock;
