//! `Barrier`, at which threads wait for each other: a `Mutex` over a state that a step function changes. Also what it can
//! keep of its arrivals as ghost state, `Roll` and `Pool`, and `Gate`, a call that each worker of a team makes before its
//! first step.
//!
//! Begin with [`barrier::Barrier`].
#![tactic(auto)]

pub mod barrier;
pub mod gate;
pub mod keep;
pub mod pool;
pub mod roll;
