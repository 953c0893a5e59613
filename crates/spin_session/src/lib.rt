//! Sessions: parties of a lock that run the lock's table.
#![tactic(auto)]

pub mod calls;
pub mod second;
pub mod session;
pub mod table;
