//! What callers know of other threads' writes under a lock: a log that only grows, with snapshots, and the types that
//! use it. The log is ghost state, and no lock is changed for it.
//!
//! Begin with [`register::Register`]. A [`growing::Growing`] value changes only as an order allows, and a
//! [`tally::Tally`] has an exact total, and a [`quota::Quota`] one that was planned.
#![tactic(auto)]

pub mod growing;
pub mod history;
pub mod quota;
pub mod register;
pub mod tally;
