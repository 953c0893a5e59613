//! `Event`: a count of rings on which threads sleep until the next one.
//!
//! Begin at [`Event`], and there at `listen` and `notify_all`. Its table begins with [`EventCall`]; the laws of its
//! schedules, which say that no wake-up is lost, with [`a_sleeper_is_awake_or_somebody_rings`].
#![tactic(auto)]

mod calls;
mod laws;
mod rule;
mod steps;
mod waits;

pub use calls::{EventCall, EventPoint, EventWords};
pub use laws::{
    a_sleeper_is_awake_or_somebody_rings, a_sleeper_that_was_rung_wakes_up,
    a_wait_that_was_rung_returns, who_ends_a_ring_has_woken, wrong_events_lose_a_wake_up,
};
pub use rule::{Entry, EventRule, Party};
pub use steps::{Counted, Event, Heard, Rung, Slept};
