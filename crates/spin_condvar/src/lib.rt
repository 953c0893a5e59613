//! `Condvar`: a condition variable for every lock with a pass, whose waiters sleep. `Monitor`: a lock whose guards notify.
//!
//! Begin at [`Condvar::wait`] or [`Monitor::lock_when`], and for a lock of your own at [`Relock`].
#![tactic(auto)]

mod condvar;
mod monitor;
mod relock;
mod time;

pub use condvar::Condvar;
pub use monitor::{Bell, Followed, Monitor, MonitorGuard};
pub use relock::Relock;
pub use time::WaitTimeoutResult;
