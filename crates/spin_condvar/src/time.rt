//! A wait that ends at a time. Begin at [`WaitTimeoutResult`].
ghost use Rattle.std.specs.Prelude.{◌≡◌};
ghost use Rattle.spin_condvar.specs.Waits.{has_timed_out};

use std::time::{Clock, Duration, Instant};

/// Whether the time of a wait was over when the wait ended.
#[derive(Clone, Copy, Debug, PartialEq, Eq)]
pub struct WaitTimeoutResult {
    pub(crate) timed_out: bool,
}

impl WaitTimeoutResult {
    /// Returns whether the time was over when the wait ended.
    pub fn timed_out(&self) -> bool
        ensures { result ≡ has_timed_out self.now }
    {
        self.timed_out
    }
}

// A time from `start` on, which is `None` if the clock could not be read.
#[derive(Clone, Copy)]
pub(crate) struct Timer {
    start: Option<Instant>,
    time: Duration,
}

impl Timer {
    pub(crate) fn new<W: Clock>(rt: &W, time: Duration) -> Self {
        Timer {
            start: Instant::now(rt).ok(),
            time,
        }
    }

    // Returns what is left of the time: `None` if it is over, or if the clock cannot be read.
    pub(crate) fn left<W: Clock>(&self, rt: &W) -> Option<Duration> {
        let left = self.time.checked_sub(self.start?.elapsed(rt).ok()?)?;
        if left.is_zero() { None } else { Some(left) }
    }
}
