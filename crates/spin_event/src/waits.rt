//! Whole waits and notifications, of the steps in their order.

ghost use Rattle.std.specs.Prelude.{ℕ, Some, None};
ghost use Rattle.spin_event.specs.declared.calls.EventCall.TheVariants.{NotifyAll, NotifyOne};
ghost use Rattle.spin_event.specs.EventCalls.{EventSchedule};
ghost use Rattle.spin_event.specs.Threads.{EventParty, Looks, Rings};

use crate::steps::{Event, Heard, looks};
use std::hint::spin_loop;
use std::sync::Wait;
use std::time::Duration;

/// How many hints a waiting thread gives before it sleeps.
const SLEEPS_AFTER: u32 = 2000;

impl Event {
    /// Ends one wait that sleeps, and each wait that has listened and does not sleep yet.
    ///
    /// If no thread is counted as a sleeper, it makes an addition and a load. Else it calls the system too.
    ///
    /// # Examples
    /// ```
    /// use spin_event::Event;
    ///
    /// let event = Event::new();
    /// let heard = event.listen();
    /// event.notify_one();
    /// assert!(rt; heard.has_rung());
    /// heard.wait(&rt);
    /// ```
    pub fn notify_one(&self)
        ensures { (u v : EventParty) × (log es log' es' : EventSchedule) × (n m : ℕ) × Rings NotifyOne None log es n u × Looks (Some u) log' es' m v }
    {
        if looks(self.ring_for_one()) {
            self.wakes_one();
        }
    }

    /// Ends each wait that has listened.
    ///
    /// If no thread is counted as a sleeper, it makes an addition and a load. Else it calls the system too.
    pub fn notify_all(&self)
        ensures { (u v : EventParty) × (log es log' es' : EventSchedule) × (n m : ℕ) × Rings NotifyAll None log es n u × Looks (Some u) log' es' m v }
    {
        if looks(self.ring_for_all()) {
            self.wakes_all();
        }
    }
}

impl Heard<'_> {
    // Returns whether the event rings while the caller gives its hints.
    fn rings_soon(&self) -> bool {
        for _ in 0..SLEEPS_AFTER {
            if self.has_rung() {
                return true;
            }
            spin_loop();
        }
        false
    }

    /// Waits until the event has rung since the thread listened. It may also return for no reason.
    ///
    /// It gives 2,000 spin hints, with a look before each, and then sleeps.
    ///
    /// # Contract
    /// Whether and when the call returns is not promised.
    ///
    /// # Examples
    /// ```
    /// use spin_event::Event;
    /// use std::thread;
    ///
    /// let event = Event::new();
    /// let heard = event.listen();
    /// thread::join(&rt, move || heard.wait(&rt), || event.notify_all());
    /// assert!(rt; !event.listen().has_rung());
    /// ```
    pub fn wait<W: Wait>(self, rt: &W) {
        if !self.rings_soon() {
            self.count().park(rt).uncount();
        }
    }

    /// Waits like [`wait`](Heard::wait), but sleeps for at most a time.
    ///
    /// # Contract
    /// Whether and when the call returns is not promised.
    ///
    /// # Examples
    /// ```
    /// use spin_event::Event;
    /// use std::time::Duration;
    ///
    /// let event = Event::new();
    /// event.listen().wait_timeout(&rt, Duration::from_millis(2));
    /// assert!(rt; !event.listen().has_rung());
    /// ```
    pub fn wait_timeout<W: Wait>(self, rt: &W, time: Duration) {
        if !self.rings_soon() {
            self.count().park_timeout(rt, time).uncount();
        }
    }
}
