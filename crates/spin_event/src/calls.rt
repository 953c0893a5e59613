//! The calls of an event, the points that a call reaches between its steps, and the words. The table is in
//! `specs/EventCalls.antt`.

/// The words of an event, and the kernel's list of sleepers as two numbers.
#[derive(Clone, Copy)]
pub struct EventWords {
    /// How often the event has rung.
    pub rings: u64,
    /// How many parties have counted themselves before they sleep, and have not taken this back.
    pub sleepers: u64,
    /// How many sleeps the kernel has begun. It numbers them from 0.
    pub parked: u64,
    /// How many of them it has ended by a wake, in the order in which they began.
    pub woken: u64,
}

/// A call of an event.
#[derive(Clone, Copy)]
pub enum EventCall {
    /// Answers how often the event has rung.
    Listen,
    /// Sleeps until the event has rung more often than `heard`, or for no reason.
    Wait { heard: u64 },
    /// Rings, and wakes each party that sleeps.
    NotifyAll,
    /// Rings, and wakes one party that sleeps.
    NotifyOne,
}

/// A point of a call: what its party does by its next step.
#[derive(Clone, Copy)]
pub enum EventPoint {
    /// `Listen` loads the rings.
    Load,
    /// `Wait` counts its party as a sleeper.
    Count { heard: u64 },
    /// It asks the kernel for a sleep, which begins only if the rings are still those that it heard.
    Park { heard: u64 },
    /// It sleeps, as the kernel's sleep of this number.
    Asleep { heard: u64, place: u64 },
    /// It takes its count back.
    Uncount,
    /// A notification adds 1 to the rings.
    Ring,
    /// It looks whether anybody is counted.
    Look,
    /// It asks the kernel for a wake.
    Wake,
}
