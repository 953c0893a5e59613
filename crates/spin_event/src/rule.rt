//! The rule of the cell of an event. Begin with [`EventRule`].
ghost use Rattle.spin_event.specs.Threads.{event_ways, Runs};

use crate::calls::{EventCall, EventPoint};
use spin_core::cell::Rule;
use spin_core::tie::{self, Opening};
use spin_core::trace::Trace;
use spin_step::Seat;

/// A party: its seat in the table, its number, and how long the schedule was after its last step.
pub type Party = tie::Numbered<Seat<EventCall, EventPoint>>;

/// An entry of the schedule.
pub type Entry = tie::Entry<EventCall>;

/// The rule of an event: the trace of its cell is a schedule of the table, which leads to its two words and to the seat
/// of each party (`Runs`). Beyond 2^64 moves nothing is said.
pub struct EventRule;

impl Rule<(), Party> for EventRule {
    type Key = Opening<()>;

    type Second = Trace<Entry, u64>;

    ghost holds = { Runs };

    ghost ways = { event_ways };

    ghost lent = { λ key. key };
}
