//! The transcript of a schedule's events. Begin with [`Transcript`].
use crate::object::Object;
use spin_step::Event;
use std::alloc::{Allocator, Global};

/// The events of a schedule, one for each of its entries.
#[derive(Drop)]
pub struct Transcript<O: Object, A: Allocator = Global> {
    /// The events, in the order of the schedule.
    pub events: Vec<Event<O::Words, O::Value, O::Answer>, A>,
}
