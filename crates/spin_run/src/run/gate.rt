//! The proof that a worker has passed its gate. Begin with [`pass`].
use spin_barrier::gate::Gate;
use std::sync::Wait;

/// The proof that a worker has passed its gate. Only [`pass`] makes one, and a worker needs one to begin its
/// additions. So each worker passes the gate first.
#[derive(Drop)]
pub(super) struct Passed {
    /// This private field keeps other modules from making the struct.
    made_here: (),
}

/// Lets a worker pass its gate. A test shows that each worker passes once.
pub(super) fn pass<G: Gate, R: Wait>(gate: &G, rt: &R, worker: usize) -> Passed {
    gate.before(rt, worker);
    Passed { made_here: () }
}
