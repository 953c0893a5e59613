//! What a party of a lock knows between two of its steps. Begin with [`Session`].
use spin_core::cell::{Permit, Rule};
use spin_core::trace::Watch;

/// A party's permit, with what the party knows of its lock's trace.
pub struct Session<'a, T, V, E, P: Rule<T, V>> {
    pub permit: Permit<'a, T, V, P>,
    pub seen: Watch<E>,
}
