//! Traits of locks in which a thread may have something that it makes a guard of later. Begin with [`Reserve`].
ghost use Rattle.std.specs.Prelude.{IfSome};

use std::sync::Wait;

/// What a thread has in a lock and makes a guard of by a call that waits: the guard of an upgradable reader, or a
/// starver's registration.
///
/// # Contract
/// What is known of the guard is what the call itself says (`claims`).
pub trait Claim {
    type Guard;

    // What is known of the guard.
    ghost claims: { Self → Self.Guard → Type 0 };

    /// Waits until it is a guard: as `upgrade` of an upgradable reader, or as `lock` of a `Starvation`.
    ///
    /// # Contract
    /// Whether and when the call returns is not promised.
    fn claim<W: Wait>(self, rt: &W) -> Self::Guard
        ensures { claims self result };
}

/// A lock in which a thread may have something that it makes a guard of later ([`Claim`]).
///
/// # Contract
/// What is known of it is what the lock's own call says (`has`).
pub trait Reserve<'a> {
    type Place;

    // What is known of what the thread has.
    ghost has: { Self → Self.Place → Type 0 };

    /// Acquires it: as `upgradeable_read` of an `RwLock`, or as `starve` of a `FairMutex`, which is `None` if as many
    /// threads starve as may.
    ///
    /// # Contract
    /// Whether and when the call returns is not promised.
    fn reserve<W: Wait>(&'a self, rt: &W) -> Option<Self::Place>
        ensures { IfSome result (has self.now) };
}
