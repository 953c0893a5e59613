//! A trait of guards of a writer, for code over any of them. Begin with [`Lent`].
ghost use Rattle.std.specs.Prelude.{◌≡◌};
ghost use Rattle.std.specs.Borrow.{Lends, sem};
ghost use Rattle.spin_core.specs.Guard.{over};

use crate::guard::{Guard, Writes};
use std::ops::DerefMut;

/// A guard of a writer: what is written through it replaces the value that it shows.
///
/// Code that is generic over the guard knows its value by [`whole`](Lent::whole), and not by `deref`, which promises
/// less.
///
/// # Contract
/// `shown` is the value that the guard shows, and `leaving` is the guard with another value.
pub trait Lent: DerefMut {
    // The value that the guard shows.
    ghost shown: { Self → Self.Target };

    // The guard with this value in place of its own.
    ghost leaving: { Self → Self.Target → Self };

    /// Lends the value, as `deref` does.
    fn whole(&self) -> &Self::Target
        ensures { result.now ≡ Self.shown self.now };

    /// Lends the value, as `deref_mut` does. What is written replaces it (`writes_back`).
    fn whole_mut(&mut self) -> &mut Self::Target
        ensures* writes_back { sem 𝓛 (Lends Self.row Self.Target.row self.entry result (Self.leaving self.old)) }
        ensures value { result.now ≡ Self.shown self.old };
}

impl<W: Writes, E, R> Lent for Guard<W, E, R> {
    ghost shown = { λ guard. W.shown guard.writer };

    ghost leaving = { λ guard x. over guard (W.with guard.writer x) };

    fn whole(&self) -> &W::Value {
        &**self
    }

    fn whole_mut(&mut self) -> &mut W::Value {
        &mut **self
    }
}
