//! Passes, by which callers make calls. Begin with [`Pass`].
ghost use Rattle.std.specs.Prelude.{◌≡◌};
ghost use Rattle.spin_seated.specs.Passes.{Seated, seated_of, IsOneSeat, pass_holds};

use super::{Answer, Calls, Opening};
use crate::history::View;
use atomic_table::Seat;
use std::marker::Model;

/// A seat at the table, for one pass.
#[derive(Drop)]
pub struct Place<C> {
    pub(super) seat: Option<Seat<u64, View<Opening, C, Answer>>>,
}

impl<C> Model for Place<C> {
    ghost Value = { Seated C };

    ghost view = { λ p. seated_of p.seat };

    ghost invariant = { λ p. IsOneSeat p.seat };
}

/// The right to call one lock, under a number of its own. Contracts see the history that the pass knows. This
/// history has all calls that the pass made.
///
/// A pass is `Send`, but cannot be copied. If it is dropped while it holds the lock, the lock stays held.
#[derive(Drop)]
#[must_use = "only a pass makes calls: bind it"]
pub struct Pass<C: Calls> {
    pub(crate) place: Place<C>,
    pub(crate) holding: C::PassHold,
}

impl<C: Calls> Model for Pass<C> {
    ghost Value = { Seated C };

    ghost view = { λ p. p.place };

    ghost invariant = { λ p. p.holding ≡ pass_holds C.machine p.place };
}

impl<C: Calls> Pass<C> {
    /// Returns what the pass holds.
    ///
    /// # Contract
    /// The result is what the pass holds at the end of the history that it knows.
    pub fn holds(&self) -> C::PassHold
        ensures { result ≡ pass_holds C.machine self.now }
    {
        self.holding
    }
}
