//! What a thread has in a lock and makes a guard of later. Begin at [`Ranked::reserve`].
ghost use Rattle.std.specs.Prelude.{◌≡◌, ◌<◌, IfOk, IfErr};

use crate::order::Order;
use crate::ranked::{Rank, Ranked};
use spin_core::lock::{Claim, Reserve};
use std::sync::Wait;

/// An upgradable reader's guard, or a starver's registration, with the order of the thread that has it.
///
/// [`claim`](Reserved::claim) waits until it is a guard. It consumes the order too. So by then all guards are gone that
/// the thread acquired by what [`nest`](Reserved::nest) lent, and the thread holds nothing that ranks higher.
///
/// # Contract
/// `order.top` is the highest rank that the thread holds, which is that of this lock.
#[must_use]
#[derive(Drop)]
pub struct Reserved<'o, G, W> {
    pub(crate) place: G,
    pub(crate) order: Order<'o, W>,
}

impl<K: Rank, L> Ranked<K, L> {
    /// Acquires what the thread makes a guard of later, in a lock that ranks above all that the thread holds: as
    /// `upgradeable_read` of an `RwLock`, or as `starve` of a `FairMutex`. Returns the order alone if the lock refuses.
    ///
    /// # Contract
    /// The rank has to be above each that the order knows (`above`). What the thread has is as of the lock's own call,
    /// and the order with it knows this rank (`has`). If the lock refuses, the order is as it was (`refused`). Whether
    /// and when the call returns is not promised.
    pub fn reserve<'o, W: Wait>(
        &'o self,
        order: Order<'o, W>,
    ) -> Result<Reserved<'o, L::Place, W>, Order<'o, W>>
    where
        L: Reserve<'o>,
        requires above { order.top < K.rank self.now.key }
        ensures has { IfOk result (λ got. L.has self.now.lock got.place × (got.order.top ≡ K.rank self.now.key)) }
        ensures refused { IfErr result (λ back. back.top ≡ order.entry.top) }
    {
        match self.lock.reserve(order.rt) {
            Some(place) => Ok(Reserved {
                place,
                order: order.raised(self.key.rank()),
            }),
            None => Err(order),
        }
    }
}

impl<'o, G, W: Wait> Reserved<'o, G, W> {
    ghost use Rattle.std.specs.Borrow.{sem};
    ghost use Rattle.spin_order.specs.Reserved.{StaysReserved};

    /// Returns what the thread has, such as an upgradable reader's guard.
    ///
    /// # Contract
    /// It is what the thread has. The call returns.
    pub fn place(&self) -> &G
        ensures { result.now ≡ self.now.place }
    {
        &self.place
    }

    /// Lends the order: to acquire locks that rank higher, and to claim the guard once theirs are gone.
    ///
    /// # Contract
    /// The lent order knows what this one knows (`lent`), and this one stays as it was (`kept`). The call returns.
    pub fn nest<'n>(&'n mut self) -> Order<'n, W>
        ensures lent { result.top ≡ self.old.order.top }
        ensures* kept { sem 𝓛 (StaysReserved G.row W.row self.entry) }
    {
        Order::at(self.order.rt, self.order.top)
    }

    /// Returns what the thread has, and the order. They cannot be put together again, so there is no claim any more.
    ///
    /// # Contract
    /// It is what the thread has, and its order. The call returns.
    pub fn into_parts(self) -> (G, Order<'o, W>)
        ensures { (result.0 ≡ self.entry.place) × (result.1 ≡ self.entry.order) }
    {
        let Self { place, order } = self;
        (place, order)
    }
}

impl<'o, G: Claim, W: Wait> Reserved<'o, G, W> {
    /// Waits until what the thread has is a guard. Returns the guard, and the order of a thread that holds it.
    ///
    /// # Contract
    /// The guard is as of the call itself (`claims`). The order knows what it knew (`kept`). Whether and when the call
    /// returns is not promised.
    pub fn claim(self) -> (G::Guard, Order<'o, W>)
        ensures claims { G.claims self.entry.place result.0 }
        ensures kept { result.1.top ≡ self.entry.order.top }
    {
        let Self { place, order } = self;
        (place.claim(order.rt), order)
    }
}
