//! Values that are made once, with ranks. Begin at [`Ranked::call_once`].
ghost use Rattle.std.specs.Prelude.{◌≡◌, ◌<◌};
ghost use Rattle.spin_order.specs.declared.order.Order.{Order as AnOrder};

use crate::order::Order;
use crate::ranked::{Rank, Ranked};
use spin_core::lock::{Fill, Force};
use std::sync::Wait;

impl<K: Rank, L> Ranked<K, L> {
    /// Calls `f` to make the value if there is none yet. Returns the value and the order.
    ///
    /// The closure gets the order of a thread that holds this rank, so it waits only for what ranks higher. Afterwards
    /// the thread holds nothing here: a value is held by nobody.
    ///
    /// # Contract
    /// The rank has to be above each that the order knows (`above`). The precondition of `f` has to hold for an order
    /// that knows this rank as the highest (`callable`). The value is as of the lock's own call (`gives`). The order is
    /// as it was (`kept`). Whether and when the call returns is not promised.
    pub fn call_once<'o, T, F: FnOnce(Order<'_, W>) -> T, W: Wait>(
        &self,
        order: Order<'o, W>,
        f: F,
    ) -> (&T, Order<'o, W>)
    where
        L: Fill<T>,
        requires above { order.top < K.rank self.now.key }
        requires callable { (o : AnOrder W) → o.top ≡ K.rank self.now.key → F.pre f o }
        ensures gives { L.gives self.now.lock (λ value. (o : AnOrder W) × (o.top ≡ K.rank self.now.key) × F.post f o value) result.0.now }
        ensures kept { result.1.top ≡ order.entry.top }
    {
        let rank = self.key.rank();
        let rt = order.rt;
        let value = self.lock.fill(
            rt,
            || -> T
                requires { (o : AnOrder W) → o.top ≡ rank → F.pre f o }
                ensures { (o : AnOrder W) × (o.top ≡ rank) × F.post f o result }
            { f(Order::at(rt, rank)) },
        );
        (value, order)
    }

    /// Returns the value, which its initialiser makes first if there is none yet. The initialiser gets no order, so it
    /// waits for nothing that ranks.
    ///
    /// # Contract
    /// The rank has to be above each that the order knows (`above`), and the initialiser has to be able to make the
    /// value (`can`). The value is as of the lock's own call (`gives`). The order is as it was (`kept`). Whether and
    /// when the call returns is not promised.
    pub fn force<'o, T, W: Wait>(&self, order: Order<'o, W>) -> (&T, Order<'o, W>)
    where
        L: Force<T>,
        requires above { order.top < K.rank self.now.key }
        requires can { L.can self.now.lock }
        ensures gives { L.gives self.now.lock result.0.now }
        ensures kept { result.1.top ≡ order.entry.top }
    {
        (self.lock.force_by(order.rt), order)
    }
}
