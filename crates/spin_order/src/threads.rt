//! Threads that join under an order.
ghost use Rattle.std.specs.Prelude.{◌≡◌};
ghost use Rattle.spin_order.specs.declared.order.Order.{Order as AnOrder};

use crate::order::Order;
use std::sync::Wait;
use std::thread::{self, Threads};

/// Runs two closures at the same time, and waits for both. Returns what they return, and the order.
///
/// Each closure gets an order like this one. While they run, this thread waits for them, and it may hold what the order
/// knows. So they may wait only for what ranks higher.
///
/// # Contract
/// The precondition of each closure has to hold for an order that knows what this one knows (`first`, `second`). Each
/// result is one that its closure may return for such an order. The order is as it was (`kept`). Whether and when the
/// call returns is not promised.
pub fn join<
    'o,
    R: Threads,
    W: Wait + Sync,
    F: FnOnce(Order<'_, W>) -> A + Send,
    G: FnOnce(Order<'_, W>) -> B,
    A: Send,
    B,
>(rt: &R, order: Order<'o, W>, f: F, g: G) -> ((A, B), Order<'o, W>)
    requires first { (o : AnOrder W) → o.top ≡ order.top → F.pre f o }
    requires second { (o : AnOrder W) → o.top ≡ order.top → G.pre g o }
    ensures first { (o : AnOrder W) × (o.top ≡ order.entry.top) × F.post f o result.0.0 }
    ensures second { (o : AnOrder W) × (o.top ≡ order.entry.top) × G.post g o result.0.1 }
    ensures kept { result.1.top ≡ order.entry.top }
{
    let host = order.rt;
    let top = order.top;
    let both = thread::join(
        rt,
        || -> A
            requires { (o : AnOrder W) → o.top ≡ top → F.pre f o }
            ensures { (o : AnOrder W) × (o.top ≡ top) × F.post f o result }
        { f(Order::at(host, top)) },
        || -> B
            requires { (o : AnOrder W) → o.top ≡ top → G.pre g o }
            ensures { (o : AnOrder W) × (o.top ≡ top) × G.post g o result }
        { g(Order::at(host, top)) },
    );
    (both, order)
}
