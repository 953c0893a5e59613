//! The right of a thread to wait for locks that rank above all that it holds. Begin at [`Order::new`].
ghost use Rattle.std.specs.Prelude.{◌≡◌};

use std::marker::PhantomData;
use std::sync::Wait;

/// The right of a thread to wait for locks that rank above all that it holds.
///
/// It takes the place of `rt`: a function that has an `Order` and no `rt` waits in no other way. A call that acquires a
/// [`Ranked`](crate::Ranked) lock consumes the order, and returns one that ranks higher beside the guard. To use an
/// order again once the guards are gone, pass what [`nest`](Order::nest) lends. An order cannot be sent to another
/// thread.
///
/// # Contract
/// `top` is the highest rank that the thread holds, or 0 if it holds no ranked lock. Only contracts read it.
///
/// # Examples
/// ```
/// use spin::mutex::SpinMutex;
/// use spin_order::{Order, Ranked};
///
/// let mut host = rt;
/// let low: Ranked<u64, SpinMutex<u64>> = Ranked::new(1, SpinMutex::new(30));
/// let high: Ranked<u64, SpinMutex<u64>> = Ranked::new(2, SpinMutex::new(12));
/// let mut order = Order::new(&mut host);
/// {
///     let (mut first, inner) = low.lock(order.nest());
///     let (second, _inner) = high.lock(inner);
///     *first += *second;
/// }
/// let (sum, _order) = low.lock(order);
/// assert_eq!(rt; *sum, 42);
/// ```
#[must_use]
#[derive(Drop)]
pub struct Order<'o, W> {
    pub(crate) rt: &'o W,
    pub(crate) top: u64,
    here: PhantomData<*const ()>,
}

/// The right to wait of a thread that holds no ranked lock, for code that begins with an order again and again.
///
/// # Contract
/// Each order that it lends knows no lock.
#[must_use]
#[derive(Drop)]
pub struct Idle<'o, W> {
    order: Order<'o, W>,
    ghost idle: { order.top ≡ 0 },
}

impl<'o, W: Wait> Idle<'o, W> {
    ghost use Rattle.std.specs.Prelude.{◌≡◌};

    /// Takes an order that knows no lock.
    ///
    /// # Contract
    /// The call returns.
    pub fn of(order: Order<'o, W>) -> Idle<'o, W>
        requires { order.top ≡ 0 }
    {
        Idle { order }
    }

    /// Lends an order that knows no lock.
    ///
    /// # Contract
    /// The order knows no lock (`idle`). The call returns.
    pub fn order<'n>(&'n mut self) -> Order<'n, W>
        ensures idle { result.top ≡ 0 }
    {
        Order::at(self.order.rt, 0)
    }
}

mod root {
    /// A right to wait from which an order can be made. Code outside this crate cannot name it, so only where the type is
    /// known, in `main` and in tests, can an order be made.
    pub trait Root {}

    impl Root for HostRuntime {}
}

use self::root::Root;

impl<'o, W: Wait + Root> Order<'o, W> {
    /// Returns the order of a thread that holds no ranked lock. It is made in `main` or in a test, once for each thread.
    ///
    /// # Contract
    /// The order knows no lock (`idle`). The call returns.
    pub fn new(rt: &'o mut W) -> Order<'o, W>
        ensures idle { result.top ≡ 0 }
    {
        Order {
            rt: &*rt,
            top: 0,
            here: PhantomData,
        }
    }
}

impl<'o, W: Wait> Order<'o, W> {
    ghost use Rattle.std.specs.Borrow.{sem};
    ghost use Rattle.spin_order.specs.Orders.{StaysAsItWas};

    /// Lends the order: to acquire locks, and to use this one again once their guards are gone.
    ///
    /// # Contract
    /// The lent order knows what this one knows (`lent`), and this one stays as it was (`kept`). The call returns.
    pub fn nest<'n>(&'n mut self) -> Order<'n, W>
        ensures lent { result.top ≡ self.old.top }
        ensures* kept { sem 𝓛 (StaysAsItWas W.row self.entry) }
    {
        Order {
            rt: self.rt,
            top: self.top,
            here: PhantomData,
        }
    }

    /// Returns an order with this rank as the highest.
    ///
    /// # Contract
    /// The order knows this rank as the highest. The call returns.
    pub(crate) fn at(rt: &'o W, rank: u64) -> Order<'o, W>
        ensures { result.top ≡ rank }
    {
        Order {
            rt,
            top: rank,
            here: PhantomData,
        }
    }

    /// Returns the order of a thread that also holds a lock of this rank.
    ///
    /// # Contract
    /// The order knows this rank as the highest. The call returns.
    pub(crate) fn raised(self, rank: u64) -> Order<'o, W>
        ensures { result.top ≡ rank }
    {
        Order::at(self.rt, rank)
    }
}
