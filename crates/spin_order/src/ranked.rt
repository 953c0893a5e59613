//! Locks with ranks. Begin at [`Ranked::lock`].
ghost use Rattle.std.specs.Prelude.{◌≡◌, ◌<◌, ℕ, max, MatchResult, IfOk, IfErr};

use crate::order::Order;
use spin_core::lock::{Acquire, AcquireShared};
use std::sync::Wait;

/// What has a rank: a number, or a type of your own whose rank is a constant.
///
/// # Examples
/// ```
/// use spin_order::Rank;
///
/// #[derive(Drop)]
/// struct Settings;
///
/// impl Rank for Settings {
///     ghost rank = { λ _. 1 };
///
///     fn rank(&self) -> u64 {
///         1
///     }
/// }
///
/// assert_eq!(rt; Settings.rank(), 1);
/// ```
pub trait Rank {
    // The rank, which is at least 1 of a lock that a thread can wait for.
    ghost rank: { Self → ℕ };

    /// Returns the rank.
    fn rank(&self) -> u64
        ensures { result ≡ rank self.now };
}

/// A number is its own rank.
impl Rank for u64 {
    ghost rank = { λ number. number };

    fn rank(&self) -> u64 {
        *self
    }
}

/// A rank that its type says, so that no contract of a caller has to.
///
/// # Examples
/// ```
/// use spin::mutex::SpinMutex;
/// use spin_order::{Level, Order, Ranked};
///
/// let mut host = rt;
/// let settings: Ranked<Level<1>, SpinMutex<u64>> = Ranked::new(Level, SpinMutex::new(40));
/// let log: Ranked<Level<2>, SpinMutex<u64>> = Ranked::new(Level, SpinMutex::new(2));
/// let (settings, order) = settings.lock(Order::new(&mut host));
/// let (log, _order) = log.lock(order);
/// assert_eq!(rt; settings.wrapping_add(*log), 42);
/// ```
#[derive(Clone, Copy, Drop)]
pub struct Level<const N: u64>;

impl<const N: u64> Rank for Level<N> {
    ghost rank = { λ _. N };

    fn rank(&self) -> u64 {
        N
    }
}

/// A lock whose key has a rank. A thread acquires it by its [`Order`], and in no other way.
///
/// # Contract
/// The rank is `K.rank key`. It is never changed.
#[derive(Drop)]
pub struct Ranked<K, L> {
    pub(crate) key: K,
    pub(crate) lock: L,
}

impl<K, L> Ranked<K, L> {
    /// Creates a lock with this key.
    ///
    /// # Contract
    /// It has this key and this lock. The call returns.
    pub const fn new(key: K, lock: L) -> Self
        ensures made { (result.key ≡ key) × (result.lock ≡ lock) }
    {
        Ranked { key, lock }
    }

    /// Returns the key.
    ///
    /// # Contract
    /// It is the lock's key. The call returns.
    pub fn key(&self) -> &K
        ensures { result.now ≡ self.now.key }
    {
        &self.key
    }
}

impl<K: Drop, L> Ranked<K, L> {
    /// Consumes it and returns the lock.
    ///
    /// # Contract
    /// It is the lock inside. The call returns.
    pub fn into_inner(self) -> L
        ensures { result ≡ self.lock }
    {
        self.lock
    }
}

impl<'o, K: Rank, L: Acquire<'o>> Ranked<K, L> {
    /// Acquires the lock, which ranks above all that the thread holds. Returns the guard, and the order of a thread
    /// that also holds this lock.
    ///
    /// # Contract
    /// The rank has to be above each that the order knows (`above`). The guard is as of the lock's own call (`grants`).
    /// The returned order also knows this rank (`raised`). Whether and when the call returns is not promised.
    pub fn lock<W: Wait>(&'o self, order: Order<'o, W>) -> (L::Guard, Order<'o, W>)
        requires above { order.top < K.rank self.now.key }
        ensures grants { L.grants self.now.lock result.0 }
        ensures raised { result.1.top ≡ K.rank self.now.key }
    {
        let guard = self.lock.acquire(order.rt);
        (guard, order.raised(self.key.rank()))
    }

    /// Tries to acquire the lock, whatever its rank is: a try waits for nobody. Returns the order alone if it fails.
    ///
    /// # Contract
    /// A guard is as of the lock's own try, and the order with it also knows this rank (`granted`). If the try fails,
    /// the order is as it was (`refused`). The call returns.
    pub fn try_lock<W: Wait>(
        &'o self,
        order: Order<'o, W>,
    ) -> Result<(L::Guard, Order<'o, W>), Order<'o, W>>
        ensures granted { IfOk result (λ got. L.tries self.now.lock got.0 × (got.1.top ≡ max order.entry.top (K.rank self.now.key))) }
        ensures refused { IfErr result (λ back. back.top ≡ order.entry.top) }
    {
        match self.lock.try_acquire() {
            Some(guard) => {
                let rank = self.key.rank();
                let top = if order.top < rank { rank } else { order.top };
                Ok((guard, order.raised(top)))
            }
            None => Err(order),
        }
    }
}

impl<'o, K: Rank, L: AcquireShared<'o>> Ranked<K, L> {
    /// Acquires shared access to the lock, which ranks above all that the thread holds.
    ///
    /// # Contract
    /// As that of [`lock`](Ranked::lock): the guard is as of the lock's own call (`lends`).
    pub fn read<W: Wait>(&'o self, order: Order<'o, W>) -> (L::Shared, Order<'o, W>)
        requires above { order.top < K.rank self.now.key }
        ensures lends { L.lends self.now.lock result.0 }
        ensures raised { result.1.top ≡ K.rank self.now.key }
    {
        let guard = self.lock.acquire_shared(order.rt);
        (guard, order.raised(self.key.rank()))
    }
}
