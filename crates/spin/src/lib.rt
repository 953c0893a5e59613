//! Spinning locks that are proved, under the names of the Rust crate `spin`: each change of a lock's word is a public
//! pure function of [`step`]. A user of the locks names this crate alone.
//!
//! Begin at [`Mutex`], then see [`RwLock`], [`Once`], [`LazyLock`], [`Barrier`] and [`Condvar`]. The module [`mutex`] has
//! the mutexes [`SpinMutex`](mutex::SpinMutex), [`TicketMutex`](mutex::TicketMutex) and [`FairMutex`](mutex::FairMutex).
#![tactic(auto)]

pub use mutex::MutexGuard;
pub use relax::{RelaxStrategy, Spin, Yield, YieldThenSleep};
pub use rwlock::RwLockReadGuard;
pub use spin_barrier::barrier;
pub use spin_condvar::{Condvar, Monitor, MonitorGuard, WaitTimeoutResult};
pub use spin_core::{laws, relax};
pub use spin_once::{lazylock, once};
pub use spin_order as order;
pub use spin_rwlock::rwlock;

pub mod lock;
pub mod mutex;
pub mod step;

/// A [`barrier::Barrier`] with the default strategy, [`Spin`].
///
/// # Contract
/// See `barrier::Barrier`.
///
/// # Examples
/// ```
/// use spin::Barrier;
/// use std::thread;
///
/// let both: Barrier = Barrier::new(2);
/// let wait = || both.wait(&rt).is_leader();
/// let (first, second) = thread::join(&rt, &wait, &wait);
/// assert!(rt; first != second);
/// ```
pub type Barrier = barrier::Barrier<Spin>;

/// A [`mutex::Mutex`] with the default strategy, [`Spin`].
///
/// # Contract
/// See `mutex::Mutex`.
///
/// # Examples
/// ```
/// use spin::Mutex;
/// use std::thread;
///
/// let total = Mutex::new(0u64);
/// let add = || {
///     let mut guard = total.lock(&rt);
///     *guard = guard.saturating_add(1);
/// };
/// thread::join(&rt, &add, &add);
/// assert_eq!(rt; total.into_inner(), 2);
/// ```
pub type Mutex<T> = mutex::Mutex<T, Spin>;

/// A [`rwlock::RwLock`] with the default strategy, [`Spin`].
///
/// # Contract
/// See `rwlock::RwLock`.
///
/// # Examples
/// ```
/// use spin::RwLock;
///
/// let limit: RwLock<u64> = RwLock::new(3);
/// let (first, second) = (limit.read(&rt), limit.read(&rt));
/// assert_eq!(rt; (*first, *second), (3, 3));
/// assert!(rt; limit.try_write().is_none());
/// ```
pub type RwLock<T> = rwlock::RwLock<T, Spin>;

/// The guard of the upgradable reader of a [`RwLock`].
///
/// # Contract
/// See `rwlock::RwLockUpgradableGuard`.
///
/// # Examples
/// ```
/// use spin::RwLock;
///
/// let limit: RwLock<u64> = RwLock::new(3);
/// let guard = limit.upgradeable_read(&rt);
/// let mut writer = guard.upgrade(&rt);
/// *writer = 4;
/// drop(writer);
/// assert_eq!(rt; limit.into_inner(), 4);
/// ```
pub type RwLockUpgradableGuard<'a, T> = rwlock::RwLockUpgradableGuard<'a, T, Spin>;

/// The guard of the writer of a [`RwLock`].
///
/// # Contract
/// See `rwlock::RwLockWriteGuard`.
///
/// # Examples
/// ```
/// use spin::RwLock;
///
/// let limit: RwLock<u64> = RwLock::new(3);
/// let mut writer = limit.write(&rt);
/// *writer = 4;
/// let reader = writer.downgrade();
/// assert_eq!(rt; (*reader, *limit.read(&rt)), (4, 4));
/// ```
pub type RwLockWriteGuard<'a, T> = rwlock::RwLockWriteGuard<'a, T, Spin>;

/// A [`once::Once`] with the default strategy, [`Spin`].
///
/// # Contract
/// See `once::Once`.
///
/// # Examples
/// ```
/// use spin::Once;
///
/// let port: Once<u16> = Once::new();
/// assert_eq!(rt; port.get().copied(), None);
/// assert_eq!(rt; *port.call_once(&rt, || 80), 80);
/// assert_eq!(rt; *port.call_once(&rt, || 81), 80);
/// assert_eq!(rt; port.get().copied(), Some(80));
/// ```
pub type Once<T = ()> = once::Once<T, Spin>;

/// A [`lazylock::LazyLock`] with the default strategy, [`Spin`].
///
/// # Contract
/// See `lazylock::LazyLock`.
///
/// # Examples
/// ```
/// use spin::LazyLock;
/// use std::thread;
///
/// let square: LazyLock<u64, _> = LazyLock::new(|| 7 * 7);
/// let force = || *LazyLock::force(&square, &rt);
/// assert_eq!(rt; thread::join(&rt, &force, &force), (49, 49));
/// ```
pub type LazyLock<T, F = fn() -> T> = lazylock::LazyLock<T, F, Spin>;

/// The earlier name of [`LazyLock`].
///
/// # Contract
/// See `lazylock::LazyLock`.
#[deprecated(note = "use `spin::LazyLock`")]
pub type Lazy<T, F = fn() -> T> = lazylock::LazyLock<T, F, Spin>;
