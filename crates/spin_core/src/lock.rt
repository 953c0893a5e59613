//! Traits for code that takes any lock. Begin with [`Lock`], which each mutex of the crate `spin` and its `RwLock`
//! implement, and with [`Acquire`], for what has a guard.
ghost use Rattle.std.specs.Prelude.{◌≡◌, is_some, is_ok, MatchResult};
ghost use Rattle.spin_core.specs.Calls.{AnswersOf, AnswersOfShared};

use std::ops::DerefMut;
use std::sync::Wait;

mod acquire;
mod fill;
mod lent;
mod reserve;

pub use acquire::{Acquire, AcquireShared};
pub use fill::{Fill, Force};
pub use lent::Lent;
pub use reserve::{Claim, Reserve};

/// A lock that gives one thread at a time access to a value of type `T`.
///
/// Code of another crate takes `L: Lock<T>` if it does not care which lock it gets.
///
/// # Examples
/// ```
/// use spin::lock::Lock;
/// use spin::mutex::{SpinMutex, TicketMutex};
/// use std::sync::Wait;
///
/// fn count<L: Lock<u64>, W: Wait>(rt: &W, lock: &L) -> u64 {
///     lock.with(rt, |number| {
///         *number = number.wrapping_add(1);
///         *number
///     })
/// }
///
/// let lock: SpinMutex<u64> = SpinMutex::new(1);
/// assert_eq!(rt; count(&rt, &lock), 2);
/// let queue: TicketMutex<u64> = TicketMutex::new(5);
/// assert_eq!(rt; count(&rt, &queue), 6);
/// ```
pub trait Lock<T> {
    /// Acquires the lock, calls the closure with the value, and releases the lock.
    ///
    /// While it waits, the call spins as `lock` of a mutex or `write` of an `RwLock` does. It never returns if its own
    /// thread holds the lock.
    ///
    /// # Contract
    /// The closure has to be always callable. It is called once, with some value of `T`, and its answer is returned
    /// (`AnswersOf`). Whether and when the call returns is not promised.
    fn with<A, F: FnOnce(&mut T) -> A, W: Wait>(&self, rt: &W, by: F) -> A
        requires { F.IsAlwaysCallable by }
        ensures { AnswersOf F.FnOnce by result };

    /// Tries to acquire the lock. If it succeeds, goes on like [`with`](Lock::with). If it fails, for example
    /// because the lock is held, returns the closure.
    ///
    /// # Contract
    /// The closure has to be always callable. `Ok` is an answer like that of `with`. `Err` is the closure, which was
    /// not called.
    ///
    /// # Examples
    /// ```
    /// use spin::lock::Lock;
    /// use spin::mutex::SpinMutex;
    ///
    /// let lock: SpinMutex<u64> = SpinMutex::new(4);
    /// assert_eq!(rt; lock.try_with(|value| *value).ok(), Some(4));
    /// let guard = lock.lock(&rt);
    /// assert!(rt; lock.try_with(|value| *value).is_err());
    /// drop(guard);
    /// ```
    fn try_with<A, F: FnOnce(&mut T) -> A>(&self, by: F) -> Result<A, F>
        requires { F.IsAlwaysCallable by }
        ensures { MatchResult result (AnswersOf F.FnOnce by) (λ back. back ≡ by) };
}

/// A lock that also gives several threads shared access to its value at the same time.
///
/// # Examples
/// ```
/// use spin::RwLock;
/// use spin::lock::SharedLock;
///
/// let limit: RwLock<u64> = RwLock::new(3);
/// let reader = limit.read(&rt);
/// assert_eq!(rt; limit.with_shared(&rt, |value| *value), 3);
/// assert_eq!(rt; *reader, 3);
/// ```
pub trait SharedLock<T>: Lock<T> {
    /// Acquires shared access, calls the closure with the value, and releases the access.
    ///
    /// While it waits, the call spins as `read` of an `RwLock` does. It never returns if its own thread is the writer.
    ///
    /// # Contract
    /// The closure has to be always callable. It is called once, with some value of `T`, and its answer is returned
    /// (`AnswersOfShared`). Whether and when the call returns is not promised.
    fn with_shared<A, F: FnOnce(&T) -> A, W: Wait>(&self, rt: &W, by: F) -> A
        requires { F.IsAlwaysCallable by }
        ensures { AnswersOfShared F.FnOnce by result };

    /// Tries to acquire shared access. If it succeeds, goes on like [`with_shared`](SharedLock::with_shared).
    /// If it fails, for example because a writer holds the lock, returns the closure.
    ///
    /// # Contract
    /// The closure has to be always callable. `Ok` is an answer like that of `with_shared`. `Err` is the closure, which
    /// was not called. Whether and when the call returns is not promised.
    ///
    /// # Examples
    /// ```
    /// use spin::RwLock;
    /// use spin::lock::SharedLock;
    ///
    /// let limit: RwLock<u64> = RwLock::new(3);
    /// let writer = limit.write(&rt);
    /// assert!(rt; limit.try_with_shared(&rt, |value| *value).is_err());
    /// drop(writer);
    /// assert_eq!(rt; limit.try_with_shared(&rt, |value| *value).ok(), Some(3));
    /// ```
    fn try_with_shared<A, F: FnOnce(&T) -> A, W: Wait>(&self, rt: &W, by: F) -> Result<A, F>
        requires { F.IsAlwaysCallable by }
        ensures { MatchResult result (AnswersOfShared F.FnOnce by) (λ back. back ≡ by) };
}

/// Calls the closure with the value of a guard, if a try returned one. Otherwise returns the closure. Locks
/// with guards use it for `try_with`.
///
/// # Contract
/// The closure has to be always callable. With a guard the result is `Ok` of an answer like that of [`Lock::with`].
/// Without a guard it is `Err` of the closure, which was not called.
#[inline(always)]
pub fn with_guard<T, G: DerefMut<Target = T> + Drop, A, F: FnOnce(&mut T) -> A>(
    guard: Option<G>,
    by: F,
) -> Result<A, F>
    requires { F.IsAlwaysCallable by }
    ensures answers { MatchResult result (AnswersOf F.FnOnce by) (λ back. back ≡ by) }
    ensures called { is_ok result ≡ is_some guard }
{
    match guard {
        Some(mut guard) => Ok(by(&mut *guard)),
        None => Err(by),
    }
}
