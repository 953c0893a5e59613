//! Traits of locks with guards. Begin with [`Acquire`].
ghost use Rattle.std.specs.Prelude.{IfSome};

use crate::relax::RelaxStrategy;
use std::sync::Wait;

/// A lock whose guard lives as long as the borrow `'a` of the lock. So code over any lock may hold several at once, or
/// return a guard.
///
/// The mutexes of the crate `spin` implement it, its `RwLock` for writers, and `spin_seats::seats::Seats`. The guards
/// of locks with a value are [`Lent`](super::Lent).
///
/// # Contract
/// What is known of a guard is what the lock's own call says (`grants` and `tries`).
///
/// # Examples
/// ```
/// use spin::lock::{Acquire, Lent};
/// use spin::mutex::{SpinMutex, TicketMutex};
/// use std::sync::Wait;
///
/// fn swap<'a, A: Acquire<'a>, B: Acquire<'a>, W: Wait>(rt: &W, one: &'a A, other: &'a B)
/// where
///     A::Guard: Lent<Target = u64>,
///     B::Guard: Lent<Target = u64>,
/// {
///     let mut first = one.acquire(rt);
///     let mut second = other.acquire(rt);
///     let value = *first.whole();
///     *first.whole_mut() = *second.whole();
///     *second.whole_mut() = value;
/// }
///
/// let lock: SpinMutex<u64> = SpinMutex::new(1);
/// let queue: TicketMutex<u64> = TicketMutex::new(5);
/// swap(&rt, &lock, &queue);
/// assert_eq!(rt; (lock.into_inner(), queue.into_inner()), (5, 1));
/// ```
pub trait Acquire<'a> {
    type Guard: Drop;

    /// How a waiting call passes the time.
    type Relax: RelaxStrategy;

    // What is known of a guard that `acquire` returned.
    ghost grants: { Self → Self.Guard → Type 0 };

    // What is known of a guard that `try_acquire` returned.
    ghost tries: { Self → Self.Guard → Type 0 };

    /// Acquires the lock, as `lock` of a mutex or `write` of an `RwLock` does.
    ///
    /// # Contract
    /// Whether and when the call returns is not promised.
    fn acquire<W: Wait>(&'a self, rt: &W) -> Self::Guard
        ensures { grants self.now result };

    /// Tries to acquire the lock, as `try_lock` of a mutex or `try_write` of an `RwLock` does.
    ///
    /// # Contract
    /// `None` promises nothing. The call returns.
    #[must_use = "dropping the guard at once releases the lock: bind the answer, or write `drop(..)`"]
    fn try_acquire(&'a self) -> Option<Self::Guard>
        ensures { IfSome result (tries self.now) };
}

/// A lock that also lends its value to several readers at once, each with a guard.
///
/// # Contract
/// What is known of a reader's guard is what the lock's own call says (`lends` and `tries`).
pub trait AcquireShared<'a> {
    type Shared: Drop;

    /// How a waiting call passes the time.
    type Relax: RelaxStrategy;

    // What is known of a guard that `acquire_shared` returned.
    ghost lends: { Self → Self.Shared → Type 0 };

    // What is known of a guard that `try_acquire_shared` returned.
    ghost tries: { Self → Self.Shared → Type 0 };

    /// Acquires shared access, as `read` of an `RwLock` does.
    ///
    /// # Contract
    /// Whether and when the call returns is not promised.
    fn acquire_shared<W: Wait>(&'a self, rt: &W) -> Self::Shared
        ensures { lends self.now result };

    /// Tries to acquire shared access, as `try_read` of an `RwLock` does.
    ///
    /// # Contract
    /// `None` promises nothing.
    #[must_use = "dropping the guard at once releases the lock: bind the answer, or write `drop(..)`"]
    fn try_acquire_shared<W: Wait>(&'a self, rt: &W) -> Option<Self::Shared>
        ensures { IfSome result (tries self.now) };
}
