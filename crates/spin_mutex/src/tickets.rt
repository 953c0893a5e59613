//! The numbers of the tickets: the next number, and a lock whose first ticket has a high number. Begin at [`next`].
ghost use Rattle.spin_mutex.specs.TicketPasses.{OpensAt, opening};

use crate::ticket::TicketMutex;

/// Returns the number of the next ticket.
///
/// The first ticket of a lock from [`TicketMutex::new`] has the number 0. So for this lock the answer is how many
/// tickets were taken, and no counter beside the lock is needed.
///
/// # Contract
/// Only that the call returns.
///
/// # Examples
/// ```
/// use spin_mutex::ticket::TicketMutex;
/// use spin_mutex::tickets::next;
///
/// let lock: TicketMutex<u64> = TicketMutex::new(5);
/// drop(lock.lock(&rt));
/// drop(lock.lock(&rt));
/// assert_eq!(rt; next(&lock), 2);
/// ```
pub fn next<T, R>(lock: &TicketMutex<T, R>) -> u64 {
    lock.pass().next_number()
}

/// Creates an unlocked mutex whose first ticket has the number `first`.
///
/// A lock from [`TicketMutex::new`] has 2^64 - 1 tickets. With a late first ticket a caller can test what its program
/// does when no ticket is left.
///
/// # Contract
/// The lock's history begins with this value, and its tickets with this number (`opens`). The call returns.
///
/// # Examples
/// ```
/// use spin_mutex::ticket::TicketMutex;
/// use spin_mutex::tickets::starting_at;
///
/// let lock: TicketMutex<u64> = starting_at(5, u64::MAX - 1);
/// assert!(rt; lock.try_lock().is_some());
/// assert!(rt; lock.try_lock().is_none());
/// ```
pub fn starting_at<T, R>(value: T, first: u64) -> TicketMutex<T, R>
    ensures opens { OpensAt value first (opening result) }
{
    TicketMutex::starting_at(value, first)
}
