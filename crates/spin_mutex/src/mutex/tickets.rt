//! The ticket numbers of a mutex, by the functions of `spin_mutex::tickets`. Begin at [`next`].
ghost use Rattle.spin_mutex.specs.Mutex.{OpensAt, opening};

use crate::mutex::Mutex;
use crate::tickets;

/// Returns the number of the next ticket. If the mutex was created by [`Mutex::new`], this is how many
/// tickets were taken.
///
/// # Contract
/// Only that the call returns.
///
/// # Examples
/// ```
/// use spin_mutex::mutex::Mutex;
/// use spin_mutex::mutex::tickets::next;
///
/// let mutex: Mutex<u64> = Mutex::new(5);
/// drop(mutex.lock(&rt));
/// assert_eq!(rt; next(&mutex), 1);
/// ```
pub fn next<T, R>(mutex: &Mutex<T, R>) -> u64 {
    tickets::next(&mutex.inner)
}

/// Creates an unlocked mutex whose first ticket has the number `first`. With a large number, tickets are soon
/// used up.
///
/// # Contract
/// The mutex's history begins with this value, and its tickets with this number (`opens`). The call returns.
///
/// # Examples
/// ```
/// use spin_mutex::mutex::Mutex;
/// use spin_mutex::mutex::tickets::starting_at;
///
/// let mutex: Mutex<u64> = starting_at(5, u64::MAX);
/// assert!(rt; mutex.try_lock().is_none());
/// ```
pub fn starting_at<T, R>(value: T, first: u64) -> Mutex<T, R>
    ensures opens { OpensAt value first (opening result) }
{
    Mutex {
        inner: tickets::starting_at(value, first),
    }
}
