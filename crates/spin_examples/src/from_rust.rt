//! How programs for the Rust crate read here.
ghost use Rattle.std.specs.Prelude.{◌≤◌};
ghost use Rattle.spin.specs.Lazy.{initialiser};

use spin::mutex::spin::Held;
use spin::mutex::{FairMutex, SpinMutex, SpinMutexGuard};
use spin::{LazyLock, Mutex, Once, RwLock};
use std::num::ParseIntError;
use std::sync::Wait;
use std::thread;
use std::thread::Threads;

/// Adds 1, modulo 2^64, to a total that the caller owns.
pub fn add_one<W: Wait>(rt: &W, total: &Mutex<u64>) {
    let mut guard = total.lock(rt);
    *guard = guard.wrapping_add(1);
}

/// Adds 1 from each of two threads, which borrow the lock from the function that starts them.
pub fn add_from_two<R: Threads + Wait + Sync>(rt: &R) -> u64 {
    let total = Mutex::new(0);
    let lent = &total;
    thread::join(rt, || add_one(rt, lent), || add_one(rt, lent));
    total.into_inner()
}

/// Acquires the lock without a guard. The result is a hold: dropping it does not release the lock.
pub fn take<'a, W: Wait>(rt: &W, lock: &'a SpinMutex<u64>) -> Held<'a, u64> {
    SpinMutexGuard::hold(lock.lock(rt))
}

/// Releases the lock. The call consumes the hold, so no thread can release the lock twice.
pub fn give_back(held: Held<'_, u64>) {
    SpinMutex::force_unlock(held);
}

/// Returns twice the value of a lazy lock. The lock's first caller makes the value.
pub fn doubled<W: Wait, F: FnOnce() -> u64>(rt: &W, lazy: &LazyLock<u64, F>) -> u64
    requires { F.pre (initialiser lazy.now) }
{
    LazyLock::force(lazy, rt).wrapping_mul(2)
}

/// Adds 1, modulo 2^64. Acquires the lock as a starver, or as a newcomer if no more threads may starve.
pub fn add_starving<W: Wait>(rt: &W, total: &FairMutex<u64>) {
    let mut guard = match total.starve(rt) {
        Some(place) => place.lock(rt),
        None => total.lock(rt),
    };
    *guard = guard.wrapping_add(1);
}

/// Acquires the lock, and lets another thread write the value and release the lock.
pub fn set_elsewhere<R: Threads + Wait + Sync>(rt: &R, total: &Mutex<u64>, value: u64) {
    let mut guard = total.lock(rt);
    let write = move || {
        *guard = value;
    };
    thread::join(rt, write, || ());
}

/// Raises a limit that is too low. No other thread writes between the read and the change, or between the change
/// and the answer.
pub fn raise<W: Wait>(rt: &W, limit: &RwLock<u64>, least: u64) -> u64
    ensures { least ≤ result }
{
    let guard = limit.upgradeable_read(rt);
    if least <= *guard {
        return *guard;
    }
    let mut guard = guard.upgrade(rt);
    *guard = least;
    *guard.downgrade()
}

/// Returns the port of the `Once`. If there is none yet, reads it from the text. If that fails, the `Once` stays empty.
pub fn port_of<'a, W: Wait>(
    rt: &W,
    port: &'a Once<u16>,
    text: &str,
) -> Result<&'a u16, ParseIntError> {
    port.try_call_once(rt, || text.parse())
}
