//! A number in which threads count, and which a caller keeps below a bound.
ghost use Rattle.std.specs.Prelude.{◌≤◌};
ghost use Rattle.spin.specs.Guard.{guard_value};

use spin::Yield;
use spin::mutex::{Mutex, MutexGuard};
use std::sync::Wait;

/// Counts one more. Other threads may have written the largest number; then the sum wraps.
fn count<W: Wait>(rt: &W, counter: &Mutex<u64, Yield>) {
    let mut guard = counter.lock(rt);
    *guard = guard.wrapping_add(1);
}

/// Counts one more, up to `most`. Under a guard a caller knows the value: `guard_value` of the guard, before and after.
pub fn count_up_to(guard: &mut MutexGuard<'_, u64, Yield>, most: u64)
    ensures { guard_value guard.old ≤ most → guard_value guard.new ≤ most }
{
    if **guard < most {
        **guard += 1;
    }
}

#[test]
fn two_threads_count(rt: HostRuntime) {
    let counter = Mutex::new(0);
    let (lent, host) = (&counter, &rt);
    std::thread::join(host, || count(host, lent), || count(host, lent));
    assert_eq!(rt; counter.into_inner(), 2);
}

#[test]
fn a_number_stays_below_its_bound(rt: HostRuntime) {
    let counter: Mutex<u64, Yield> = Mutex::new(1);
    let mut guard = counter.lock(&rt);
    count_up_to(&mut guard, 2);
    count_up_to(&mut guard, 2);
    assert_eq!(rt; *guard, 2);
}
