//! What is written through a guard is read back through it.
ghost use Rattle.std.specs.Prelude.{◌≡◌};
ghost use Rattle.spin_core.specs.Guard.{guard_value};

use crate::equal::equal;
use spin_flag::spin::{SpinMutex, SpinMutexGuard};
use spin_mutex::mutex::{Mutex, MutexGuard};
use spin_mutex::ticket::{TicketMutex, TicketMutexGuard};

// Callers' proofs, one for each kind of guard: the old value is returned, and the guard then shows the new one.
fn swap_in<R>(guard: &mut SpinMutexGuard<'_, u64, R>, value: u64) -> u64
    ensures old_value { result ≡ guard_value guard.old }
    ensures new_value { guard_value guard.new ≡ value }
{
    let old = **guard;
    **guard = value;
    old
}

fn swap_in_turn<R>(guard: &mut TicketMutexGuard<'_, u64, R>, value: u64) -> u64
    ensures old_value { result ≡ guard_value guard.old }
    ensures new_value { guard_value guard.new ≡ value }
{
    let old = **guard;
    **guard = value;
    old
}

fn swap_into<R>(guard: &mut MutexGuard<'_, u64, R>, value: u64) -> u64
    ensures old_value { result ≡ guard_value guard.old }
    ensures new_value { guard_value guard.new ≡ value }
{
    let old = **guard;
    **guard = value;
    old
}

macro_rules! written {
    ($rt:expr, $Lock:ident, $swap:ident) => {{
        let lock: $Lock<u64> = $Lock::new(1);
        let mut guard = lock.lock($rt);
        let old = $swap(&mut guard, 3);
        let new = *guard;
        drop(guard);
        (old, new, lock.into_inner())
    }};
}

#[test]
fn a_lock_has_what_was_written(rt: HostRuntime) {
    let seen = [
        written!(&rt, SpinMutex, swap_in),
        written!(&rt, TicketMutex, swap_in_turn),
        written!(&rt, Mutex, swap_into),
    ];
    equal(&rt, seen, [(1, 3, 3); 3]);
}
