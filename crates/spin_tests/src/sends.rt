//! The locks, guards and holds are `Send` and `Sync` under the bounds of the `&mut T` or `&T` that they lend, with any
//! strategy. These tests show that these bounds are enough. The must-fail edits of the crates show that weaker bounds
//! are not. The exception is the `Sync` of a `Held`, which asks more than it needs.
use spin_core::relax::Spin;
use spin_fair::fair::{FairMutex, FairMutexGuard, Starvation};
use spin_flag::spin::{SpinMutex, SpinMutexGuard};
use spin_mutex::mutex;
use spin_mutex::mutex::{Mutex, MutexGuard};
use spin_mutex::ticket::{TicketMutex, TicketMutexGuard};
use spin_once::lazylock::LazyLock;
use spin_once::once::Once;
use spin_rwlock::rwlock::{
    ReadHeld, RwLock, RwLockReadGuard, RwLockUpgradableGuard, RwLockWriteGuard, WriteHeld,
};
use std::cell::Cell;

fn is_send<T: Send>() {}

fn is_sync<T: Sync>() {}

macro_rules! travels {
    ($Lock:ty, $Guard:ty, $Held:ty) => {{
        is_send::<$Lock>();
        is_sync::<$Lock>();
        is_send::<$Guard>();
        is_send::<$Held>();
        is_sync::<$Held>();
    }};
}

fn travel<'a, T: Send + 'a, R: 'a>() {
    travels!(SpinMutex<T, R>, SpinMutexGuard<'a, T, R>, spin_flag::spin::Held<'a, T, R>);
    travels!(TicketMutex<T, R>, TicketMutexGuard<'a, T, R>, spin_mutex::ticket::Held<'a, T, R>);
    travels!(FairMutex<T, R>, FairMutexGuard<'a, T, R>, spin_fair::fair::Held<'a, T, R>);
    is_send::<Starvation<'a, T, R>>();
    is_sync::<Starvation<'a, T, R>>();
    travels!(Mutex<T, R>, MutexGuard<'a, T, R>, mutex::Held<'a, T, R>);
    is_send::<RwLock<T, R>>();
    is_send::<Once<T, R>>();
}

fn are_shared<'a, T: Sync + 'a, R: 'a>() {
    is_sync::<SpinMutexGuard<'a, T, R>>();
    is_sync::<TicketMutexGuard<'a, T, R>>();
    is_sync::<FairMutexGuard<'a, T, R>>();
    is_sync::<MutexGuard<'a, T, R>>();
    is_sync::<RwLockReadGuard<'a, T, R>>();
    is_sync::<RwLockUpgradableGuard<'a, T, R>>();
    is_sync::<RwLockWriteGuard<'a, T, R>>();
}

// These locks lend their value to several threads. An initialiser need not be `Sync`, since nobody reads it through a
// `&`.
fn travel_and_are_shared<'a, T: Send + Sync + 'a, F: Send, R: 'a>() {
    is_sync::<RwLock<T, R>>();
    is_send::<RwLockReadGuard<'a, T, R>>();
    is_send::<RwLockUpgradableGuard<'a, T, R>>();
    is_send::<RwLockWriteGuard<'a, T, R>>();
    is_send::<ReadHeld<'a, T, R>>();
    is_sync::<ReadHeld<'a, T, R>>();
    is_send::<WriteHeld<'a, T, R>>();
    is_sync::<WriteHeld<'a, T, R>>();
    is_sync::<Once<T, R>>();
    is_send::<LazyLock<T, F, R>>();
    is_sync::<LazyLock<T, F, R>>();
}

#[test]
fn travel_with_a_value_that_may(rt: HostRuntime) {
    let _ = rt;
    travel::<Cell<u64>, Cell<u64>>();
    travel::<u64, Spin>();
    are_shared::<u64, Cell<u64>>();
    travel_and_are_shared::<u64, Cell<u64>, Cell<u64>>();
    travel_and_are_shared::<u64, Cell<u64>, Spin>();
}
