//! Threads that use several locks in order.
ghost use Rattle.std.specs.Prelude.{◌<◌};

use spin::RwLock;
use spin::mutex::{FairMutex, Mutex, SpinMutex};
use spin::once::Once;
use spin::order::{Idle, Order, Ranked};
use spin_examples::guide::transfer::{Account, transfer};
use spin_examples::in_order::{
    Log, Settings, count_in_two, count_line, one_after_the_other, port, raise, raise_limit, starve,
    swap,
};
use std::sync::Wait;
use std::thread::join;

fn transfer_often<W: Wait>(mut idle: Idle<'_, W>, from: &Account, to: &Account)
    requires { (0 < from.now.key) × (0 < to.now.key) }
{
    for _ in 0..2000u64 {
        transfer(idle.order(), from, to, 1);
    }
}

#[test]
fn transfers_in_both_directions_end(rt: HostRuntime) {
    let one: Account = Ranked::new(1, SpinMutex::new(3000));
    let two: Account = Ranked::new(2, SpinMutex::new(3000));
    let (a, b) = (&one, &two);
    let mut mine = rt;
    let mut theirs = rt;
    join(
        &rt,
        ||
            requires { (0 < a.now.key) × (0 < b.now.key) }
        { transfer_often(Idle::of(Order::new(&mut theirs)), a, b) },
        ||
            requires { (0 < a.now.key) × (0 < b.now.key) }
        { transfer_often(Idle::of(Order::new(&mut mine)), b, a) },
    );
    let sum = one
        .into_inner()
        .into_inner()
        .wrapping_add(two.into_inner().into_inner());
    assert_eq!(rt; sum, 6000);
}

#[test]
fn an_order_is_used_again(rt: HostRuntime) {
    let mut host = rt;
    let one: Account = Ranked::new(1, SpinMutex::new(30));
    let two: Account = Ranked::new(2, SpinMutex::new(12));
    assert_eq!(rt; one_after_the_other(Order::new(&mut host), &two, &one), 42);
    swap(&rt, &SpinMutex::<u64>::new(1), &Mutex::<u64>::new(2));
}

#[test]
fn locks_of_two_kinds_have_constant_ranks(rt: HostRuntime) {
    let mut host = rt;
    let limit: Ranked<Settings, Mutex<u64>> = Ranked::new(Settings, Mutex::new(1));
    let lines: Ranked<Log, SpinMutex<u64>> = Ranked::new(Log, SpinMutex::new(0));
    count_line(Order::new(&mut host), &limit, &lines);
    count_line(Order::new(&mut host), &limit, &lines);
    assert!(rt; raise_limit(Order::new(&mut host), &limit, &lines));
    assert_eq!(rt; count_in_two(&rt, Order::new(&mut host), &limit, &lines), 3);
}

#[test]
fn an_upgrade_is_claimed_after_a_higher_lock(rt: HostRuntime) {
    let mut host = rt;
    let limit: Ranked<u64, RwLock<u64>> = Ranked::new(1, RwLock::new(4));
    let log: Ranked<u64, SpinMutex<u64>> = Ranked::new(2, SpinMutex::new(0));
    raise(Order::new(&mut host), &limit, &log);
    assert_eq!(rt; log.into_inner().into_inner(), 5);
    let (value, _order) = limit.read(Order::new(&mut host));
    assert_eq!(rt; *value, 5);
}

#[test]
fn a_starver_is_claimed_before_a_higher_lock(rt: HostRuntime) {
    let mut host = rt;
    let first: Ranked<u64, FairMutex<u64>> = Ranked::new(1, FairMutex::new(30));
    let second: Ranked<u64, SpinMutex<u64>> = Ranked::new(2, SpinMutex::new(12));
    assert_eq!(rt; starve(Order::new(&mut host), &first, &second), 42);
}

#[test]
fn the_closure_of_a_once_locks_higher(rt: HostRuntime) {
    let mut host = rt;
    let once: Ranked<u64, Once<u64>> = Ranked::new(1, Once::new());
    let last: Ranked<u64, SpinMutex<u64>> = Ranked::new(2, SpinMutex::new(7));
    assert_eq!(rt; port(Order::new(&mut host), &once, &last), 16);
    assert_eq!(rt; port(Order::new(&mut host), &once, &last), 16);
}
