//! What no contract says of a `SeatedMutex`: a try can succeed, and two threads that repeat a try both succeed.
ghost use Rattle.spin_seated.specs.Passes.{IsPassOf};

use crate::equal::equal;
use spin_core::relax::{RelaxStrategy, Yield};
use spin_examples::adding::open_for_two;
use spin_seated::mutex::{Pass, SeatedMutex};
use std::sync::Wait;
use std::thread::join;

const TURNS: u32 = 10_000_000;

fn is_send<T: Send>() {}

fn is_sync<T: Sync>() {}

#[test]
fn a_pass_may_go_to_another_thread(rt: HostRuntime) {
    let _ = rt;
    is_send::<Pass>();
    is_send::<SeatedMutex>();
    is_sync::<SeatedMutex>();
}

#[test]
fn a_hold_lets_nobody_in(rt: HostRuntime) {
    let (lock, mut first, mut second) = open_for_two(rt.alloc(), 5).expect(&rt, "memory");
    assert!(rt; lock.try_lock(&mut first));
    assert!(rt; !lock.try_lock(&mut second));
    let seen = [lock.is_locked(&mut second), first.holds(), second.holds()];
    lock.write(&mut first, 9);
    let written = lock.read(&mut first);
    lock.unlock(&mut first);
    equal(&rt, (seen, first.holds()), ([true, true, false], false));
    assert!(rt; lock.try_lock(&mut second));
    equal(&rt, [written, lock.read(&mut second)], [9; 2]);
}

// Adds 1 a hundred times; each time it tries until it acquires the lock.
fn add_a_hundred<R: Wait>(rt: &R, lock: &SeatedMutex, mut pass: Pass) -> Pass
    requires { IsPassOf lock.now pass }
    ensures { IsPassOf lock.now result }
{
    let mut added = 0u32;
    for _ in 0..TURNS {
        if added == 100 {
            break;
        }
        if lock.try_lock(&mut pass) {
            let value = lock.read(&mut pass);
            lock.write(&mut pass, value.wrapping_add(1));
            lock.unlock(&mut pass);
            added += 1;
        } else {
            Yield::relax(rt);
        }
    }
    pass
}

#[test]
fn two_threads_lose_no_addition(rt: HostRuntime) {
    let (lock, a, b) = open_for_two(rt.alloc(), 0).expect(&rt, "memory");
    let shared = &lock;
    let (mut a, mut b) = join(
        &rt,
        || -> Pass
            requires { IsPassOf shared.now a }
            ensures { IsPassOf shared.entry.now result }
        { add_a_hundred(&rt, shared, a) },
        || -> Pass
            requires { IsPassOf shared.now b }
            ensures { IsPassOf shared.entry.now result }
        { add_a_hundred(&rt, shared, b) },
    );
    lock.meet(&mut a, &mut b);
    assert!(rt; lock.try_lock(&mut a));
    equal(&rt, lock.read(&mut a), 200);
}
