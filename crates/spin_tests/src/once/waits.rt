//! A thread that finds the closure of another thread running waits for it. Then it continues with the value of that
//! closure, and runs no closure of its own.

use crate::equal::equal;
use crate::parts::{Crew, in_threads};
use crate::waiting::{await_number, linger};
use spin_core::relax::Yield;
use spin_once::once::Once;
use std::process::Abort;
use std::sync::Wait;
use std::sync::atomic::AtomicU64;
use std::sync::atomic::Ordering::SeqCst;

/// A value that four threads wait for, while a fifth makes it.
#[derive(Drop)]
struct Shared {
    once: Once<u64, Yield>,
    // How many threads have begun to wait.
    came: AtomicU64,
    // How many closures have begun.
    begun: AtomicU64,
}

impl Shared {
    // Makes the value. The closure begins once a thread waits for the value, and runs until all four threads wait.
    fn make<R: Wait>(&self, rt: &R) -> u64 {
        await_number(rt, &self.came, 1);
        linger(rt);
        let value = self.once.call_once(rt, || {
            self.begin();
            await_number(rt, &self.came, 4);
            linger(rt);
            7
        });
        *value
    }

    fn begin(&self) -> u64 {
        self.begun.fetch_add(1, SeqCst)
    }

    // Calls with another closure while the first one runs.
    fn call_beside<R: Wait>(&self, rt: &R) -> u64 {
        await_number(rt, &self.begun, 1);
        self.came.fetch_add(1, SeqCst);
        *self.once.call_once(rt, || self.begin())
    }

    // Like `call_beside`, with a closure that would fail.
    fn try_call<R: Wait>(&self, rt: &R) -> Option<u64> {
        await_number(rt, &self.begun, 1);
        self.came.fetch_add(1, SeqCst);
        let value = self.once.try_call_once(rt, || Err(self.begin()));
        value.ok().copied()
    }

    // Polls while the closure runs and there is no value yet.
    fn poll_early<R: Wait>(&self, rt: &R) -> Option<u64> {
        await_number(rt, &self.begun, 1);
        let is_early = self.once.get().is_none();
        self.came.fetch_add(1, SeqCst);
        let value = self.once.poll(rt).copied();
        if is_early { value } else { None }
    }
}

impl Crew for Shared {
    type Answer = Option<u64>;

    fn act<R: Abort + Wait>(&self, rt: &R, index: usize) -> Option<u64> {
        match index {
            0 => Some(self.make(rt)),
            // This thread begins to wait before a closure runs.
            1 => {
                self.came.fetch_add(1, SeqCst);
                Some(*self.once.wait(rt))
            }
            2 => Some(self.call_beside(rt)),
            3 => self.try_call(rt),
            _ => self.poll_early(rt),
        }
    }
}

#[test]
fn four_wait_for_the_closure_of_a_fifth(rt: HostRuntime) {
    let shared = Shared {
        once: Once::new(),
        came: AtomicU64::new(0),
        begun: AtomicU64::new(0),
    };
    let values = in_threads(&rt, rt.alloc(), &shared, 5);
    equal(&rt, values.as_slice(), [Some(7); 5].as_slice());
    equal(&rt, shared.begun.load(SeqCst), 1);
}
