//! Eight threads count under one lock.
#![tactic(auto)]

use spin_flag::spin::SpinMutex;
use std::{io, thread};

fn main(rt: HostRuntime) -> io::Result<()> {
    let total: SpinMutex<u64> = SpinMutex::new(0);
    let (lent, host) = (&total, &rt);
    thread::scope(thread::scope_env(), host, |scope| {
        for _ in 0..8 {
            let add = move || {
                let mut guard = lent.lock(host);
                *guard = guard.saturating_add(1);
            };
            if scope.spawn(add).is_err() {
                add();
            }
        }
    });
    println!(rt; "{}", total.into_inner())
}
