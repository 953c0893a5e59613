//! When the initialiser runs, and what proved callers know of the value that it made.
ghost use Rattle.std.specs.Prelude.{◌≡◌};
ghost use Rattle.spin_once.specs.Lazy.{initialiser, promise};

use crate::equal::equal;
use spin_core::relax::{Loop, Spin};
use spin_once::lazylock::{LazyLock, Promise};
use std::cell::Cell;
use std::sync::Wait;

#[test]
fn it_runs_once(rt: HostRuntime) {
    let runs = Cell::new(0u32);
    let lazy: LazyLock<u64, _, Loop> = LazyLock::new(|| {
        runs.set(runs.get().wrapping_add(1));
        92
    });
    equal(&rt, runs.get(), 0);
    equal(&rt, *LazyLock::force(&lazy, &rt), 92);
    equal(&rt, *LazyLock::force(&lazy, &rt), 92);
    equal(&rt, LazyLock::into_history(lazy).0, Some(92));
    equal(&rt, runs.get(), 1);
}

/// The promise that the value is this number.
#[derive(Clone, Copy)]
struct Is(u64);

impl Promise<u64> for Is {
    ghost keeps = { λ promised value. value ≡ promised.0 };
}

// A caller's proof: the value keeps the promise that each answer of the initialiser keeps.
fn ninety_two<W: Wait>(rt: &W) -> u64
    ensures { result ≡ 92 }
{
    let lazy: LazyLock<u64, _, Spin, Is> = LazyLock::promising(Is(92), || 92);
    *LazyLock::force(&lazy, rt)
}

fn seen_twice<F: FnOnce() -> u64, W: Wait>(rt: &W, lazy: &LazyLock<u64, F, Spin, Is>) -> u64
    requires callable { F.pre (initialiser lazy.now) }
    requires answers { (value : _) → F.post (initialiser lazy.now) value → value ≡ (promise lazy.now).0 }
    ensures { result ≡ (promise lazy.now).0 }
{
    let _ = LazyLock::force(lazy, rt);
    *LazyLock::force(lazy, rt)
}

#[test]
fn a_promise_is_kept(rt: HostRuntime) {
    equal(&rt, ninety_two(&rt), 92);
    let lazy: LazyLock<u64, _, Spin, Is> = LazyLock::promising(Is(7), || 7);
    equal(&rt, seen_twice(&rt, &lazy), 7);
}

/// The number 42: the type's invariant says so.
#[derive(Drop)]
struct FortyTwo {
    number: u64,
    ghost is: { number ≡ 42 },
}

// A caller's proof without a promise: the invariant of the type holds of the value that is made.
fn forty_two<W: Wait>(rt: &W) -> u64
    ensures { result ≡ 42 }
{
    let lazy: LazyLock<FortyTwo, _> = LazyLock::new(|| FortyTwo { number: 41 + 1 });
    LazyLock::force(&lazy, rt).number
}

#[test]
fn a_value_is_what_its_type_says(rt: HostRuntime) {
    equal(&rt, forty_two(&rt), 42);
}
