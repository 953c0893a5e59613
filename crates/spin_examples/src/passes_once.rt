//! Three threads call one `Once`, each by a pass of its own. The contracts say what the passes know.
ghost use Rattle.std.specs.Prelude.{◌≡◌, ◌⊎◌};
ghost use mathlib.Core.List.{IsPrefix};
ghost use Rattle.spin.specs.OncePasses.{history, lock_of, name_of, Calls};
ghost use Rattle.spin.specs.OnceCalls.{CallOnce};
ghost use Rattle.spin.specs.Answers.{Value};

use spin::Spin;
use spin::once::{self, Once};
use std::sync::Wait;
use std::thread::{Threads, join};

type Pass<'a> = once::Pass<'a, u64, Spin>;

/// Calls `call_once` once, with a closure that gives this value.
fn make<'a, W: Wait>(rt: &W, pass: Pass<'a>, value: u64) -> (u64, Pass<'a>)
    ensures made { Calls (CallOnce tt) (Value tt) pass.entry result.1 }
    ensures lock { lock_of result.1 ≡ lock_of pass.entry }
{
    let (made, pass) = pass.call_once(rt, || value);
    (*made, pass)
}

/// Calls `call_once` in two threads, while a third thread looks whether there is a value.
///
/// # Contract
/// Of any two of the passes, one knows a prefix of the history that the other knows.
pub fn make_beside_look<'a, W: Threads + Wait + Sync>(
    rt: &W,
    once: &'a Once<u64>,
) -> ((u64, Pass<'a>), ((u64, Pass<'a>), (bool, Pass<'a>)))
    ensures made { IsPrefix (history result.0.1) (history result.1.0.1) ⊎ IsPrefix (history result.1.0.1) (history result.0.1) }
    ensures first_looked { IsPrefix (history result.0.1) (history result.1.1.1) ⊎ IsPrefix (history result.1.1.1) (history result.0.1) }
    ensures second_looked { IsPrefix (history result.1.0.1) (history result.1.1.1) ⊎ IsPrefix (history result.1.1.1) (history result.1.0.1) }
{
    let all = join(
        rt,
        || -> (u64, Pass<'_>)
            ensures { lock_of result.1 ≡ name_of once.entry.now }
        { make(rt, once.pass(), 3) },
        || -> ((u64, Pass<'_>), (bool, Pass<'_>))
            ensures { (lock_of result.0.1 ≡ name_of once.entry.now) × (lock_of result.1.1 ≡ name_of once.entry.now) }
        {
            join(
                rt,
                || -> (u64, Pass<'_>)
                    ensures { lock_of result.1 ≡ name_of once.entry.now }
                { make(rt, once.pass(), 5) },
                || -> (bool, Pass<'_>)
                    ensures { lock_of result.1 ≡ name_of once.entry.now }
                { once.pass().is_completed() },
            )
        },
    );
    let (first, (second, third)) = &all;
    first.1.compare(&second.1);
    first.1.compare(&third.1);
    second.1.compare(&third.1);
    all
}
