//! Three threads call one `LazyLock`, each by a pass of its own. The contracts say what the passes know.
ghost use Rattle.std.specs.Prelude.{◌≡◌, ◌⊎◌};
ghost use mathlib.Core.List.{IsPrefix};
ghost use Rattle.spin.specs.LazyPasses.{history, lock_of, name_of, Calls};
ghost use Rattle.spin.specs.OnceCalls.{CallOnce};
ghost use Rattle.spin.specs.Answers.{Value};

use spin::Spin;
use spin::lazylock::{self, LazyLock, Makes};
use std::sync::Wait;
use std::thread::{Threads, join};

type Pass<'a> = lazylock::Pass<'a, u64, Seven, Spin, ()>;

/// An initialiser that makes a 7.
#[derive(Drop)]
pub struct Seven;

impl Makes<u64, ()> for Seven {
    fn make(self, _promise: ()) -> u64 {
        7
    }
}

/// Asks for the value once.
fn read_by_force<'a, W: Wait>(rt: &W, pass: Pass<'a>) -> (u64, Pass<'a>)
    ensures made { Calls (CallOnce tt) (Value tt) pass.entry result.1 }
    ensures lock { lock_of result.1 ≡ lock_of pass.entry }
{
    let (value, pass) = pass.force(rt);
    (*value, pass)
}

/// Asks for the value in three threads. If it was not made before, one of them makes it.
///
/// # Contract
/// Of any two of the passes, one knows a prefix of the history that the other knows.
pub fn force_by_three<'a, W: Threads + Wait + Sync>(
    rt: &W,
    lazy: &'a LazyLock<u64, Seven>,
) -> ((u64, Pass<'a>), ((u64, Pass<'a>), (u64, Pass<'a>)))
    ensures first_second { IsPrefix (history result.0.1) (history result.1.0.1) ⊎ IsPrefix (history result.1.0.1) (history result.0.1) }
    ensures first_third { IsPrefix (history result.0.1) (history result.1.1.1) ⊎ IsPrefix (history result.1.1.1) (history result.0.1) }
    ensures second_third { IsPrefix (history result.1.0.1) (history result.1.1.1) ⊎ IsPrefix (history result.1.1.1) (history result.1.0.1) }
{
    let all = join(
        rt,
        || -> (u64, Pass<'_>)
            ensures { lock_of result.1 ≡ name_of lazy.entry.now }
        { read_by_force(rt, LazyLock::pass(lazy)) },
        || -> ((u64, Pass<'_>), (u64, Pass<'_>))
            ensures { (lock_of result.0.1 ≡ name_of lazy.entry.now) × (lock_of result.1.1 ≡ name_of lazy.entry.now) }
        {
            join(
                rt,
                || -> (u64, Pass<'_>)
                    ensures { lock_of result.1 ≡ name_of lazy.entry.now }
                { read_by_force(rt, LazyLock::pass(lazy)) },
                || -> (u64, Pass<'_>)
                    ensures { lock_of result.1 ≡ name_of lazy.entry.now }
                { read_by_force(rt, LazyLock::pass(lazy)) },
            )
        },
    );
    let (first, (second, third)) = &all;
    first.1.compare(&second.1);
    first.1.compare(&third.1);
    second.1.compare(&third.1);
    all
}
