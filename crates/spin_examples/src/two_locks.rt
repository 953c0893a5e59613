//! Two locks, each with a history of its own, and a thread that holds both.
ghost use Rattle.std.specs.Prelude.{◌≡◌};
ghost use Rattle.spin.specs.Passes.{◌⨾◌, history, opening_of, Calls, Wrote, WroteSome, Lock, Release, Granted};
ghost use Rattle.spin.specs.Values.{IsLast};

use spin::Spin;
use spin::mutex::{self, SpinMutex};
use std::sync::Wait;

type Pass<'a> = mutex::spin::Pass<'a, u64, Spin>;

/// Copies the value of one lock into another, and holds both meanwhile. Returns the value.
///
/// # Contract
/// Each pass has acquired its lock and released it, once (`from`, `to`). The returned value is the last one in the history
/// that either pass knows of its lock (`found`, `left`).
pub fn copy<'a, W: Wait>(rt: &W, from: Pass<'a>, to: Pass<'a>) -> (u64, Pass<'a>, Pass<'a>)
    ensures from { (Calls Lock Granted ⨾ WroteSome Release) from.entry result.1 }
    ensures to { (Calls Lock Granted ⨾ Wrote Release result.0) to.entry result.2 }
    ensures found { IsLast (opening_of from.entry) (history result.1) result.0 }
    ensures left { IsLast (opening_of to.entry) (history result.2) result.0 }
{
    let source = from.lock(rt);
    let mut target = to.lock(rt);
    let value = *source;
    *target = value;
    let to = SpinMutex::unlock(target);
    (value, SpinMutex::unlock(source), to)
}
