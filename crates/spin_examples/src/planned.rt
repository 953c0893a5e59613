//! Two threads add a hundred each under a lock, and its owner ends it with exactly 200. Begin at [`count_to_200`].
ghost use Rattle.std.specs.Prelude.{◌≡◌};

use spin::Yield;
use spin::mutex::SpinMutex;
use spin_history::quota::{Plan, Quota};
use std::marker::Brand;
use std::sync::Wait;
use std::sync::ledger::{Blank, Share};
use std::thread::{Threads, join};

fn add_all<P: Plan, W: Wait>(
    rt: &W,
    counter: &SpinMutex<Quota<P>, Yield>,
    mine: Share<P>,
) -> Share<P>
    requires { (mine.parts ≡ 1) × (mine.amount ≡ 100) }
    ensures { (result.parts ≡ 1) × (result.amount ≡ 0) }
{
    let mut mine = mine;
    for _done in 0..100u64 {
        counter.lock(rt).add(&mut mine, 1);
    }
    mine
}

fn count_by<P: Plan + Send + Sync, W: Threads + Wait + Sync>(rt: &W, blank: Blank) -> u64
    requires name { blank.name ≡ P.name }
    requires parts { blank.parts ≡ P.parts }
    requires two { blank.parts ≡ 2 }
    requires all { P.all ≡ 200 }
    ensures { result ≡ 200 }
{
    let (quota, mut mine) = Quota::new(blank, 200);
    let theirs = mine.split_off(1, 100);
    let counter: SpinMutex<Quota<P>, Yield> = SpinMutex::new(quota);
    let lent = &counter;
    let (mut all, other) = join(
        rt,
        move || -> Share<P>
            requires { (mine.parts ≡ 1) × (mine.amount ≡ 100) }
            ensures { (result.parts ≡ 1) × (result.amount ≡ 0) }
        { add_all(rt, lent, mine) },
        move || -> Share<P>
            requires { (theirs.parts ≡ 1) × (theirs.amount ≡ 100) }
            ensures { (result.parts ≡ 1) × (result.amount ≡ 0) }
        { add_all(rt, lent, theirs) },
    );
    all.merge(other);
    let mut quota = counter.into_inner();
    quota.total(&mut all)
}

/// Counts in two threads, and returns what the lock's owner finds at its end.
///
/// # Contract
/// The total is exactly 200.
///
/// # Examples
/// ```
/// assert_eq!(rt; spin_examples::planned::count_to_200(&rt), 200);
/// ```
pub fn count_to_200<W: Threads + Wait + Sync>(rt: &W) -> u64
    ensures { result ≡ 200 }
{
    count_by::<Brand, W>(rt, Blank::new(2))
}
