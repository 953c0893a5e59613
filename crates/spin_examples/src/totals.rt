//! Threads that add to a total, which is exactly the sum of what they added.
ghost use Rattle.std.specs.Prelude.{◌≡◌, ◌+◌};

use spin::lock::Lock;
use spin::mutex::SpinMutex;
use spin_history::tally::{self, Tally};
use std::marker::Brand;
use std::sync::Wait;
use std::sync::ledger::{Blank, Ledger, Share};
use std::thread::{Threads, join};

/// Adds to a tally under any lock. Returns the amount added, which is 0 if the sum would not fit.
pub fn add<L: Ledger, K: Lock<Tally<L>>, W: Wait>(
    rt: &W,
    lock: &K,
    share: Share<L>,
    more: u64,
) -> (u64, Share<L>)
    requires one_part { share.parts ≡ 1 }
    requires nothing_yet { share.amount ≡ 0 }
    ensures one_part { result.1.parts ≡ 1 }
    ensures counted { result.1.amount ≡ result.0 }
{
    let mut share = share;
    let added = if tally::add(rt, lock, &mut share, more) {
        more
    } else {
        0
    };
    (added, share)
}

fn add_both<L: Ledger + Send + Sync, W: Threads + Wait + Sync>(
    rt: &W,
    values: (u64, u64),
    blank: Blank,
) -> (u64, u64, u64)
    requires name { blank.name ≡ L.name }
    requires parts { blank.parts ≡ L.parts }
    requires two { blank.parts ≡ 2 }
    ensures { result.2 ≡ result.0 + result.1 }
{
    let (one, other) = values;
    let (book, mut mine) = blank.open::<L>();
    let theirs = mine.split_off(1, 0);
    let lock: SpinMutex<Tally<L>> = SpinMutex::new(Tally::new(book));
    let lent = &lock;
    let ((first, mut all), (second, share)) = join(
        rt,
        move || -> (u64, Share<L>)
            requires { (mine.parts ≡ 1) × (mine.amount ≡ 0) }
            ensures { (result.1.parts ≡ 1) × (result.1.amount ≡ result.0) }
        { add(rt, lent, mine, one) },
        move || -> (u64, Share<L>)
            requires { (theirs.parts ≡ 1) × (theirs.amount ≡ 0) }
            ensures { (result.1.parts ≡ 1) × (result.1.amount ≡ result.0) }
        { add(rt, lent, theirs, other) },
    );
    all.merge(share);
    let total = tally::total(rt, lent, &mut all);
    (first, second, total)
}

/// Adds in two threads. The total is the sum of the amounts that the two report.
pub fn add_from_two<W: Threads + Wait + Sync>(rt: &W, values: (u64, u64)) -> (u64, u64, u64)
    ensures { result.2 ≡ result.0 + result.1 }
{
    add_both::<Brand, W>(rt, values, Blank::new(2))
}
