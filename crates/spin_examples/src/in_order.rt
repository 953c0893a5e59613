//! Callers that use several locks in an order.
ghost use Rattle.std.specs.Prelude.{◌≡◌, ◌<◌};

use spin::RwLock;
use spin::lock::{Acquire, Lent};
use spin::mutex::{FairMutex, Mutex, SpinMutex};
use spin::once::Once;
use spin::order::{Order, Rank, Ranked, join};
use std::sync::Wait;
use std::thread::Threads;

/// The level of the settings.
#[derive(Drop)]
pub struct Settings;

impl Rank for Settings {
    ghost rank = { λ _. 1 };

    fn rank(&self) -> u64 {
        1
    }
}

/// The level of the log.
#[derive(Drop)]
pub struct Log;

impl Rank for Log {
    ghost rank = { λ _. 2 };

    fn rank(&self) -> u64 {
        2
    }
}

/// Counts a line, unless the settings have a limit that is reached.
pub fn count_line<'o, W: Wait>(
    order: Order<'o, W>,
    limit: &'o Ranked<Settings, Mutex<u64>>,
    lines: &'o Ranked<Log, SpinMutex<u64>>,
)
    requires idle { order.top ≡ 0 }
{
    let (limit, order) = limit.lock(order);
    let (mut lines, _order) = lines.lock(order);
    if *lines < *limit {
        *lines += 1;
    }
}

/// Tries the settings while it has the log: a try may go down.
pub fn raise_limit<'o, W: Wait>(
    order: Order<'o, W>,
    limit: &'o Ranked<Settings, Mutex<u64>>,
    lines: &'o Ranked<Log, SpinMutex<u64>>,
) -> bool
    requires idle { order.top ≡ 0 }
{
    let (lines, order) = lines.lock(order);
    match limit.try_lock(order) {
        Ok((mut limit, _order)) => {
            *limit = lines.saturating_add(10);
            true
        }
        Err(_) => false,
    }
}

/// Reads one lock, then the other, with an order that it uses again.
pub fn one_after_the_other<W: Wait>(
    mut order: Order<'_, W>,
    high: &Ranked<u64, SpinMutex<u64>>,
    low: &Ranked<u64, SpinMutex<u64>>,
) -> u64
    requires { (order.top < low.now.key) × (low.now.key < high.now.key) }
{
    let first = {
        let (guard, _order) = high.lock(order.nest());
        *guard
    };
    let (guard, _order) = low.lock(order.nest());
    first.wrapping_add(*guard)
}

fn add<W: Wait>(order: Order<'_, W>, lines: &Ranked<Log, SpinMutex<u64>>, most: u64)
    requires below { order.top < 2 }
{
    let (mut lines, _order) = lines.lock(order);
    if *lines < most {
        *lines += 1;
    }
}

/// Counts lines in two threads, while it holds the limit.
pub fn count_in_two<'o, R: Threads, W: Wait + Sync>(
    rt: &R,
    order: Order<'o, W>,
    limit: &'o Ranked<Settings, Mutex<u64>>,
    lines: &'o Ranked<Log, SpinMutex<u64>>,
) -> u64
    requires idle { order.top ≡ 0 }
{
    let (limit, order) = limit.lock(order);
    let most = *limit;
    let (_, order) = join(
        rt,
        order,
        |order: Order<'_, W>|
            requires { order.top ≡ 1 }
        { add(order, lines, most) },
        |order: Order<'_, W>|
            requires { order.top ≡ 1 }
        { add(order, lines, most) },
    );
    let (lines, _order) = lines.lock(order);
    *lines
}

/// Exchanges the numbers under two locks of any kinds.
pub fn swap<'a, A: Acquire<'a>, B: Acquire<'a>, W: Wait>(rt: &W, one: &'a A, other: &'a B)
where
    A::Guard: Lent<Target = u64>,
    B::Guard: Lent<Target = u64>,
{
    let mut first = one.acquire(rt);
    let mut second = other.acquire(rt);
    let value = *first.whole();
    *first.whole_mut() = *second.whole();
    *second.whole_mut() = value;
}

/// Reads a limit, notes it in the log, and then raises the limit.
pub fn raise<'o, W: Wait>(
    order: Order<'o, W>,
    limit: &'o Ranked<u64, RwLock<u64>>,
    log: &'o Ranked<u64, SpinMutex<u64>>,
)
    requires idle { order.top ≡ 0 }
    requires ranks { (0 < limit.now.key) × (limit.now.key < log.now.key) }
{
    let Ok(mut reader) = limit.reserve(order) else {
        return;
    };
    let old = **reader.place();
    {
        let (mut lines, _order) = log.lock(reader.nest());
        *lines = old;
    }
    let (mut writer, order) = reader.claim();
    *writer = old.saturating_add(1);
    let (mut lines, _order) = log.lock(order);
    *lines = *writer;
}

/// Starves for a lock, and holds it with a second one.
pub fn starve<'o, W: Wait>(
    order: Order<'o, W>,
    first: &'o Ranked<u64, FairMutex<u64>>,
    second: &'o Ranked<u64, SpinMutex<u64>>,
) -> u64
    requires idle { order.top ≡ 0 }
    requires ranks { (0 < first.now.key) × (first.now.key < second.now.key) }
{
    match first.reserve(order) {
        Ok(starver) => {
            let (value, order) = starver.claim();
            let (other, _order) = second.lock(order);
            (*value).wrapping_add(*other)
        }
        Err(order) => {
            let (other, _order) = second.lock(order);
            *other
        }
    }
}

/// A port that is made once, from a number under a lock that ranks higher.
pub fn port<'o, W: Wait>(
    order: Order<'o, W>,
    port: &'o Ranked<u64, Once<u64>>,
    last: &'o Ranked<u64, SpinMutex<u64>>,
) -> u64
    requires idle { order.top ≡ 0 }
    requires ranks { (0 < port.now.key) × (port.now.key < last.now.key) }
{
    let (port, order) = port.call_once(
        order,
        |order: Order<'_, W>| -> u64
            requires { order.top < last.now.key }
        {
            let (mut last, _order) = last.lock(order);
            *last = (*last).wrapping_add(1);
            *last
        },
    );
    let (last, _order) = last.lock(order);
    (*port).wrapping_add(*last)
}
