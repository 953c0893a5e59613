//! What the callers of one register know of each other's writes.
ghost use Rattle.std.specs.Prelude.{◌≡◌, ◌⊎◌};
ghost use mathlib.Core.List.{IsPrefix};
ghost use Rattle.spin_history.specs.Entries.{Reads, WritesOne, Updates};

use spin::RwLock;
use spin_history::history::{BlankLog, History, Snapshot};
use spin_history::register::{self, Register};
use std::marker::Brand;
use std::sync::Wait;
use std::thread::{Threads, join};

/// Reads through two guards that are held at the same time. Both show the same value.
pub fn read_under_two<T: Copy, H: History, W: Wait>(
    rt: &W,
    lock: &RwLock<Register<T, H>>,
    seen: &mut Snapshot<T, H>,
) -> (T, T)
    ensures { result.0 ≡ result.1 }
{
    let first = lock.read(rt);
    let second = lock.read(rt);
    first.same(&second);
    (first.read(seen), second.read(seen))
}

/// Reads the value, upgrades and writes. No other thread writes in between.
pub fn read_and_write<T: Copy + Drop, H: History, W: Wait>(
    rt: &W,
    lock: &RwLock<Register<T, H>>,
    new: T,
    seen: &mut Snapshot<T, H>,
) -> T
    ensures { Updates seen.old.entries result new seen.new.entries }
{
    let guard = lock.upgradeable_read(rt);
    let before = guard.read(seen);
    let mut writer = guard.upgrade(rt);
    writer.write(new, seen);
    before
}

fn two_readers<H: History + Send + Sync, W: Threads + Wait + Sync>(
    rt: &W,
    lock: &RwLock<Register<u64, H>>,
    first: Snapshot<u64, H>,
    second: Snapshot<u64, H>,
) -> ((u64, Snapshot<u64, H>), (u64, Snapshot<u64, H>))
    ensures first { Reads first.entries result.0.0 result.0.1.entries }
    ensures second { Reads second.entries result.1.0 result.1.1.entries }
{
    join(
        rt,
        move || -> (u64, Snapshot<u64, H>)
            ensures { Reads first.entries result.0 result.1.entries }
        {
            let mut seen = first;
            let found = register::read_shared(rt, lock, &mut seen);
            (found, seen)
        },
        move || -> (u64, Snapshot<u64, H>)
            ensures { Reads second.entries result.0 result.1.entries }
        {
            let mut seen = second;
            let found = register::read_shared(rt, lock, &mut seen);
            (found, seen)
        },
    )
}

fn two_writers<H: History + Send + Sync, W: Threads + Wait + Sync>(
    rt: &W,
    lock: &RwLock<Register<u64, H>>,
    values: (u64, u64),
    first: Snapshot<u64, H>,
    second: Snapshot<u64, H>,
) -> (Snapshot<u64, H>, Snapshot<u64, H>)
    ensures first { WritesOne first.entries values.0 result.0.entries }
    ensures second { WritesOne second.entries values.1 result.1.entries }
{
    let (one, other) = values;
    join(
        rt,
        move || -> Snapshot<u64, H>
            ensures { WritesOne first.entries one result.entries }
        {
            let mut seen = first;
            register::write(rt, lock, one, &mut seen);
            seen
        },
        move || -> Snapshot<u64, H>
            ensures { WritesOne second.entries other result.entries }
        {
            let mut seen = second;
            register::write(rt, lock, other, &mut seen);
            seen
        },
    )
}

/// Writes in two threads while two other threads read. Of the two readers, one saw a prefix of what the other
/// saw of the log.
pub fn two_write_two_read<H: History + Send + Sync, W: Threads + Wait + Sync>(
    rt: &W,
    lock: &RwLock<Register<u64, H>>,
    values: (u64, u64),
    start: &Snapshot<u64, H>,
) -> (
    (Snapshot<u64, H>, Snapshot<u64, H>),
    ((u64, Snapshot<u64, H>), (u64, Snapshot<u64, H>)),
)
    ensures first_write { WritesOne start.now.entries values.0 result.0.0.entries }
    ensures second_write { WritesOne start.now.entries values.1 result.0.1.entries }
    ensures first_read { Reads start.now.entries result.1.0.0 result.1.0.1.entries }
    ensures second_read { Reads start.now.entries result.1.1.0 result.1.1.1.entries }
    ensures one_history { IsPrefix result.1.0.1.entries result.1.1.1.entries ⊎ IsPrefix result.1.1.1.entries result.1.0.1.entries }
{
    let (one, other) = (start.copy(), start.copy());
    let (first, second) = (start.copy(), start.copy());
    let (wrote, found) = join(
        rt,
        move || -> (Snapshot<u64, H>, Snapshot<u64, H>)
            ensures first { WritesOne one.entries values.0 result.0.entries }
            ensures second { WritesOne other.entries values.1 result.1.entries }
        { two_writers(rt, lock, values, one, other) },
        move || -> ((u64, Snapshot<u64, H>), (u64, Snapshot<u64, H>))
            ensures first { Reads first.entries result.0.0 result.0.1.entries }
            ensures second { Reads second.entries result.1.0 result.1.1.entries }
        { two_readers(rt, lock, first, second) },
    );
    found.0.1.compare(&found.1.1);
    (wrote, found)
}

fn four_threads_by<H: History + Send + Sync, W: Threads + Wait + Sync>(
    rt: &W,
    values: (u64, u64),
    blank: BlankLog,
) -> ((u64, u64), u64)
    requires { blank.name ≡ H.name }
{
    let log = blank.open::<u64, H>();
    let start = log.snapshot();
    let lock: RwLock<Register<u64, H>> = RwLock::new(Register::new(0, log));
    let (wrote, ((first, mut seen), (second, other))) = two_write_two_read(
        rt, &lock, values, &start,
    );
    let (last, closed) = lock.into_inner().close();
    seen.merge(&wrote.0);
    seen.merge(&wrote.1);
    seen.merge(&other);
    closed.observe(&mut seen);
    ((first, second), last)
}

/// Lets two threads write to a register that held 0, while two others read. Returns what the readers found,
/// and the last value.
pub fn four_threads<W: Threads + Wait + Sync>(rt: &W, values: (u64, u64)) -> ((u64, u64), u64) {
    four_threads_by::<Brand, W>(rt, values, BlankLog::new())
}
