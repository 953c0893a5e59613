//! A version that threads raise. No reader sees it fall.
ghost use Rattle.std.specs.Prelude.{◌≡◌, ◌≤◌, Some};
ghost use Rattle.spin_history.specs.Entries.{last};

use spin::RwLock;
use spin::rwlock::RwLockReadGuard;
use spin_history::growing::{Ascending, Growing};
use spin_history::history::{BlankLog, History, Snapshot, Work, open};
use spin_history::register;
use std::marker::Brand;
use std::sync::Wait;
use std::thread::{Threads, join};

/// A version under a lock that readers share.
pub type Version<H> = RwLock<Growing<u64, Ascending, H>>;

fn raise<H: History, W: Wait>(
    rt: &W,
    version: &Version<H>,
    times: u64,
    mut seen: Snapshot<u64, H>,
) {
    for _ in 0..times {
        register::update(
            rt,
            version,
            |old: &u64| -> u64
                ensures { old.now ≤ result }
            { old.saturating_add(1) },
            &mut seen,
        );
    }
}

/// The numbers that two reads found, and a snapshot of the log afterwards.
type Watched<H> = ((u64, u64), Snapshot<u64, H>);

/// Reads twice. The second number is not below the first, whichever thread raised the version in between.
fn watch<H: History, W: Wait>(
    rt: &W,
    version: &Version<H>,
    mut seen: Snapshot<u64, H>,
) -> Watched<H>
    ensures rising { result.0.0 ≤ result.0.1 }
    ensures last { last result.1.entries ≡ Some result.0.1 }
{
    let first = register::read_shared(rt, version, &mut seen);
    let second = register::read_shared(rt, version, &mut seen);
    ((first, second), seen)
}

fn watch_both<H: History + Send + Sync, W: Threads + Wait + Sync>(
    rt: &W,
    version: &Version<H>,
    first: Snapshot<u64, H>,
    second: Snapshot<u64, H>,
) -> (Watched<H>, Watched<H>)
    ensures first { (result.0.0.0 ≤ result.0.0.1) × (last result.0.1.entries ≡ Some result.0.0.1) }
    ensures second { (result.1.0.0 ≤ result.1.0.1) × (last result.1.1.entries ≡ Some result.1.0.1) }
{
    join(
        rt,
        move || -> Watched<H>
            ensures { (result.0.0 ≤ result.0.1) × (last result.1.entries ≡ Some result.0.1) }
        { watch(rt, version, first) },
        move || -> Watched<H>
            ensures { (result.0.0 ≤ result.0.1) × (last result.1.entries ≡ Some result.0.1) }
        { watch(rt, version, second) },
    )
}

fn race_by<H: History + Send + Sync, W: Threads + Wait + Sync>(
    rt: &W,
    times: u64,
    blank: BlankLog,
) -> ((u64, u64), (u64, u64), u64)
    requires { blank.name ≡ H.name }
    ensures first { (result.0.0 ≤ result.0.1) × (result.0.1 ≤ result.2) }
    ensures second { (result.1.0 ≤ result.1.1) × (result.1.1 ≤ result.2) }
{
    let log = blank.open::<u64, H>();
    let (start, other) = (log.snapshot(), log.snapshot());
    let (first, second) = (log.snapshot(), log.snapshot());
    let lock: Version<H> = RwLock::new(Growing::new(0, log));
    let version = &lock;
    let (_, ((one, mut first), (two, mut second))) = join(
        rt,
        move || {
            join(
                rt,
                move || raise(rt, version, times, start),
                move || raise(rt, version, times, other),
            );
        },
        move || -> (Watched<H>, Watched<H>)
            ensures first { (result.0.0.0 ≤ result.0.0.1) × (last result.0.1.entries ≡ Some result.0.0.1) }
            ensures second { (result.1.0.0 ≤ result.1.0.1) × (last result.1.1.entries ≡ Some result.1.0.1) }
        { watch_both(rt, version, first, second) },
    );
    let end = lock.into_inner();
    let last = end.read(&mut first);
    end.read(&mut second);
    (one, two, last)
}

/// Raises a version from 0 in two threads, while two other threads read it twice each. No reader sees it
/// fall, or exceed its last value.
pub fn race<W: Threads + Wait + Sync>(rt: &W, times: u64) -> ((u64, u64), (u64, u64), u64)
    ensures first { (result.0.0 ≤ result.0.1) × (result.0.1 ≤ result.2) }
    ensures second { (result.1.0 ≤ result.1.1) × (result.1.1 ≤ result.2) }
{
    race_by::<Brand, W>(rt, times, BlankLog::new())
}

/// Reads through a guard that is never dropped, and then reads again. What the first read saw is still known.
pub fn watch_leaked<H: History, W: Wait>(
    rt: &W,
    version: &Version<H>,
    seen: &mut Snapshot<u64, H>,
) -> (u64, u64)
    ensures rising { result.0 ≤ result.1 }
    ensures last { last seen.new.entries ≡ Some result.1 }
{
    let leaked = RwLockReadGuard::leak(version.read(rt));
    let first = leaked.read(seen);
    (first, register::read_shared(rt, version, seen))
}

/// Work that watches a version of its own and leaks a guard.
#[derive(Drop)]
pub struct WatchLeaked<'r, W>(pub &'r W);

impl<W: Wait> Work for WatchLeaked<'_, W> {
    type Answer = (u64, u64);

    ghost gives = { λ _ answer. answer.0 ≤ answer.1 };

    fn run<H: History + Send + Sync>(self, blank: BlankLog) -> (u64, u64) {
        let log = blank.open::<u64, H>();
        let mut seen = log.snapshot();
        let version: Version<H> = RwLock::new(Growing::new(0, log));
        let start = seen.copy();
        raise(self.0, &version, 1, start);
        watch_leaked(self.0, &version, &mut seen)
    }
}

/// Watches a version that was raised once, with a guard that is never dropped. The caller need not name its
/// log.
pub fn watch_one<W: Wait>(rt: &W) -> (u64, u64)
    ensures { result.0 ≤ result.1 }
{
    open(WatchLeaked(rt))
}
