//! A version that threads raise. No reader sees it fall.
#![tactic(auto)]

ghost use Rattle.std.specs.Prelude.{◌≤◌};

use spin_history::growing::{Ascending, Growing};
use spin_history::history::{BlankLog, History, Snapshot, Work, open};
use spin_history::register;
use spin_rwlock::rwlock::RwLock;
use std::sync::Wait;

type Version<H> = RwLock<Growing<u64, Ascending, H>>;

type Seen<H> = Snapshot<u64, H>;

/// Raises the version by one, up to the largest number.
pub fn raise<H: History, W: Wait>(rt: &W, version: &Version<H>, seen: &mut Seen<H>) {
    let next = |old: &u64| -> u64
        ensures { old.now ≤ result }
    { old.saturating_add(1) };
    register::update(rt, version, next, seen);
}

/// Reads twice. The second number is not below the first, whichever thread raised the version in between.
pub fn watch<H: History, W: Wait>(rt: &W, version: &Version<H>, seen: &mut Seen<H>) -> (u64, u64)
    ensures { result.0 ≤ result.1 }
{
    let first = register::read_shared(rt, version, seen);
    (first, register::read_shared(rt, version, seen))
}

#[derive(Drop)]
struct RaiseAndWatch<'r, W>(&'r W);

impl<W: Wait> Work for RaiseAndWatch<'_, W> {
    type Answer = (u64, u64);

    ghost gives = { λ _ answer. answer.0 ≤ answer.1 };

    fn run<H: History + Send + Sync>(self, blank: BlankLog) -> (u64, u64) {
        let log = blank.open::<u64, H>();
        let mut seen = log.snapshot();
        let version: Version<H> = RwLock::new(Growing::new(0, log));
        raise(self.0, &version, &mut seen);
        watch(self.0, &version, &mut seen)
    }
}

/// Raises a new version, and reads it twice.
pub fn watch_one<W: Wait>(rt: &W) -> (u64, u64)
    ensures { result.0 ≤ result.1 }
{
    open(RaiseAndWatch(rt))
}
