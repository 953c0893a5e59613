//! Values whose logs are related: two registers with equally many writes, and a tally with a log of its
//! totals.
ghost use Rattle.std.specs.Prelude.{◌≡◌, ◌<◌, [], Some, length};
ghost use Rattle.spin_history.specs.Entries.{last};

use spin::mutex::SpinMutex;
use spin_history::history::{BlankLog, History, Log, Snapshot, Work, open};
use spin_history::register::Register;
use spin_history::tally::{self, Tally};
use std::sync::Wait;
use std::sync::ledger::{Ledger, Share};

/// Two registers with equally many writes.
#[derive(Drop)]
pub struct Pair<H: History, K: History> {
    left: Register<u64, H>,
    right: Register<u64, K>,
    ghost even: { length left.log.entries ≡ length right.log.entries },
}

/// Writes both registers under the lock. Afterwards the caller knows equally many writes of each.
pub fn write_both<H: History, K: History, W: Wait>(
    rt: &W,
    lock: &SpinMutex<Pair<H, K>>,
    values: (u64, u64),
    left_seen: &mut Snapshot<u64, H>,
    right_seen: &mut Snapshot<u64, K>,
)
    ensures left { last left_seen.new.entries ≡ Some values.0 }
    ensures right { last right_seen.new.entries ≡ Some values.1 }
    ensures even { length left_seen.new.entries ≡ length right_seen.new.entries }
{
    let mut pair = lock.lock(rt);
    let Pair { left, right } = &mut *pair;
    left.write(values.0, left_seen);
    right.write(values.1, right_seen);
}

/// A tally, and the log of its totals.
#[derive(Drop)]
pub struct Audited<L: Ledger, H: History> {
    tally: Tally<L>,
    totals: Register<u64, H>,
    ghost tied: { tally.count ≡ totals.value },
}

/// Adds to the tally and logs the new total, under one lock. The caller needs all parts of the ledger. Returns
/// the total, which is the last entry of the log.
pub fn add_and_audit<L: Ledger, H: History, W: Wait>(
    rt: &W,
    lock: &SpinMutex<Audited<L, H>>,
    more: u64,
    every: &mut Share<L>,
    seen: &mut Snapshot<u64, H>,
) -> u64
    requires some { 0 < every.old.parts }
    requires whole { every.old.parts ≡ L.parts }
    ensures total { result ≡ every.new.amount }
    ensures parts { every.new.parts ≡ every.old.parts }
    ensures last { last seen.new.entries ≡ Some result }
{
    let mut audited = lock.lock(rt);
    let Audited { tally, totals } = &mut *audited;
    tally.add(every, more);
    let total = tally.total(every);
    totals.write(total, seen);
    total
}

/// Work that opens the log of the second register, inside the work that opened the first.
struct BesideLeft<'r, W, H: History> {
    rt: &'r W,
    values: (u64, u64),
    left: Log<u64, H>,
}

impl<W: Wait, H: History> Work for BesideLeft<'_, W, H> {
    type Answer = (u64, u64);

    ghost asks = { λ work. work.left.entries ≡ [] };

    fn run<K: History + Send + Sync>(self, blank: BlankLog) -> (u64, u64) {
        let BesideLeft { rt, values, left } = self;
        let right = blank.open::<u64, K>();
        let (mut left_seen, mut right_seen) = (left.snapshot(), right.snapshot());
        let lock: SpinMutex<Pair<H, K>> = SpinMutex::new(Pair {
            left: Register::new(0, left),
            right: Register::new(0, right),
        });
        write_both(rt, &lock, values, &mut left_seen, &mut right_seen);
        let Pair { left, right } = lock.into_inner();
        (left.read(&mut left_seen), right.read(&mut right_seen))
    }
}

/// Work that opens the log of the first register.
struct WriteBoth<'r, W> {
    rt: &'r W,
    values: (u64, u64),
}

impl<W: Wait> Work for WriteBoth<'_, W> {
    type Answer = (u64, u64);

    fn run<H: History + Send + Sync>(self, blank: BlankLog) -> (u64, u64) {
        let WriteBoth { rt, values } = self;
        let left = blank.open::<u64, H>();
        open(BesideLeft { rt, values, left })
    }
}

/// Writes two registers under one lock, and returns their last values. The caller need not name their logs.
pub fn write_a_pair<W: Wait>(rt: &W, values: (u64, u64)) -> (u64, u64) {
    open(WriteBoth { rt, values })
}

/// Work that opens the log of the totals, inside the work that opened the tally.
struct BesideTally<'r, W, L: Ledger> {
    rt: &'r W,
    more: u64,
    tally: Tally<L>,
    all: Share<L>,
}

impl<W: Wait, L: Ledger> Work for BesideTally<'_, W, L> {
    type Answer = (u64, u64);

    ghost asks = { λ work. (work.tally.count ≡ 0) × ((0 < work.all.parts) × (work.all.parts ≡ L.parts)) };

    ghost gives = { λ work answer. answer.0 ≡ answer.1 };

    fn run<H: History + Send + Sync>(self, blank: BlankLog) -> (u64, u64) {
        let BesideTally {
            rt,
            more,
            tally,
            mut all,
        } = self;
        let log = blank.open::<u64, H>();
        let mut seen = log.snapshot();
        let lock: SpinMutex<Audited<L, H>> = SpinMutex::new(Audited {
            tally,
            totals: Register::new(0, log),
        });
        add_and_audit(rt, &lock, more, &mut all, &mut seen);
        let Audited { mut tally, totals } = lock.into_inner();
        (tally.total(&mut all), totals.read(&mut seen))
    }
}

/// Work that opens the ledger.
struct AddAndAudit<'r, W> {
    rt: &'r W,
    more: u64,
}

impl<W: Wait> tally::Work for AddAndAudit<'_, W> {
    type Answer = (u64, u64);

    ghost gives = { λ work answer. answer.0 ≡ answer.1 };

    fn run<L: Ledger + Send + Sync>(self, tally: Tally<L>, all: Share<L>) -> (u64, u64) {
        let AddAndAudit { rt, more } = self;
        open(BesideTally {
            rt,
            more,
            tally,
            all,
        })
    }
}

/// Adds to a tally whose totals are logged. Returns the total and the last entry of the log, which are equal.
/// The caller need not name the ledger or the log.
pub fn audit_one<W: Wait>(rt: &W, more: u64) -> (u64, u64)
    ensures { result.0 ≡ result.1 }
{
    tally::open(AddAndAudit { rt, more })
}
