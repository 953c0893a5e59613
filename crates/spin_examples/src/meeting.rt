//! Two threads that raise a number, wait for each other, and read the number again. Begin with [`meet_in_two`].
ghost use Rattle.std.specs.Prelude.{◌≡◌, ◌≤◌, ◌+◌, Some, length};
ghost use Rattle.std.proofs.Math.Bridge.{le_prop};
ghost use mathlib.Core.List.{IsPrefix};
ghost use Rattle.spin_history.specs.Entries.{last, InOrder, InOrder-prop};
ghost use Rattle.spin_barrier.specs.Gathered.{one_if, Told};

use spin_barrier::barrier::Barrier;
use spin_barrier::roll::{Groups, Known, Party, Roll};
use spin_core::relax::Yield;
use spin_history::growing::{Ascending, Growing};
use spin_history::history::{BlankLog, History, Snapshot};
use spin_history::register;
use spin_mutex::mutex::Mutex;
use std::marker::Brand;
use std::sync::Wait;
use std::sync::ledger::{Blank, Ledger};
use std::thread::{Threads, join};

/// A number that never falls, and the log of its values.
type Number<G> = Mutex<Growing<u64, Ascending, G>, Yield>;

/// A barrier at which each thread tells what it knows of the number.
type Meeting<N, L, H, G> = Barrier<Yield, Roll<N, L, H, u64, G>>;

/// What a thread read before and after it waited, and what it knows.
#[derive(Drop)]
struct Met<N: Groups, L: Ledger, H: History, G: History> {
    leads: bool,
    first: u64,
    then: u64,
    party: Party<N, L>,
    known: Known<H, u64, G>,
    told: Snapshot<u64, G>,
    heard: Snapshot<u64, G>,
    ghost parts: { (party.came.parts ≡ 1) × (party.led.parts ≡ 1) },
    ghost came: { party.came.amount ≡ 1 },
    ghost led: { party.led.amount ≡ one_if leads },
    ghost full: { 2 ≤ length known.arrivals.entries },
    ghost last_told: { last told.entries ≡ Some first },
    ghost last_heard: { last heard.entries ≡ Some then },
    ghost ordered: { InOrder (λ x y. x ≤ y) heard.entries } by { InOrder-prop (λ x y. x ≤ y) (λ x y. le_prop) heard.entries },
}

// Raises the number, reads it, waits once, and reads the number again.
fn meet_once<N: Groups, L: Ledger, H: History, G: History, W: Wait>(
    rt: &W,
    number: &Number<G>,
    barrier: &Meeting<N, L, H, G>,
    party: Party<N, L>,
    known: Known<H, u64, G>,
    seen: Snapshot<u64, G>,
) -> Met<N, L, H, G>
    requires group { N.group ≡ 2 }
    requires parts { (party.came.parts ≡ 1) × (party.led.parts ≡ 1) }
    requires nothing_yet { (party.came.amount ≡ 0) × (party.led.amount ≡ 0) }
    ensures told { Told (λ one. length one.entries) (length result.told.entries) result.known.arrivals.entries }
    ensures heard { IsPrefix result.known.told.entries result.heard.entries }
{
    let (mut party, mut known, mut told) = (party, known, seen);
    register::update(
        rt,
        number,
        |old: &u64| -> u64
            ensures { old.now ≤ result }
        { old.saturating_add(1) },
        &mut told,
    );
    let first = register::read(rt, number, &mut told);
    known.learn(&told);
    let leads = barrier.wait(rt, &mut party, &mut known).is_leader();
    let mut heard = known.told.copy();
    let then = register::read(rt, number, &mut heard);
    Met {
        leads,
        first,
        then,
        party,
        known,
        told,
        heard,
    }
}

/// Whether a thread led, and what it read before and after it waited.
type Readings = (bool, u64, u64);

fn meet_by<
    N: Groups + Send + Sync,
    L: Ledger + Send + Sync,
    H: History + Send + Sync,
    G: History + Send + Sync,
    W: Threads + Wait + Sync,
>(rt: &W, came: Blank, led: Blank, log: BlankLog, shared: BlankLog) -> (Readings, Readings)
    requires group { N.group ≡ 2 }
    requires came { (came.name ≡ N.name) × (came.parts ≡ N.parts) × (came.parts ≡ 2) }
    requires led { (led.name ≡ L.name) × (led.parts ≡ L.parts) × (led.parts ≡ 2) }
    requires log { log.name ≡ H.name }
    requires shared { shared.name ≡ G.name }
    ensures leader { one_if result.0.0 + one_if result.1.0 ≡ 1 }
    ensures there { result.0.1 ≤ result.1.2 }
    ensures back { result.1.1 ≤ result.0.2 }
{
    let numbers = shared.open::<u64, G>();
    let (seen, also_seen, told) = (numbers.snapshot(), numbers.snapshot(), numbers.snapshot());
    let number: Number<G> = Mutex::new(Growing::new(0, numbers));
    let (barrier, mut mine, known): (Meeting<N, L, H, G>, Party<N, L>, Known<H, u64, G>) =
        Barrier::open(2, came, led, log, told);
    let (theirs, also_known) = (mine.split_off(1), known.copy());
    let (lent, lent_number) = (&barrier, &number);
    let (one, other) = join(
        rt,
        move || -> Met<N, L, H, G>
            requires { (N.group ≡ 2) × ((mine.came.parts ≡ 1) × (mine.led.parts ≡ 1) × (mine.came.amount ≡ 0) × (mine.led.amount ≡ 0)) }
            ensures told { Told (λ one. length one.entries) (length result.told.entries) result.known.arrivals.entries }
            ensures heard { IsPrefix result.known.told.entries result.heard.entries }
        { meet_once(rt, lent_number, lent, mine, known, seen) },
        move || -> Met<N, L, H, G>
            requires { (N.group ≡ 2) × ((theirs.came.parts ≡ 1) × (theirs.led.parts ≡ 1) × (theirs.came.amount ≡ 0) × (theirs.led.amount ≡ 0)) }
            ensures told { Told (λ one. length one.entries) (length result.told.entries) result.known.arrivals.entries }
            ensures heard { IsPrefix result.known.told.entries result.heard.entries }
        { meet_once(rt, lent_number, lent, theirs, also_known, also_seen) },
    );
    one.with(other, barrier)
}

impl<N: Groups, L: Ledger, H: History, G: History> Met<N, L, H, G> {
    // Ends the barrier at which the two have met.
    fn with(self, other: Self, barrier: Meeting<N, L, H, G>) -> (Readings, Readings)
        requires group { N.group ≡ 2 }
        requires parts { (N.parts ≡ 2) × (L.parts ≡ 2) }
        requires told { Told (λ one. length one.entries) (length self.told.entries) self.known.arrivals.entries × Told (λ one. length one.entries) (length other.told.entries) other.known.arrivals.entries }
        requires heard { IsPrefix self.known.told.entries self.heard.entries × IsPrefix other.known.told.entries other.heard.entries }
        ensures leader { one_if result.0.0 + one_if result.1.0 ≡ 1 }
        ensures there { result.0.1 ≤ result.1.2 }
        ensures back { result.1.1 ≤ result.0.2 }
    {
        let Met {
            leads,
            first,
            then,
            party: mut every,
            known,
            told,
            heard: _,
        } = self;
        let Met {
            leads: also_leads,
            first: also_first,
            then: also_then,
            party,
            known: also_known,
            told: also_told,
            heard: _,
        } = other;
        every.merge(party);
        let all = barrier.close(&mut every);
        also_known.hears(&known, &told, &all);
        known.hears(&also_known, &also_told, &all);
        ((leads, first, then), (also_leads, also_first, also_then))
    }
}

/// Two threads raise one number, read it, wait for each other once, and read it again. Returns of each whether it led, and
/// what it read.
///
/// # Contract
/// Exactly one of them leads. Each reads at the end at least what the other had read before it waited. Whether and when
/// the call returns is not promised.
pub fn meet_in_two<W: Threads + Wait + Sync>(rt: &W) -> (Readings, Readings)
    ensures leader { one_if result.0.0 + one_if result.1.0 ≡ 1 }
    ensures there { result.0.1 ≤ result.1.2 }
    ensures back { result.1.1 ≤ result.0.2 }
{
    meet_by::<Brand, Brand, Brand, Brand, W>(
        rt,
        Blank::new(2),
        Blank::new(2),
        BlankLog::new(),
        BlankLog::new(),
    )
}
