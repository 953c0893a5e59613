//! A barrier that keeps its arrivals, as ghost state: who waited knows that its group had arrived, and as many threads
//! lead as groups are full. Begin with [`Roll`] and [`Barrier::open`](crate::barrier::Barrier::open).
ghost use Rattle.std.specs.Prelude.{◌≡◌, ◌≤◌, ◌<◌, ◌+◌, ℕ, true, false, length};
ghost use Rattle.std.proofs.Props.{props};
ghost use mathlib.Core.List.{IsPrefix};
ghost use Rattle.spin_step.specs.Barriers.{IsBarrier, generation_at};
ghost use Rattle.spin_barrier.specs.Gathered.{gathered, groups, leads, fills, one_if, Arrived, AllWithin, AllWithin-prop};

use crate::keep::Keeper;
use spin_history::history::{History, Log, Snapshot};
use spin_step_more::barrier::State;
use std::marker::Brand;
use std::sync::ledger::{Book, Ledger, Share};

mod calls;

/// The ledger that counts the arrivals of a barrier, and the size of its groups.
pub trait Groups: Ledger {
    ghost group: { ℕ };
}

impl Groups for Brand {
    ghost group = { 0 };
}

/// What one party has at a barrier that keeps its arrivals. It has no bytes.
///
/// `came.amount` is how often the party has arrived, and `led.amount` how often it has led. Each counts in a total.
#[derive(Drop)]
pub struct Party<N: Groups, L: Ledger> {
    pub came: Share<N>,
    pub led: Share<L>,
}

/// What a party knows: some arrivals, and all that these told. It has no bytes.
///
/// An arrival tells what its party knows of a log of the client's, such as that of a `Register`. How much that is, is
/// measured by the number of its entries.
#[derive(Drop)]
pub struct Known<H: History, V, G: History> {
    pub arrivals: Snapshot<Snapshot<V, G>, H>,
    pub told: Snapshot<V, G>,
    ghost heard: { AllWithin (λ one. length one.entries) arrivals.entries (length told.entries) } by { AllWithin-prop (λ one. length one.entries) arrivals.entries (length told.entries) },
}

/// The arrivals at a barrier, and what they told. It has no bytes.
#[derive(Drop)]
pub struct Roll<N: Groups, L: Ledger, H: History, V, G: History> {
    came: Book<N>,
    led: Book<L>,
    log: Log<Snapshot<V, G>, H>,
    told: Snapshot<V, G>,
    ghost leaders: { led.total ≡ groups N.group came.total },
    ghost listed: { length log.entries ≡ came.total },
    ghost heard: { AllWithin (λ one. length one.entries) log.entries (length told.entries) } by { AllWithin-prop (λ one. length one.entries) log.entries (length told.entries) },
}

impl<N: Groups, L: Ledger, H: History, V, G: History> Keeper for Roll<N, L, H, V, G> {
    type Own = Party<N, L>;

    type Seen = Known<H, V, G>;

    ghost agrees = { λ roll n count generation. IsBarrier (gathered N.group roll.came.total) n count generation };

    ghost agrees_once = { λ roll n count generation. Prim.hlevel props };

    ghost ready = { λ own seen. (0 < own.came.parts) × (0 < own.led.parts) };

    ghost came = { λ own seen led own' there.
        ((led ≡ leads N.group (length there.arrivals.entries)) × Arrived seen.arrivals.entries seen.told there.arrivals.entries)
        × IsPrefix seen.told.entries there.told.entries
        × ((own'.came.amount ≡ own.came.amount + 1) × (own'.led.amount ≡ own.led.amount + one_if led))
        × ((own'.came.parts ≡ own.came.parts) × (own'.led.parts ≡ own.led.parts)) };

    ghost follows = { λ seen generation. (leads N.group (length seen.arrivals.entries) ≡ false) × (generation_at (gathered N.group 0) (length seen.arrivals.entries) ≡ generation) };

    ghost left = { λ there now.
        (fills N.group (length there.arrivals.entries) ≤ length now.arrivals.entries)
        × IsPrefix there.arrivals.entries now.arrivals.entries
        × IsPrefix there.told.entries now.told.entries };

    fn arrive(
        &mut self,
        _before: State,
        _after: State,
        leads: bool,
        own: &mut Party<N, L>,
        seen: &mut Known<H, V, G>,
    ) {
        let Roll {
            came,
            led,
            log,
            told,
        } = self;
        let Known {
            arrivals,
            told: mine,
        } = seen;
        log.observe(arrivals);
        came.add(&mut own.came, 1);
        led.add(&mut own.led, leads as u64);
        log.append(mine);
        told.merge(mine);
        log.observe(arrivals);
        mine.merge(told);
    }

    fn look(&self, _state: State, _generation: usize, seen: &Known<H, V, G>) -> Known<H, V, G> {
        let (mut arrivals, mut told) = (seen.arrivals.copy(), seen.told.copy());
        self.log.observe(&mut arrivals);
        told.merge(&self.told);
        Known { arrivals, told }
    }
}
