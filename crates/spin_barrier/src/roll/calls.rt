//! The calls of a barrier that keeps its arrivals, of its parties, and of what they know.
ghost use Rattle.std.specs.Prelude.{◌≡◌, ◌≤◌, ◌<◌, ◌+◌, length};
ghost use mathlib.Core.List.{IsPrefix};
ghost use Rattle.spin_core.specs.Logs.{KnowsBoth};
ghost use Rattle.spin_history.specs.Known.{known_to, closed_entries};
ghost use Rattle.spin_barrier.specs.Gathered.{groups, one_if};
ghost use Rattle.spin_barrier.specs.Keeping.{leads_group};
ghost use Rattle.spin_barrier.specs.Rolls.{came_by, led_by, HasMore, HasParts, HasCounts, KeepsParts, AddsUp, arrivals_of, told_of, HasTold, HasWaited};

use super::{Groups, Known, Party, Roll};
use crate::barrier::{Barrier, BarrierWaitResult};
use crate::keep::Kept;
use spin_core::relax::RelaxStrategy;
use spin_history::history::{BlankLog, ClosedLog, History, Snapshot};
use spin_mutex::mutex::Mutex;
use spin_step_more::barrier::State;
use std::mem;
use std::sync::Wait;
use std::sync::ledger::{Blank, Ledger};

impl<N: Groups, L: Ledger> Party<N, L> {
    /// Splits off a party that has so many parts of both ledgers, and has not arrived yet.
    pub fn split_off(&mut self, parts: u64) -> Self
        requires some { 0 < parts }
        requires more { HasMore self.old parts }
        ensures parts { HasParts result parts parts }
        ensures nothing_yet { HasCounts result 0 0 }
        ensures left { AddsUp self.new result self.old }
        ensures same { HasCounts self.new (came_by self.old) (led_by self.old) }
    {
        Party {
            came: self.came.split_off(parts, 0),
            led: self.led.split_off(parts, 0),
        }
    }

    /// Joins two parties: their parts and their counts add up.
    pub fn merge(&mut self, other: Self)
        ensures { AddsUp self.old other self.new }
    {
        let Party { came, led } = other;
        self.came.merge(came);
        self.led.merge(led);
    }
}

impl<H: History, V, G: History> Known<H, V, G> {
    /// Returns a copy.
    pub fn copy(&self) -> Self
        ensures arrivals { arrivals_of result ≡ arrivals_of self.now }
        ensures told { told_of result ≡ told_of self.now }
    {
        Known {
            arrivals: self.arrivals.copy(),
            told: self.told.copy(),
        }
    }

    /// Adds what a snapshot of the client's log knows. The next arrival tells it.
    pub fn learn(&mut self, seen: &Snapshot<V, G>)
        ensures arrivals { arrivals_of self.new ≡ arrivals_of self.old }
        ensures told { KnowsBoth (told_of self.old) (known_to seen.now) (told_of self.new) }
        ensures count { length (known_to seen.now) ≤ length (told_of self.new) }
    {
        let Known { arrivals: _, told } = self;
        told.merge(seen);
    }

    /// Adds what this party knows of the client's log to a snapshot.
    pub fn teach(&self, seen: &mut Snapshot<V, G>)
        ensures { KnowsBoth (known_to seen.old) (told_of self.now) (known_to seen.new) }
    {
        seen.merge(&self.told);
    }

    /// Shows that this party, which knows of all arrivals, has heard what another one told.
    ///
    /// # Contract
    /// One of the other's arrivals has to have told it, or more.
    pub fn hears(
        &self,
        other: &Known<H, V, G>,
        told: &Snapshot<V, G>,
        all: &ClosedLog<Snapshot<V, G>, H>,
    )
        requires told { HasTold other.now told.now }
        requires all { length (closed_entries all.now) ≤ length (arrivals_of self.now) }
        ensures { IsPrefix (known_to told.now) (told_of self.now) }
    {
        let mut theirs = other.arrivals.copy();
        all.observe(&mut theirs);
        theirs.compare(&self.arrivals);
        told.compare(&self.told);
    }
}

impl<R, N: Groups, L: Ledger, H: History, V, G: History> Barrier<R, Roll<N, L, H, V, G>> {
    /// Creates a barrier for groups of `n` threads that keeps its arrivals, the party that has all parts of its
    /// ledgers, and what is known of a barrier at which no thread has arrived.
    pub fn open(
        n: usize,
        came: Blank,
        led: Blank,
        log: BlankLog,
        told: Snapshot<V, G>,
    ) -> (Self, Party<N, L>, Known<H, V, G>)
        requires group { N.group ≡ n }
        requires came { (came.name ≡ N.name) × (came.parts ≡ N.parts) }
        requires led { (led.name ≡ L.name) × (led.parts ≡ L.parts) }
        requires log { log.name ≡ H.name }
        ensures parts { HasParts result.1 N.parts L.parts }
        ensures nothing_yet { HasCounts result.1 0 0 }
        ensures told { told_of result.2 ≡ known_to told }
    {
        let (came, all_came) = came.open::<N>();
        let (led, all_led) = led.open::<L>();
        let log = log.open::<Snapshot<V, G>, H>();
        let known = Known {
            arrivals: log.snapshot(),
            told: told.copy(),
        };
        let state = Mutex::new(Kept {
            state: State::new(n),
            keep: Roll {
                came,
                led,
                log,
                told,
            },
        });
        let party = Party {
            came: all_came,
            led: all_led,
        };
        (Barrier { state }, party, known)
    }

    /// Ends the barrier, and returns the list of all arrivals. Needs all parts of its ledgers.
    ///
    /// # Contract
    /// As many threads have led as groups are full: the arrivals divided by the size of a group, which counts as 1 if it
    /// is 0.
    pub fn close(self, every: &mut Party<N, L>) -> ClosedLog<Snapshot<V, G>, H>
        requires { HasParts every.old N.parts L.parts }
        ensures led { led_by every.old ≡ groups N.group (came_by every.old) }
        ensures same { HasCounts every.new (came_by every.old) (led_by every.old) }
        ensures all { length (closed_entries result) ≡ came_by every.old }
    {
        let Self { state } = self;
        let Kept { state: _, keep } = state.into_inner();
        let Roll {
            mut came,
            mut led,
            log,
            told: _,
        } = keep;
        came.audit(&mut every.came);
        led.audit(&mut every.led);
        log.close()
    }
}

impl<R: RelaxStrategy, N: Groups, L: Ledger, H: History, V, G: History> Barrier<
    R,
    Roll<N, L, H, V, G>,
> {
    /// Arrives at the barrier, and spins until the group is full.
    ///
    /// # Contract
    /// The party's arrival is the k-th one, for some k that it had not seen before, and it told what `known.told` knew. It
    /// leads exactly if it fills its group, and then counts once more as a leader. When the call returns, all of its
    /// group have arrived: the party knows of as many arrivals as fill the group of the k-th one (`waited`). And
    /// `known.told` then knows what each of these told (`heard` of [`Known`]). Whether and when the call returns is not
    /// promised.
    pub fn wait<W: Wait>(
        &self,
        rt: &W,
        party: &mut Party<N, L>,
        known: &mut Known<H, V, G>,
    ) -> BarrierWaitResult
        requires { HasMore party.old 0 }
        ensures waited { HasWaited N.group known.old (leads_group result) known.new }
        ensures group { N.group ≤ length (arrivals_of known.new) }
        ensures told { IsPrefix (told_of known.old) (told_of known.new) }
        ensures came { came_by party.new ≡ came_by party.old + 1 }
        ensures led { led_by party.new ≡ led_by party.old + one_if (leads_group result) }
        ensures parts { KeepsParts party.old party.new }
    {
        let same = known.copy();
        let before = mem::replace(known, same);
        let (result, now) = self.wait_with(rt, party, before);
        *known = now;
        result
    }
}
