//! A barrier that gives its leader what the group brought. Begin with [`Pool`] and [`Barrier::pool`].
ghost use Rattle.std.specs.Prelude.{◌≡◌, ◌*◌, ℕ, ⊤};
ghost use Rattle.std.proofs.Props.{props};
ghost use Rattle.spin_history.specs.Shares.{parts_of, amount_of, HasShare, TakesAll};
ghost use Rattle.spin_barrier.specs.Keeping.{leads_group};

use crate::barrier::{Barrier, BarrierWaitResult};
use crate::keep::{Keeper, Kept};
use spin_core::relax::RelaxStrategy;
use spin_mutex::mutex::Mutex;
use spin_step_more::barrier::State;
use std::marker::Brand;
use std::mem;
use std::sync::Wait;
use std::sync::ledger::{Ledger, Share};

/// The ledger whose shares a group brings, the size of its groups, and the amount that each party brings.
pub trait Pooled: Ledger {
    ghost group: { ℕ };

    ghost each: { ℕ };
}

impl Pooled for Brand {
    ghost group = { 0 };

    ghost each = { 0 };
}

/// What the present group has brought so far: from each party one part of a ledger. It has no bytes.
///
/// If the ledger has as many parts as a group has parties, the leader of a group then has all of them, and nobody else
/// has any. So it can audit what the group counted.
#[derive(Drop)]
pub struct Pool<N: Pooled> {
    held: Share<N>,
}

impl<N: Pooled> Keeper for Pool<N> {
    type Own = Share<N>;

    type Seen = ();

    ghost agrees = { λ pool n count _. (n ≡ N.group) × HasShare pool.held count (count * N.each) };

    ghost agrees_once = { λ pool n count generation. Prim.hlevel props };

    ghost ready = { λ own _. HasShare own 1 N.each };

    ghost came = { λ _ _ leads own' _. TakesAll leads N.group N.each own' };

    ghost follows = { λ _ _. ⊤ };

    ghost left = { λ _ _. ⊤ };

    fn arrive(
        &mut self,
        _before: State,
        _after: State,
        leads: bool,
        own: &mut Share<N>,
        _seen: &mut (),
    ) {
        let Pool { held } = self;
        if leads {
            let none = held.empty();
            own.merge(mem::replace(held, none));
        } else {
            let none = own.empty();
            held.merge(mem::replace(own, none));
        }
    }

    fn look(&self, _state: State, _generation: usize, _seen: &()) {}
}

impl<R, N: Pooled> Barrier<R, Pool<N>> {
    /// Creates a barrier for groups of `n` threads, whose leader gets what all bring. Any share of the ledger will do to
    /// make it.
    pub fn pool(n: usize, of: &mut Share<N>) -> Self
        requires { N.group ≡ n }
        ensures { HasShare of.new (parts_of of.old) (amount_of of.old) }
    {
        Barrier {
            state: Mutex::new(Kept {
                state: State::new(n),
                keep: Pool { held: of.empty() },
            }),
        }
    }
}

impl<R: RelaxStrategy, N: Pooled> Barrier<R, Pool<N>> {
    /// Arrives at the barrier with one part of the ledger, and spins until the group is full. The leader gets what all of
    /// its group brought.
    ///
    /// # Contract
    /// The leader leaves with as many parts as its group has parties, and the amount of all. Each other thread leaves
    /// with none. Whether and when the call returns is not promised.
    pub fn wait<W: Wait>(&self, rt: &W, mine: &mut Share<N>) -> BarrierWaitResult
        requires { HasShare mine.old 1 N.each }
        ensures { TakesAll (leads_group result) N.group N.each mine.new }
    {
        self.wait_with(rt, mine, ()).0
    }
}
