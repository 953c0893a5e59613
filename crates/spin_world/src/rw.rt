//! The read-write lock, played by its table. Begin with [`Rw::new`] and [`RwCall`].
ghost use Rattle.std.specs.Prelude.{◌≡◌, ◌≤◌, true};
ghost use Rattle.spin_step.specs.Acts.{one_number, step_by, can_by};
ghost use Rattle.spin_step_more.specs.RwCalls.{act_of, rw_machine};
ghost use Rattle.spin_world.specs.Rw.{IsRwMachine};

mod laws;

pub use laws::{
    a_downgrade_keeps_writers_out, a_word_is_zero_when_nobody_holds, an_upgrade_opens_by_releases,
    looks_agree_across_conversions, readers_stand_beside_no_writer,
};
use spin_step::Steps;
use spin_step_more::rw;
use spin_step_more::rw_calls::{RwCall, RwPoint, RwTable};
use spin_world_core::stepping::{refused, stepped};
use spin_world_core::{Answer, Hold, Next, Object, Stepped};

/// The lock of readers, one upgradable reader and one writer, in one word.
///
/// # Examples
/// ```
/// use spin_world::{Hold, Move, Place, Rw, RwCall, World};
///
/// let made = World::new(rt.alloc(), Rw::new(5, 64), 2);
/// let mut world = made.expect(&rt, "there is memory");
/// for party in [0, 1] {
///     world.act(party, Move::Begin(RwCall::Read));
///     world.act(party, Move::Step);
///     world.act(party, Move::Step);
/// }
/// assert!(rt; matches!(world.place(0), Some(Place::Holding(Hold::Read))));
/// assert_eq!(rt; world.words(), 16);
/// ```
#[derive(Clone, Copy, PartialEq, Eq)]
pub struct Rw<V> {
    value: V,
    cap: usize,
}

impl<V: Copy> Rw<V> {
    /// Creates a lock that no party holds, with this value.
    ///
    /// At most `cap` parties may read at a time, including the upgradable reader, and never more than
    /// [`MAX_READERS`](rw::MAX_READERS).
    ///
    /// # Contract
    /// `cap` must be at least 1. The object has this value and this cap. Its machine is that of such a read-write lock
    /// (`IsRwMachine`): it opens free, and each call asks what [`RwCall`] says.
    pub fn new(value: V, cap: usize) -> Rw<V>
        requires some { 1 ≤ cap }
        ensures fields { result ≡ record { value = value; cap = cap } }
        ensures named { IsRwMachine value cap (⟦<Rw<V> as Object>⟧.machine result) }
    {
        Rw { value, cap }
    }
}

impl<V: Copy> Object for Rw<V> {
    type Words = usize;

    type Value = V;

    type Call = RwCall;

    type Local = RwPoint;

    type Answer = Answer<V>;

    ghost machine = { λ r. rw_machine r.value r.cap };

    fn opening_words(&self) -> usize {
        0
    }

    fn opening_value(&self) -> Option<V> {
        Some(self.value)
    }

    fn is_owned(&self) -> bool {
        true
    }

    fn begin(&self, call: RwCall, holds: Option<Hold>) -> Option<RwPoint> {
        <RwTable as Steps<V, RwCall, RwPoint>>::start(&RwTable { cap: self.cap }, call, holds)
    }

    fn step(
        &self,
        words: usize,
        value: Option<V>,
        call: RwCall,
        local: RwPoint,
        holds: Option<Hold>,
    ) -> Stepped<usize, V, RwPoint, Answer<V>>
        requires { can_by one_number 0 (act_of {V = V} self.now.cap call local holds) words ≡ true }
        ensures { result ≡ step_by one_number 0 (act_of self.now.cap call local holds) words }
    {
        let _ = value;
        stepped(&RwTable { cap: self.cap }, words, call, local, holds)
    }

    fn refuse(
        &self,
        call: RwCall,
        local: RwPoint,
        holds: Option<Hold>,
    ) -> Option<Next<RwPoint, Answer<V>>> {
        refused(&RwTable { cap: self.cap }, call, local, holds)
    }

    fn laws() {}
}
