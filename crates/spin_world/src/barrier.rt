//! The barrier, as a table of the steps of its call. Begin with [`BarrierObject::new`] and [`BarrierCall`].
ghost use Rattle.std.specs.Prelude.{◌≡◌, true};
ghost use Rattle.spin_step.specs.Acts.{step_by, can_by};
ghost use Rattle.spin_world.specs.BarrierTable.{barrier_memory, barrier_word, act_of, barrier_machine};
ghost use Rattle.spin_world.specs.Barrier.{IsBarrierMachine};

mod laws;

pub use laws::{a_follower_leaves_a_full_group, every_last_of_a_group_leads};
use spin_step_more::barrier;
use spin_step_more::barrier::State;
use spin_world_core::{Answer, Hold, Next, Object, Stepped};

/// The two words of a [`BarrierObject`].
#[derive(Clone, Copy, Debug, PartialEq, Eq)]
pub struct BarrierWords {
    /// How many parties of the present group have arrived.
    pub count: usize,
    /// How many groups are full so far, modulo 2^64.
    pub generation: usize,
}

/// A call of a [`BarrierObject`]. `IsBarrierMachine` says what this call asks.
#[derive(Clone, Copy, Debug, PartialEq, Eq)]
pub enum BarrierCall {
    /// Arrives, and waits until the group of this arrival is full. The last arrival of a group leads, and does not
    /// wait.
    Wait,
}

/// The point of a call: which step is next.
#[derive(Clone, Copy, Debug, PartialEq, Eq)]
pub enum BarrierPoint {
    /// The call arrives.
    Arrive,
    /// The call looks whether its group is full. The generation was this one when the party arrived.
    Leave { generation: usize },
}

/// The barrier: parties arrive in groups, and leave when their group is full.
///
/// It has no value and no owner. A schedule's writes have the type `u64` here, but none of them is open.
///
/// # Examples
/// ```
/// use spin_world::{BarrierCall, BarrierObject, Hold, Move, Place, World};
///
/// let made = World::new(rt.alloc(), BarrierObject::new(2), 2);
/// let mut world = made.expect(&rt, "there is memory");
/// for party in [0, 1] {
///     world.act(party, Move::Begin(BarrierCall::Wait));
///     world.act(party, Move::Step);
/// }
/// assert!(rt; matches!(world.place(0), Some(Place::InCall)));
/// assert!(rt; matches!(world.place(1), Some(Place::Idle)));
/// ```
#[derive(Clone, Copy, PartialEq, Eq)]
pub struct BarrierObject {
    n: usize,
}

impl BarrierObject {
    /// Creates a barrier for groups of `n` parties, at which no party has arrived. 0 counts as 1.
    ///
    /// # Contract
    /// The object has this `n`. Its machine is that of a barrier with groups of `n` (`IsBarrierMachine`): no group is full
    /// yet, and [`BarrierCall`] says what its call asks.
    pub fn new(n: usize) -> BarrierObject
        ensures fields { result ≡ record { n = n } }
        ensures named { IsBarrierMachine n (⟦<BarrierObject as Object>⟧.machine result) }
    {
        BarrierObject { n }
    }
}

impl Object for BarrierObject {
    type Words = BarrierWords;

    type Value = u64;

    type Call = BarrierCall;

    type Local = BarrierPoint;

    type Answer = Answer<u64>;

    ghost machine = { λ b. barrier_machine b.n };

    fn opening_words(&self) -> BarrierWords {
        BarrierWords {
            count: 0,
            generation: 0,
        }
    }

    fn opening_value(&self) -> Option<u64> {
        None
    }

    fn is_owned(&self) -> bool {
        false
    }

    fn begin(&self, call: BarrierCall, holds: Option<Hold>) -> Option<BarrierPoint> {
        let _ = call;
        match holds {
            None => Some(BarrierPoint::Arrive),
            Some(_) => None,
        }
    }

    fn step(
        &self,
        words: BarrierWords,
        value: Option<u64>,
        call: BarrierCall,
        local: BarrierPoint,
        holds: Option<Hold>,
    ) -> Stepped<BarrierWords, u64, BarrierPoint, Answer<u64>>
        requires { can_by barrier_memory (barrier_word local) (act_of self.now.n local holds) words ≡ true }
        ensures { result ≡ step_by barrier_memory (barrier_word local) (act_of self.now.n local holds) words }
    {
        let _ = (value, call);
        let BarrierWords { count, generation } = words;
        let (words, next) = match local {
            BarrierPoint::Arrive => {
                let state = State {
                    n: self.n,
                    count,
                    generation,
                };
                let (after, leads) = barrier::arrive(state);
                let next = if leads {
                    Next::Answers(Answer::Leader, holds)
                } else {
                    Next::Continue(BarrierPoint::Leave { generation })
                };
                let State {
                    count,
                    generation,
                    ..
                } = after;
                (BarrierWords { count, generation }, next)
            }
            BarrierPoint::Leave { generation: found } if generation != found => {
                (words, Next::Answers(Answer::Follower, holds))
            }
            BarrierPoint::Leave { .. } => (words, Next::Continue(local)),
        };
        Stepped {
            words,
            placed: None,
            next,
        }
    }

    fn refuse(
        &self,
        call: BarrierCall,
        local: BarrierPoint,
        holds: Option<Hold>,
    ) -> Option<Next<BarrierPoint, Answer<u64>>> {
        let _ = (call, local, holds);
        None
    }

    fn laws() {}
}
