//! Arrivals in groups: the last arrival of a group leads it, and then the other threads of the group may
//! leave. Begin with [`State`].
ghost use Rattle.std.specs.Prelude.{◌≡◌, ◌<◌, ◌≤◌, ◌+◌, ◌==◌, ℕ, true, false, not, max};
ghost use Rattle.spin_step.specs.Plain.{Plain, arrives, apply, fresh};
ghost use Rattle.spin_step.specs.Barriers.{IsBarrier, arrived, is_leading, filled_by, generation_at, may_leave_at};

/// The state of a barrier: the size of its groups, and how many threads have arrived.
///
/// # Examples
/// ```
/// use spin::step::barrier::{State, may_leave};
///
/// let mut state = State::new(2);
/// let generation = state.generation;
/// assert!(rt; !state.arrive());
/// assert!(rt; !may_leave(state, generation));
/// assert!(rt; state.arrive());
/// assert!(rt; may_leave(state, generation));
/// ```
#[derive(Clone, Copy, Debug, PartialEq, Eq)]
pub struct State {
    /// How many arrivals make a group; 0 counts as 1.
    pub n: usize,
    /// How many threads of the present group have arrived.
    pub count: usize,
    /// How many groups are full so far, modulo 2^64.
    pub generation: usize,
    pub ghost below: { count < max n 1 },
}

impl State {
    /// Creates the state of a barrier at which no thread has arrived.
    ///
    /// # Contract
    /// The state is that of a fresh plain barrier with groups of `n` (`IsBarrier`).
    pub const fn new(n: usize) -> State
        ensures n { result.n ≡ n }
        ensures plain { (cap first : ℕ) → IsBarrier (fresh cap n first) n result.count result.generation }
    {
        State {
            n,
            count: 0,
            generation: 0,
        }
    }

    /// Counts one more arrival. Returns `true` if this arrival leads its group, that is, fills it.
    ///
    /// # Contract
    /// The new state and the answer are those that `arrived` gives. If the old state is that of a plain
    /// barrier, the new state is that of the same barrier after one more arrival (`IsBarrier`). The plain
    /// barrier gives the same answer (`is_leading`).
    pub fn arrive(&mut self) -> bool
        ensures n { self.new.n ≡ self.old.n }
        ensures exact { ((self.new.count, self.new.generation), result) ≡ arrived self.old.n self.old.count self.old.generation }
        ensures plain { (s : Plain) (party : ℕ) → IsBarrier s self.old.n self.old.count self.old.generation → IsBarrier (apply s (arrives party)) self.new.n self.new.count self.new.generation }
        ensures leads { (s : Plain) → IsBarrier s self.old.n self.old.count self.old.generation → result ≡ is_leading s (s.arrivals + 1) }
    {
        let (after, leads) = arrive(*self);
        *self = after;
        leads
    }
}

/// Returns the state after one more arrival. Also returns `true` if this arrival leads its group, that is,
/// fills it.
///
/// # Contract
/// Like that of [`State::arrive`].
pub fn arrive(state: State) -> (State, bool)
    ensures n { result.0.n ≡ state.n }
    ensures exact { ((result.0.count, result.0.generation), result.1) ≡ arrived state.n state.count state.generation }
    ensures plain { (s : Plain) (party : ℕ) → IsBarrier s state.n state.count state.generation → IsBarrier (apply s (arrives party)) result.0.n result.0.count result.0.generation }
    ensures leads { (s : Plain) → IsBarrier s state.n state.count state.generation → result.1 ≡ is_leading s (s.arrivals + 1) }
{
    let State {
        n,
        count,
        generation,
    } = state;
    if count + 1 < n {
        let after = State {
            n,
            count: count + 1,
            generation,
        };
        (after, false)
    } else {
        let after = State {
            n,
            count: 0,
            generation: generation.wrapping_add(1),
        };
        (after, true)
    }
}

/// Returns `true` if a thread that arrived in `generation` may leave. Callers ask this of threads that do not
/// lead their group.
///
/// A thread may leave when its group is full. But the generation wraps. If the number of groups that filled up
/// since the thread arrived is a multiple of 2^64, one more group has to fill up first.
///
/// # Contract
/// The plain barrier gives the same answer. If a thread that does not lead gets `true`, its group is full.
#[tactic(auto, using(crate::proofs::Barriers::leaving))]
pub fn may_leave(state: State, generation: usize) -> bool
    ensures exact { result ≡ not (state.generation == generation) }
    ensures plain { (s : Plain) (k : ℕ) → IsBarrier s state.n state.count state.generation → k ≤ s.arrivals → generation_at s k ≡ generation → result ≡ may_leave_at s k }
    ensures full { (s : Plain) (k : ℕ) → IsBarrier s state.n state.count state.generation → k ≤ s.arrivals → generation_at s k ≡ generation → is_leading s k ≡ false → result ≡ true → filled_by s k ≤ s.arrivals }
{
    state.generation != generation
}
