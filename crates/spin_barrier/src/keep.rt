//! What a barrier keeps of its arrivals, as ghost state. Begin with [`Keeper`].
ghost use Rattle.std.specs.Prelude.{◌≡◌, ℕ, ⊤, Bool, true, false, not, ◌==◌, IfOk};
ghost use mathlib.Core.HLevel.{Unit-prop};
ghost use Rattle.spin_barrier.specs.Keeping.{IsArrival};

use spin_step_more::barrier::{self, State};

/// What a [`Barrier`](crate::barrier::Barrier) keeps of its arrivals. It lies beside the barrier's state, under the
/// same lock.
///
/// Its two functions are called under that lock, once for each arrival and once for each follower that leaves. What is
/// kept is ghost state: write functions that do nothing at run time. `()` keeps nothing. A
/// [`Roll`](crate::roll::Roll) keeps every arrival.
pub trait Keeper {
    /// What belongs to one party alone, such as a count of its own arrivals.
    type Own;

    /// What a party knows. Others may know the same.
    type Seen: Drop;

    ghost agrees: { Self → ℕ → ℕ → ℕ → Type 0 };

    ghost agrees_once: { (keep : Self) (n count generation : ℕ) → IsProp (agrees keep n count generation) };

    ghost ready: { Self.Own → Self.Seen → Type 0 };

    ghost came: { Self.Own → Self.Seen → Bool → Self.Own → Self.Seen → Type 0 };

    ghost follows: { Self.Seen → ℕ → Type 0 };

    ghost left: { Self.Seen → Self.Seen → Type 0 };

    /// Notes one arrival, which changed the state from `before` to `after`.
    ///
    /// # Contract
    /// What is kept agrees with the state (`agrees`). The party has to be `ready`. What it has and knows afterwards is
    /// what `came` says. If it does not lead, it follows in the generation of the new state (`follows`).
    fn arrive(
        &mut self,
        before: State,
        after: State,
        leads: bool,
        own: &mut Self::Own,
        seen: &mut Self::Seen,
    )
        requires agrees { agrees self.old before.n before.count before.generation }
        requires arrival { IsArrival before leads after }
        requires ready { ready own.old seen.old }
        ensures agrees { agrees self.new after.n after.count after.generation }
        ensures came { came own.old seen.old leads own.new seen.new }
        ensures follows { leads ≡ false → follows seen.new after.generation };

    /// Tells a follower of this generation what is kept, when it finds that it may leave.
    ///
    /// # Contract
    /// The party has to follow in the generation, and the state has to be in another one. What it knows afterwards is
    /// what `left` says.
    fn look(&self, state: State, generation: usize, seen: &Self::Seen) -> Self::Seen
        requires agrees { agrees self.now state.n state.count state.generation }
        requires follows { follows seen.now generation }
        requires full { not (state.generation == generation) ≡ true }
        ensures left { left seen.now result };
}

/// Keeps nothing.
impl Keeper for () {
    type Own = ();

    type Seen = ();

    ghost agrees = { λ _ _ _ _. ⊤ };

    ghost agrees_once = { λ _ _ _ _. Unit-prop };

    ghost ready = { λ _ _. ⊤ };

    ghost came = { λ _ _ _ _ _. ⊤ };

    ghost follows = { λ _ _. ⊤ };

    ghost left = { λ _ _. ⊤ };

    fn arrive(
        &mut self,
        _before: State,
        _after: State,
        _leads: bool,
        _own: &mut (),
        _seen: &mut (),
    ) {}

    fn look(&self, _state: State, _generation: usize, _seen: &()) {}
}

/// The state of a barrier, and what is kept of its arrivals.
#[derive(Drop)]
pub(crate) struct Kept<K: Keeper> {
    pub(crate) state: State,
    pub(crate) keep: K,
    ghost agrees: { K.agrees keep state.n state.count state.generation } by { K.agrees_once keep state.n state.count state.generation },
}

impl<K: Keeper> Kept<K> {
    // One arrival of a party. Returns whether it leads its group.
    pub(crate) fn arrive(&mut self, own: &mut K::Own, seen: &mut K::Seen) -> bool
        requires { K.ready own.old seen.old }
        ensures came { K.came own.old seen.old result own.new seen.new }
        ensures follows { result ≡ false → K.follows seen.new self.new.state.generation }
    {
        let Kept { state, keep } = self;
        let before = *state;
        let leads = state.arrive();
        keep.arrive(before, *state, leads, own, seen);
        leads
    }

    // What a follower of this generation knows when it may leave.
    pub(crate) fn look(&self, generation: usize, seen: &K::Seen) -> Result<K::Seen, ()>
        requires { K.follows seen.now generation }
        ensures { IfOk result (λ found. K.left seen.now found) }
    {
        if barrier::may_leave(self.state, generation) {
            Ok(self.keep.look(self.state, generation, seen))
        } else {
            Err(())
        }
    }
}
