//! The fair lock, played by its table. Begin with [`Fair::new`] and [`FairCall`].
//!
//! A starver is a party that has registered in order to go first. All other parties are newcomers.
ghost use Rattle.std.specs.Prelude.{◌≡◌, ◌≢◌, ◌<◌, ◌+◌, true};
ghost use Rattle.spin_step.specs.Acts.{one_number, step_by, can_by};
ghost use Rattle.spin_step_more.specs.FairCalls.{act_of, fair_machine};
ghost use Rattle.spin_world.specs.Fair.{IsFairMachine};

mod laws;

pub use laws::{
    a_starver_goes_for_a_clear_flag, a_starver_with_the_flag_is_granted_next,
    a_word_is_zero_when_nobody_holds_or_starves, starvers_come_first,
};
use spin_step::Steps;
use spin_step_more::{FairCall, FairPoint, FairTable, fair};
use spin_world_core::stepping::{refused, stepped};
use spin_world_core::{Answer, Hold, Next, Object, Stepped};

/// The lock of a flag and a number of starvers, which go first.
///
/// # Examples
/// ```
/// use spin_world::{Answer, Fair, FairCall, Move, Outcome, World};
///
/// let made = World::new(rt.alloc(), Fair::new(5, 4, 1024), 2);
/// let mut world = made.expect(&rt, "there is memory");
/// let schedule = [
///     (0, Move::Begin(FairCall::Starve)),
///     (0, Move::Step),
///     (0, Move::Step),
///     (1, Move::Begin(FairCall::TryLockStarver)),
///     (1, Move::Step),
/// ];
/// let transcript = world.run(&schedule).expect(&rt, "there is memory");
/// let last = transcript.events.last().expect(&rt, "it has five");
/// assert!(rt; matches!(
///     last.outcome,
///     Outcome::Answered {
///         answer: Answer::Starved,
///         began: Some(3)
///     }
/// ));
/// ```
#[derive(Clone, Copy, PartialEq, Eq)]
pub struct Fair<V> {
    value: V,
    cap: usize,
    patience: usize,
}

impl<V: Copy> Fair<V> {
    /// Creates a lock that no party holds, with this value.
    ///
    /// At most `cap` starvers may be registered at a time, and never more than [`MAX_STARVERS`](fair::MAX_STARVERS). A
    /// `Lock` tries to register when more than `spins` + 1 of its looks have found the flag set.
    ///
    /// # Contract
    /// `cap` must not be 0, and `spins` must be below `usize::MAX`. The object has this value, this cap, and a patience
    /// of `spins` + 1. Its machine is that of such a fair lock (`IsFairMachine`): no party holds it or starves at first,
    /// and each call asks what [`FairCall`] says.
    pub fn new(value: V, cap: usize, spins: usize) -> Fair<V>
        requires somebody { cap ≢ 0 }
        requires counted { spins < 18446744073709551615 }
        ensures fields { result ≡ record { value = value; cap = cap; patience = spins + 1 } }
        ensures named { IsFairMachine value cap (spins + 1) (⟦<Fair<V> as Object>⟧.machine result) }
    {
        Fair {
            value,
            cap,
            patience: spins + 1,
        }
    }
}

impl<V: Copy> Fair<V> {
    fn table(&self) -> FairTable
        ensures { result ≡ record { cap = self.now.cap; patience = self.now.patience } }
    {
        FairTable {
            cap: self.cap,
            patience: self.patience,
        }
    }
}

impl<V: Copy> Object for Fair<V> {
    type Words = usize;

    type Value = V;

    type Call = FairCall;

    type Local = FairPoint;

    type Answer = Answer<V>;

    ghost machine = { λ f. fair_machine f.value f.cap f.patience };

    fn opening_words(&self) -> usize {
        0
    }

    fn opening_value(&self) -> Option<V> {
        Some(self.value)
    }

    fn is_owned(&self) -> bool {
        true
    }

    fn begin(&self, call: FairCall, holds: Option<Hold>) -> Option<FairPoint> {
        <FairTable as Steps<V, FairCall, FairPoint>>::start(&self.table(), call, holds)
    }

    fn step(
        &self,
        words: usize,
        value: Option<V>,
        call: FairCall,
        local: FairPoint,
        holds: Option<Hold>,
    ) -> Stepped<usize, V, FairPoint, Answer<V>>
        requires { can_by one_number 0 (act_of {V = V} self.now.cap self.now.patience call local holds) words ≡ true }
        ensures { result ≡ step_by one_number 0 (act_of self.now.cap self.now.patience call local holds) words }
    {
        let _ = value;
        stepped(&self.table(), words, call, local, holds)
    }

    fn refuse(
        &self,
        call: FairCall,
        local: FairPoint,
        holds: Option<Hold>,
    ) -> Option<Next<FairPoint, Answer<V>>> {
        refused(&self.table(), call, local, holds)
    }

    fn laws() {}
}
