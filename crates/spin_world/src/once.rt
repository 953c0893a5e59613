//! The `Once`, played by its table. Begin with [`OnceObject::new`] and [`OnceCall`].
ghost use Rattle.std.specs.Prelude.{◌≡◌, Some, None, true};
ghost use Rattle.spin_step.specs.Acts.{one_number, step_by, can_by, completes_by, step_with};
ghost use Rattle.spin_step.specs.OnceCalls.{brings_of, act_of, once_machine};
ghost use Rattle.spin_world.specs.Once.{IsOnceMachine};

mod laws;

pub use laws::{
    a_closure_begins_after_a_look, a_later_closure_may_run, a_later_get_agrees,
    a_value_is_answered_at_once, a_value_is_looked_at_where_it_is_complete, a_value_stays,
    one_closure_runs_at_a_time,
};
use spin_step::{OnceCall, OncePoint, OnceTable, Steps};
use spin_world_core::stepping::stepped_with;
use spin_world_core::{Answer, Hold, Next, Object, Stepped};

/// The cell that is filled once, by the first closure that gives a value.
///
/// Its word is 1 while a closure runs, and 2 once the cell has a value. Otherwise it is 0.
///
/// # Examples
/// ```
/// use spin_world::{Move, OnceCall, OnceObject, World};
///
/// let made = World::new(rt.alloc(), OnceObject::new(), 2);
/// let mut world = made.expect(&rt, "there is memory");
/// world.act(0, Move::Begin(OnceCall::CallOnce(7)));
/// world.act(0, Move::Step);
/// world.act(0, Move::Step);
/// assert_eq!(rt; world.value(), None);
/// world.act(0, Move::Step);
/// assert_eq!(rt; world.value(), Some(7));
/// ```
#[derive(Clone, Copy, PartialEq, Eq)]
pub struct OnceObject<V> {
    value: Option<V>,
}

impl<V: Copy> OnceObject<V> {
    /// Creates a cell without a value.
    ///
    /// # Contract
    /// The object has no value. Its machine is that of a `Once` without an opening value (`IsOnceMachine`): its word is 0,
    /// and [`OnceCall`] says what each call asks for.
    pub fn new() -> OnceObject<V>
        ensures fields { result ≡ record { value = None } }
        ensures named { IsOnceMachine None (⟦<OnceObject<V> as Object>⟧.machine result) }
    {
        OnceObject { value: None }
    }

    /// Creates a cell that has this value from the start.
    ///
    /// # Contract
    /// The object has this value. Its machine is that of a `Once` with this opening value (`IsOnceMachine`): its word is 2,
    /// and [`OnceCall`] says what each call asks for.
    pub fn initialized(value: V) -> OnceObject<V>
        ensures fields { result ≡ record { value = Some value } }
        ensures named { IsOnceMachine (Some value) (⟦<OnceObject<V> as Object>⟧.machine result) }
    {
        OnceObject { value: Some(value) }
    }
}

// Returns the value that the closure of the call gives, or `None` if the call has none or its closure fails.
fn brings<V: Copy>(call: OnceCall<V>) -> Option<V>
    ensures { result ≡ brings_of call }
{
    match call {
        OnceCall::CallOnce(made) | OnceCall::TryCallOnceOk(made) | OnceCall::InitFromRef(made) => {
            Some(made)
        }
        _ => None,
    }
}

impl<V: Copy> Object for OnceObject<V> {
    type Words = u8;

    type Value = V;

    type Call = OnceCall<V>;

    type Local = OncePoint;

    type Answer = Answer<V>;

    ghost machine = { λ o. once_machine o.value };

    fn opening_words(&self) -> u8 {
        match self.value {
            None => 0,
            Some(_) => 2,
        }
    }

    fn opening_value(&self) -> Option<V> {
        self.value
    }

    fn is_owned(&self) -> bool {
        true
    }

    fn begin(&self, call: OnceCall<V>, holds: Option<Hold>) -> Option<OncePoint> {
        <OnceTable as Steps<(), OnceCall<V>, OncePoint>>::start(&OnceTable, call, holds)
    }

    fn step(
        &self,
        words: u8,
        value: Option<V>,
        call: OnceCall<V>,
        local: OncePoint,
        holds: Option<Hold>,
    ) -> Stepped<u8, V, OncePoint, Answer<V>>
        requires { can_by one_number 0 (act_of call local holds) words ≡ true }
        ensures { result ≡ step_with value (brings_of call) (completes_by (act_of call local holds)) (step_by one_number 0 (act_of call local holds) words) }
    {
        let made = brings(call);
        let completes = made.is_some() && matches!(local, OncePoint::Run);
        stepped_with(
            &OnceTable, words, value, made, completes, call, local, holds,
        )
    }

    fn refuse(
        &self,
        call: OnceCall<V>,
        local: OncePoint,
        holds: Option<Hold>,
    ) -> Option<Next<OncePoint, Answer<V>>> {
        let _ = (call, local, holds);
        None
    }

    fn laws() {}
}
