//! The lock of one flag, played by its table. Begin with [`Flag::new`] and [`FlagCall`].
ghost use Rattle.std.specs.Prelude.{◌≡◌, true};
ghost use Rattle.spin_step.specs.Acts.{step_by, can_by};
ghost use Rattle.spin_step.specs.FlagCalls.{flag_memory, act_of, flag_machine};
ghost use Rattle.spin_world.specs.Flag.{IsFlagMachine};

mod laws;

pub use laws::a_flag_is_clear_when_nobody_holds;
use spin_step::{FlagCall, FlagPoint, FlagTable, Steps};
use spin_world_core::stepping::{refused, stepped};
use spin_world_core::{Answer, Hold, Next, Object, Stepped};

/// The lock of one flag. The flag is set while a party holds the lock.
#[derive(Clone, Copy, PartialEq, Eq)]
pub struct Flag<V> {
    value: V,
}

impl<V: Copy> Flag<V> {
    /// Creates a lock that no party holds, with this value.
    ///
    /// # Contract
    /// The object has this value. Its machine is that of a flag (`IsFlagMachine`): it opens clear with the value, and each
    /// call asks what [`FlagCall`] says.
    pub fn new(value: V) -> Flag<V>
        ensures fields { result ≡ record { value = value } }
        ensures named { IsFlagMachine value (⟦<Flag<V> as Object>⟧.machine result) }
    {
        Flag { value }
    }
}

impl<V: Copy> Object for Flag<V> {
    type Words = bool;

    type Value = V;

    type Call = FlagCall;

    type Local = FlagPoint;

    type Answer = Answer<V>;

    ghost machine = { λ f. flag_machine f.value };

    fn opening_words(&self) -> bool {
        false
    }

    fn opening_value(&self) -> Option<V> {
        Some(self.value)
    }

    fn is_owned(&self) -> bool {
        true
    }

    fn begin(&self, call: FlagCall, holds: Option<Hold>) -> Option<FlagPoint> {
        <FlagTable as Steps<V, FlagCall, FlagPoint>>::start(&FlagTable, call, holds)
    }

    fn step(
        &self,
        words: bool,
        value: Option<V>,
        call: FlagCall,
        local: FlagPoint,
        holds: Option<Hold>,
    ) -> Stepped<bool, V, FlagPoint, Answer<V>>
        requires { can_by flag_memory 0 (act_of {V = V} call local holds) words ≡ true }
        ensures { result ≡ step_by flag_memory 0 (act_of call local holds) words }
    {
        let _ = value;
        stepped(&FlagTable, words, call, local, holds)
    }

    fn refuse(
        &self,
        call: FlagCall,
        local: FlagPoint,
        holds: Option<Hold>,
    ) -> Option<Next<FlagPoint, Answer<V>>> {
        refused(&FlagTable, call, local, holds)
    }

    fn laws() {}
}
