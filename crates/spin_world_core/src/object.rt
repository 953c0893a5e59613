//! What a lock has to show to be played in a world. Begin with [`Object`].
ghost use Rattle.std.specs.Prelude.{◌≡◌, true};
ghost use Rattle.spin_step.specs.Machines.{Machine};
ghost use Rattle.spin_world_core.specs.Lawful.{Lawful};

use spin_step::{Hold, Next, Stepped};

/// A lock in the world, as its words and the steps of its calls.
///
/// # Contract
/// Each method agrees with the object's `machine`. The machine also says what each step does to the plain lock. Callers
/// of [`World::run`](crate::World::run) get four of the `laws`: `keeps`, `moments`, `counts` and `values`. These laws
/// hold of every schedule from the opening state. [`looks_under_one_guard_agree`](crate::looks_under_one_guard_agree)
/// gives the law `agree`.
pub trait Object: Drop {
    /// The words that all parties share.
    type Words: Copy;

    /// The type of the lock's value.
    type Value: Copy;

    /// A call, with its arguments.
    type Call: Copy;

    /// A point of a call: which step is next, and what the call has found so far.
    type Local: Copy;

    /// The answer of a call; [`Answer`](crate::Answer) for each object of this project.
    type Answer: Copy;

    ghost machine: { Self → Machine Self.Words Self.Value Self.Call Self.Local Self.Answer };

    /// Returns the words from which every schedule starts.
    ///
    /// # Contract
    /// They are the `words` of the machine.
    fn opening_words(&self) -> Self::Words
        ensures { result ≡ (machine self.now).words };

    /// Returns the value from which every schedule starts, or `None` if there is none at first.
    ///
    /// # Contract
    /// It is the `value` of the machine.
    fn opening_value(&self) -> Option<Self::Value>
        ensures { result ≡ (machine self.now).value };

    /// Returns `true` if an owner may read the value and replace it.
    ///
    /// # Contract
    /// It is `owned` of the machine.
    fn is_owned(&self) -> bool
        ensures { result ≡ (machine self.now).owned };

    /// Returns the first point of the call, or `None` if a party that holds `holds` may not begin it.
    ///
    /// # Contract
    /// It is `begin` of the machine.
    fn begin(&self, call: Self::Call, holds: Option<Hold>) -> Option<Self::Local>
        ensures { result ≡ (machine self.now).begin call holds };

    /// Returns the outcome of the call's next step, for these words and this value. It depends only on the object and
    /// the arguments. [`stepped`](crate::stepping::stepped) gives it for a lock whose table is written as code.
    ///
    /// # Contract
    /// The step has to be possible (`can` of the machine). The outcome is that of `step` of the machine.
    fn step(
        &self,
        words: Self::Words,
        value: Option<Self::Value>,
        call: Self::Call,
        local: Self::Local,
        holds: Option<Hold>,
    ) -> Stepped<Self::Words, Self::Value, Self::Local, Self::Answer>
        requires { (machine self.now).can words call local holds ≡ true }
        ensures { result ≡ (machine self.now).step words value call local holds };

    /// Returns how the call goes on after its next step failed spuriously, or `None` if that step cannot.
    ///
    /// # Contract
    /// It is `refuse` of the machine.
    fn refuse(
        &self,
        call: Self::Call,
        local: Self::Local,
        holds: Option<Hold>,
    ) -> Option<Next<Self::Local, Self::Answer>>
        ensures { result ≡ (machine self.now).refuse call local holds };

    /// States that all laws hold of every object of the type, over every schedule (`Lawful`).
    fn laws()
        ensures { (object : Self) → Lawful (machine object) };
}
