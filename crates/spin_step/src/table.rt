//! The table of a lock as code: before a step its operation, after it how the call goes on. Begin with [`Steps`].
ghost use Rattle.std.specs.Prelude.{◌≡◌, Option, is_some};
ghost use Rattle.spin_step.specs.Acts.{Table, begin_of, filled, next_of, operation_by, refusal_by};
ghost use Rattle.spin_step.specs.Operations.{wrapped};
ghost use Rattle.spin_step.specs.Words.{WorksOn};
ghost use Rattle.spin_step.specs.declared.answer.Answer.{Answer as AnAnswer};

use crate::answer::Answer;
use crate::place::Hold;
use crate::stepped::Next;
use crate::words::Words;

/// One atomic operation on a word.
#[derive(Clone, Copy)]
pub enum Operation {
    Load,
    /// Replaces the first number by the second, if it finds the first.
    Exchange(u64, u64),
    Add(u64),
    Subtract(u64),
    SetLowestBit,
    Store(u64),
}

/// The steps of a lock's calls. Threads and the world run the same value of this type.
///
/// # Contract
/// The value is the lock's table in the logic (`table`), for each value of `T` with which the lock may open.
pub trait Steps<T, C, L> {
    /// The words of the model.
    type Words: Words;

    ghost table: { Self → T → Table Self.Words T C L (AnAnswer T) };

    // The value that an answer `Value` gives. A lock has no such answer.
    ghost given: { Option T };

    /// Returns the point at which the call begins, or `None` if a party that holds `holds` may not begin it.
    fn start(&self, call: C, holds: Option<Hold>) -> Option<L>
        ensures { (value : T) → result ≡ begin_of (table self.now value) call holds };

    /// Returns the place of the word on which the step at this point works.
    fn place(&self, point: L) -> usize
        ensures { (value : T) → result ≡ (table self.now value).word point };

    /// Returns the operation of the call's next step.
    ///
    /// # Contract
    /// It is that of the table, but a number that the table stores is taken modulo 2^64 (`wrapped`). Where the step is
    /// possible, the number stays in its word (`WorksOn`).
    fn operation(&self, call: C, point: L, holds: Option<Hold>) -> Operation
        ensures operation { (value : T) → result ≡ wrapped (operation_by ((table self.now value).act call point holds)) }
        ensures works { (value : T) → WorksOn Self.Words.memory Self.Words.places Self.Words.limit (table self.now value) call point holds };

    /// Returns whether the call's next step is an exchange that may fail spuriously in the world.
    fn is_weak(&self, call: C, point: L, holds: Option<Hold>) -> bool
        ensures { (value : T) → result ≡ is_some (refusal_by ((table self.now value).act call point holds)) };

    /// Returns how the call goes on, if its step found the number `found`.
    fn next(&self, call: C, point: L, holds: Option<Hold>, found: u64) -> Next<L, Answer<()>>
        ensures { (value : T) → filled given result ≡ next_of (table self.now value) call point holds found };
}
