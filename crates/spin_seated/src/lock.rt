//! A lock on a table of two words, whose calls form one history. Begin with [`SeatedLock`]. For each lock a
//! machine says which calls a pass may make and what they answer ([`Calls`]).
ghost use Rattle.std.specs.Prelude.{◌≡◌, ℕ};
ghost use Rattle.spin_seated.specs.Histories.{PlainObject};
ghost use Rattle.spin_seated.specs.Locked.{Locked, IsLockObject};

use crate::history::View;
use atomic_table::{Table, TableRule};
use std::alloc::{Allocator, Global};
use std::marker::PhantomData;

mod closing;
mod making;
mod pass;
mod steps;

pub use self::pass::{Pass, Place};
pub(crate) use self::steps::Tells;

/// The arguments of `new`: the first value, and the number of passes.
#[derive(Clone, Copy)]
pub struct Opening {
    pub value: u64,
    pub passes: usize,
}

/// The answer of a call.
#[derive(Clone, Copy)]
pub enum Answer {
    Truth(bool),
    Value(u64),
    Done,
}

/// The calls of a lock. The type of its calls says which lock it is.
pub trait Calls {
    /// What a pass may hold.
    type PassHold: Copy;

    ghost use Rattle.spin_seated.specs.declared.lock.Opening.{Opening};
    ghost use Rattle.spin_seated.specs.declared.lock.Answer.{Answer};

    // The plain lock: which calls a pass may make, what they answer, and what the pass holds afterwards.
    ghost machine: { PlainObject Opening Locked Self Answer Self.PassHold };

    /// Returns what a pass holds before its first call.
    ///
    /// # Contract
    /// The result is what each pass holds in the machine's first state.
    fn holds_at_first() -> Self::PassHold
        ensures { (k : Opening) (p : ℕ) → machine.holds p (machine.start k) ≡ result };

    /// Does nothing. A caller calls it to learn its contract.
    ///
    /// # Contract
    /// The machine is that of a lock (`IsLockObject`).
    fn laws()
        ensures { IsLockObject machine };
}

/// The rule of the table: there is one legal history, and the words are those of the plain lock after it. No
/// program makes a value of this type.
pub struct Law<C> {
    calls: PhantomData<C>,
}

impl<C: Calls> TableRule<u64, View<Opening, C, Answer>, Opening> for Law<C> {
    ghost use Rattle.spin_seated.specs.Histories.{OneHistory, all_passes};

    ghost holds = { OneHistory C.machine };

    ghost first = { all_passes C.machine };
}

/// A lock that protects one number. All its calls form one history. The first of its two words is the lock's
/// state, and the second is the value.
#[derive(Drop)]
pub struct SeatedLock<C: Calls, A: Allocator = Global> {
    table: Table<u64, View<Opening, C, Answer>, Opening, Law<C>, A>,
    ghost two_words: { table.shared.table_id.words ≡ 2 },
    ghost no_slots: { table.shared.table_id.slots ≡ 0 },
}
