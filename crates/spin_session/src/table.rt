//! The rule of a cell that runs a lock's table. Begin with [`Runs`].
ghost use Rattle.std.specs.Prelude.{◌≡◌, ⊤, ℕ, None};
ghost use Rattle.spin_step.specs.Acts.{Table as ItsTable, begin_of, filled, next_of, operation_by};
ghost use Rattle.spin_step.specs.Operations.{wrapped};
ghost use Rattle.spin_step.specs.declared.answer.Answer.{Answer as AnAnswer};
ghost use Rattle.spin_session.specs.Meaning.{Meaning};
ghost use Rattle.spin_session.specs.Operating.{Executes};
ghost use Rattle.spin_session.specs.Pausing.{PausesBetweenLooks, is_load};
ghost use Rattle.spin_session.specs.Turns.{PeekTold};

use crate::second::Word;
use spin_core::cell::{Play, Rule};
use spin_core::relax::MAX_BACK_OFF;
use spin_core::tie::{self, Opening};
use spin_core::trace::Trace;
use spin_step::{Answer, Hold, Next, Operation, Seat};
use std::alloc::AllocError;
use std::marker::PhantomData;

/// A party: its seat in the model, with its number and its mark.
pub type Party<C, L> = tie::Numbered<Seat<C, L>>;

/// An entry of the trace.
pub type Entry<C, T> = tie::Entry<C, T>;

/// An exchange of `old` for `new`, by which a call begins.
///
/// If it finds `old`, it makes several of the call's steps. The last of them is at `point`, and finds `number`. If it
/// finds another number, it makes the call's first step if `looks` is true, and otherwise none.
#[derive(Copy)]
pub struct Ahead<L> {
    pub old: u64,
    pub new: u64,
    pub point: L,
    pub number: u64,
    pub looks: bool,
}

impl<L: Copy> Clone for Ahead<L> {
    ghost is_clone = { λ x y. y ≡ x };

    ghost is_infallible = { λ _. ⊤ };

    fn clone(&self) -> Result<Ahead<L>, AllocError> {
        Ok(*self)
    }
}

/// The rule of a cell that runs a table.
pub trait Runs<T>: Rule<
    T,
    Party<Self::Call, Self::Point>,
    Key = Opening<T>,
    Second = Trace<Entry<Self::Call, T>, Self::Word>,
> {
    type Call: Copy;

    /// The second word of the cell, or `()`.
    type Word: Word;

    type Point: Copy;

    /// The words of the model.
    type Words;

    // The tables, by the number with which the words open and by the first value.
    ghost tables: { ℕ → T → ItsTable Self.Words T Self.Call Self.Point (AnAnswer T) };

    // What the word and the points of the table are in the plain lock.
    ghost meaning: { Meaning Self.Call Self.Point };

    /// Returns the point at which the call begins, by the lock's table (see `Steps`), whatever its words open with.
    fn start(call: Self::Call, holds: Option<Hold>) -> Option<Self::Point>
        ensures { (first : ℕ) (value : T) → result ≡ begin_of (tables first value) call holds };

    /// Returns the call's next step: the place of the word on which it works, and the operation.
    fn operation(call: Self::Call, point: Self::Point, holds: Option<Hold>) -> (usize, Operation)
        ensures place { (first : ℕ) (value : T) → result.0 ≡ (tables first value).word point }
        ensures operation { (first : ℕ) (value : T) → result.1 ≡ wrapped (operation_by ((tables first value).act call point holds)) };

    /// Returns how the call goes on, if its step found this number. The table has no answer `Value`.
    fn next(
        call: Self::Call,
        point: Self::Point,
        holds: Option<Hold>,
        found: u64,
    ) -> Next<Self::Point, Answer<()>>
        ensures { (first : ℕ) (value : T) → filled None result ≡ next_of (tables first value) call point holds found };

    /// Returns how many hints a waiting call gives before its next step, at the point `to`, or 0 if it makes this step at
    /// once. Its last step, at the point `from`, found this number. A call that backs off gives `due` hints: as
    /// [`back_off`](spin_core::relax::RelaxStrategy::back_off) after its last pause. After the first step since a pause,
    /// or of the call, `due` is 0.
    ///
    /// By default a call does not pause after a load if its next step is none. Otherwise it backs off.
    ///
    /// # Contract
    /// A call that waits pauses between two looks (`pauses`).
    fn hints(
        call: Self::Call,
        from: Self::Point,
        to: Self::Point,
        holds: Option<Hold>,
        found: u64,
        due: u32,
    ) -> u32
        ensures pauses { (first : ℕ) (value : T) → PausesBetweenLooks (tables first value) call from to holds found result }
    {
        let _ = found;
        let looked = is_load(Self::operation(call, from, holds).1);
        if looked && !is_load(Self::operation(call, to, holds).1) {
            0
        } else {
            due.max(1).min(MAX_BACK_OFF)
        }
    }

    /// States that the cell runs the table.
    fn laws()
        ensures { Executes Self.Word.words tables meaning Self.holds Self.ways };
}

/// A load of the word at place 1 that is no step of a call.
pub struct Peek<P> {
    rule: PhantomData<P>,
}

impl<T, P: Runs<T>> Play<Opening<T>, Party<P::Call, P::Point>, Entry<P::Call, T>> for Peek<P> {
    ghost told = { λ key before. PeekTold P.tables P.Word.words P.meaning key before };
}

fn is_load(operation: Operation) -> bool
    ensures { result ≡ is_load operation }
{
    matches!(operation, Operation::Load)
}
