//! The rule of a [`OnceCore`](super::OnceCore): what the word says of all parties, and what a step tells.
ghost use Rattle.std.specs.Prelude.{◌≡◌};
ghost use Rattle.spin_once.specs.OnceValues.{value_in};
ghost use Rattle.spin_once.specs.Once.{Told, fails_by};

use spin_core::cell::stable::{MaybeStable, Stabilizes, Stable};
use spin_core::cell::{Cell, Permit, Play, Rule, WritePermit};
use spin_core::tie::{self, Opening};
use spin_core::trace::Trace;
use spin_session::table;
use spin_step::{OnceCall, OncePoint};
use std::snapshot::Snapshot;

// The word where there is no value and no closure runs.
pub(super) const NOTHING: u64 = 0;

// The word where there is a value.
pub(super) const COMPLETE: u64 = 2;

/// What a value is made from.
pub trait Seed<T> {
    // The value may be made from the seed.
    ghost makes: { Self → T → Type 0 };
}

/// A party: its seat in the model, with its number and its mark. A party that reads the value for ever has the seat
/// of one that holds it. At `Run` it runs its closure.
pub type Party = table::Party<OnceCall<()>, OncePoint>;

/// An entry of the trace of a cell of values of type `T`.
pub type Entry<T> = tie::Entry<OnceCall<()>, T>;

/// The whole history of a cell of values of type `T`, at its end.
pub type History<T> = Trace<Entry<T>>;

/// What is fixed when the cell is made.
#[derive(Drop)]
pub struct Key<T, S> {
    /// What the value is made from.
    pub seed: Snapshot<S>,
    /// The name of the trace, and what lay in the cell at first: the seed, or the value that it was made with.
    pub opening: Opening<Stage<T, S>>,
}

/// The content of the cell.
#[derive(Drop)]
pub enum Stage<T, S> {
    Seed(S),
    /// A party runs its closure, and has taken the seed out.
    Taken,
    Done(T),
}

pub(super) type Slot<T, S> = MaybeStable<Stage<T, S>>;

impl<T, S> Stage<T, S> {
    ghost use Rattle.std.specs.Borrow.{sem, follows};
    ghost use Rattle.spin_once.specs.Made.{made_row, made_of};

    /// Returns the value that was made. Any value written over it counts as made too.
    pub(super) fn made(stable: &mut Stable<Self>) -> &mut T
        ensures* writes_back { sem 𝓛 (follows (made_row T.row S.row) T.row stable.entry.ghost_name result.ghost_name made_of) }
    {
        match &mut stable.value {
            Stage::Done(value) => value,
            _ => unreachable!(),
        }
    }
}

impl<T, S: Drop> Stage<T, S> {
    /// Returns the value, if this is one.
    pub(super) fn into_value(self) -> Option<T>
        ensures { result ≡ value_in self }
    {
        match self {
            Stage::Done(value) => Some(value),
            _ => None,
        }
    }
}

/// A value that was made stays made.
impl<T, S> Stabilizes for Stage<T, S> {
    ghost use Rattle.spin_once.specs.Once.{is_done};

    ghost stable = { is_done };
}

/// The word says how the cell's parties use the content. The trace without its values is a schedule of the model. The
/// schedule leads to this word, and to the seat of each party. The values are those of the trace and the one, if any,
/// with which the cell opened. There is at most one, and none before the word says that there is a value. A value that
/// lies in the cell is that one (`IsMade`), until the owner borrows it.
impl<T, S: Seed<T>> Rule<Slot<T, S>, Party> for Stage<T, S> {
    ghost use Rattle.spin_once.specs.Once.{IsOnce, once_ways};
    ghost use Rattle.spin_once.specs.OnceValues.{lent_key};

    type Key = Key<T, S>;

    type Second = History<T>;

    ghost holds = { λ key. IsOnce key.opening };

    ghost ways = { once_ways S.makes };

    ghost lent = { lent_key };
}

pub(super) type SeedCell<T, S> = Cell<Slot<T, S>, Party, Stage<T, S>>;

pub(super) type Caller<'a, T, S> = Permit<'a, Slot<T, S>, Party, Stage<T, S>>;

pub(super) type Writer<'a, T, S> = WritePermit<'a, Slot<T, S>, Party, Stage<T, S>>;

/// The store after a closure that failed.
pub(super) struct Fail;

impl<T, S> Play<Key<T, S>, Party, Entry<T>> for Fail {
    ghost told = { λ key before. Told key.opening fails_by before };
}
