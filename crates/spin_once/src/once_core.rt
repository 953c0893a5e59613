//! A value that is made once, from a seed: what `Once` and `LazyLock` share. Begin with [`OnceCore::account`].
ghost use Rattle.std.specs.Prelude.{◌≡◌, [], ◌∷◌};
ghost use Rattle.spin_once.specs.Accounts.{here, new_in};
ghost use Rattle.spin_once.specs.OnceValues.{OpensWithValues};
ghost use Rattle.spin_once.specs.Passes.{Ends};

use self::rule::{COMPLETE, Key, NOTHING, SeedCell, Stage};
use spin_core::cell::Cell;
use spin_core::cell::stable::MaybeStable;
use spin_core::tie::Opening;
use spin_core::trace::Trace;
use std::snapshot::Snapshot;

mod account;
mod init_permit;
mod known;
mod pass;
mod rule;

pub(crate) use self::account::{Account, Found};
pub use self::pass::Pass;
pub(crate) use self::rule::Seed;
pub use self::rule::{Entry, History};

/// A cell that holds a seed, and later the value made from it.
///
/// A thread that begins to make the value has the seed to itself. It stores a value, or leaves the seed for the next
/// thread. From the moment there is a value, all threads see it.
#[derive(Drop)]
pub(crate) struct OnceCore<T, S: Seed<T>> {
    cell: SeedCell<T, S>,
}

impl<T, S: Seed<T>> OnceCore<T, S> {
    /// Creates a cell with a seed, which no party has used.
    pub(crate) fn new(seed: S) -> Self
        ensures seed { result.cell.seed.value ≡ seed }
        ensures opens { OpensWithValues [] result.cell }
    {
        let trace = Trace::new(());
        let known = Snapshot::of(&seed);
        let stage = Stage::Seed(seed);
        let key = Key {
            seed: known,
            opening: Opening::of(&trace, &stage),
        };
        let slot = MaybeStable { value: stage };
        let cell = Cell::new(slot, NOTHING, trace, &key);
        OnceCore { cell }
    }

    /// Creates a cell with a value that may be made from `seed`, as if a party had read it.
    pub(crate) fn initialized(value: T, seed: &S) -> Self
        requires { S.makes seed.now value }
        ensures seed { result.cell.seed.value ≡ seed.now }
        ensures opens { OpensWithValues (value ∷ []) result.cell }
    {
        let trace = Trace::new(());
        let stage = Stage::Done(value);
        let key = Key {
            seed: Snapshot::of(seed),
            opening: Opening::of(&trace, &stage),
        };
        let slot = MaybeStable { value: stage };
        let cell = Cell::new(slot, COMPLETE, trace, &key);
        OnceCore { cell }
    }

    /// Returns the account of a party that has made no call.
    pub(crate) fn account(&self) -> Account<'_, T, S>
        ensures { here result ≡ new_in self.now.cell }
    {
        Account {
            party: self.cell.enter(),
            seen: self.cell.watch(),
        }
    }

    /// Returns the value if there is one, with the whole history. It loads no word, since the cell is no longer shared.
    pub(crate) fn into_history(self) -> (Option<T>, History<T>)
    where
        S: Drop,
        ensures { Ends S.makes self.cell result }
    {
        let Self { cell } = self;
        let (_, slot, history) = cell.into_parts();
        (slot.value.into_value(), history)
    }

    /// Returns a mutable reference to the value if there is one. The borrow shows that no other thread has the cell.
    pub(crate) fn get_mut(&mut self) -> Option<&mut T>
        requires any { (seed : S) (value : T) → S.makes seed value }
    {
        let stable = self.cell.get_stable(COMPLETE)?;
        Some(Stage::made(stable))
    }
}
