//! A log that only grows and has a name, and what is known of it. Begin with [`Trace`].
ghost use Rattle.std.specs.Prelude.{◌≡◌, ℕ, List, []};
ghost use Rattle.std.specs.Coded.{coded_list};
ghost use mathlib.Core.List.{IsPrefix};
ghost use denote.Sharing.{said};
ghost use Rattle.spin_core.specs.Logs.{log_owns, log_shares, known_owns, KnowsBoth, OneIsPrefix};

use crate::cell::let_go;
use std::marker::{Model, PhantomData};

/// A list that only grows, with the exclusive right to append to it. A word of type `S` may stand beside the
/// list.
/// The list and its name are ghost state: a `Trace<E>` has no bytes, and a `Trace<E, u64>` has those of its word. If a
/// [`Cell`](crate::cell::Cell) contains a trace, the steps of the cell's permits make the trace grow.
pub struct Trace<E, S = ()> {
    pub(crate) word: S,
    marker: PhantomData<E>,
    pub ghost name: { ℕ },
    pub ghost entries: { List E } by { coded_list E.code },
}

impl<E, S> Model for Trace<E, S> {
    ghost also_owns = { λ trace. log_owns E.row.coded.code trace.name trace.entries };

    ghost also_shares = { λ trace _ κ. log_shares E.row.coded.code trace.name trace.entries κ };
}

/// What is known of a trace with this name: it begins with these entries, now and for ever. A watch has no
/// bytes.
pub struct Watch<E> {
    marker: PhantomData<E>,
    pub ghost name: { ℕ },
    pub ghost entries: { List E } by { coded_list E.code },
}

impl<E> Model for Watch<E> {
    ghost also_owns = { λ watch. known_owns E.row.coded.code watch.name watch.entries };

    ghost also_shares = { λ watch _ κ. said (known_owns E.row.coded.code watch.name watch.entries) κ };
}

/// A value that knows how a trace with entries of type `E` begins: a watch, and each pass and guard of a lock.
pub trait Knows<E> {
    // The name of the trace.
    ghost of: { Self → ℕ };
    // The entries with which the trace begins.
    ghost entries: { Self → List E };

    /// Returns a watch that knows the same.
    fn known(&self) -> Watch<E>
        ensures { (result.name ≡ of self.now) × (result.entries ≡ entries self.now) };
}

impl<E> Knows<E> for Watch<E> {
    ghost of = { λ watch. watch.name };

    ghost entries = { λ watch. watch.entries };

    fn known(&self) -> Watch<E> {
        self.copy()
    }
}

impl<E, S> Trace<E, S> {
    /// Creates an empty trace with a name of its own, and with `word`.
    pub const fn new(word: S) -> Trace<E, S>
        ensures { (result.entries ≡ []) × (result.word ≡ word) }
    {
        Trace {
            word,
            marker: PhantomData,
        }
    }

    /// Returns a watch that knows all entries so far.
    pub const fn watch(&self) -> Watch<E>
        ensures { (result.name ≡ self.now.name) × (result.entries ≡ self.now.entries) }
    {
        Watch {
            marker: PhantomData,
        }
    }
}

impl<E, S> Trace<E, S> {
    /// Compares what a watch knows with the whole list. It does nothing at run time.
    ///
    /// # Contract
    /// The entries known to a watch of this trace are the first ones of the list.
    pub fn covers(&self, watch: &Watch<E>)
        requires { self.now.name ≡ watch.now.name }
        ensures { IsPrefix watch.now.entries self.now.entries }
    {}
}

impl<E> Trace<E, u64> {
    /// Returns the word that stands beside the list, and the trace.
    pub fn told(self) -> (u64, Self)
        ensures { (result.0 ≡ self.word) × (result.1 ≡ self) }
    {
        let word = self.word;
        (word, self)
    }
}

impl<E> Watch<E> {
    /// Returns a watch that knows nothing, under the name of a trace that no longer exists.
    pub fn nothing() -> Watch<E>
        ensures { result.entries ≡ [] }
    {
        let trace: Trace<E> = Trace::new(());
        trace.watch()
    }

    /// Ends the watch, as a drop does. A `const` function drops nothing, so it calls this.
    pub const fn end(self) {
        let Self { marker: _ } = self;
    }

    /// Returns a watch that knows nothing, under the name that the caller chooses.
    pub fn start() -> Watch<E>
        ghost name: { ℕ }
        ensures { (result.name ≡ name) × (result.entries ≡ []) }
    {
        Watch {
            marker: PhantomData,
        }
    }

    /// Returns a watch that knows the same.
    pub fn copy(&self) -> Watch<E>
        ensures { (result.name ≡ self.now.name) × (result.entries ≡ self.now.entries) }
    {
        self.later(self)
    }

    /// Returns a watch under the name that the caller chooses. It knows what this watch knows if this is its name too,
    /// and otherwise nothing. It does nothing at run time.
    pub fn under(&self) -> Watch<E>
        ghost name: { ℕ }
        ensures { (result.name ≡ name) × (self.now.name ≡ name → result.entries ≡ self.now.entries) }
    {
        Watch {
            marker: PhantomData,
        }
    }

    /// Returns a watch that knows what each of two watches of one trace knows. It does nothing at run time.
    ///
    /// # Contract
    /// The result knows the longer of the two lists, of which the other is a prefix (`KnowsBoth`).
    pub fn later(&self, other: &Watch<E>) -> Watch<E>
        requires { self.now.name ≡ other.now.name }
        ensures { (result.name ≡ self.now.name) × KnowsBoth self.now.entries other.now.entries result.entries }
    {
        Watch {
            marker: PhantomData,
        }
    }

    /// Compares what two watches know of one trace. It does nothing at run time.
    ///
    /// # Contract
    /// The entries known to one of the watches are a prefix of those known to the other.
    pub fn compare(&self, other: &Watch<E>)
        requires { self.now.name ≡ other.now.name }
        ensures { OneIsPrefix self.now.entries other.now.entries }
    {
        let _ = self.later(other);
    }
}

impl<E, S> Drop for Trace<E, S> {
    fn drop(self) {
        let_go(self);
    }
}

impl<E> Drop for Watch<E> {
    fn drop(self) {
        let Self { marker: _ } = self;
    }
}

// SAFETY: the right to append has no bytes, and what it owns does not depend on a thread.
unsafe impl<E, S: Send> Send for Trace<E, S> {}

// SAFETY: a shared trace tells its entries, and lends its word.
unsafe impl<E, S: Sync> Sync for Trace<E, S> {}

// SAFETY: a watch has no bytes, and what it knows holds on any thread.
unsafe impl<E> Send for Watch<E> {}

// SAFETY: a shared watch tells only what it knows.
unsafe impl<E> Sync for Watch<E> {}
