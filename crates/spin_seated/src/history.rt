//! What a pass knows, as ghost values: only contracts use these types, and no program makes a value of them.
//! Begin with [`Known`].
use atomic_table::{Join, Split};
use std::collections::LinkedList;

/// One call in a history: the pass that made it, the call, and its answer.
pub struct Entry<C, A> {
    pub pass: usize,
    pub call: C,
    pub answer: A,
}

/// What a pass knows: how the lock was opened, the number of the pass, and a history.
pub struct Known<K, C, A> {
    pub opening: K,
    pub pass: usize,
    pub seen: LinkedList<Entry<C, A>>,
}

/// What each pass of a seat knows. A seat has one pass, except while the lock opens and while passes meet.
pub type View<K, C, A> = LinkedList<Known<K, C, A>>;

/// Splits a seat: the first of its passes moves to a seat of its own.
pub(crate) struct First;

impl<K, C, A> Split<View<K, C, A>> for First {
    ghost use Rattle.std.specs.Prelude.{drop, take};

    ghost left = { λ v. drop 1 v };

    ghost right = { λ v. take 1 v };
}

/// Joins two seats: one of them gets all passes of both.
pub(crate) struct Both;

impl<K, C, A> Join<View<K, C, A>> for Both {
    ghost use Rattle.std.specs.Prelude.{◌++◌, []};

    ghost both = { λ v w. w ++ v };

    ghost spent = { [] };
}
