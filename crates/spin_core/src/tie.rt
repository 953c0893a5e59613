//! Entries and views for a lock whose trace is the schedule that the lock has run. Begin with [`Entry`].
ghost use Rattle.std.specs.Prelude.{◌≡◌, ℕ, Bool, true};

use crate::trace::Trace;
use spin_step::Move;
use std::marker::{Model, PhantomData};

/// An entry of a lock's trace: the number of a party, and its move in the lock's model. No such value exists at run
/// time.
///
/// `T` is the type of the values that parties write. With the default `()` the trace does not tell which
/// values.
pub type Entry<C, T = ()> = (usize, Move<C, T>);

/// What is fixed when a lock is made: the name of its trace, its opening value, and the number with which its words
/// open. It has no bytes.
///
/// If `told` is true, a value that nobody writes is the one that the trace says was written last, or else the
/// opening value. This holds until the owner borrows the value.
pub struct Opening<T> {
    marker: PhantomData<T>,
    pub ghost name: { ℕ },
    pub ghost value: { T },
    pub ghost told: { Bool },
    pub ghost start: { ℕ },
}

impl<T> Model for Opening<T> {
    ghost use base.Fml.{ftrue};

    ghost also_owns = { λ _. ftrue };
}

impl<T> Opening<T> {
    /// Returns the opening of a lock with this trace and this value. Its words open with 0.
    pub const fn of<E, S>(trace: &Trace<E, S>, value: &T) -> Opening<T>
        ensures { (result.name ≡ trace.now.name) × (result.value ≡ value.now) × (result.told ≡ true) × (result.start ≡ 0) }
    {
        Opening::starting_at(trace, value, &0)
    }

    /// Returns the opening of a lock with this trace and this value, whose words open with the number `start`.
    pub const fn starting_at<E, S>(trace: &Trace<E, S>, value: &T, start: &u64) -> Opening<T>
        ensures { (result.name ≡ trace.now.name) × (result.value ≡ value.now) × (result.told ≡ true) × (result.start ≡ start.now) }
    {
        let _ = trace;
        let _ = value;
        let _ = start;
        Opening {
            marker: PhantomData,
        }
    }
}

impl<T> Opening<T> {
    /// Ends the opening, as a drop does. A `const` function drops nothing, so it calls this.
    pub const fn end(self) {
        let Self { marker: _ } = self;
    }
}

impl<T> Drop for Opening<T> {
    fn drop(self) {
        let Self { marker: _ } = self;
    }
}

/// A party's view, its number, and how long the trace was after the party's last step. No such value exists at run
/// time.
///
/// The number is the party's place among all parties that ever took a step. Entries with this number are the
/// party's own.
pub type Numbered<V> = (V, usize, usize);
