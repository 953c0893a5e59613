//! The guard of a party that writes, and a hold without a guard, for any lock over a `Cell`. A lock
//! implements [`Release`], and names its [`Guard`] and [`Held`] by type aliases. Begin at [`Release`].
ghost use Rattle.std.specs.Prelude.{◌≡◌, Option, Some};
ghost use Rattle.std.specs.Borrow.{Lends, sem};
ghost use Rattle.spin_core.specs.Cell.{Use, writes, use_of};

use crate::cell::{Left, Permit, Rule, WritePermit};
use crate::relax::Strategy;
use crate::tie::{Entry, Numbered, Opening};
use crate::trace::{Knows, Watch};
use std::marker::PhantomData;
use std::ops::{Deref, DerefMut};

mod texts;

/// How the parties of a lock use the value, whatever the value's type is.
///
/// # Contract
/// `use_at` is the use of a party with a given view.
pub trait Uses<V> {
    // The use of a party with this view. A party without a view has taken no step.
    ghost use_at: { Option V → Use };
}

/// The rule of a lock whose writer can release it. The rule of each lock with a [`Guard`] implements this trait.
///
/// # Contract
/// `use_at` agrees with the rule's own uses (`same`).
pub trait Release<T, V>: Rule<T, V> + Uses<V> {
    /// Releases the lock of a party that writes.
    ///
    /// # Contract
    /// A party of the writer's cell is at rest afterwards. It is the writer, since no other permit of this cell is at hand.
    fn release<'a>(writer: WritePermit<'a, T, V, Self>) -> Left<'a, T, V, Self>
        ensures { result.0 ≡ writer.entry.key };

    // `use_at` agrees with the rule. This is stated apart, since a ghost field cannot use names of the rule.
    ghost same: { (key : Self.Key) (view : Option V) → Self.use_at view ≡ use_of (Self.ways key).1 view };
}

/// The right to write the value of a lock, until it is released. A [`Guard`] keeps one.
///
/// # Contract
/// `shown` is the value, and `with` is the right with another value in place of its own.
pub trait Writes {
    type Value;

    // The value that may be written.
    ghost shown: { Self → Self.Value };

    // The right with this value in place of its own.
    ghost with: { Self → Self.Value → Self };

    /// Lends the value.
    fn lend(&self) -> &Self::Value
        ensures { result.now ≡ Self.shown self.now };

    /// Lends the value. What is written replaces it (`writes_back`).
    fn lend_mut(&mut self) -> &mut Self::Value
        ensures* writes_back { sem 𝓛 (Lends Self.row Self.Value.row self.entry result (Self.with self.old)) }
        ensures value { result.now ≡ Self.shown self.old };

    /// Releases the lock.
    fn release(self);
}

impl<T, V, P: Release<T, V>> Writes for WritePermit<'_, T, V, P> {
    ghost use Rattle.spin_core.specs.Writer.{writer_of};

    type Value = T;

    ghost shown = { λ writer. writer.value };

    ghost with = { writer_of };

    fn lend(&self) -> &T {
        self.get()
    }

    fn lend_mut(&mut self) -> &mut T {
        self.get_mut()
    }

    fn release(self) {
        let _left = P::release(self);
    }
}

/// The guard of the one party that writes the value. Dropping it releases the lock.
///
/// It gives access to the value by `Deref` and `DerefMut`. `R` is the strategy of the lock; the guard itself does not
/// use it.
///
/// # Contract
/// `guard_value` is the lock's value. A read through the guard returns what was last written through it.
#[must_use = "dropping the guard at once releases the lock: bind it, or write `drop(..)`"]
pub struct Guard<W: Writes, E, R> {
    writer: W,
    seen: Watch<E>,
    strategy: Strategy<R>,
}

/// A hold on a lock: it keeps the lock held without a guard, and gives no access to the value.
///
/// [`release`](Held::release) consumes the hold and releases the lock. Dropping the hold does not release the
/// lock.
///
/// # Contract
/// The party of the hold still writes the value (`holding`). `held_value` is the value that the guard had.
#[must_use = "dropping a hold does not release the lock: pass it to `force_unlock`"]
pub struct Held<'a, T, V, E, P: Release<T, V>, R> {
    permit: Permit<'a, T, V, P>,
    seen: Watch<E>,
    strategy: PhantomData<R>,
    ghost holding: { P.use_at permit.view ≡ writes },
}

impl<W: Writes, E, R> Guard<W, E, R> {
    /// Creates the guard of a party that acquired the lock.
    ///
    /// # Contract
    /// The guard has the permit `writer`, and knows what `seen` knows. The call returns.
    pub fn new(writer: W, seen: Watch<E>) -> Self
        ensures { (result.writer ≡ writer) × (result.seen ≡ seen) }
    {
        Guard {
            writer,
            seen,
            strategy: Strategy::named(),
        }
    }

    /// Returns the permit of the guard's party, and what the party knows.
    ///
    /// # Contract
    /// The permit is the guard's. The call returns.
    pub fn into_parts(this: Self) -> (W, Watch<E>)
        ensures { (result.0 ≡ this.writer) × (result.1 ≡ this.seen) }
    {
        let Guard {
            writer,
            seen,
            strategy: _,
        } = this;
        (writer, seen)
    }
}

impl<'a, T, V, E, P: Release<T, V>, R> Guard<WritePermit<'a, T, V, P>, E, R> {
    ghost use Rattle.spin_core.specs.Guard.{guard_value, guard_view, guard_key, guard_seen, held_value, held_view, held_key, held_seen};

    /// Consumes the guard and returns a mutable reference to the value.
    ///
    /// The lock stays held, and the reference lives as long as the borrow of the lock.
    ///
    /// # Contract
    /// The reference has the value of the guard. The call returns.
    pub fn leak(this: Self) -> &'a mut T
        ensures { result.now ≡ guard_value this.entry }
    {
        let (writer, _) = Guard::into_parts(this);
        writer.leak()
    }

    /// Consumes the guard and keeps the lock held.
    ///
    /// # Contract
    /// `held_value` of the hold is the value of the guard. The hold has the guard's party, and knows what the guard
    /// knows (`party`). The call returns.
    pub fn hold(this: Self) -> Held<'a, T, V, E, P, R>
        ensures value { held_value result ≡ Some (guard_value this.entry) }
        ensures party { (held_view result ≡ Some (guard_view this.entry)) × (held_key result ≡ guard_key this.entry) × (held_seen result ≡ guard_seen this.entry) }
    {
        let (writer, seen) = Guard::into_parts(this);
        Held {
            permit: writer.into_permit(),
            seen,
            strategy: PhantomData,
        }
    }
}

impl<'a, T, X, C, P: Release<T, Numbered<X>, Key = Opening<T>>, R> Guard<
    WritePermit<'a, T, Numbered<X>, P>,
    Entry<C, T>,
    R,
> {
    ghost use Rattle.spin_core.specs.Guard.{HasFound, Holds, guard_seen, guard_spot, guard_value};
    ghost use Rattle.spin_core.specs.Spots.{Learns};

    /// Returns this guard, which then also knows what the other knows. It does nothing when it runs.
    ///
    /// So the next call of the guard's party comes after the calls that the other knows by now.
    ///
    /// # Contract
    /// The party and the value stay (`same`). The history that the guard knows is the longer of the two, of which the
    /// other is a prefix (`learns`).
    pub fn after<K: Knows<Entry<C, T>>>(this: Self, earlier: &K) -> Self
        requires holds { Holds this }
        requires one { (guard_seen this).name ≡ K.of earlier.now }
        ensures holds { Holds result }
        ensures same { guard_value result ≡ guard_value this.entry }
        ensures learns { Learns (K.entries earlier.now) (guard_spot this.entry) (guard_spot result) }
    {
        let (writer, seen) = Guard::into_parts(this);
        let known = seen.later(&earlier.known());
        Guard::new(writer, known)
    }

    /// States that the guard's party found this value. It does nothing when it runs.
    ///
    /// A caller calls it before it writes, to tell afterwards what it found.
    ///
    /// # Contract
    /// The guard has to show the value still (`shows`), and to have found the one that it shows (`found`), which each
    /// call that grants a guard says.
    pub fn found(this: &Self, value: &T)
        requires shows { value.now ≡ guard_value this.now }
        requires found { HasFound (guard_value this.now) this.now }
        ensures { HasFound value.now this.now }
    {
        let _ = this;
        let _ = value;
    }
}

impl<W: Writes, E, R> Knows<E> for Guard<W, E, R> {
    ghost of = { λ guard. guard.seen.name };

    ghost entries = { λ guard. guard.seen.entries };

    fn known(&self) -> Watch<E> {
        self.seen.copy()
    }
}

impl<'a, T, V, E, P: Release<T, V>, R> Held<'a, T, V, E, P, R> {
    ghost use Rattle.spin_core.specs.Guard.{guard_value, guard_view, guard_key, guard_seen, held_value, held_view, held_key, held_seen};

    /// Turns the hold into a guard again.
    ///
    /// If a pass acquired the lock, that pass can then release it.
    ///
    /// # Contract
    /// The guard has the hold's value and its party (`value`, `party`). The call returns.
    pub fn into_guard(self) -> Guard<WritePermit<'a, T, V, P>, E, R>
        ensures value { Some (guard_value result) ≡ held_value self.entry }
        ensures party { (Some (guard_view result) ≡ held_view self.entry) × (guard_key result ≡ held_key self.entry) × (guard_seen result ≡ held_seen self.entry) }
    {
        let Self {
            permit,
            seen,
            strategy: _,
        } = self;
        Guard::new(permit.into_writer(), seen)
    }

    /// Releases the lock that this `Held` holds.
    ///
    /// # Contract
    /// Only that the call returns.
    pub fn release(self) {
        drop(self.into_guard());
    }
}

impl<W: Writes, E, R> Deref for Guard<W, E, R> {
    type Target = W::Value;

    ghost deref_gives = { λ guard x. x ≡ W.shown guard.writer };

    fn deref(&self) -> &W::Value
        ensures { result.now ≡ W.shown self.now.writer }
    {
        self.writer.lend()
    }
}

impl<W: Writes, E, R> DerefMut for Guard<W, E, R> {
    ghost use Rattle.spin_core.specs.contracts.guard.Guard.{the_row};
    ghost use Rattle.spin_core.specs.Guard.{over};

    ghost deref_mut_gives = { λ guard x. x ≡ W.shown guard.writer };

    fn deref_mut(&mut self) -> &mut W::Value
        ensures* writes_back { sem 𝓛 (Lends (the_row W.row E.row R.row W.Value.row) W.Value.row self.entry result (λ x. over self.old (W.with self.old.writer x))) }
        ensures value { result.now ≡ W.shown self.old.writer }
    {
        self.writer.lend_mut()
    }
}

impl<W: Writes, E, R> Drop for Guard<W, E, R> {
    fn drop(self) {
        let (writer, _) = Guard::into_parts(self);
        writer.release();
    }
}

impl<T, V, E, P: Release<T, V>, R> Drop for Held<'_, T, V, E, P, R> {
    fn drop(self) {
        Guard::leak(self.into_guard());
    }
}

// SAFETY: the new thread may release the lock, and so pass the value to its next user. The bounds are those of a guard.
unsafe impl<T: Send, V, E, P: Release<T, V> + Sync, R> Send for Held<'_, T, V, E, P, R> {}

// SAFETY: a shared hold lends nothing.
unsafe impl<T: Send, V, E, P: Release<T, V> + Sync, R> Sync for Held<'_, T, V, E, P, R> {}
