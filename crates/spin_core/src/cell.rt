//! The raw cell under all locks: one word or two, and a value, under a rule over plain data. Begin with [`Rule`], and
//! with [`Cell::enter`] and [`Permit::load`].
//!
//! Each party of a lock has a *view*: what the party is to the lock. The lock's *rule* says what holds of the words
//! and of all views between any two steps. For each kind of step the lock shows one fact about plain data: the step
//! keeps the rule. Steps are methods of a permit. Each step appends to the cell's trace ([`crate::trace`]), and tells
//! its caller what it appended.
ghost use Rattle.std.specs.Prelude.{◌≡◌, ◌≢◌, ◌⊎◌, ℕ, List, [], Option};
ghost use Rattle.std.specs.Coded.{coded_option};
ghost use Rattle.spin_core.specs.Cell.{Ways, off, reads, writes, use_of, Opens, Starts, Fixes, Frees, Freeing, MayLend, Seen, Rests};
ghost use Rattle.spin_core.specs.CellMemory.{Known, cell_owns, cell_shares, permit_owns, permit_shares, writer_owns, writer_shares};

use crate::trace::{Trace, Watch};
use std::marker::{Model, Move, Owns, PhantomData};
use std::mem::ManuallyDrop;
use std::sync::atomic::raw;

pub mod stable;
mod steps;

pub use steps::Play;

/// A rule: what holds of a cell's words and of its parties between any two steps.
///
/// `V` is the type of a party's view: a plain `Copy` enum of the lock's own, or such an enum in
/// [`Numbered`](crate::tie::Numbered). `T` is the value's type.
pub trait Rule<T, V> {
    // What is fixed when a cell is made. For a lazy value this includes the closure.
    type Key;
    // What follows the value in memory: a trace, or a trace with a second word. A trace without a word has no bytes.
    type Second;
    // What holds of the first word, of the `Second`, and of the views of all parties.
    ghost holds: { Self.Key → ℕ → Self.Second → List V → Type 0 };
    // Three things: whether several parties may read the value at once, how a party with a given view uses the
    // value, and what is known of a value that nobody writes.
    ghost ways: { Self.Key → Ways T V Self.Second };
    // The cell's key after its owner has borrowed the value to write it. Under this key less may be known of
    // the value.
    ghost lent: { Self.Key → Self.Key };
}

/// A cell: a word, a value, and a trace, which may have a second word. While the cell is shared, the value is
/// reached only through permits.
///
/// A clause refers to a cell by its key.
pub struct Cell<T, V, P: Rule<T, V>> {
    marker: PhantomData<(V, P)>,
    first: u64,
    value: T,
    second: P::Second,
}

impl<T, V, P: Rule<T, V>> Owns for Cell<T, V, P> {
    ghost Value = { P.Key };

    ghost coded = { P.Key.code };

    ghost shr_at = { λ key p κ. cell_shares P.row T.row V.row.coded.code P.Second.row (P.holds key) (P.ways key) p κ };
}

impl<T, V, P: Rule<T, V>> Move for Cell<T, V, P> {
    ghost own_val = { λ key vs. cell_owns P.row T.row V.row.coded.code P.Second.row (P.holds key) (P.ways key) (λ n m x. Fields.own_val (record { marker = record {}; first = n; value = x; second = m }) vs) };
}

/// A permit: the right of one party to step on the cell and use its value.
///
/// `view` is what the party is to the lock; it is `None` until the party's first step. `value` is the value
/// if that view reads or writes it.
///
/// A permit cannot be dropped. A party at rest ends its permit by [`leave`](Permit::leave). A party that uses
/// the value may end its permit by [`leak`](Permit::leak), and then uses the value for ever.
pub struct Permit<'a, T, V, P: Rule<T, V>> {
    cell: *const Cell<T, V, P>,
    marker: PhantomData<&'a T>,
    pub ghost key: { P.Key } by { P.Key.code },
    pub ghost view: { Option V } by { coded_option V.code },
    pub ghost value: { Option T } by { coded_option T.code },
}

impl<'a, T, V, P: Rule<T, V>> Model for Permit<'a, T, V, P> {
    ghost also_owns = { λ h. permit_owns P.row T.row V.row.coded.code P.Second.row (P.holds h.key) (P.ways h.key) 'a h.cell h.view h.value };

    ghost also_shares = { λ h _ κ. permit_shares P.row T.row V.row.coded.code P.Second.row (P.holds h.key) (P.ways h.key) 'a h.cell h.view h.value κ };
}

/// The permit of a party at rest, which ends when this is dropped. Only [`Permit::leave`] makes one.
///
/// # Contract
/// A `Left` in a contract is the key of its cell, and the last view of its party.
pub struct Left<'a, T, V, P: Rule<T, V>> {
    permit: Permit<'a, T, V, P>,
}

impl<'a, T, V, P: Rule<T, V>> Model for Left<'a, T, V, P> {
    ghost Value = { P.Key × Option V };

    ghost view = { λ left. (left.permit.key, left.permit.view) };

    ghost invariant = { λ left. Rests (P.holds left.permit.key) (P.ways left.permit.key).1 left.permit.view };
}

/// The right to write the value, which only one party has at a time.
/// [`into_permit`](WritePermit::into_permit) turns it back into a permit, and [`leak`](WritePermit::leak)
/// makes it last for ever.
pub struct WritePermit<'a, T, V, P: Rule<T, V>> {
    cell: *const Cell<T, V, P>,
    marker: PhantomData<&'a T>,
    pub ghost key: { P.Key } by { P.Key.code },
    pub ghost view: { V },
    pub ghost value: { T },
}

impl<'a, T, V, P: Rule<T, V>> Model for WritePermit<'a, T, V, P> {
    ghost also_owns = { λ h. writer_owns P.row T.row V.row.coded.code P.Second.row (P.holds h.key) (P.ways h.key) 'a h.cell h.view h.value };

    ghost also_shares = { λ h _ κ. writer_shares P.row T.row V.row.coded.code P.Second.row (P.holds h.key) (P.ways h.key) 'a h.cell h.view h.value κ };
}

impl<T, V, P: Rule<T, V>> Cell<T, V, P> {
    /// Creates a cell without permits. In the way `fixes` the cell may begin as if parties had stored its value,
    /// and had then leaked their permits.
    ///
    /// # Contract
    /// The rule has to hold of the words (`Opens`). If parties share the value, or some view reads it, its type
    /// has to be `Sync` wherever the rule's own type is. `second` has to be `Send` (`Known`).
    pub const fn new(value: T, first: u64, second: P::Second, key: &P::Key) -> Cell<T, V, P>
        requires known { Known (P.ways key.now) P.row P.Second.row T.row }
        requires rule { Opens (P.holds key.now) (P.ways key.now) first second value }
        ensures key { result ≡ key.now }
    {
        let _ = key;
        Cell {
            marker: PhantomData,
            first,
            value,
            second,
        }
    }

    /// Consumes the cell and returns its first word, its value and its `Second`.
    ///
    /// # Contract
    /// The rule holds of them, for some parties, and so does what is known of the value (`Starts`).
    pub fn into_parts(self) -> (u64, T, P::Second)
        ensures { Starts (P.holds self) (P.ways self) result.0 result.2 result.1 }
    {
        let Self {
            marker: _,
            first,
            value,
            second,
        } = self;
        (first, value, second)
    }

    /// Consumes the cell and returns its value, without a load of its words.
    pub fn into_inner(self) -> T {
        let (_, value, second) = self.into_parts();
        let_go(second);
        value
    }

    /// Wakes one thread that sleeps on the first word ([`Permit::park`]).
    pub fn wake_one(&self) {
        unsafe { raw::wake_one(std::ptr::from_ref(self).cast()) }
    }

    /// Wakes each thread that sleeps on the first word.
    pub fn wake_all(&self) {
        unsafe { raw::wake_all(std::ptr::from_ref(self).cast()) }
    }

    /// Returns a permit that has taken no step.
    pub fn enter(&self) -> Permit<'_, T, V, P>
        ensures key { result.key ≡ self.now }
        ensures fresh { (result.view ≡ None) × (result.value ≡ None) }
    {
        Permit {
            cell: self,
            marker: PhantomData,
        }
    }
}

impl<T, V, E, S, P: Rule<T, V, Second = Trace<E, S>>> Cell<T, V, P> {
    /// Returns a watch of the cell's trace that knows no entries yet.
    ///
    /// # Contract
    /// The caller chooses `name`. If the rule gives the trace this name, each step that takes the watch returns a
    /// watch with the same name (`Watches`).
    pub fn watch(&self) -> Watch<E>
        ghost name: { ℕ }
        ensures { (result.name ≡ name) × (result.entries ≡ []) }
    {
        Watch::start()
    }
}

impl<T, V, P: Rule<T, V>> Cell<T, V, P> {
    ghost use types.Logic.{sem};
    ghost use denote.Follow.{follows};
    ghost use Rattle.spin_core.specs.contracts.cell.Cell.{the_row};

    /// Returns a mutable reference to the value, without a load of the words. The `&mut` borrow shows that no
    /// permit exists.
    ///
    /// # Contract
    /// The cell gets the key that the rule names (`lent`). Where the rule holds under the old key, it has to hold
    /// under the new one (`MayLend`). It also has to allow any value in place of one that nobody uses (`Frees`,
    /// `Freeing`).
    pub fn get_mut(&mut self) -> &mut T
        requires free { Freeing (P.ways (P.lent self.old)).2 (Frees (P.ways (P.lent self.old)).0) }
        requires lends { MayLend (P.holds self.old) (P.ways self.old) (P.holds (P.lent self.old)) (P.ways (P.lent self.old)) }
        ensures* keeps { sem 𝓛 (follows (the_row T.row V.row P.row P.Key.row P.Second.row (record { holds = P.holds; ways = P.ways; lent = P.lent })) T.row self.entry.ghost_name result.ghost_name (λ _. P.lent self.old)) }
    {
        &mut self.value
    }
}

impl<'a, T, V, P: Rule<T, V>> Permit<'a, T, V, P> {
    /// Returns a reference to the value, for a party that reads it.
    pub fn get(&self) -> &T
        requires { use_of (P.ways self.now.key).1 self.now.view ≡ reads }
        ensures { Some result.now ≡ self.now.value }
    {
        unsafe { &(*self.cell).value }
    }

    /// Returns a reference to the value for the rest of the cell's borrow, for a party that reads it. The party keeps
    /// reading for ever.
    pub fn see(self) -> &'a T
        requires { use_of (P.ways self.key).1 self.view ≡ reads }
        ensures value { Some result.now ≡ self.entry.value }
        ensures seen { Seen (P.ways self.entry.key).0 result.now }
    {
        let Permit { cell, marker: _ } = self;
        unsafe { &(*cell).value }
    }

    /// Like [`see`](Permit::see), but also returns the permit. The way has to be `fixes`: there a party may
    /// read for ever.
    pub fn show(self) -> (&'a T, Permit<'a, T, V, P>)
        requires reads { use_of (P.ways self.key).1 self.view ≡ reads }
        requires fixed { Fixes (P.ways self.key).0 }
        ensures value { Some result.0.now ≡ self.entry.value }
        ensures seen { Seen (P.ways self.entry.key).0 result.0.now }
        ensures same { (result.1.view ≡ self.entry.view) × (result.1.value ≡ self.entry.value) }
        ensures key { result.1.key ≡ self.entry.key }
    {
        let Permit { cell, marker: _ } = self;
        (
            unsafe { &(*cell).value },
            Permit {
                cell,
                marker: PhantomData,
            },
        )
    }

    /// Turns the permit of a party that writes the value into a write permit.
    pub fn into_writer(self) -> WritePermit<'a, T, V, P>
        requires writes { use_of (P.ways self.key).1 self.view ≡ writes }
        ensures same { (Some result.view ≡ self.entry.view) × (Some result.value ≡ self.entry.value) }
        ensures key { result.key ≡ self.entry.key }
    {
        let Permit { cell, marker: _ } = self;
        WritePermit {
            cell,
            marker: PhantomData,
        }
    }

    /// Ends the permit. The party has to be at rest: it does not use the value, and the rule also holds
    /// without the party.
    ///
    /// # Contract
    /// What is returned names the cell and the party.
    pub fn leave(self) -> Left<'a, T, V, P>
        requires rests { Rests (P.holds self.key) (P.ways self.key).1 self.view }
        ensures { result ≡ (self.entry.key, self.entry.view) }
    {
        Left { permit: self }
    }

    /// Ends the permit of a party that is at rest, like [`leave`](Permit::leave), or of one that uses the
    /// value, like [`leak`](Permit::leak).
    pub fn finish(self)
        requires { Rests (P.holds self.key) (P.ways self.key).1 self.view ⊎ (use_of (P.ways self.key).1 self.view ≢ off) }
    {
        let Permit { cell: _, marker: _ } = self;
    }

    /// Ends the permit, and keeps the party's use of the value for ever. A lock that the party holds stays
    /// held. A party that only waits cannot leak its permit, since those behind it in a queue would wait for
    /// ever.
    pub fn leak(self)
        requires { use_of (P.ways self.key).1 self.view ≢ off }
    {
        let Permit { cell: _, marker: _ } = self;
    }
}

impl<'a, T, V, P: Rule<T, V>> WritePermit<'a, T, V, P> {
    /// Returns a reference to the value.
    pub fn get(&self) -> &T
        ensures { result.now ≡ self.now.value }
    {
        unsafe { &(*self.cell).value }
    }

    /// Returns a mutable reference to the value for the rest of the cell's borrow. The party writes for ever.
    pub fn leak(self) -> &'a mut T
        ensures { result.now ≡ self.entry.value }
    {
        let WritePermit { cell, marker: _ } = self;
        unsafe { &mut *(&raw const (*cell).value as *mut T) }
    }

    /// Turns the write permit into a permit again.
    pub fn into_permit(self) -> Permit<'a, T, V, P>
        ensures use_of_view { (P.ways self.entry.key).1 self.entry.view ≡ writes }
        ensures same { (result.view ≡ Some self.entry.view) × (result.value ≡ Some self.entry.value) }
        ensures key { result.key ≡ self.entry.key }
    {
        let WritePermit { cell, marker: _ } = self;
        Permit {
            cell,
            marker: PhantomData,
        }
    }
}

impl<T, V, P: Rule<T, V>> WritePermit<'_, T, V, P> {
    ghost use mir.Syntax.{named};
    ghost use types.Logic.{sem};
    ghost use denote.Follow.{follows};
    ghost use Rattle.spin_core.specs.contracts.cell.WritePermit.{the_row};
    ghost use Rattle.spin_core.specs.Writer.{writer_of};

    /// Returns a mutable reference to the value. After the borrow the permit has the value that was written
    /// through it.
    pub fn get_mut(&mut self) -> &mut T
        ensures* writes_back { sem 𝓛 (follows (the_row (record { mir = named 1; lft = [] }) T.row V.row P.row P.Key.row P.Second.row (record { holds = P.holds; ways = P.ways; lent = P.lent })) T.row self.entry.ghost_name result.ghost_name (writer_of self.old)) }
        ensures value { result.now ≡ self.old.value }
    {
        unsafe { &mut *(&raw const (*self.cell).value as *mut T) }
    }
}

// Forgets a `Second`, whose type need not be `Drop`.
pub(crate) fn let_go<S>(second: S) {
    let _gone = unsafe { ManuallyDrop::new_unchecked(second) };
}

impl<T, V, P: Rule<T, V>> Drop for Left<'_, T, V, P> {
    fn drop(self) {
        let Self { permit } = self;
        permit.finish();
    }
}

impl<T: Drop, V, P: Rule<T, V>> Drop for Cell<T, V, P> {
    fn drop(self) {
        drop(self.into_inner());
    }
}

// SAFETY: the owner of the cell owns the value, and no permit exists.
unsafe impl<T: Send, V, P: Rule<T, V>> Send for Cell<T, V, P> {}

// SAFETY: steps on the words are atomic, and at most one party at a time may write the value, on whatever
// thread. If parties read it at once, `Known` asks that the value is `Sync` where the rule is.
unsafe impl<T: Send, V, P: Rule<T, V> + Sync> Sync for Cell<T, V, P> {}

// SAFETY: any thread may make the party's next step, and so reach the value.
unsafe impl<T: Send, V, P: Rule<T, V> + Sync> Send for Permit<'_, T, V, P> {}

// SAFETY: a `&` to a permit shows the value only if the view reads. Then `Known` asks that the value is `Sync`
// where the rule is.
unsafe impl<T, V, P: Rule<T, V> + Sync> Sync for Permit<'_, T, V, P> {}

// SAFETY: the new thread has the value alone, as the old one had.
unsafe impl<T: Send, V, P: Rule<T, V> + Sync> Send for WritePermit<'_, T, V, P> {}

// SAFETY: a `&` to a write permit lends a `&T` and no more.
unsafe impl<T: Sync, V, P: Rule<T, V>> Sync for WritePermit<'_, T, V, P> {}
