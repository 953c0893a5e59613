//! A value whose callers know the history of its writes. Begin with [`Register::new`]. The functions
//! [`read`], [`write`], [`update`] and [`change`] work on a register under a lock. A function whose name
//! begins with `try` does not wait for the lock.
//!
//! # Examples
//! ```
//! use spin::RwLock;
//! use spin_history::history::{BlankLog, History, Work, open};
//! use spin_history::register::{self, Register};
//! use std::sync::Wait;
//!
//! #[derive(Drop)]
//! struct Publish<'a, W>(&'a W);
//!
//! impl<W: Wait> Work for Publish<'_, W> {
//!     type Answer = (u64, u64);
//!
//!     fn run<H: History + Send + Sync>(self, blank: BlankLog) -> (u64, u64) {
//!         let rt = self.0;
//!         let log = blank.open::<u64, H>();
//!         let mut seen = log.snapshot();
//!         let lock: RwLock<Register<u64, H>> = RwLock::new(Register::new(1, log));
//!         let first = register::read_shared(rt, &lock, &mut seen);
//!         register::write(rt, &lock, 2, &mut seen);
//!         (first, register::read_shared(rt, &lock, &mut seen))
//!     }
//! }
//!
//! assert_eq!(rt; open(Publish(&rt)), (1, 2));
//! ```
ghost use Rattle.std.specs.Prelude.{◌≡◌, [], ◌∷◌, ◌++◌, Some, IfSome, IfNone};
ghost use Rattle.std.specs.Fn.{FnOnceReturnsAt, FnOnceReturnsAtMut};
ghost use mathlib.Core.List.{IsPrefix};
ghost use Rattle.spin_history.specs.Entries.{last, InOrder, InOrder-prop, IsAtOrAfter, WritesOne, ReadsIn, WritesIn, UpdatesIn};
ghost use Rattle.spin_history.specs.Known.{known_to, Finds, Inspects, Changes, ChangesBy, MayWrite};

use crate::growing::{Preorder, Unordered};
use crate::history::{History, Log, Snapshot};
use spin_core::lock::{Lock, SharedLock};
use std::marker::PhantomData;
use std::sync::Wait;

mod calls;

/// A value, and the log of all its writes: the last entry is the value.
///
/// Put it under any lock. Each call that reads or writes takes the caller's [`Snapshot`]. It brings the snapshot
/// up to date, unless it is a try that fails. The value changes only as the order `P` allows; the default order
/// allows every change.
#[derive(Drop)]
pub struct Register<T, H: History, P: Preorder<T> = Unordered> {
    value: T,
    log: Log<T, H>,
    order: PhantomData<P>,
    ghost latest: { last log.entries ≡ Some value },
    ghost ordered: { InOrder P.le log.entries } by { InOrder-prop P.le P.fact log.entries },
}

/// Calls a closure with the value of a register under a lock, and returns its answer.
///
/// # Contract
/// The closure has to be always callable. The caller's snapshot grows to a history that is in order, and the
/// closure is called with its last write (`ReadsIn`). Whether and when the call returns is not promised.
pub fn inspect<
    T,
    P: Preorder<T>,
    H: History,
    L: Lock<Register<T, H, P>>,
    A,
    F: FnOnce(&T) -> A,
    W: Wait,
>(rt: &W, lock: &L, by: F, seen: &mut Snapshot<T, H>) -> A
    requires { F.IsAlwaysCallable by }
    ensures { Inspects P.le (FnOnceReturnsAt F.FnOnce by) result seen.old seen.new }
{
    let known = seen.copy();
    let (answer, found) = lock.with(
        rt,
        move |register: &mut Register<T, H, P>| -> (A, Snapshot<T, H>)
            requires { F.IsAlwaysCallable by }
            ensures found { (value : T) × (FnOnceReturnsAt F.FnOnce by value result.0 × ReadsIn P.le known.entries value result.1.entries) }
            ensures same { register.new ≡ register.old }
        {
            let mut seen = known;
            let answer = register.inspect(by, &mut seen);
            (answer, seen)
        },
    );
    *seen = found;
    answer
}

/// Reads a register under a lock.
///
/// # Contract
/// The caller's snapshot grows to a history that is in order, and the answer is its last write. So it is the
/// last value that the caller saw, or a later one, whichever thread wrote it. Whether and when the call
/// returns is not promised.
pub fn read<T: Copy, P: Preorder<T>, H: History, L: Lock<Register<T, H, P>>, W: Wait>(
    rt: &W,
    lock: &L,
    seen: &mut Snapshot<T, H>,
) -> T
    ensures order { InOrder P.le (known_to seen.new) }
    ensures grown { IsAtOrAfter P.le (known_to seen.old) result }
    ensures later { IsPrefix (known_to seen.old) (known_to seen.new) }
    ensures last { last (known_to seen.new) ≡ Some result }
{
    inspect(
        rt,
        lock,
        |value: &T| -> T
            ensures { result ≡ value.now }
        { *value },
        seen,
    )
}

/// Calls a closure with the value of a register under a lock, and returns its answer. Other readers may read
/// at the same time.
///
/// # Contract
/// Like that of [`inspect`].
pub fn inspect_shared<
    T,
    P: Preorder<T>,
    H: History,
    L: SharedLock<Register<T, H, P>>,
    A,
    F: FnOnce(&T) -> A,
    W: Wait,
>(rt: &W, lock: &L, by: F, seen: &mut Snapshot<T, H>) -> A
    requires { F.IsAlwaysCallable by }
    ensures { Inspects P.le (FnOnceReturnsAt F.FnOnce by) result seen.old seen.new }
{
    let known = seen.copy();
    let (answer, found) = lock.with_shared(
        rt,
        move |register: &Register<T, H, P>| -> (A, Snapshot<T, H>)
            requires { F.IsAlwaysCallable by }
            ensures { (value : T) × (FnOnceReturnsAt F.FnOnce by value result.0 × ReadsIn P.le known.entries value result.1.entries) }
        {
            let mut seen = known;
            let answer = register.inspect(by, &mut seen);
            (answer, seen)
        },
    );
    *seen = found;
    answer
}

/// Reads a register under a lock. Other readers may read at the same time.
///
/// # Contract
/// Like that of [`read`].
pub fn read_shared<T: Copy, P: Preorder<T>, H: History, L: SharedLock<Register<T, H, P>>, W: Wait>(
    rt: &W,
    lock: &L,
    seen: &mut Snapshot<T, H>,
) -> T
    ensures order { InOrder P.le (known_to seen.new) }
    ensures grown { IsAtOrAfter P.le (known_to seen.old) result }
    ensures later { IsPrefix (known_to seen.old) (known_to seen.new) }
    ensures last { last (known_to seen.new) ≡ Some result }
{
    inspect_shared(
        rt,
        lock,
        |value: &T| -> T
            ensures { result ≡ value.now }
        { *value },
        seen,
    )
}

/// Tries to read a register under a lock, without waiting for the lock.
///
/// # Contract
/// `Some` has a value like that of [`read`]. After `None` the caller's snapshot is unchanged. The contract
/// does not say when the answer is `None`. A test shows that it is `None` only if the lock's `try_with` returns
/// its closure.
pub fn try_read<T: Copy, P: Preorder<T>, H: History, L: Lock<Register<T, H, P>>>(
    lock: &L,
    seen: &mut Snapshot<T, H>,
) -> Option<T>
    ensures found { IfSome result (λ value. Finds P.le value seen.old seen.new) }
    ensures refused { IfNone result (known_to seen.new ≡ known_to seen.old) }
{
    let known = seen.copy();
    let read = lock.try_with(
        move |register: &mut Register<T, H, P>| -> (T, Snapshot<T, H>)
            ensures found { ReadsIn P.le known.entries result.0 result.1.entries }
            ensures same { register.new ≡ register.old }
        {
            let mut seen = known;
            let value = register.read(&mut seen);
            (value, seen)
        },
    );
    let (value, found) = read.ok()?;
    *seen = found;
    Some(value)
}

/// Tries to read a register under a lock, together with other readers. Fails if the lock refuses readers, for
/// example while a writer holds it.
///
/// # Contract
/// Like that of [`try_read`]. Whether and when the call returns is not promised.
pub fn try_read_shared<
    T: Copy,
    P: Preorder<T>,
    H: History,
    L: SharedLock<Register<T, H, P>>,
    W: Wait,
>(rt: &W, lock: &L, seen: &mut Snapshot<T, H>) -> Option<T>
    ensures found { IfSome result (λ value. Finds P.le value seen.old seen.new) }
    ensures refused { IfNone result (known_to seen.new ≡ known_to seen.old) }
{
    let known = seen.copy();
    let read = lock.try_with_shared(
        rt,
        move |register: &Register<T, H, P>| -> (T, Snapshot<T, H>)
            ensures { ReadsIn P.le known.entries result.0 result.1.entries }
        {
            let mut seen = known;
            let value = register.read(&mut seen);
            (value, seen)
        },
    );
    let (value, found) = read.ok()?;
    *seen = found;
    Some(value)
}

/// Calls a closure with the value of a register under a lock, and returns its answer. The closure may change
/// the value.
///
/// # Contract
/// The closure has to be always callable. Whatever value it finds, it has to leave one that may follow in the
/// order. The closure is called with the last write of a history that extends the caller's snapshot. The
/// value that it leaves is the next write, with no other write in between. In the order, this value is at or
/// after the last one that the caller saw. Afterwards it is the last write in the caller's snapshot
/// (`UpdatesIn`). Whether and when the call returns is not promised.
pub fn change<
    T,
    P: Preorder<T>,
    H: History,
    L: Lock<Register<T, H, P>>,
    A,
    F: FnOnce(&mut T) -> A,
    W: Wait,
>(rt: &W, lock: &L, by: F, seen: &mut Snapshot<T, H>) -> A
    requires callable { F.IsAlwaysCallable by }
    requires grows { (x y : T) (a : A) → FnOnceReturnsAtMut F.FnOnce by x a y → P.le x y }
    ensures { Changes P.le (FnOnceReturnsAtMut F.FnOnce by) result seen.old seen.new }
{
    let known = seen.copy();
    let (answer, found) = lock.with(
        rt,
        move |register: &mut Register<T, H, P>| -> (A, Snapshot<T, H>)
            requires callable { F.IsAlwaysCallable by }
            requires grows { (x y : T) (a : A) → FnOnceReturnsAtMut F.FnOnce by x a y → P.le x y }
            ensures changed { (before after : T) × (FnOnceReturnsAtMut F.FnOnce by before result.0 after × UpdatesIn P.le known.entries before after result.1.entries) }
            ensures one { register.new.log.entries ≡ register.old.log.entries ++ register.new.value ∷ [] }
        {
            let mut seen = known;
            let answer = register.change(by, &mut seen);
            (answer, seen)
        },
    );
    *seen = found;
    answer
}

/// Writes to a register under a lock.
///
/// # Contract
/// In the order, the new value has to be allowed to follow any other. The caller's snapshot grows to a
/// history whose last write is the new value. Whether and when the call returns is not promised.
pub fn write<T: Drop, P: Preorder<T>, H: History, L: Lock<Register<T, H, P>>, W: Wait>(
    rt: &W,
    lock: &L,
    new: T,
    seen: &mut Snapshot<T, H>,
)
    requires { (x : T) → P.le x new }
    ensures order { InOrder P.le (known_to seen.new) }
    ensures grown { IsAtOrAfter P.le (known_to seen.old) new }
    ensures later { WritesOne (known_to seen.old) new (known_to seen.new) }
    ensures last { last (known_to seen.new) ≡ Some new }
{
    change(
        rt,
        lock,
        move |value: &mut T|
            ensures { value.new ≡ new }
        {
            *value = new;
        },
        seen,
    );
}

/// Writes, to a register under a lock, the value that a closure returns for the current one.
///
/// # Contract
/// The closure has to be always callable. Whatever value it finds, it has to return one that may follow in
/// the order. The closure is called with the last write, and its answer is the next write, as with [`change`]
/// (`UpdatesIn`). Whether and when the call returns is not promised.
pub fn update<
    T: Drop,
    P: Preorder<T>,
    H: History,
    L: Lock<Register<T, H, P>>,
    F: FnOnce(&T) -> T,
    W: Wait,
>(rt: &W, lock: &L, by: F, seen: &mut Snapshot<T, H>)
    requires callable { F.IsAlwaysCallable by }
    requires grows { (x y : T) → FnOnceReturnsAt F.FnOnce by x y → P.le x y }
    ensures { ChangesBy P.le (FnOnceReturnsAt F.FnOnce by) seen.old seen.new }
{
    change(
        rt,
        lock,
        move |value: &mut T|
            requires { F.IsAlwaysCallable by }
            ensures { FnOnceReturnsAt F.FnOnce by value.old value.new }
        {
            *value = by(value);
        },
        seen,
    );
}

/// Tries to write to a register under a lock, without waiting for the lock. Returns `true` if it wrote.
///
/// # Contract
/// In the order, the value has to be allowed to follow any other. After `true` it is written as by [`write`].
/// After `false` the caller's snapshot is unchanged. The contract does not say when the answer is `false`. A
/// test shows that it is `false` only if the lock's `try_with` returns its closure.
///
/// # Examples
/// ```
/// use spin::RwLock;
/// use spin_history::history::{BlankLog, History, Work, open};
/// use spin_history::register::{self, Register};
/// use std::sync::Wait;
///
/// #[derive(Drop)]
/// struct TryBesideReader<'a, W>(&'a W);
///
/// impl<W: Wait> Work for TryBesideReader<'_, W> {
///     type Answer = (bool, bool);
///
///     fn run<H: History + Send + Sync>(self, blank: BlankLog) -> (bool, bool) {
///         let log = blank.open::<u64, H>();
///         let mut seen = log.snapshot();
///         let lock: RwLock<Register<u64, H>> = RwLock::new(Register::new(1, log));
///         let reader = lock.read(self.0);
///         let beside = register::try_write(&lock, 2, &mut seen);
///         drop(reader);
///         (beside, register::try_write(&lock, 2, &mut seen))
///     }
/// }
///
/// assert_eq!(rt; open(TryBesideReader(&rt)), (false, true));
/// ```
pub fn try_write<T: Drop, P: Preorder<T>, H: History, L: Lock<Register<T, H, P>>>(
    lock: &L,
    new: T,
    seen: &mut Snapshot<T, H>,
) -> bool
    requires { (x : T) → P.le x new }
    ensures { MayWrite P.le result new seen.old seen.new }
{
    let known = seen.copy();
    let wrote = lock.try_with(
        move |register: &mut Register<T, H, P>| -> Snapshot<T, H>
            requires { (x : T) → P.le x new }
            ensures wrote { WritesIn P.le known.entries new result.entries }
            ensures one { register.new.log.entries ≡ register.old.log.entries ++ new ∷ [] }
        {
            let mut seen = known;
            register.write(new, &mut seen);
            seen
        },
    );
    match wrote {
        Ok(found) => {
            *seen = found;
            true
        }
        Err(_) => false,
    }
}
