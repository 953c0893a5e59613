//! The calls of a register that its caller owns or borrows.
ghost use Rattle.std.specs.Prelude.{◌≡◌, [], ◌∷◌, ◌++◌, Some};
ghost use Rattle.std.specs.Fn.{FnOnceReturnsAt, FnOnceReturnsAtMut};
ghost use mathlib.Core.List.{IsPrefix};
ghost use Rattle.spin_history.specs.Entries.{last, InOrder, IsAtOrAfter, WritesOne};
ghost use Rattle.spin_history.specs.Known.{known_to, closed_entries};
ghost use Rattle.spin_history.specs.Registers.{inside, writes_of, Overwrites};

use super::Register;
use crate::growing::Preorder;
use crate::history::{ClosedLog, History, Log, Snapshot};
use std::marker::PhantomData;

impl<T, H: History, P: Preorder<T>> Register<T, H, P> {
    /// Creates a register that holds `value`.
    ///
    /// # Contract
    /// The value becomes the next entry of the log. The log has to be in order with this entry. An empty log
    /// accepts any value.
    #[tactic(auto, using(crate::proofs::Entries::last_is))]
    pub fn new(value: T, log: Log<T, H>) -> Self
        requires { InOrder P.le (log.entries ++ value ∷ []) }
        ensures value { result.value ≡ value }
        ensures exact { writes_of result ≡ log.entries ++ value ∷ [] }
    {
        let mut log = log;
        log.append(&value);
        Register {
            value,
            log,
            order: PhantomData,
        }
    }

    /// Returns a snapshot of all writes so far.
    ///
    /// # Contract
    /// The snapshot has the whole log, whose last entry is the value.
    pub fn snapshot(&self) -> Snapshot<T, H>
        ensures exact { known_to result ≡ writes_of self.now }
        ensures last { last (known_to result) ≡ Some (inside self.now) }
    {
        self.log.snapshot()
    }

    /// Returns a reference to the value.
    ///
    /// # Contract
    /// The caller's snapshot grows to a history that is in order (`order`), and the value is its last write.
    /// So the caller gets the last value that it saw, or a later one, whichever thread wrote it (`grown`).
    pub fn get(&self, seen: &mut Snapshot<T, H>) -> &T
        ensures order { InOrder P.le (known_to seen.new) }
        ensures grown { IsAtOrAfter P.le (known_to seen.old) result.now }
        ensures later { IsPrefix (known_to seen.old) (known_to seen.new) }
        ensures last { last (known_to seen.new) ≡ Some result.now }
        ensures exact { known_to seen.new ≡ writes_of self.now }
        ensures value { result.now ≡ inside self.now }
    {
        self.log.observe(seen);
        &self.value
    }

    /// Calls a closure with the value, and returns its answer.
    ///
    /// # Contract
    /// The closure has to be always callable, and is called once. Its argument is the value that
    /// [`get`](Self::get) returns.
    pub fn inspect<A, F: FnOnce(&T) -> A>(&self, by: F, seen: &mut Snapshot<T, H>) -> A
        requires { F.IsAlwaysCallable by }
        ensures called { FnOnceReturnsAt F.FnOnce by (inside self.now) result }
        ensures order { InOrder P.le (known_to seen.new) }
        ensures grown { IsAtOrAfter P.le (known_to seen.old) (inside self.now) }
        ensures later { IsPrefix (known_to seen.old) (known_to seen.new) }
        ensures last { last (known_to seen.new) ≡ Some (inside self.now) }
        ensures exact { known_to seen.new ≡ writes_of self.now }
    {
        by(self.get(seen))
    }

    /// Calls a closure with the value, and returns its answer. The closure may change the value in place.
    ///
    /// # Contract
    /// The closure has to be always callable. Whatever value it finds, it has to leave one that may follow in
    /// the order. The closure is called with the last write, and the value that it leaves is the next write
    /// (`Updates`). In the order, the new value is at or after the last one that the caller saw.
    ///
    /// # Examples
    /// ```
    /// use spin_history::history::{BlankLog, History, Work, open};
    /// use spin_history::register::Register;
    ///
    /// #[derive(Drop)]
    /// struct AddInPlace;
    ///
    /// impl Work for AddInPlace {
    ///     type Answer = (u64, u64);
    ///
    ///     fn run<H: History + Send + Sync>(self, blank: BlankLog) -> (u64, u64) {
    ///         let log = blank.open::<u64, H>();
    ///         let mut seen = log.snapshot();
    ///         let mut register: Register<u64, H> = Register::new(5, log);
    ///         let before = register.change(
    ///             |value| {
    ///                 let before = *value;
    ///                 *value = value.saturating_add(1);
    ///                 before
    ///             },
    ///             &mut seen,
    ///         );
    ///         (before, register.read(&mut seen))
    ///     }
    /// }
    ///
    /// assert_eq!(rt; open(AddInPlace), (5, 6));
    /// ```
    #[tactic(auto, using(crate::proofs::Entries::last_is))]
    pub fn change<A, F: FnOnce(&mut T) -> A>(&mut self, by: F, seen: &mut Snapshot<T, H>) -> A
        requires callable { F.IsAlwaysCallable by }
        requires grows { (x y : T) (a : A) → FnOnceReturnsAtMut F.FnOnce by x a y → P.le x y }
        ensures order { InOrder P.le (known_to seen.new) }
        ensures grown { IsAtOrAfter P.le (known_to seen.old) (inside self.new) }
        ensures called { FnOnceReturnsAtMut F.FnOnce by (inside self.old) result (inside self.new) }
        ensures later { Overwrites seen.old self.old self.new seen.new }
        ensures last { last (known_to seen.new) ≡ Some (inside self.new) }
        ensures known { IsPrefix (known_to seen.old) (writes_of self.old) }
        ensures exact { known_to seen.new ≡ writes_of self.old ++ (inside self.new) ∷ [] }
        ensures left { writes_of self.new ≡ writes_of self.old ++ (inside self.new) ∷ [] }
    {
        let Register {
            value,
            log,
            order: _,
        } = self;
        log.observe(seen);
        let answer = by(value);
        log.append(value);
        log.observe(seen);
        answer
    }

    /// Compares two references to the register that are held at the same time.
    ///
    /// # Contract
    /// Both show the same value and the same history.
    pub fn same(&self, other: &Register<T, H, P>)
        ensures value { inside self.now ≡ inside other.now }
        ensures entries { writes_of self.now ≡ writes_of other.now }
    {
        self.log.same(&other.log);
    }

    /// Consumes the register. Returns the value and the whole history, to which no thread can append any
    /// more.
    ///
    /// # Contract
    /// The history is in order, and the value is its last entry. Each snapshot is a prefix of the history, as
    /// [`ClosedLog::observe`] shows.
    ///
    /// # Examples
    /// ```
    /// use spin_history::history::{BlankLog, History, Work, open};
    /// use spin_history::register::Register;
    ///
    /// #[derive(Drop)]
    /// struct WriteAndClose;
    ///
    /// impl Work for WriteAndClose {
    ///     type Answer = u64;
    ///
    ///     fn run<H: History + Send + Sync>(self, blank: BlankLog) -> u64 {
    ///         let log = blank.open::<u64, H>();
    ///         let mut seen = log.snapshot();
    ///         let mut register: Register<u64, H> = Register::new(1, log);
    ///         register.write(2, &mut seen);
    ///         let (last, closed) = register.close();
    ///         closed.observe(&mut seen);
    ///         last
    ///     }
    /// }
    ///
    /// assert_eq!(rt; open(WriteAndClose), 2);
    /// ```
    pub fn close(self) -> (T, ClosedLog<T, H>)
        ensures ordered { InOrder P.le (closed_entries result.1) }
        ensures value { result.0 ≡ self.value }
        ensures exact { closed_entries result.1 ≡ writes_of self }
        ensures last { last (closed_entries result.1) ≡ Some result.0 }
    {
        let Self {
            value,
            log,
            order: _,
        } = self;
        (value, log.close())
    }
}

impl<T: Drop, H: History, P: Preorder<T>> Register<T, H, P> {
    /// Writes a value.
    ///
    /// # Contract
    /// In the order, the value has to be allowed to follow any other. The caller's snapshot grows to a
    /// history whose last write is the value (`WritesOne`). The entry before it is the register's former value.
    pub fn write(&mut self, new: T, seen: &mut Snapshot<T, H>)
        requires { (x : T) → P.le x new }
        ensures order { InOrder P.le (known_to seen.new) }
        ensures grown { IsAtOrAfter P.le (known_to seen.old) new }
        ensures later { WritesOne (known_to seen.old) new (known_to seen.new) }
        ensures last { last (known_to seen.new) ≡ Some new }
        ensures value { inside self.new ≡ new }
        ensures exact { known_to seen.new ≡ writes_of self.old ++ new ∷ [] }
        ensures left { writes_of self.new ≡ writes_of self.old ++ new ∷ [] }
    {
        self.change(
            move |value: &mut T|
                ensures { value.new ≡ new }
            {
                *value = new;
            },
            seen,
        );
    }

    /// Writes the value that a closure returns for the current one.
    ///
    /// # Contract
    /// The closure has to be always callable. Whatever value it finds, it has to return one that may follow
    /// in the order. The closure is called with the last write, and its answer is the next write (`Updates`).
    /// In the order, the new value is at or after the last one that the caller saw.
    pub fn update<F: FnOnce(&T) -> T>(&mut self, by: F, seen: &mut Snapshot<T, H>)
        requires callable { F.IsAlwaysCallable by }
        requires grows { (x y : T) → FnOnceReturnsAt F.FnOnce by x y → P.le x y }
        ensures order { InOrder P.le (known_to seen.new) }
        ensures grown { IsAtOrAfter P.le (known_to seen.old) (inside self.new) }
        ensures called { FnOnceReturnsAt F.FnOnce by (inside self.old) (inside self.new) }
        ensures later { Overwrites seen.old self.old self.new seen.new }
        ensures last { last (known_to seen.new) ≡ Some (inside self.new) }
        ensures known { IsPrefix (known_to seen.old) (writes_of self.old) }
        ensures exact { known_to seen.new ≡ writes_of self.old ++ (inside self.new) ∷ [] }
        ensures left { writes_of self.new ≡ writes_of self.old ++ (inside self.new) ∷ [] }
    {
        self.change(
            move |value: &mut T|
                requires { F.IsAlwaysCallable by }
                ensures { FnOnceReturnsAt F.FnOnce by value.old value.new }
            {
                *value = by(value);
            },
            seen,
        );
    }
}

impl<T: Copy, H: History, P: Preorder<T>> Register<T, H, P> {
    /// Returns a copy of the value.
    ///
    /// # Contract
    /// Like that of [`get`](Register::get).
    pub fn read(&self, seen: &mut Snapshot<T, H>) -> T
        ensures order { InOrder P.le (known_to seen.new) }
        ensures grown { IsAtOrAfter P.le (known_to seen.old) result }
        ensures later { IsPrefix (known_to seen.old) (known_to seen.new) }
        ensures last { last (known_to seen.new) ≡ Some result }
        ensures exact { known_to seen.new ≡ writes_of self.now }
        ensures value { result ≡ inside self.now }
    {
        *self.get(seen)
    }
}
