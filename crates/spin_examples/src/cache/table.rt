//! A table of answers that only grows: no entry is removed or changed. Begin with [`Table::answer`].
ghost use Rattle.std.specs.Prelude.{◌≡◌, ◌<◌, Some, None, IsTrue, IfSome, IsOk, OnOk, OnErr};
ghost use Rattle.std.specs.Option.{ForSome, option_copied};
ghost use Rattle.std.specs.HashMap.{get, spare, IsEmpty, IsUnchanged, Updates};

use super::Answers;
use std::alloc::{AllocError, Allocator};
use std::collections::HashMap;
use std::hash::{BuildHasherDefault, FoldHasher};
use std::marker::PhantomData;

/// The answers made so far, by key.
#[derive(Drop)]
pub struct Table<C: Answers, A: Allocator> {
    map: HashMap<C::Key, C::Value, BuildHasherDefault<FoldHasher>, A>,
    answers: PhantomData<C>,
    ghost sound: { (k : C.Key) → ForSome (get C.Key.eq map k) (λ v. IsTrue (C.may k v)) },
}

impl<C: Answers, A: Allocator> Table<C, A> {
    pub(super) fn new(alloc: A) -> Self
        ensures { IsEmpty result.map }
    {
        Table {
            map: HashMap::new(alloc),
            answers: PhantomData,
        }
    }

    /// Returns the answer for `key`, or `None` if none was made.
    ///
    /// # Contract
    /// The answer is the one in the table (`exact`), and is right for this key (`may`).
    pub fn answer(&self, key: &C::Key) -> Option<&C::Value>
        ensures exact { option_copied result ≡ get C.Key.eq self.now.map key.now }
        ensures may { IfSome result (λ value. IsTrue (C.may key.now value.now)) }
    {
        self.map.get(key)
    }

    /// Makes room for one more answer. Fails if an allocation fails.
    pub(super) fn reserve(&mut self) -> Result<(), AllocError>
    where
        A: Clone,
        ensures room { OnOk result (0 < spare self.new.map) }
        ensures kept { (k : C.Key) → get C.Key.eq self.new.map k ≡ get C.Key.eq self.old.map k }
    {
        self.map.reserve(1)
    }

    /// Adds an answer for a key that has none. Fails if an allocation fails. The other answers do not change.
    pub(super) fn add(&mut self, key: C::Key, value: C::Value) -> Result<(), AllocError>
    where
        A: Clone,
        requires may { IsTrue (C.may key value) }
        requires fresh { get C.Key.eq self.old.map key ≡ None }
        ensures added { OnOk result (get C.Key.eq self.new.map key ≡ Some value) }
        ensures kept { (k : C.Key) (v : C.Value) → get C.Key.eq self.old.map k ≡ Some v → get C.Key.eq self.new.map k ≡ Some v }
        ensures exact { OnOk result (Updates C.Key.eq self.old.map self.new.map key (Some value)) }
        ensures succeeds { 0 < spare self.old.map → IsOk result }
        ensures err { OnErr result (IsUnchanged self.old.map self.new.map) }
    {
        self.map.insert(key, value)?;
        Ok(())
    }
}
