//! A cache with a log of its answers. If a caller's snapshot has an answer for a key, each later call with
//! this key and snapshot returns a clone of that answer, or fails. Begin with [`LoggedCache::answer`].
ghost use Rattle.std.specs.Prelude.{◌≡◌, [], Some, None, Ok, IsTrue, IfSome, IfOk, OnOk, OnErr};
ghost use Rattle.std.specs.Fn.{FnOnceTakesAt, FnOnceReturnsAt};
ghost use Rattle.std.specs.Option.{ForSome, option_copied};
ghost use Rattle.std.specs.HashMap.{get};
ghost use mathlib.Core.List.{IsPrefix};
ghost use Rattle.spin_examples.specs.Logged.{answer_in, IsLogged};

use super::{Answers, Table};
use spin_core::relax::{RelaxStrategy, Spin};
use spin_history::history::{History, Log, Snapshot};
use spin_rwlock::rwlock::{RwLock, RwLockReadGuard};
use std::alloc::{AllocError, Allocator, Global};
use std::sync::Wait;

/// The answers made so far, by key, and their log.
#[derive(Drop)]
pub struct LoggedTable<C: Answers, A: Allocator, H: History> {
    table: Table<C, A>,
    log: Log<(C::Key, C::Value), H>,
    ghost told: { (k : C.Key) → get C.Key.eq table.map k ≡ answer_in C.Key.eq log.entries k },
}

impl<C: Answers, A: Allocator, H: History> LoggedTable<C, A, H> {
    fn new(alloc: A, log: Log<(C::Key, C::Value), H>) -> Self
        requires { log.entries ≡ [] }
    {
        LoggedTable {
            table: Table::new(alloc),
            log,
        }
    }

    /// Returns the answer for `key`, or `None` if none was made, and brings `seen` up to date.
    ///
    /// # Contract
    /// Afterwards `seen` has the whole log (`exact`). The answer is the one that the log has for the key
    /// (`known`), and is right for this key (`may`). If `seen` had an answer for the key before, the answer
    /// is the same one (`same`). `seen` keeps all entries that it had (`later`).
    pub fn answer(
        &self,
        key: &C::Key,
        seen: &mut Snapshot<(C::Key, C::Value), H>,
    ) -> Option<&C::Value>
        ensures same { ForSome (answer_in C.Key.eq seen.old.entries key.now) (λ answer. option_copied result ≡ Some answer) }
        ensures known { option_copied result ≡ answer_in C.Key.eq seen.new.entries key.now }
        ensures may { IfSome result (λ value. IsTrue (C.may key.now value.now)) }
        ensures later { IsPrefix seen.old.entries seen.new.entries }
        ensures exact { seen.new.entries ≡ self.now.log.entries }
    {
        self.log.observe(seen);
        self.table.answer(key)
    }

    /// Adds an answer for a key that has none. Fails if an allocation fails. The other answers do not change.
    fn add(
        &mut self,
        key: C::Key,
        value: C::Value,
        seen: &mut Snapshot<(C::Key, C::Value), H>,
    ) -> Result<(), AllocError>
    where
        A: Clone,
        requires may { IsTrue (C.may key value) }
        requires fresh { answer_in C.Key.eq self.old.log.entries key ≡ None }
        ensures known { OnOk result (answer_in C.Key.eq seen.new.entries key ≡ Some value) }
        ensures later { OnOk result (IsPrefix seen.old.entries seen.new.entries) }
        ensures err { OnErr result (seen.new.entries ≡ seen.old.entries) }
    {
        let LoggedTable { table, log } = self;
        table.reserve()?;
        let entry = (key, value);
        log.append(&entry);
        let (key, value) = entry;
        // There is room for the answer.
        table.add(key, value)?;
        log.observe(seen);
        Ok(())
    }
}

/// A [`Cache`](super::Cache) for callers that rely on an answer to stay the same.
///
/// Each caller has a [`Snapshot`] of the log: the answers that it has seen, and all earlier ones. A call
/// brings the snapshot up to date. The log is ghost state: it takes no memory and no time.
#[derive(Drop)]
pub struct LoggedCache<C: Answers, H: History, A: Allocator = Global, R = Spin> {
    table: RwLock<LoggedTable<C, A, H>, R>,
}

impl<C: Answers, H: History, A: Allocator + Clone, R: RelaxStrategy> LoggedCache<C, H, A, R> {
    /// Creates a cache without answers.
    ///
    /// # Contract
    /// The log has to be empty.
    pub fn new(alloc: A, log: Log<(C::Key, C::Value), H>) -> Self
        requires { log.entries ≡ [] }
    {
        LoggedCache {
            table: RwLock::new(LoggedTable::new(alloc, log)),
        }
    }

    /// Acquires shared access to the existing answers, as [`Cache::read`](super::Cache::read) does.
    ///
    /// # Contract
    /// Whether and when the call returns is not promised.
    pub fn read<W: Wait>(&self, rt: &W) -> RwLockReadGuard<'_, LoggedTable<C, A, H>, R> {
        self.table.read(rt)
    }

    /// Returns the answer for `key`, and makes it if there is none yet, as
    /// [`Cache::answer`](super::Cache::answer) does. Brings `seen` up to date.
    ///
    /// # Contract
    /// `make` has to satisfy what [`Cache::answer`](super::Cache::answer) asks of it. On `Ok` the answer is
    /// right for this key (`may`), and is a clone of the one that `seen` then has for it (`known`). If `seen`
    /// had an answer for the key before, the answer is a clone of that one (`same`). `seen` keeps all entries
    /// that it had, also on `Err` (`later`). Whether and when the call returns is not promised.
    pub fn answer<W: Wait, E: From<AllocError>, F: FnOnce(&C::Key) -> Result<C::Value, E>>(
        &self,
        rt: &W,
        key: C::Key,
        make: F,
        seen: &mut Snapshot<(C::Key, C::Value), H>,
    ) -> Result<C::Value, E>
        requires callable { FnOnceTakesAt F.FnOnce make key }
        requires may { (value : _) → FnOnceReturnsAt F.FnOnce make key (Ok value) → IsTrue (C.may key value) }
        ensures may { IfOk result (λ value. IsTrue (C.may key value)) }
        ensures same { ForSome (answer_in C.Key.eq seen.old.entries key) (λ answer. IfOk result (λ value. C.Value.is_clone answer value)) }
        ensures known { IfOk result (λ value. IsLogged C.Key.eq C.Value.is_clone seen.new.entries key value) }
        ensures later { IsPrefix seen.old.entries seen.new.entries }
    {
        if let Some(value) = self.table.read(rt).answer(&key, seen) {
            return Ok(value.clone()?);
        }
        self.fill(rt, key, make, seen)
    }

    #[cold]
    #[inline(never)]
    fn fill<W: Wait, E: From<AllocError>, F: FnOnce(&C::Key) -> Result<C::Value, E>>(
        &self,
        rt: &W,
        key: C::Key,
        make: F,
        seen: &mut Snapshot<(C::Key, C::Value), H>,
    ) -> Result<C::Value, E>
        requires callable { FnOnceTakesAt F.FnOnce make key }
        requires may { (value : _) → FnOnceReturnsAt F.FnOnce make key (Ok value) → IsTrue (C.may key value) }
        ensures may { IfOk result (λ value. IsTrue (C.may key value)) }
        ensures same { ForSome (answer_in C.Key.eq seen.old.entries key) (λ answer. IfOk result (λ value. C.Value.is_clone answer value)) }
        ensures known { IfOk result (λ value. IsLogged C.Key.eq C.Value.is_clone seen.new.entries key value) }
        ensures later { IsPrefix seen.old.entries seen.new.entries }
    {
        let guard = self.table.upgradeable_read(rt);
        if let Some(value) = guard.answer(&key, seen) {
            return Ok(value.clone()?);
        }
        let value = make(&key)?;
        let answer = value.clone()?;
        // From the look-up above to the `add` below the lock is not released, so the key still has no answer.
        let mut guard = guard.upgrade(rt);
        guard.add(key, value, seen)?;
        Ok(answer)
    }
}
