//! A cache that threads share: a table under an `RwLock`, to which the one reader that may upgrade adds
//! answers. Begin with [`Answers`] and [`Cache::answer`].
ghost use Rattle.std.specs.Prelude.{Bool, Ok, IsTrue, IfOk};
ghost use Rattle.std.specs.Fn.{FnOnceTakesAt, FnOnceReturnsAt};

pub use self::table::Table;
use spin_core::relax::{RelaxStrategy, Spin};
use spin_rwlock::rwlock::{RwLock, RwLockReadGuard};
use std::alloc::{AllocError, Allocator, Global};
use std::hash::Hash;
use std::sync::Wait;

pub mod logged;
mod table;

/// Which answers are right for a key.
pub trait Answers {
    /// The type of keys. Equal keys share one answer.
    type Key: Eq + Hash + Drop;

    /// The type of answers. A caller gets a clone of the kept value; an `Arc` makes that cheap.
    type Value: Clone;

    ghost may: { Self.Key → Self.Value → Bool };

    // Equal keys share an answer.
    ghost respects_eq: { (k q : Self.Key) (v : Self.Value) → IsTrue (Self.Key.eq k q) → IsTrue (may k v) → IsTrue (may q v) };

    // A clone of an answer is an answer.
    ghost respects_clone: { (k : Self.Key) (v w : Self.Value) → Self.Value.is_clone v w → IsTrue (may k v) → IsTrue (may k w) };
}

/// A cache of answers by key. Once a key has an answer, this answer is kept.
///
/// A call looks for the answer as a reader, beside other readers. If there is none, the one upgradable reader
/// makes it, while other readers may read the existing answers. It becomes the writer only to add the new
/// answer.
#[derive(Drop)]
pub struct Cache<C: Answers, A: Allocator = Global, R = Spin> {
    table: RwLock<Table<C, A>, R>,
}

impl<C: Answers, A: Allocator + Clone, R: RelaxStrategy> Cache<C, A, R> {
    /// Creates a cache without answers.
    pub fn new(alloc: A) -> Self {
        Cache {
            table: RwLock::new(Table::new(alloc)),
        }
    }

    /// Acquires shared access to the existing answers, spinning until it succeeds. No answer is added while
    /// the guard lives.
    ///
    /// # Contract
    /// Whether and when the call returns is not promised.
    pub fn read<W: Wait>(&self, rt: &W) -> RwLockReadGuard<'_, Table<C, A>, R> {
        self.table.read(rt)
    }

    /// Returns the answer for `key`. If there is none yet, the call makes it by `make`.
    ///
    /// It fails if `make` fails, or if an allocation fails. Then no answer is added. `make` may read this
    /// cache, but the call never returns if `make` asks the cache for an answer that does not exist.
    ///
    /// # Contract
    /// `make` has to be callable with `key`, and each answer that it may return has to be right for this key
    /// (`may`). On `Ok` the answer is right for this key, whichever thread made it. Whether and when the call
    /// returns is not promised.
    pub fn answer<W: Wait, E: From<AllocError>, F: FnOnce(&C::Key) -> Result<C::Value, E>>(
        &self,
        rt: &W,
        key: C::Key,
        make: F,
    ) -> Result<C::Value, E>
        requires callable { FnOnceTakesAt F.FnOnce make key }
        requires may { (value : _) → FnOnceReturnsAt F.FnOnce make key (Ok value) → IsTrue (C.may key value) }
        ensures { IfOk result (λ value. IsTrue (C.may key value)) }
    {
        if let Some(value) = self.table.read(rt).answer(&key) {
            return Ok(value.clone()?);
        }
        self.fill(rt, key, make)
    }

    #[cold]
    #[inline(never)]
    fn fill<W: Wait, E: From<AllocError>, F: FnOnce(&C::Key) -> Result<C::Value, E>>(
        &self,
        rt: &W,
        key: C::Key,
        make: F,
    ) -> Result<C::Value, E>
        requires callable { FnOnceTakesAt F.FnOnce make key }
        requires may { (value : _) → FnOnceReturnsAt F.FnOnce make key (Ok value) → IsTrue (C.may key value) }
        ensures { IfOk result (λ value. IsTrue (C.may key value)) }
    {
        let guard = self.table.upgradeable_read(rt);
        if let Some(value) = guard.answer(&key) {
            return Ok(value.clone()?);
        }
        let value = make(&key)?;
        let answer = value.clone()?;
        // From the look-up above to the `add` below the lock is not released, so the key still has no answer.
        let mut guard = guard.upgrade(rt);
        guard.add(key, value)?;
        Ok(answer)
    }
}
