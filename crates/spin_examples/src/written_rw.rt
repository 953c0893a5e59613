//! A reader of an `RwLock` reads the value that was written last in the lock's history.
ghost use Rattle.std.specs.Prelude.{◌≡◌, ◌⊎◌, true};
ghost use mathlib.Core.List.{IsPrefix};
ghost use Rattle.spin.specs.RwPasses.{history, lock_of, name_of, opening, opening_of};
ghost use Rattle.spin.specs.Values.{IsLast, latest};

use spin::Spin;
use spin::rwlock::{self, RwLock};
use std::sync::Wait;
use std::thread::{Threads, join};

type Pass<'a> = rwlock::Pass<'a, u64, Spin>;

/// Writes the value. Afterwards it is the last one in the history that the pass knows.
fn write<'a, W: Wait>(rt: &W, pass: Pass<'a>, value: u64) -> Pass<'a>
    ensures left { IsLast (opening_of pass.entry) (history result) value }
    ensures lock { lock_of result ≡ lock_of pass.entry }
{
    let mut guard = pass.write(rt);
    *guard = value;
    RwLock::unlock(guard)
}

/// Reads the value. It is the last one in the history that the pass knows. Other readers may read at the same time.
fn read<'a, W: Wait>(rt: &W, pass: Pass<'a>) -> (u64, Pass<'a>)
    ensures found { IsLast (opening_of pass.entry) (history result.1) result.0 }
    ensures lock { lock_of result.1 ≡ lock_of pass.entry }
{
    let guard = pass.read(rt);
    let value = *guard;
    (value, RwLock::unlock_shared(guard))
}

/// Writes a value in one thread, and reads in two others.
///
/// # Contract
/// Of the writer and the first reader, one knows a prefix of the history that the other knows
/// (`written_read`). The same is true of the two readers (`both_read`). The value written is the last one in
/// the history that the writer knows (`left`). The value that a reader read is the last one in the history
/// that this reader knows (`first`, `second`).
pub fn write_beside_readers<'a, W: Threads + Wait + Sync>(
    rt: &W,
    lock: &'a RwLock<u64>,
    value: u64,
) -> (Pass<'a>, ((u64, Pass<'a>), (u64, Pass<'a>)))
    requires { (opening lock.now).told ≡ true }
    ensures written_read { IsPrefix (history result.0) (history result.1.0.1) ⊎ IsPrefix (history result.1.0.1) (history result.0) }
    ensures both_read { IsPrefix (history result.1.0.1) (history result.1.1.1) ⊎ IsPrefix (history result.1.1.1) (history result.1.0.1) }
    ensures left { latest (opening lock.now).value (history result.0) ≡ value }
    ensures first { latest (opening lock.now).value (history result.1.0.1) ≡ result.1.0.0 }
    ensures second { latest (opening lock.now).value (history result.1.1.1) ≡ result.1.1.0 }
{
    let all = join(
        rt,
        || -> Pass<'_>
            ensures lock { lock_of result ≡ name_of lock.entry.now }
            ensures left { IsLast (opening lock.entry.now) (history result) value }
        { write(rt, lock.pass(), value) },
        || -> ((u64, Pass<'_>), (u64, Pass<'_>))
            ensures lock { (lock_of result.0.1 ≡ name_of lock.entry.now) × (lock_of result.1.1 ≡ name_of lock.entry.now) }
            ensures first { IsLast (opening lock.entry.now) (history result.0.1) result.0.0 }
            ensures second { IsLast (opening lock.entry.now) (history result.1.1) result.1.0 }
        {
            join(
                rt,
                || -> (u64, Pass<'_>)
                    ensures lock { lock_of result.1 ≡ name_of lock.entry.now }
                    ensures found { IsLast (opening lock.entry.now) (history result.1) result.0 }
                { read(rt, lock.pass()) },
                || -> (u64, Pass<'_>)
                    ensures lock { lock_of result.1 ≡ name_of lock.entry.now }
                    ensures found { IsLast (opening lock.entry.now) (history result.1) result.0 }
                { read(rt, lock.pass()) },
            )
        },
    );
    all.0.compare(&all.1.0.1);
    all.1.0.1.compare(&all.1.1.1);
    all
}
