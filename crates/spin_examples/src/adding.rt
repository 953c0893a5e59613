//! A proved caller: two threads add under one lock, and the value read at the end is the opening value plus
//! the number of their additions. Begin with [`add_in_two`].
//!
//! The proof uses the one history that both passes know once they have met. No contract of a call says what
//! another thread did.
ghost use Rattle.std.specs.Prelude.{◌≡◌, ◌+◌, Some, if◌then◌else◌, IfOk, IfSome};
ghost use Rattle.spin_seated.specs.Histories.{own_calls};
ghost use Rattle.spin_seated.specs.Passes.{IsPassOf, opening_of, pass_of};
ghost use Rattle.spin_examples.specs.Sections.{away, section_of, writes_in, HasAdded};

use spin_seated::mutex::{Pass, SeatedMutex};
use std::alloc::{AllocError, Global};
use std::thread::{Threads, join};

/// Creates a lock for two callers, and their passes. Fails if an allocation fails.
///
/// # Contract
/// The lock opens with `value` and two passes. The result has the lock, its first pass and its second. Neither
/// pass has made a call.
pub fn open_for_two(alloc: Global, value: u64) -> Result<(SeatedMutex, Pass, Pass), AllocError>
    ensures opening { IfOk result (λ r. opening_of r.0 ≡ record { value = value; passes = 2 }) }
    ensures passes { IfOk result (λ r. (r.1 ≡ pass_of r.0 0) × (r.2 ≡ pass_of r.0 1)) }
{
    let (lock, mut passes) = SeatedMutex::new(alloc, value, 2)?;
    let Some(second) = passes.pop() else {
        unreachable!()
    };
    let Some(first) = passes.pop() else {
        unreachable!()
    };
    Ok((lock, first, second))
}

/// Tries to acquire the lock, and adds 1 if there is room. Returns `true` if it added.
///
/// # Contract
/// The pass has to be one of this lock, outside its critical section. Afterwards it is outside again. If the
/// answer is `true`, the calls of the pass have one more write; otherwise they have as many as before
/// (`added`).
pub fn add(lock: &SeatedMutex, pass: &mut Pass) -> bool
    requires own { IsPassOf lock.now pass.old }
    requires section { section_of pass.old.known ≡ Some away }
    ensures own { IsPassOf lock.now pass.new }
    ensures number { pass.new.known.pass ≡ pass.old.known.pass }
    ensures section { section_of pass.new.known ≡ Some away }
    ensures added { writes_in (own_calls pass.new.known) ≡ writes_in (own_calls pass.old.known) + (if result then 1 else 0) }
{
    if !lock.try_lock(pass) {
        return false;
    }
    let value = lock.read(pass);
    if value == u64::MAX {
        lock.unlock(pass);
        return false;
    }
    lock.write(pass, value + 1);
    lock.unlock(pass);
    true
}

/// Tries to add 1, `turns` times. Returns the pass, and the number of additions made.
///
/// # Contract
/// The pass has to be one of this lock, outside its critical section, and must not have added yet. Afterwards
/// it has made as many additions as the answer says (`HasAdded`).
pub fn add_some(lock: &SeatedMutex, mut pass: Pass, turns: u64) -> (Pass, u64)
    requires { HasAdded lock.now pass 0 }
    ensures number { result.0.known.pass ≡ pass.known.pass }
    ensures added { HasAdded lock.now result.0 result.1 }
{
    let mut added = 0;
    for _ in 0..turns {
        if add(lock, &mut pass) {
            added += 1;
        }
    }
    (pass, added)
}

/// Reads the lock's value after two passes have added.
///
/// The passes meet first. Then the first pass acquires the lock and reads, after all calls of the second pass. Then
/// the passes meet again, which shows that no other call was in between. Afterwards the first pass holds the lock.
///
/// # Contract
/// The lock has to have two passes: `a` is the first, and `b` the second. Each has to be outside its critical
/// section. The answer is the opening value plus the additions of both.
pub fn read_sum(lock: &SeatedMutex, a: &mut Pass, b: &mut Pass) -> u64
    requires own { IsPassOf lock.now a.old × IsPassOf lock.now b.old }
    requires two { (opening_of lock.now).passes ≡ 2 }
    requires numbers { (a.old.known.pass ≡ 0) × (b.old.known.pass ≡ 1) }
    requires turns { (section_of a.old.known ≡ Some away) × (section_of b.old.known ≡ Some away) }
    ensures { result ≡ (opening_of lock.now).value + (writes_in (own_calls a.old.known) + writes_in (own_calls b.old.known)) }
{
    lock.meet(a, b);
    let granted = lock.try_lock(a);
    if !granted {
        lock.meet(a, b);
        unreachable!();
    }
    let value = lock.read(a);
    lock.meet(a, b);
    value
}

/// Adds from two threads under one lock, up to `turns` times each. Returns the value read at the end, and the
/// number of additions by each thread.
///
/// # Contract
/// The value read is the sum of the two numbers. Whether a thread adds at all is not promised.
pub fn add_in_two<R: Threads + Sync>(
    rt: &R,
    alloc: Global,
    turns: u64,
) -> Result<(u64, u64, u64), AllocError>
    ensures { IfOk result (λ r. r.0 ≡ r.1 + r.2) }
{
    let (lock, a, b) = open_for_two(alloc, 0)?;
    let shared = &lock;
    let ((mut a, first), (mut b, second)) = join(
        rt,
        || -> (Pass, u64)
            requires { HasAdded shared.now a 0 × (a.known.pass ≡ 0) }
            ensures { HasAdded shared.entry.now result.0 result.1 × (result.0.known.pass ≡ 0) }
        { add_some(shared, a, turns) },
        || -> (Pass, u64)
            requires { HasAdded shared.now b 0 × (b.known.pass ≡ 1) }
            ensures { HasAdded shared.entry.now result.0 result.1 × (result.0.known.pass ≡ 1) }
        { add_some(shared, b, turns) },
    );
    Ok((read_sum(shared, &mut a, &mut b), first, second))
}
