//! A proved caller: one thread publishes values under one lock while two others read. No reader sees an older
//! value than it saw before. Begin with [`publish_to_two`].
//!
//! The proof uses the one history that all three passes know once they have met. No contract of a call says
//! what another thread did.
ghost use Rattle.std.specs.Prelude.{◌≡◌, [], ◌∷◌, None, Some, IfOk, length};
ghost use Rattle.spin_seated.specs.Histories.{own_calls};
ghost use Rattle.spin_seated.specs.Locked.{InOrderOf};
ghost use Rattle.spin_seated.specs.Passes.{IsPassOf, opening_of, pass_of, pass_holds};
ghost use Rattle.spin_seated.specs.Rw.{rw};
ghost use Rattle.spin_seated.specs.RwLawful.{values_written, values_read};
ghost use Rattle.spin_examples.specs.Publishing.{Extends, HasLooked};

use spin_core::relax::{RelaxStrategy, Yield};
use spin_seated::laws::a_pass_reads_in_the_order_of_the_writes;
use spin_seated::rwlock::{RwPass, SeatedHold, SeatedRwLock};
use std::alloc::{AllocError, Global};
use std::sync::Wait;
use std::thread::{Threads, join};

/// Creates a lock for three callers, and their passes. Fails if an allocation fails.
///
/// # Contract
/// The lock opens with `value` and three passes. The result has them in order; none has made a call.
pub fn open_for_three(
    alloc: Global,
    value: u64,
) -> Result<(SeatedRwLock, RwPass, RwPass, RwPass), AllocError>
    ensures opening { IfOk result (λ r. opening_of r.0 ≡ record { value = value; passes = 3 }) }
    ensures passes { IfOk result (λ r. (r.1 ≡ pass_of r.0 0) × (r.2 ≡ pass_of r.0 1) × (r.3 ≡ pass_of r.0 2)) }
{
    let (lock, mut passes) = SeatedRwLock::new(alloc, value, 3)?;
    let Some(third) = passes.pop() else {
        unreachable!()
    };
    let Some(second) = passes.pop() else {
        unreachable!()
    };
    let Some(first) = passes.pop() else {
        unreachable!()
    };
    Ok((lock, first, second, third))
}

/// Tries to acquire the lock until the pass holds it as `hold` says.
fn hold_as<W: Wait>(rt: &W, lock: &SeatedRwLock, pass: &mut RwPass, hold: SeatedHold)
    requires own { IsPassOf lock.now pass.old }
    requires free { pass_holds rw pass.old ≡ None }
    ensures own { IsPassOf lock.now pass.new }
    ensures holds { pass_holds rw pass.new ≡ Some hold }
    ensures goes_on { Extends pass.old.known pass.new.known [] [] }
{
    for _ in rt.forever() {
        let granted = match hold {
            SeatedHold::Read => lock.try_read(rt, pass),
            SeatedHold::Write => lock.try_write(pass),
        };
        if granted {
            return;
        }
        Yield::relax(rt);
    }
    unreachable!()
}

/// Acquires the lock as the writer, publishes a value, and releases the lock.
fn publish<W: Wait>(rt: &W, lock: &SeatedRwLock, pass: &mut RwPass, value: u64)
    requires own { IsPassOf lock.now pass.old }
    requires free { pass_holds rw pass.old ≡ None }
    ensures own { IsPassOf lock.now pass.new }
    ensures free { pass_holds rw pass.new ≡ None }
    ensures goes_on { Extends pass.old.known pass.new.known [] (value ∷ []) }
{
    hold_as(rt, lock, pass, SeatedHold::Write);
    lock.write(pass, value);
    lock.unlock_write(pass);
}

/// Acquires the lock as a reader, reads the value, and releases the lock.
fn read_once<W: Wait>(rt: &W, lock: &SeatedRwLock, pass: &mut RwPass) -> u64
    requires own { IsPassOf lock.now pass.old }
    requires free { pass_holds rw pass.old ≡ None }
    ensures own { IsPassOf lock.now pass.new }
    ensures free { pass_holds rw pass.new ≡ None }
    ensures goes_on { Extends pass.old.known pass.new.known (result ∷ []) [] }
{
    hold_as(rt, lock, pass, SeatedHold::Read);
    let value = lock.read(pass);
    lock.unlock_read(pass);
    value
}

fn publish_all<W: Wait>(rt: &W, lock: &SeatedRwLock, mut pass: RwPass, values: &[u64]) -> RwPass
    requires own { IsPassOf lock.now pass }
    requires free { pass_holds rw pass ≡ None }
    ensures own { IsPassOf lock.now result }
    ensures goes_on { Extends pass.known result.known [] values.now }
{
    for value in values {
        publish(rt, lock, &mut pass, *value);
    }
    pass
}

type Looked = Result<(RwPass, Vec<u64>), AllocError>;

fn look_often<W: Wait>(
    rt: &W,
    alloc: Global,
    lock: &SeatedRwLock,
    mut pass: RwPass,
    times: usize,
) -> Looked
    requires own { IsPassOf lock.now pass }
    requires free { pass_holds rw pass ≡ None }
    ensures own { IfOk result (λ r. IsPassOf lock.now r.0) }
    ensures goes_on { IfOk result (λ r. Extends pass.known r.0.known r.1.items []) }
    ensures times { IfOk result (λ r. length r.1.items ≡ times) }
{
    let mut seen = Vec::new(alloc);
    for _ in 0..times {
        seen.push(read_once(rt, lock, &mut pass))?;
    }
    Ok((pass, seen))
}

fn look_in_two<R: Threads + Wait + Sync>(
    rt: &R,
    alloc: Global,
    lock: &SeatedRwLock,
    first: RwPass,
    second: RwPass,
    times: usize,
) -> (Looked, Looked)
    requires passes { (first ≡ pass_of lock.now 1) × (second ≡ pass_of lock.now 2) }
    ensures first { IfOk result.0 (λ r. HasLooked lock.now 1 times r.0 r.1.items) }
    ensures second { IfOk result.1 (λ r. HasLooked lock.now 2 times r.0 r.1.items) }
{
    join(
        rt,
        || -> Looked
            requires { first ≡ pass_of lock.now 1 }
            ensures { IfOk result (λ r. HasLooked lock.entry.now 1 times r.0 r.1.items) }
        { look_often(rt, alloc, lock, first, times) },
        || -> Looked
            requires { second ≡ pass_of lock.now 2 }
            ensures { IfOk result (λ r. HasLooked lock.entry.now 2 times r.0 r.1.items) }
        { look_often(rt, alloc, lock, second, times) },
    )
}

/// Lets three passes meet, and compares what two of them read with what the third one wrote.
///
/// The readers meet first, and then one of them meets the writer. So the writer knows what both readers know.
///
/// # Contract
/// These have to be the three passes of the lock. Neither reader may have written. Each reader has read
/// the opening value and values that the writer wrote, in the order in which they were written (`InOrderOf`).
pub fn compare(lock: &SeatedRwLock, writer: &mut RwPass, first: &mut RwPass, second: &mut RwPass)
    requires writer { IsPassOf lock.now writer.old × (writer.old.known.pass ≡ 0) }
    requires first { IsPassOf lock.now first.old × (first.old.known.pass ≡ 1) }
    requires second { IsPassOf lock.now second.old × (second.old.known.pass ≡ 2) }
    requires three { (opening_of lock.now).passes ≡ 3 }
    requires one_writes { (values_written (own_calls first.old.known) ≡ []) × (values_written (own_calls second.old.known) ≡ []) }
    ensures first { InOrderOf ((opening_of lock.now).value ∷ values_written (own_calls writer.old.known)) (values_read (own_calls first.old.known)) }
    ensures second { InOrderOf ((opening_of lock.now).value ∷ values_written (own_calls writer.old.known)) (values_read (own_calls second.old.known)) }
{
    lock.meet(first, second);
    lock.meet(writer, first);
    a_pass_reads_in_the_order_of_the_writes();
}

/// Publishes values from one thread, in order, while two others read `times` times each. Returns what the two
/// read. Each thread tries until it acquires the lock.
///
/// # Contract
/// Each reader has read `times` values, each of them the opening value or a published one. They are in the
/// order of publication, so none is older than one before. Whether and when the call returns is not promised.
pub fn publish_to_two<R: Threads + Wait + Sync>(
    rt: &R,
    alloc: Global,
    opening: u64,
    values: &[u64],
    times: usize,
) -> Result<(Vec<u64>, Vec<u64>), AllocError>
    ensures first { IfOk result (λ r. InOrderOf (opening ∷ values.now) r.0.items × (length r.0.items ≡ times)) }
    ensures second { IfOk result (λ r. InOrderOf (opening ∷ values.now) r.1.items × (length r.1.items ≡ times)) }
{
    let (lock, writer, first, second) = open_for_three(alloc, opening)?;
    let shared = &lock;
    let (mut writer, (first, second)) = join(
        rt,
        || -> RwPass
            requires { writer ≡ pass_of shared.now 0 }
            ensures { IsPassOf shared.entry.now result × Extends (pass_of shared.entry.now 0).known result.known [] values.entry.now }
        { publish_all(rt, shared, writer, values) },
        || -> (Looked, Looked)
            requires { (first ≡ pass_of shared.now 1) × (second ≡ pass_of shared.now 2) }
            ensures { IfOk result.0 (λ r. HasLooked shared.entry.now 1 times r.0 r.1.items) × IfOk result.1 (λ r. HasLooked shared.entry.now 2 times r.0 r.1.items) }
        { look_in_two(rt, alloc, shared, first, second, times) },
    );
    let (mut first, seen_first) = first?;
    let (mut second, seen_second) = second?;
    compare(shared, &mut writer, &mut first, &mut second);
    Ok((seen_first, seen_second))
}
