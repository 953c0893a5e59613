//! What no contract says of a `SeatedRwLock`: a try can succeed, and threads end.
ghost use Rattle.std.specs.Prelude.{◌≡◌, None};
ghost use Rattle.spin_seated.specs.Passes.{IsPassOf, pass_holds};
ghost use Rattle.spin_seated.specs.Rw.{rw};

use crate::equal::equal;
use spin_core::relax::{RelaxStrategy, Yield};
use spin_examples::publishing::open_for_three;
use spin_seated::rwlock::{RwPass, SeatedHold, SeatedRwLock};
use std::sync::Wait;
use std::thread::join;

const TURNS: u32 = 10_000_000;

const TIMES: u32 = 300;

#[test]
fn readers_stand_beside_one_another(rt: HostRuntime) {
    let (lock, mut a, mut b, mut c) = open_for_three(rt.alloc(), 5).expect(&rt, "memory");
    assert!(rt; lock.try_read(&rt, &mut a));
    assert!(rt; lock.try_read(&rt, &mut b));
    assert!(rt; !lock.try_write(&mut c));
    let counts = [lock.reader_count(&mut c), lock.writer_count(&mut c)];
    equal(&rt, (counts, lock.read(&mut b)), ([2, 0], 5));
    lock.unlock_read(&mut a);
    lock.unlock_read(&mut b);
    equal(&rt, [a.holds().is_none(), b.holds().is_none()], [true; 2]);
}

#[test]
fn a_writer_goes_on_as_a_reader(rt: HostRuntime) {
    let (lock, mut a, mut b, mut c) = open_for_three(rt.alloc(), 5).expect(&rt, "memory");
    assert!(rt; lock.try_write(&mut c));
    let writers = lock.writer_count(&mut a);
    assert!(rt; !lock.try_read(&rt, &mut a));
    lock.write(&mut c, 9);
    lock.downgrade(&mut c);
    let is_reader = matches!(c.holds(), Some(SeatedHold::Read));
    assert!(rt; lock.try_read(&rt, &mut a));
    let value = lock.read(&mut a);
    assert!(rt; !lock.try_write(&mut b));
    let counts = [writers, lock.reader_count(&mut b)];
    lock.unlock_read(&mut a);
    lock.unlock_read(&mut c);
    assert!(rt; lock.try_write(&mut b));
    lock.unlock_write(&mut b);
    equal(&rt, [is_reader, b.holds().is_none()], [true; 2]);
    equal(&rt, (counts, value), ([1, 2], 9));
}

// Acquires the lock as a writer `TIMES` times. Each time it adds 1, downgrades, and reads. Returns whether it made all
// these additions, and each read found the number just written.
fn write_some<R: Wait>(rt: &R, lock: &SeatedRwLock, mut pass: RwPass) -> (RwPass, bool)
    requires { IsPassOf lock.now pass × (pass_holds rw pass ≡ None) }
    ensures { IsPassOf lock.now result.0 × (pass_holds rw result.0 ≡ None) }
{
    let mut added = 0u32;
    let mut same = true;
    for _ in 0..TURNS {
        if added == TIMES {
            break;
        }
        if lock.try_write(&mut pass) {
            let value = lock.read(&mut pass).wrapping_add(1);
            lock.write(&mut pass, value);
            lock.downgrade(&mut pass);
            same &= lock.read(&mut pass) == value;
            lock.unlock_read(&mut pass);
            added += 1;
        } else {
            Yield::relax(rt);
        }
    }
    (pass, same && added == TIMES)
}

// Acquires the lock as a reader `TIMES` times, and reads each time. Returns whether it made all these reads, and no
// number was less than an earlier one.
fn read_some<R: Wait>(rt: &R, lock: &SeatedRwLock, mut pass: RwPass) -> (RwPass, bool)
    requires { IsPassOf lock.now pass × (pass_holds rw pass ≡ None) }
    ensures { IsPassOf lock.now result.0 × (pass_holds rw result.0 ≡ None) }
{
    let mut times = 0u32;
    let mut last = 0u64;
    let mut grows = true;
    for _ in 0..TURNS {
        if times == TIMES {
            break;
        }
        if lock.try_read(rt, &mut pass) {
            let value = lock.read(&mut pass);
            grows &= last <= value;
            last = value;
            lock.unlock_read(&mut pass);
            times += 1;
        } else {
            Yield::relax(rt);
        }
    }
    (pass, grows && times == TIMES)
}

#[test]
fn two_threads_read_what_a_third_writes(rt: HostRuntime) {
    let (lock, a, b, c) = open_for_three(rt.alloc(), 0).expect(&rt, "memory");
    let (shared, rt) = (&lock, &rt);
    let ((mut a, added), ((mut b, first), (mut c, second))) = join(
        rt,
        || -> (RwPass, bool)
            requires { IsPassOf shared.now a × (pass_holds rw a ≡ None) }
            ensures { IsPassOf shared.entry.now result.0 }
        { write_some(rt, shared, a) },
        || -> ((RwPass, bool), (RwPass, bool))
            requires { IsPassOf shared.now b × (pass_holds rw b ≡ None) × IsPassOf shared.now c × (pass_holds rw c ≡ None) }
            ensures { IsPassOf shared.entry.now result.0.0 × IsPassOf shared.entry.now result.1.0 }
        {
            join(
                rt,
                || -> (RwPass, bool)
                    requires { IsPassOf shared.now b × (pass_holds rw b ≡ None) }
                    ensures { IsPassOf shared.entry.now result.0 }
                { read_some(rt, shared, b) },
                || -> (RwPass, bool)
                    requires { IsPassOf shared.now c × (pass_holds rw c ≡ None) }
                    ensures { IsPassOf shared.entry.now result.0 }
                { read_some(rt, shared, c) },
            )
        },
    );
    equal(rt, (added, first, second), (true, true, true));
    lock.meet(&mut a, &mut b);
    lock.meet(&mut a, &mut c);
    equal(
        rt,
        [lock.reader_count(&mut a), lock.writer_count(&mut a)],
        [0; 2],
    );
}
