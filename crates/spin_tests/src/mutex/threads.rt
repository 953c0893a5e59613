//! Threads take turns. A look does not disturb them. A guard may be dropped in another thread.
use crate::equal::equal;
use crate::parts::{Crew, in_threads};
use crate::waiting::has_turn;
use spin_core::lock::Lock;
use spin_core::relax::{RelaxStrategy, Yield};
use spin_fair::fair::FairMutex;
use spin_flag::spin::SpinMutex;
use spin_mutex::mutex::Mutex;
use spin_mutex::ticket::TicketMutex;
use std::alloc::Global;
use std::ops::DerefMut;
use std::process::Abort;
use std::sync::Wait;
use std::sync::atomic::AtomicU64;
use std::thread;
use std::thread::Threads;

/// A caller's own strategy.
struct Patient;

impl RelaxStrategy for Patient {
    fn relax<W: Wait>(rt: &W) {
        Yield::relax(rt);
        Yield::relax(rt);
    }
}

/// Threads that add a thousand times each.
#[derive(Drop)]
struct Adders<'a, L>(&'a L);

impl<L: Lock<u64>> Crew for Adders<'_, L> {
    type Answer = ();

    fn act<R: Abort + Wait>(&self, rt: &R, _index: usize) {
        for _ in 0..1000 {
            self.0.with(rt, |sum| *sum = sum.wrapping_add(1));
        }
    }
}

/// Returns the sum that so many threads make.
pub fn sum_of<L: Lock<u64> + Sync, R: Abort + Threads + Wait + Sync>(
    rt: &R,
    alloc: Global,
    lock: &L,
    threads: usize,
) -> u64 {
    drop(in_threads(rt, alloc, &Adders(lock), threads));
    lock.with(rt, |sum| *sum)
}

#[test]
fn two_threads_lose_no_addition(rt: HostRuntime) {
    let lock: Mutex<u64, Patient> = Mutex::new(0);
    equal(&rt, sum_of(&rt, rt.alloc(), &lock, 2), 2000);
}

#[test]
fn six_threads_lose_no_addition(rt: HostRuntime) {
    let alloc = rt.alloc();
    let sums = [
        sum_of(&rt, alloc, &SpinMutex::<u64, Patient>::new(0), 6),
        sum_of(&rt, alloc, &TicketMutex::<u64, Patient>::new(0), 6),
        sum_of(&rt, alloc, &FairMutex::<u64, Patient>::new(0), 6),
        sum_of(&rt, alloc, &Mutex::<u64, Patient>::new(0), 6),
    ];
    equal(&rt, sums, [6000; 4]);
}

/// Writes 3 by the guard in another thread. That thread drops the guard.
pub fn write_elsewhere<G: DerefMut<Target = u64> + Drop + Send>(rt: &impl Threads, mut guard: G) {
    let write = move || {
        *guard = 3;
    };
    thread::join(rt, write, || ());
}

macro_rules! written_elsewhere {
    ($rt:expr, $Lock:ident) => {{
        let lock: $Lock<u64> = $Lock::new(1);
        write_elsewhere($rt, lock.lock($rt));
        *lock.try_lock().expect($rt, "free")
    }};
}

#[test]
fn a_guard_may_end_in_another_thread(rt: HostRuntime) {
    let seen = [
        written_elsewhere!(&rt, SpinMutex),
        written_elsewhere!(&rt, TicketMutex),
        written_elsewhere!(&rt, FairMutex),
        written_elsewhere!(&rt, Mutex),
    ];
    equal(&rt, seen, [3; 4]);
}

const TURNS: u64 = 1_000_000;

/// A lock that threads look at.
trait Look: Lock<u64> {
    fn look_once(&self);
}

impl Look for SpinMutex<u64> {
    fn look_once(&self) {
        self.is_locked();
    }
}

impl Look for FairMutex<u64> {
    fn look_once(&self) {
        self.is_locked();
    }
}

/// A thread that looks and a thread that tries, while turns are left.
#[derive(Drop)]
struct LooksAndTries<L> {
    lock: L,
    turns: AtomicU64,
}

impl<L: Look> Crew for LooksAndTries<L> {
    type Answer = bool;

    // The first thread looks. Returns `true` if no try failed.
    fn act<R: Abort + Wait>(&self, rt: &R, index: usize) -> bool {
        let _ = rt;
        let mut granted = true;
        for _ in 0..TURNS {
            if !has_turn(&self.turns, TURNS) {
                break;
            }
            if index == 0 {
                self.lock.look_once();
            } else {
                granted = granted && self.lock.try_with(|_| ()).is_ok();
            }
        }
        granted
    }
}

fn are_granted<L: Look + Drop + Sync, R: Abort + Threads + Wait + Sync>(
    rt: &R,
    alloc: Global,
    lock: L,
) {
    let turns = AtomicU64::new(0);
    let granted = in_threads(rt, alloc, &LooksAndTries { lock, turns }, 2);
    equal(rt, granted.as_slice(), [true; 2].as_slice());
}

#[test]
fn a_look_takes_no_lock(rt: HostRuntime) {
    are_granted(&rt, rt.alloc(), SpinMutex::new(1));
    are_granted(&rt, rt.alloc(), FairMutex::new(1));
}
