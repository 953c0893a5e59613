//! Threads enter in the order of their tickets, also those of a `Mutex`.
use crate::equal::equal;
use crate::parts::{Crew, in_threads};
use crate::waiting::MAX_LOOKS;
use spin_core::lock::Lock;
use spin_core::relax::{RelaxStrategy, Yield};
use spin_mutex::mutex::Mutex;
use spin_mutex::mutex::tickets::next as next_of_mutex;
use spin_mutex::ticket::TicketMutex;
use spin_mutex::tickets::next;
use std::process::Abort;
use std::sync::Wait;
use std::sync::atomic::AtomicBool;
use std::sync::atomic::Ordering::SeqCst;

/// A lock whose threads queue.
trait Tickets: Lock<u64> {
    /// Returns the number of the next ticket.
    fn next(&self) -> u64;
}

impl Tickets for TicketMutex<u64, Yield> {
    fn next(&self) -> u64 {
        next(self)
    }
}

impl Tickets for Mutex<u64, Yield> {
    fn next(&self) -> u64 {
        next_of_mutex(self)
    }
}

// Returns `true` if the number of the next ticket becomes `number` within `MAX_LOOKS` looks.
fn comes_to<Q: Tickets, R: Wait>(rt: &R, queue: &Q, number: u64) -> bool {
    for _ in 0..MAX_LOOKS {
        if queue.next() == number {
            return true;
        }
        Yield::relax(rt);
    }
    false
}

/// Threads that take tickets one after another, while the first one holds the lock.
#[derive(Drop)]
struct Entrants<'a, Q>(&'a Q);

impl<Q: Tickets> Crew for Entrants<'_, Q> {
    type Answer = bool;

    // Waits until `index` threads have a ticket. Then acquires the lock, and appends the thread's digit to the value.
    // The thread holds the lock until all three threads have a ticket. The digits of the value show the order in which
    // they entered.
    fn act<R: Abort + Wait>(&self, rt: &R, index: usize) -> bool {
        let before = index as u64;
        let in_order = comes_to(rt, self.0, before);
        let append = |text: &mut u64| {
            *text = text.wrapping_mul(10).wrapping_add(before).wrapping_add(1);
            comes_to(rt, self.0, 3)
        };
        self.0.with(rt, append) && in_order
    }
}

#[test]
fn waiters_enter_in_the_order_in_which_they_came(rt: HostRuntime) {
    let lock: TicketMutex<u64, Yield> = TicketMutex::new(0);
    let in_order = in_threads(&rt, rt.alloc(), &Entrants(&lock), 3);
    equal(&rt, in_order.as_slice(), [true; 3].as_slice());
    let mutex: Mutex<u64, Yield> = Mutex::new(0);
    let in_order = in_threads(&rt, rt.alloc(), &Entrants(&mutex), 3);
    equal(&rt, in_order.as_slice(), [true; 3].as_slice());
    equal(&rt, (lock.into_inner(), mutex.into_inner()), (123, 123));
}

const TURNS: u64 = 8_000;

/// A queue in which two threads take turns. Each holds the lock until the other has a ticket. So from the first ticket
/// to the last one some thread holds the lock.
#[derive(Drop)]
struct Relay {
    // The lock's value is the number of turns so far.
    lock: TicketMutex<u64, Yield>,
    looked: AtomicBool,
}

impl Relay {
    // Takes turns until the thread that looks is done. Each turn lasts until the other thread has the next ticket, or
    // the looks are over.
    fn run<R: Wait>(&self, rt: &R) {
        for _ in 0..TURNS {
            if self.looked.load(SeqCst) {
                return;
            }
            let mut before = self.lock.lock(rt);
            let ticket = *before;
            *before = ticket.wrapping_add(1);
            self.await_next(rt, ticket);
        }
    }

    fn await_next<R: Wait>(&self, rt: &R, ticket: u64) {
        for _ in 0..MAX_LOOKS {
            if next(&self.lock) > ticket.wrapping_add(1) || self.looked.load(SeqCst) {
                return;
            }
            Yield::relax(rt);
        }
    }

    // Returns `true` if each look after the first ticket found the lock held. It makes at most a million looks, however
    // slow the other threads are.
    fn stays_locked(&self) -> bool {
        let mut locked = true;
        for _ in 0..1_000_000u32 {
            let has_begun = next(&self.lock) > 0;
            locked = locked && (!has_begun || self.lock.is_locked());
            if next(&self.lock) == 2 * TURNS {
                break;
            }
        }
        self.looked.store(true, SeqCst);
        locked
    }
}

impl Crew for Relay {
    type Answer = bool;

    // The first thread looks, and the two others take turns.
    fn act<R: Abort + Wait>(&self, rt: &R, index: usize) -> bool {
        if index == 0 {
            return self.stays_locked();
        }
        self.run(rt);
        true
    }
}

#[test]
fn a_look_never_finds_a_lock_free_that_is_handed_on(rt: HostRuntime) {
    let relay = Relay {
        lock: TicketMutex::new(0),
        looked: AtomicBool::new(false),
    };
    let locked = in_threads(&rt, rt.alloc(), &relay, 3);
    equal(&rt, locked.as_slice(), [true; 3].as_slice());
}
