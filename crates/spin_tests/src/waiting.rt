//! How one thread of a test waits for another.
use spin_core::relax::{RelaxStrategy, Yield};
use spin_rwlock::rwlock::RwLock;
use std::sync::Wait;
use std::sync::atomic::AtomicU64;
use std::sync::atomic::Ordering::SeqCst;

/// The most looks that a thread makes, so that each test ends.
pub const MAX_LOOKS: u32 = 10_000_000;

/// Waits until the number is at least `wanted`, for at most `MAX_LOOKS` looks.
pub fn await_number<R: Wait>(rt: &R, number: &AtomicU64, wanted: u64) {
    for _ in 0..MAX_LOOKS {
        if number.load(SeqCst) >= wanted {
            return;
        }
        Yield::relax(rt);
    }
}

/// Waits long enough for another thread, which has arrived, to fail or to find what it waits for.
pub fn linger<R: Wait>(rt: &R) {
    for _ in 0..1000 {
        Yield::relax(rt);
    }
}

/// Returns `true` if the number becomes at least `wanted` while this thread looks.
pub fn comes_to<R: Wait>(rt: &R, number: &AtomicU64, wanted: u64) -> bool {
    for _ in 0..100_000 {
        if number.load(SeqCst) >= wanted {
            return true;
        }
        Yield::relax(rt);
    }
    false
}

/// Tries to read until a try fails, at most `looks` times. Returns `true` if one failed.
pub fn is_kept_out<R: RelaxStrategy, W: Wait>(rt: &W, lock: &RwLock<u64, R>, looks: u32) -> bool {
    for _ in 0..looks {
        if lock.try_read(rt).is_none() {
            return true;
        }
        R::relax(rt);
    }
    false
}

/// Takes one of the turns that the threads of a test share. Returns `false` if none is left. With these turns a test
/// ends however its threads are scheduled.
pub fn has_turn(turns: &AtomicU64, most: u64) -> bool {
    turns.fetch_add(1, SeqCst) < most
}
