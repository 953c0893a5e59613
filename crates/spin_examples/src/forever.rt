//! A lock that is never freed. So a struct without a lifetime can keep its guard, and a thread that outlives the function
//! can receive it.
use spin::mutex::{SpinMutex, SpinMutexGuard};
use spin::relax::Yield;
use std::alloc::{AllocError, Global};
use std::sync::Wait;

/// Creates a lock that is never freed.
pub fn forever(heap: Global, value: u64) -> Result<&'static SpinMutex<u64, Yield>, AllocError> {
    Ok(Box::leak(Box::new(heap, SpinMutex::new(value))?))
}

/// A time in which one thread has the value.
#[derive(Drop)]
pub struct Session {
    guard: SpinMutexGuard<'static, u64, Yield>,
}

impl Session {
    /// Begins a session, waiting until there is no other.
    pub fn open<W: Wait>(rt: &W, lock: &'static SpinMutex<u64, Yield>) -> Self {
        Session {
            guard: lock.lock(rt),
        }
    }

    /// Returns the value.
    pub fn get(&self) -> u64 {
        *self.guard
    }

    /// Replaces the value.
    pub fn set(&mut self, value: u64) {
        *self.guard = value;
    }
}
