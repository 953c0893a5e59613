//! Traits for code that takes any lock. Begin with [`Lock`], [`Acquire`] for code with guards, and [`Patient`] for waits.
pub use spin_condvar::Relock;
pub use spin_core::lock::{
    Acquire, AcquireShared, Claim, Fill, Force, Lent, Lock, Reserve, SharedLock, with_guard,
};
pub use spin_wait::{Patient, PatientShared};
