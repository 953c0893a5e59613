//! The lock of this crate. To change the lock of every count, change this alias.
use spin_core::relax::Yield;
use spin_flag::spin::SpinMutex;

/// A mutex whose waiting threads yield. So a waiting worker lets others run if there are many more workers
/// than cores.
pub(crate) type Lock<T> = SpinMutex<T, Yield>;
