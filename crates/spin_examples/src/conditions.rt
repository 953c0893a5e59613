//! Callers that wait until the value of a lock meets a condition, or give up. Begin with [`take_first`].
ghost use Rattle.std.specs.Prelude.{◌<◌, IfSome};

use spin::lock::{Patient, PatientShared};
use spin::mutex::SpinMutex;
use spin::relax::RelaxStrategy;
use spin::rwlock::RwLock;
use std::collections::VecDeque;
use std::sync::Wait;
use std::time::{Clock, Duration};

/// Takes the first job out of a queue. Waits until there is one.
pub fn take_first<R: RelaxStrategy, W: Wait>(rt: &W, queue: &SpinMutex<VecDeque<u64>, R>) -> u64 {
    let mut jobs = queue.lock_when(rt, |jobs| !jobs.is_empty());
    jobs.pop_front().unwrap()
}

/// Takes a place, waiting until one is free. Returns how many are still free.
pub fn take_place<R: RelaxStrategy, W: Wait>(rt: &W, places: &SpinMutex<u64, R>) -> u64 {
    let mut free = places.lock_when(rt, |free| *free > 0);
    *free -= 1;
    *free
}

/// Takes a place if one is free within this time.
pub fn take_place_for<R: RelaxStrategy, W: Wait + Clock>(
    rt: &W,
    places: &SpinMutex<u64, R>,
    time: Duration,
) -> bool {
    let Some(mut free) = places.lock_when_for(rt, time, |free| *free > 0) else {
        return false;
    };
    *free -= 1;
    true
}

/// Waits for a number above this one, and returns it.
pub fn wait_for_more<R: RelaxStrategy, W: Wait>(
    rt: &W,
    number: &SpinMutex<u64, R>,
    least: u64,
) -> u64
    ensures { least < result }
{
    *number.lock_when(rt, |number| *number > least)
}

/// Waits for a version above this one, and returns it. Others may read it at the same time.
pub fn wait_for_version<R: RelaxStrategy, W: Wait>(
    rt: &W,
    version: &RwLock<u64, R>,
    seen: u64,
) -> u64
    ensures { seen < result }
{
    *version.read_when(rt, |version| *version > seen)
}
