//! A mutex over one number, whose callers can prove what happened. Begin with [`SeatedMutex`] and [`Pass`].
ghost use Rattle.spin_seated.specs.Mutex.{mutex};

use crate::lock::{self, Calls, SeatedLock};
use std::alloc::Global;

mod calls;
mod plays;

pub use crate::lock::{Answer, Opening};

/// A call of a `SeatedMutex`, as histories record it.
#[derive(Clone, Copy)]
pub enum Call {
    TryLock,
    IsLocked,
    Read,
    Write(u64),
    Unlock,
}

impl Calls for Call {
    type PassHold = bool;

    ghost machine = { mutex };

    fn holds_at_first() -> bool {
        false
    }

    #[tactic(auto, using(crate::proofs::Holders::tracked))]
    fn laws() {}
}

/// A mutex over one number, whose calls form one history.
///
/// It is like a `Mutex`, but callers can also prove what happened, not only what holds now.
///
/// # Examples
/// ```
/// use spin_seated::mutex::SeatedMutex;
///
/// let made = SeatedMutex::new(rt.alloc(), 5, 2);
/// let (lock, mut passes) = made.expect(&rt, "there is memory");
/// let mut first = passes.pop().expect(&rt, "there are two");
/// let mut second = passes.pop().expect(&rt, "there are two");
/// assert!(rt; lock.try_lock(&mut first));
/// assert!(rt; !lock.try_lock(&mut second));
/// lock.write(&mut first, 6);
/// lock.unlock(&mut first);
/// assert!(rt; lock.try_lock(&mut second));
/// assert_eq!(rt; lock.read(&mut second), 6);
/// ```
pub type SeatedMutex<A = Global> = SeatedLock<Call, A>;

/// The right to call one `SeatedMutex`. `holds` says whether the pass holds the lock.
pub type Pass = lock::Pass<Call>;
