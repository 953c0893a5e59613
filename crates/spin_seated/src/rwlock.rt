//! A lock over one number for many readers or one writer, whose callers can prove what happened. Begin with
//! [`SeatedRwLock`] and [`RwPass`].
ghost use Rattle.spin_seated.specs.Rw.{rw};

use crate::lock::{self, Calls, SeatedLock};
use std::alloc::Global;

mod calls;
pub mod laws;
mod plays;

pub use crate::lock::{Answer, Opening};

/// How a pass holds a `SeatedRwLock`.
#[derive(Clone, Copy)]
pub enum SeatedHold {
    Read,
    Write,
}

/// A call of a `SeatedRwLock`, as histories record it.
#[derive(Clone, Copy)]
pub enum Call {
    TryRead,
    TryWrite,
    ReaderCount,
    WriterCount,
    Read,
    Write(u64),
    UnlockRead,
    UnlockWrite,
    Downgrade,
}

impl Calls for Call {
    type PassHold = Option<SeatedHold>;

    ghost machine = { rw };

    fn holds_at_first() -> Option<SeatedHold> {
        None
    }

    #[tactic(auto, using(crate::proofs::RwSteps::tracked))]
    fn laws() {}
}

/// A lock over one number for many readers or one writer, whose calls form one history.
///
/// # Examples
/// ```
/// use spin_seated::rwlock::SeatedRwLock;
///
/// let made = SeatedRwLock::new(rt.alloc(), 5, 2);
/// let (lock, mut passes) = made.expect(&rt, "there is memory");
/// let mut first = passes.pop().expect(&rt, "there are two");
/// let mut second = passes.pop().expect(&rt, "there are two");
/// assert!(rt; lock.try_write(&mut first));
/// lock.write(&mut first, 6);
/// lock.downgrade(&mut first);
/// assert!(rt; lock.try_read(&rt, &mut second));
/// assert_eq!(rt; lock.read(&mut second), 6);
/// assert!(rt; !lock.try_write(&mut second));
/// ```
pub type SeatedRwLock<A = Global> = SeatedLock<Call, A>;

/// The right to call one `SeatedRwLock`. `holds` says how the pass holds the lock.
pub type RwPass = lock::Pass<Call>;
