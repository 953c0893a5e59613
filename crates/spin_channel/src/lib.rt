//! A channel from many threads to many: a queue under a `SpinMutex`, with the names and the behaviour of the Rust crate
//! flume.
//!
//! Begin with [`unbounded`] and [`bounded`], and with [`Sender::send`] and [`Receiver::recv`]. What is proved of messages is
//! said of a channel that keeps two logs, as [`unbounded_with`] makes it.
#![tactic(auto)]

mod end;
mod err;
mod iter;
mod kept;
mod queue;
mod receiver;
mod sender;
mod shared;

pub use end::{End, Receives, Role, Sends};
pub use err::{
    RecvError, RecvTimeoutError, SendError, SendTimeoutError, TryRecvError, TrySendError,
};
pub use iter::{Drain, IntoIter, Iter, TryIter};
pub use kept::{Kept, Seen};
pub use queue::Counts;
pub use receiver::Receiver;
pub use sender::{Sender, bounded, bounded_with, unbounded, unbounded_with};
