//! What both ends of a channel have. Begin with [`End`].
use crate::kept::Kept;
use crate::queue::{Counts, Side};
use crate::shared::Shared;
use spin_history::history::History;
use std::alloc::AllocError;
use std::fmt;
use std::fmt::{Debug, Formatter};
use std::marker::{Brand, PhantomData};
use std::sync::{Arc, Wait};

/// An end of a channel: a [`Sender`](crate::Sender) or a [`Receiver`](crate::Receiver).
///
/// It has the right to wait, `rt`. A drop waits for the lock of the queue.
pub struct End<T: Drop, W: Wait + Copy, E: Role, S: Kept = Brand, R: History = Brand> {
    pub(crate) shared: Arc<Shared<T, S, R>>,
    pub(crate) rt: W,
    role: PhantomData<E>,
}

/// Which end of a channel it is.
pub trait Role {
    fn side() -> Side;
}

/// The role of a [`Sender`](crate::Sender).
pub struct Sends;

/// The role of a [`Receiver`](crate::Receiver).
pub struct Receives;

impl Role for Sends {
    fn side() -> Side {
        Side::Sends
    }
}

impl Role for Receives {
    fn side() -> Side {
        Side::Receives
    }
}

impl<T: Drop, W: Wait + Copy, E: Role, S: Kept, R: History> End<T, W, E, S, R> {
    pub(crate) fn new(shared: Arc<Shared<T, S, R>>, rt: W) -> Self {
        End {
            shared,
            rt,
            role: PhantomData,
        }
    }

    /// Counts the messages and the ends, all at one moment.
    ///
    /// # Contract
    /// There are no more messages than the capacity (`within` of [`Counts`]). Whether and when the call returns is not
    /// promised.
    pub fn counts(&self) -> Counts {
        self.shared.lock(&self.rt).counts()
    }

    /// Returns `true` if all ends of the other side were dropped.
    pub fn is_disconnected(&self) -> bool {
        match E::side() {
            Side::Sends => self.receiver_count() == 0,
            Side::Receives => self.sender_count() == 0,
        }
    }

    /// Returns `true` if there is no message in the channel.
    pub fn is_empty(&self) -> bool {
        self.len() == 0
    }

    /// Returns `true` if there are as many messages as the capacity.
    pub fn is_full(&self) -> bool {
        self.counts().is_full()
    }

    /// Returns how many messages are in the channel.
    pub fn len(&self) -> usize {
        self.counts().messages
    }

    /// Returns how many messages may be in the channel, or `None` if any number may.
    pub fn capacity(&self) -> Option<usize> {
        self.counts().capacity
    }

    /// Returns how many senders the channel has.
    pub fn sender_count(&self) -> u64 {
        self.counts().senders
    }

    /// Returns how many receivers the channel has.
    pub fn receiver_count(&self) -> u64 {
        self.counts().receivers
    }
}

impl<T: Drop, W: Wait + Copy, E: Role, S: Kept, R: History> Clone for End<T, W, E, S, R> {
    fn clone(&self) -> Result<Self, AllocError> {
        let shared = Arc::try_clone(&self.shared)?;
        shared.lock(&self.rt).add(E::side());
        Ok(End::new(shared, self.rt))
    }
}

/// If it is the last end of its side, all that wait at the other side are called.
impl<T: Drop, W: Wait + Copy, E: Role, S: Kept, R: History> Drop for End<T, W, E, S, R> {
    fn drop(self) {
        let Self {
            shared,
            rt,
            role: _,
        } = self;
        shared.lose(&rt, E::side());
    }
}

impl<T: Drop, W: Wait + Copy, E: Role, S: Kept, R: History> Debug for End<T, W, E, S, R> {
    fn fmt<F: fmt::Write>(&self, f: &mut Formatter<F>) -> fmt::Result {
        f.write_str(match E::side() {
            Side::Sends => "Sender",
            Side::Receives => "Receiver",
        })
    }
}
