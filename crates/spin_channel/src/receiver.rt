//! The receiving end of a channel. Begin with [`Receiver::recv`].
ghost use Rattle.std.specs.Prelude.{◌≡◌, true, IfOk, IfErr, OnErr};
ghost use Rattle.spin_channel.specs.Calls.{EndsTry, EndsWait};
ghost use Rattle.spin_channel.specs.Kept.{Takes, TookAll};

use crate::end::{End, Receives};
use crate::err::{RecvError, RecvTimeoutError, TryRecvError};
use crate::iter::{Drain, IntoIter, Iter, TryIter};
use crate::kept::{Kept, Seen};
use crate::queue::Side;
use spin_history::history::History;
use std::alloc::{AllocError, Global};
use std::collections::VecDeque;
use std::marker::Brand;
use std::sync::{Arc, Wait};
use std::time::{Clock, Duration, Instant};

/// The receiving end of a channel. Any number of threads may each have one: clone it, or share it. Each message goes to one
/// of them.
///
/// It has the right to wait, `rt`. When the last receiver is dropped, senders fail; what is in the channel is dropped with
/// its last end. A drop waits for the lock of the queue.
///
/// # Examples
/// ```
/// use spin_channel::{RecvError, unbounded};
///
/// let (sender, receiver) = unbounded(rt.alloc(), &rt).expect(&rt, "memory");
/// assert_eq!(rt; sender.send(7), Ok(()));
/// drop(sender);
/// let other = receiver.clone().expect(&rt, "an owner");
/// assert_eq!(rt; other.recv(), Ok(7));
/// assert_eq!(rt; receiver.recv(), Err(RecvError::Disconnected));
/// ```
pub type Receiver<T, W, S = Brand, R = Brand> = End<T, W, Receives, S, R>;

impl<T: Drop, W: Wait + Copy, S: Kept, R: History> Receiver<T, W, S, R> {
    /// Receives a message. Waits while the channel is empty, and fails if it is closed and empty.
    ///
    /// # Contract
    /// Only what the type of the message says. Whether and when the call returns is not promised.
    pub fn recv(&self) -> Result<T, RecvError> {
        self.recv_seen(&mut Seen::nothing())
    }

    /// Receives a message, if there is one. It waits only for the lock of the queue.
    ///
    /// # Contract
    /// Only what the type of the message says. Whether and when the call returns is not promised.
    pub fn try_recv(&self) -> Result<T, TryRecvError> {
        self.try_recv_seen(&mut Seen::nothing())
    }

    /// Receives a message, as [`recv`](Receiver::recv) does, and brings what the receiver knows up to date.
    ///
    /// # Contract
    /// If the channel keeps its messages (`kept`): after `Ok` the receiver knows that this message was taken after all that
    /// it knew to be taken, and all that was taken is a prefix of what was sent (`Takes`). After an error all that was sent
    /// was taken, and the log of what was sent is closed: no thread can send any more (`TookAll`). Whether and when the
    /// call returns is not promised.
    pub fn recv_seen(&self, seen: &mut Seen<T, S, R>) -> Result<T, RecvError>
        ensures taken { IfOk result (λ message. S.kept ≡ true → Takes seen.old message seen.new) }
        ensures ended { OnErr result (S.kept ≡ true → TookAll seen.old seen.new) }
    {
        let queue = self.shared.lock_when(&self.rt, Side::Receives);
        match self.shared.take(queue, seen) {
            Ok(message) => Ok(message),
            Err(TryRecvError::Empty) => unreachable!(),
            Err(TryRecvError::Disconnected) => Err(RecvError::Disconnected),
        }
    }

    /// Receives a message, as [`try_recv`](Receiver::try_recv) does, and brings what the receiver knows up to date.
    ///
    /// # Contract
    /// Like that of [`recv_seen`](Receiver::recv_seen). After `Empty` the receiver knows what it knew.
    pub fn try_recv_seen(&self, seen: &mut Seen<T, S, R>) -> Result<T, TryRecvError>
        ensures taken { IfOk result (λ message. S.kept ≡ true → Takes seen.old message seen.new) }
        ensures ended { IfErr result (λ e. S.kept ≡ true → EndsTry e seen.old seen.new) }
    {
        self.shared.take(self.shared.lock(&self.rt), seen)
    }

    /// Returns an iterator that receives each message, and ends when the channel is closed and empty.
    pub fn iter(&self) -> Iter<'_, T, W, S, R> {
        Iter::new(self)
    }

    /// Returns an iterator that receives each message that is there, and never waits for one.
    pub fn try_iter(&self) -> TryIter<'_, T, W, S, R> {
        TryIter::new(self)
    }

    /// Takes all messages that are in the channel at one moment. It takes none if there is no memory for them.
    ///
    /// # Contract
    /// None.
    pub fn drain(&self, alloc: Global) -> Result<Drain<T>, AllocError> {
        let mut messages = VecDeque::new(alloc);
        let mut seen = Seen::nothing();
        let mut queue = self.shared.lock(&self.rt);
        let there = queue.counts().messages;
        messages.reserve(there)?;
        for _ in 0..there {
            if messages.reserve(1).is_err() {
                break;
            }
            match queue.take(&mut seen) {
                Ok(message) => messages.push_back_reserved(message),
                Err(_) => break,
            }
        }
        drop(queue);
        self.shared.call_senders();
        Ok(Drain::new(messages))
    }
}

impl<T: Drop, W: Wait + Clock + Copy, S: Kept, R: History> Receiver<T, W, S, R> {
    /// Receives a message. Waits for at most `time` while the channel is empty, and tries at least once. A clock that cannot
    /// be read ends the wait.
    ///
    /// # Contract
    /// Like that of [`recv`](Receiver::recv).
    pub fn recv_timeout(&self, time: Duration) -> Result<T, RecvTimeoutError> {
        self.recv_timeout_seen(time, &mut Seen::nothing())
    }

    /// Receives a message. Waits until `deadline` while the channel is empty, and tries at least once.
    ///
    /// # Contract
    /// Like that of [`recv`](Receiver::recv).
    pub fn recv_deadline(&self, deadline: Instant) -> Result<T, RecvTimeoutError> {
        let time = match Instant::now(&self.rt) {
            Ok(now) => deadline.saturating_duration_since(now),
            Err(_) => Duration::ZERO,
        };
        self.recv_timeout(time)
    }

    /// Receives a message, as [`recv_timeout`](Receiver::recv_timeout) does, and brings what the receiver knows up to
    /// date.
    ///
    /// # Contract
    /// Like that of [`recv_seen`](Receiver::recv_seen). After `Timeout` the receiver knows what it knew.
    pub fn recv_timeout_seen(
        &self,
        time: Duration,
        seen: &mut Seen<T, S, R>,
    ) -> Result<T, RecvTimeoutError>
        ensures taken { IfOk result (λ message. S.kept ≡ true → Takes seen.old message seen.new) }
        ensures ended { IfErr result (λ e. S.kept ≡ true → EndsWait e seen.old seen.new) }
    {
        let Some(queue) = self.shared.lock_when_for(&self.rt, Side::Receives, time) else {
            return Err(RecvTimeoutError::Timeout);
        };
        match self.shared.take(queue, seen) {
            Ok(message) => Ok(message),
            Err(TryRecvError::Empty) => unreachable!(),
            Err(TryRecvError::Disconnected) => Err(RecvTimeoutError::Disconnected),
        }
    }
}

impl<'a, T: Drop, W: Wait + Copy, S: Kept, R: History> IntoIterator for &'a Receiver<T, W, S, R> {
    type Item = T;

    type IntoIter = Iter<'a, T, W, S, R>;

    fn into_iter(self) -> Iter<'a, T, W, S, R> {
        Iter::new(self)
    }
}

impl<T: Drop, W: Wait + Copy, S: Kept, R: History> IntoIterator for Receiver<T, W, S, R> {
    type Item = T;

    type IntoIter = IntoIter<T, W, S, R>;

    fn into_iter(self) -> IntoIter<T, W, S, R> {
        IntoIter::new(self)
    }
}
