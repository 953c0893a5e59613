//! The sending end of a channel, and how a channel is made. Begin with [`unbounded`], [`bounded`] and [`Sender::send`].
ghost use Rattle.std.specs.Prelude.{◌≡◌, ◌≤◌, [], true, IfErr, OnOk, OnErr};
ghost use Rattle.spin_history.specs.Entries.{WritesOne};
ghost use Rattle.spin_history.specs.Known.{known_to};
ghost use Rattle.spin_channel.specs.Errors.{send_message, try_send_message, send_timeout_message};

use crate::end::{End, Sends};
use crate::err::{SendError, SendTimeoutError, TrySendError};
use crate::kept::{Kept, Logs};
use crate::queue::{Queue, Side};
use crate::receiver::Receiver;
use crate::shared::Shared;
use spin_history::history::{History, Log, Snapshot};
use std::alloc::{AllocError, Global};
use std::collections::VecDeque;
use std::marker::Brand;
use std::sync::{Arc, Wait};
use std::time::{Clock, Duration, Instant};

/// The sending end of a channel. Any number of threads may each have one: clone it, or share it.
///
/// It has the right to wait, `rt`. When the last sender is dropped, the channel is closed: receivers get what is in it, and
/// then fail. A drop waits for the lock of the queue.
///
/// # Examples
/// ```
/// use spin_channel::{Sender, bounded};
/// use std::sync::Wait;
/// use std::thread;
///
/// fn count_to<W: Wait + Copy>(three: u64, sender: Sender<u64, W>) {
///     for number in 0..three {
///         let _ = sender.send(number).is_ok();
///     }
/// }
///
/// let (sender, receiver) = bounded(rt.alloc(), &rt, 2).expect(&rt, "memory");
/// let count = move || count_to(3, sender);
/// let (_, sum) = thread::join(&rt, count, || receiver.iter().sum::<u64>());
/// assert_eq!(rt; sum, 3);
/// ```
pub type Sender<T, W, S = Brand, R = Brand> = End<T, W, Sends, S, R>;

fn ends<T: Drop, W: Wait + Copy, S: Kept, R: History>(
    alloc: Global,
    rt: W,
    queue: Queue<T, S, R>,
) -> Result<(Sender<T, W, S, R>, Receiver<T, W, S, R>), AllocError> {
    let Ok(shared) = Arc::new(alloc, Shared::new(queue)) else {
        return Err(AllocError);
    };
    let other = Arc::try_clone(&shared)?;
    Ok((End::new(shared, rt), End::new(other, rt)))
}

/// Creates a channel for any number of messages. A send allocates if the queue has to grow.
///
/// # Contract
/// Only that the call returns.
///
/// # Examples
/// ```
/// use spin_channel::{TryRecvError, unbounded};
///
/// let (sender, receiver) = unbounded(rt.alloc(), &rt).expect(&rt, "memory");
/// assert_eq!(rt; sender.send(7), Ok(()));
/// drop(sender);
/// assert_eq!(rt; receiver.recv(), Ok(7));
/// assert_eq!(rt; receiver.try_recv(), Err(TryRecvError::Disconnected));
/// ```
pub fn unbounded<T: Drop, W: Wait + Copy>(
    alloc: Global,
    rt: W,
) -> Result<(Sender<T, W>, Receiver<T, W>), AllocError> {
    ends(alloc, rt, Queue::new(VecDeque::new(alloc), None, None))
}

/// Creates a channel for at most `capacity` messages. It allocates the whole queue, and no send allocates.
///
/// # Contract
/// The capacity has to be at least 1: there is no channel at which a sender and a receiver have to meet.
///
/// # Examples
/// ```
/// use spin_channel::{TrySendError, bounded};
///
/// let (sender, receiver) = bounded(rt.alloc(), &rt, 1).expect(&rt, "memory");
/// assert_eq!(rt; sender.try_send(7), Ok(()));
/// assert_eq!(rt; sender.try_send(8), Err(TrySendError::Full(8)));
/// assert_eq!(rt; receiver.recv(), Ok(7));
/// ```
pub fn bounded<T: Drop, W: Wait + Copy>(
    alloc: Global,
    rt: W,
    capacity: usize,
) -> Result<(Sender<T, W>, Receiver<T, W>), AllocError>
    requires { 1 ≤ capacity }
{
    let waiting = VecDeque::with_capacity(alloc, capacity)?;
    ends(alloc, rt, Queue::new(waiting, Some(capacity), None))
}

/// Creates a channel for any number of messages, which keeps all that is sent and taken in two logs. They are ghost state.
///
/// What was taken, followed by what is in the queue, is what was sent. So messages come out in the order in which they went
/// in, and none is lost or made up.
///
/// # Contract
/// Both logs have to have the same entries, as two new logs have.
pub fn unbounded_with<T: Drop, W: Wait + Copy, S: Kept, R: History>(
    alloc: Global,
    rt: W,
    sent: Log<T, S>,
    taken: Log<T, R>,
) -> Result<(Sender<T, W, S, R>, Receiver<T, W, S, R>), AllocError>
    requires { sent.entries ≡ taken.entries }
{
    let logs = Some(Logs::new(sent, taken));
    ends(alloc, rt, Queue::new(VecDeque::new(alloc), None, logs))
}

/// Creates a channel for at most `capacity` messages, which keeps what [`unbounded_with`] says.
///
/// # Contract
/// The capacity has to be at least 1, and both logs have to have the same entries.
pub fn bounded_with<T: Drop, W: Wait + Copy, S: Kept, R: History>(
    alloc: Global,
    rt: W,
    capacity: usize,
    sent: Log<T, S>,
    taken: Log<T, R>,
) -> Result<(Sender<T, W, S, R>, Receiver<T, W, S, R>), AllocError>
    requires some { 1 ≤ capacity }
    requires same { sent.entries ≡ taken.entries }
{
    let waiting = VecDeque::with_capacity(alloc, capacity)?;
    let logs = Some(Logs::new(sent, taken));
    ends(alloc, rt, Queue::new(waiting, Some(capacity), logs))
}

impl<T: Drop, W: Wait + Copy, S: Kept, R: History> Sender<T, W, S, R> {
    /// Sends a message. Waits while the channel is full.
    ///
    /// # Contract
    /// An error has the message that was passed. Whether and when the call returns is not promised.
    pub fn send(&self, message: T) -> Result<(), SendError<T>>
        ensures returned { IfErr result (λ e. send_message e ≡ message) }
    {
        self.send_seen(message, &mut Snapshot::nothing())
    }

    /// Sends a message, if the channel is not full. It waits only for the lock of the queue.
    ///
    /// # Contract
    /// An error has the message that was passed. Whether and when the call returns is not promised.
    pub fn try_send(&self, message: T) -> Result<(), TrySendError<T>>
        ensures returned { IfErr result (λ e. try_send_message e ≡ message) }
    {
        self.try_send_seen(message, &mut Snapshot::nothing())
    }

    /// Sends a message, as [`send`](Sender::send) does, and brings a snapshot of all that was sent up to date.
    ///
    /// # Contract
    /// If the channel keeps its messages (`kept`): after `Ok` the snapshot ends with this message, which was sent after all
    /// that the sender knew (`WritesOne`). An error has the message that was passed, and leaves the snapshot as it was.
    /// Whether and when the call returns is not promised.
    pub fn send_seen(&self, message: T, seen: &mut Snapshot<T, S>) -> Result<(), SendError<T>>
        ensures sent { OnOk result (S.kept ≡ true → WritesOne (known_to seen.old) message (known_to seen.new)) }
        ensures returned { IfErr result (λ e. send_message e ≡ message) }
        ensures unchanged { OnErr result (seen.new ≡ seen.old) }
    {
        let queue = self.shared.lock_when(&self.rt, Side::Sends);
        match self.shared.send(queue, message, seen) {
            Ok(()) => Ok(()),
            Err(TrySendError::Full(_)) => unreachable!(),
            Err(TrySendError::Disconnected(message)) => Err(SendError::Disconnected(message)),
            Err(TrySendError::OutOfMemory(message)) => Err(SendError::OutOfMemory(message)),
        }
    }

    /// Sends a message, as [`try_send`](Sender::try_send) does, and brings a snapshot of all that was sent up to date.
    ///
    /// # Contract
    /// Like that of [`send_seen`](Sender::send_seen).
    pub fn try_send_seen(
        &self,
        message: T,
        seen: &mut Snapshot<T, S>,
    ) -> Result<(), TrySendError<T>>
        ensures sent { OnOk result (S.kept ≡ true → WritesOne (known_to seen.old) message (known_to seen.new)) }
        ensures returned { IfErr result (λ e. try_send_message e ≡ message) }
        ensures unchanged { OnErr result (seen.new ≡ seen.old) }
    {
        self.shared.send(self.shared.lock(&self.rt), message, seen)
    }
}

impl<T: Drop, W: Wait + Clock + Copy, S: Kept, R: History> Sender<T, W, S, R> {
    /// Sends a message. Waits for at most `time` while the channel is full, and tries at least once. A clock that cannot be
    /// read ends the wait.
    ///
    /// # Contract
    /// Like that of [`send`](Sender::send).
    pub fn send_timeout(&self, message: T, time: Duration) -> Result<(), SendTimeoutError<T>>
        ensures returned { IfErr result (λ e. send_timeout_message e ≡ message) }
    {
        self.send_timeout_seen(message, time, &mut Snapshot::nothing())
    }

    /// Sends a message. Waits until `deadline` while the channel is full, and tries at least once.
    ///
    /// # Contract
    /// Like that of [`send`](Sender::send).
    pub fn send_deadline(&self, message: T, deadline: Instant) -> Result<(), SendTimeoutError<T>>
        ensures returned { IfErr result (λ e. send_timeout_message e ≡ message) }
    {
        let time = match Instant::now(&self.rt) {
            Ok(now) => deadline.saturating_duration_since(now),
            Err(_) => Duration::ZERO,
        };
        self.send_timeout(message, time)
    }

    /// Sends a message, as [`send_timeout`](Sender::send_timeout) does, and brings a snapshot of all that was sent up to
    /// date.
    ///
    /// # Contract
    /// Like that of [`send_seen`](Sender::send_seen).
    pub fn send_timeout_seen(
        &self,
        message: T,
        time: Duration,
        seen: &mut Snapshot<T, S>,
    ) -> Result<(), SendTimeoutError<T>>
        ensures sent { OnOk result (S.kept ≡ true → WritesOne (known_to seen.old) message (known_to seen.new)) }
        ensures returned { IfErr result (λ e. send_timeout_message e ≡ message) }
        ensures unchanged { OnErr result (seen.new ≡ seen.old) }
    {
        let Some(queue) = self.shared.lock_when_for(&self.rt, Side::Sends, time) else {
            return Err(SendTimeoutError::Timeout(message));
        };
        match self.shared.send(queue, message, seen) {
            Ok(()) => Ok(()),
            Err(TrySendError::Full(_)) => unreachable!(),
            Err(TrySendError::Disconnected(message)) => {
                Err(SendTimeoutError::Disconnected(message))
            }
            Err(TrySendError::OutOfMemory(message)) => Err(SendTimeoutError::OutOfMemory(message)),
        }
    }
}
