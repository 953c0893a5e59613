//! Why a send or a receive failed. An error of a send has the message that was not sent.
ghost use Rattle.std.specs.Prelude.{◌≡◌};
ghost use Rattle.spin_channel.specs.Errors.{send_message, try_send_message, send_timeout_message};

use std::error::Error;
use std::fmt;
use std::fmt::{Debug, Display, Formatter, Write};

/// Why [`Sender::send`](crate::Sender::send) failed.
#[derive(Clone, Drop, PartialEq, Eq)]
pub enum SendError<T> {
    /// All receivers were dropped.
    Disconnected(T),
    /// An unbounded channel found no memory for the message.
    OutOfMemory(T),
}

/// Why [`Sender::try_send`](crate::Sender::try_send) failed.
#[derive(Clone, Drop, PartialEq, Eq)]
pub enum TrySendError<T> {
    /// The channel has as many messages as its capacity.
    Full(T),
    /// All receivers were dropped.
    Disconnected(T),
    /// An unbounded channel found no memory for the message.
    OutOfMemory(T),
}

/// Why [`Sender::send_timeout`](crate::Sender::send_timeout) failed.
#[derive(Clone, Drop, PartialEq, Eq)]
pub enum SendTimeoutError<T> {
    /// The channel was full for all the time.
    Timeout(T),
    /// All receivers were dropped.
    Disconnected(T),
    /// An unbounded channel found no memory for the message.
    OutOfMemory(T),
}

/// Why [`Receiver::recv`](crate::Receiver::recv) failed.
#[derive(Clone, Copy, Debug, PartialEq, Eq)]
pub enum RecvError {
    /// The channel is empty, and all senders were dropped.
    Disconnected,
}

/// Why [`Receiver::try_recv`](crate::Receiver::try_recv) failed.
#[derive(Clone, Copy, Debug, PartialEq, Eq)]
pub enum TryRecvError {
    /// The channel is empty.
    Empty,
    /// The channel is empty, and all senders were dropped.
    Disconnected,
}

/// Why [`Receiver::recv_timeout`](crate::Receiver::recv_timeout) failed.
#[derive(Clone, Copy, Debug, PartialEq, Eq)]
pub enum RecvTimeoutError {
    /// The channel was empty for all the time.
    Timeout,
    /// The channel is empty, and all senders were dropped.
    Disconnected,
}

impl<T> SendError<T> {
    /// Returns the message that was not sent.
    ///
    /// # Contract
    /// It is the message of the error.
    pub fn into_inner(self) -> T
        ensures { result ≡ send_message self }
    {
        match self {
            SendError::Disconnected(message) => message,
            SendError::OutOfMemory(message) => message,
        }
    }
}

impl<T> TrySendError<T> {
    /// Returns the message that was not sent.
    ///
    /// # Contract
    /// It is the message of the error.
    pub fn into_inner(self) -> T
        ensures { result ≡ try_send_message self }
    {
        match self {
            TrySendError::Full(message) => message,
            TrySendError::Disconnected(message) => message,
            TrySendError::OutOfMemory(message) => message,
        }
    }
}

impl<T> SendTimeoutError<T> {
    /// Returns the message that was not sent.
    ///
    /// # Contract
    /// It is the message of the error.
    pub fn into_inner(self) -> T
        ensures { result ≡ send_timeout_message self }
    {
        match self {
            SendTimeoutError::Timeout(message) => message,
            SendTimeoutError::Disconnected(message) => message,
            SendTimeoutError::OutOfMemory(message) => message,
        }
    }
}

impl<T> Debug for SendError<T> {
    fn fmt<W: Write>(&self, f: &mut Formatter<W>) -> fmt::Result {
        f.write_str(match self {
            SendError::Disconnected(_) => "Disconnected(..)",
            SendError::OutOfMemory(_) => "OutOfMemory(..)",
        })
    }
}

impl<T> Debug for TrySendError<T> {
    fn fmt<W: Write>(&self, f: &mut Formatter<W>) -> fmt::Result {
        f.write_str(match self {
            TrySendError::Full(_) => "Full(..)",
            TrySendError::Disconnected(_) => "Disconnected(..)",
            TrySendError::OutOfMemory(_) => "OutOfMemory(..)",
        })
    }
}

impl<T> Debug for SendTimeoutError<T> {
    fn fmt<W: Write>(&self, f: &mut Formatter<W>) -> fmt::Result {
        f.write_str(match self {
            SendTimeoutError::Timeout(_) => "Timeout(..)",
            SendTimeoutError::Disconnected(_) => "Disconnected(..)",
            SendTimeoutError::OutOfMemory(_) => "OutOfMemory(..)",
        })
    }
}

impl<T> Display for SendError<T> {
    fn fmt<W: Write>(&self, f: &mut Formatter<W>) -> fmt::Result {
        f.pad(match self {
            SendError::Disconnected(_) => "sending on a closed channel",
            SendError::OutOfMemory(_) => "no memory for the message",
        })
    }
}

impl<T> Display for TrySendError<T> {
    fn fmt<W: Write>(&self, f: &mut Formatter<W>) -> fmt::Result {
        f.pad(match self {
            TrySendError::Full(_) => "sending on a full channel",
            TrySendError::Disconnected(_) => "sending on a closed channel",
            TrySendError::OutOfMemory(_) => "no memory for the message",
        })
    }
}

impl<T> Display for SendTimeoutError<T> {
    fn fmt<W: Write>(&self, f: &mut Formatter<W>) -> fmt::Result {
        f.pad(match self {
            SendTimeoutError::Timeout(_) => "timed out sending on a full channel",
            SendTimeoutError::Disconnected(_) => "sending on a closed channel",
            SendTimeoutError::OutOfMemory(_) => "no memory for the message",
        })
    }
}

impl Display for RecvError {
    fn fmt<W: Write>(&self, f: &mut Formatter<W>) -> fmt::Result {
        f.pad("receiving on a closed channel")
    }
}

impl Display for TryRecvError {
    fn fmt<W: Write>(&self, f: &mut Formatter<W>) -> fmt::Result {
        f.pad(match self {
            TryRecvError::Empty => "receiving on an empty channel",
            TryRecvError::Disconnected => "channel is empty and closed",
        })
    }
}

impl Display for RecvTimeoutError {
    fn fmt<W: Write>(&self, f: &mut Formatter<W>) -> fmt::Result {
        f.pad(match self {
            RecvTimeoutError::Timeout => "timed out waiting on a channel",
            RecvTimeoutError::Disconnected => "channel is empty and closed",
        })
    }
}

impl<T: Drop> Error for SendError<T> {}

impl<T: Drop> Error for TrySendError<T> {}

impl<T: Drop> Error for SendTimeoutError<T> {}

impl Error for RecvError {}

impl Error for TryRecvError {}

impl Error for RecvTimeoutError {}
