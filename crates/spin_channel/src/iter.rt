//! The messages of a receiver, one after another.
ghost use Rattle.std.specs.Prelude.{◌≡◌};
ghost use Rattle.std.specs.Iterator.{at_most};
ghost use Rattle.spin_channel.specs.Drains.{left_in};

use crate::kept::Kept;
use crate::receiver::Receiver;
use spin_history::history::History;
use std::collections::VecDeque;
use std::sync::Wait;

/// Receives each message, and ends when the channel is closed and empty. It ends after 2^64 - 1 messages too.
#[derive(Drop)]
pub struct Iter<'a, T: Drop, W: Wait + Copy, S: Kept, R: History> {
    receiver: &'a Receiver<T, W, S, R>,
    left: u64,
}

/// Receives each message that is there. It ends when it finds none, and may find another later.
#[derive(Drop)]
pub struct TryIter<'a, T: Drop, W: Wait + Copy, S: Kept, R: History> {
    receiver: &'a Receiver<T, W, S, R>,
    left: u64,
}

/// Like [`Iter`], but has the receiver.
#[derive(Drop)]
pub struct IntoIter<T: Drop, W: Wait + Copy, S: Kept, R: History> {
    receiver: Receiver<T, W, S, R>,
    left: u64,
}

/// The messages that [`Receiver::drain`] has taken.
#[derive(Drop)]
pub struct Drain<T: Drop> {
    messages: VecDeque<T>,
}

impl<'a, T: Drop, W: Wait + Copy, S: Kept, R: History> Iter<'a, T, W, S, R> {
    pub(crate) fn new(receiver: &'a Receiver<T, W, S, R>) -> Self {
        Iter {
            receiver,
            left: u64::MAX,
        }
    }
}

impl<'a, T: Drop, W: Wait + Copy, S: Kept, R: History> TryIter<'a, T, W, S, R> {
    pub(crate) fn new(receiver: &'a Receiver<T, W, S, R>) -> Self {
        TryIter {
            receiver,
            left: u64::MAX,
        }
    }
}

impl<T: Drop, W: Wait + Copy, S: Kept, R: History> IntoIter<T, W, S, R> {
    pub(crate) fn new(receiver: Receiver<T, W, S, R>) -> Self {
        IntoIter {
            receiver,
            left: u64::MAX,
        }
    }
}

impl<T: Drop> Drain<T> {
    pub(crate) fn new(messages: VecDeque<T>) -> Self {
        Drain { messages }
    }

    /// Returns how many messages are left.
    ///
    /// # Contract
    /// The number of messages in it (`left_in`).
    pub fn len(&self) -> usize
        ensures { result ≡ left_in self.now }
    {
        self.messages.len()
    }
}

impl<T: Drop, W: Wait + Copy, S: Kept, R: History> Iterator for Iter<'_, T, W, S, R> {
    type Item = T;

    ghost remaining = { λ iter. at_most iter.left };

    fn next(&mut self) -> Option<T> {
        self.left = self.left.checked_sub(1)?;
        self.receiver.recv().ok()
    }
}

impl<T: Drop, W: Wait + Copy, S: Kept, R: History> Iterator for TryIter<'_, T, W, S, R> {
    type Item = T;

    ghost remaining = { λ iter. at_most iter.left };

    fn next(&mut self) -> Option<T> {
        self.left = self.left.checked_sub(1)?;
        self.receiver.try_recv().ok()
    }
}

impl<T: Drop, W: Wait + Copy, S: Kept, R: History> Iterator for IntoIter<T, W, S, R> {
    type Item = T;

    ghost remaining = { λ iter. at_most iter.left };

    fn next(&mut self) -> Option<T> {
        self.left = self.left.checked_sub(1)?;
        self.receiver.recv().ok()
    }
}

impl<T: Drop> Iterator for Drain<T> {
    type Item = T;

    ghost remaining = { λ drain. at_most (left_in drain) };

    fn next(&mut self) -> Option<T> {
        self.messages.pop_front()
    }
}
