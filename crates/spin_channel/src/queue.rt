//! The queue of a channel: its calls are in [`calls`].
ghost use Rattle.std.specs.Prelude.{◌≡◌, ◌≤◌, ◌++◌, true, length, Some};
ghost use Rattle.std.specs.Option.{ForSome};
ghost use Rattle.spin_channel.specs.Kept.{all_sent, all_taken};

use crate::kept::{Kept, Logs};
use spin_history::history::History;
use std::collections::VecDeque;

mod calls;

/// Which end of a channel waits: a sender for room, or a receiver for a message.
#[derive(Clone, Copy)]
pub enum Side {
    Sends,
    Receives,
}

/// How many threads of one side sleep or are about to, and how many of them were called and have not looked since.
#[derive(Clone, Copy)]
pub struct Waiting {
    threads: u64,
    called: u64,
}

/// How many messages and ends a channel has at one moment.
#[derive(Clone, Copy)]
pub struct Counts {
    pub messages: usize,
    pub capacity: Option<usize>,
    pub senders: u64,
    pub receivers: u64,
    ghost within: { ForSome capacity (λ most. messages ≤ most) },
}

/// The messages that wait, the oldest first, and what the channel keeps of all messages.
#[derive(Drop)]
pub struct Queue<T, S: Kept, R: History> {
    waiting: VecDeque<T>,
    capacity: Option<usize>,
    senders: u64,
    receivers: u64,
    // who waits for room, and who for a message
    sending: Waiting,
    receiving: Waiting,
    // whether the last sender is dropped
    closed: bool,
    logs: Option<Logs<T, S, R>>,
    ghost within: { ForSome capacity (λ most. length waiting.items ≤ most) },
    ghost ended: { closed ≡ true → senders ≡ 0 },
    ghost fifo: { S.kept ≡ true → all_sent logs closed ≡ Some (all_taken logs ++ waiting.items) },
}
