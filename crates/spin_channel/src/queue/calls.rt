//! The calls of a channel's queue.
ghost use Rattle.std.specs.Prelude.{◌≡◌, [], true, false, Some, IfOk, IfErr, OnOk, OnErr};
ghost use Rattle.spin_history.specs.Entries.{WritesOne};
ghost use Rattle.spin_history.specs.Known.{known_to};
ghost use Rattle.spin_channel.specs.Calls.{EndsTry};
ghost use Rattle.spin_channel.specs.Errors.{try_send_message};
ghost use Rattle.spin_channel.specs.Kept.{all_sent, all_taken, Takes};
ghost use Rattle.spin_channel.specs.Queues.{fills, is_full, lets, Refuses, Lacks};

use super::{Counts, Queue, Side, Waiting};
use crate::err::{TryRecvError, TrySendError};
use crate::kept::{Kept, Logs, Seen};
use spin_history::history::{History, Snapshot};
use std::collections::VecDeque;

impl Counts {
    /// Returns `true` if there are as many messages as the capacity.
    ///
    /// # Contract
    /// Whether the messages fill a channel of this capacity (`fills`).
    pub fn is_full(&self) -> bool
        ensures { result ≡ fills self.now.capacity self.now.messages }
    {
        match self.capacity {
            Some(most) => self.messages >= most,
            None => false,
        }
    }
}

impl Waiting {
    fn nobody() -> Self {
        Waiting {
            threads: 0,
            called: 0,
        }
    }

    fn enter(&mut self) {
        self.threads = self.threads.saturating_add(1);
    }

    // Whoever leaves takes a call with it, for whomever it was: it looks now.
    fn leave(&mut self) {
        self.threads = self.threads.saturating_sub(1);
        self.called = self.called.saturating_sub(1);
    }

    // Returns whether to call one of them. If all were called, one of them looks after this change anyway.
    fn calls_one(&mut self) -> bool {
        let calls = self.called < self.threads;
        if calls {
            self.called = self.called.saturating_add(1);
        }
        calls
    }
}

impl<T, S: Kept, R: History> Queue<T, S, R> {
    // A queue with one sender and one receiver.
    pub(crate) fn new(
        waiting: VecDeque<T>,
        capacity: Option<usize>,
        logs: Option<Logs<T, S, R>>,
    ) -> Self
        requires empty { waiting.items ≡ [] }
        requires fifo { S.kept ≡ true → all_sent logs false ≡ Some (all_taken logs) }
    {
        Queue {
            waiting,
            capacity,
            senders: 1,
            receivers: 1,
            sending: Waiting::nobody(),
            receiving: Waiting::nobody(),
            closed: false,
            logs,
        }
    }

    pub(crate) fn counts(&self) -> Counts {
        Counts {
            messages: self.waiting.len(),
            capacity: self.capacity,
            senders: self.senders,
            receivers: self.receivers,
        }
    }

    fn is_full(&self) -> bool
        ensures { result ≡ is_full self.now }
    {
        match self.capacity {
            Some(most) => self.waiting.len() >= most,
            None => false,
        }
    }

    // Whether an end of this side need not wait.
    pub(crate) fn lets(&self, side: Side) -> bool
        ensures { result ≡ lets self.now side }
    {
        match side {
            Side::Sends => self.receivers == 0 || !self.is_full(),
            Side::Receives => self.closed || !self.waiting.is_empty(),
        }
    }

    // A thread of this side is about to sleep.
    pub(crate) fn enter(&mut self, side: Side) {
        match side {
            Side::Sends => self.sending.enter(),
            Side::Receives => self.receiving.enter(),
        }
    }

    // A thread of this side has slept, and looks now.
    pub(crate) fn leave(&mut self, side: Side) {
        match side {
            Side::Sends => self.sending.leave(),
            Side::Receives => self.receiving.leave(),
        }
    }

    // Returns whether to call a thread of this side, since there is room for one, or a message.
    pub(crate) fn calls_one(&mut self, side: Side) -> bool {
        match side {
            Side::Sends => self.sending.calls_one(),
            Side::Receives => self.receiving.calls_one(),
        }
    }

    // Puts a message at the end of the queue, if there is a receiver, room, and memory.
    pub(crate) fn send(
        &mut self,
        message: T,
        seen: &mut Snapshot<T, S>,
    ) -> Result<(), TrySendError<T>>
        ensures sent { OnOk result (S.kept ≡ true → WritesOne (known_to seen.old) message (known_to seen.new)) }
        ensures returned { IfErr result (λ e. try_send_message e ≡ message) }
        ensures unchanged { OnErr result (seen.new ≡ seen.old) }
        ensures refuses { IfErr result (Refuses self.old) }
    {
        if self.receivers == 0 || self.closed {
            return Err(TrySendError::Disconnected(message));
        }
        if self.is_full() {
            return Err(TrySendError::Full(message));
        }
        let Queue { waiting, logs, .. } = self;
        if waiting.reserve(1).is_err() {
            return Err(TrySendError::OutOfMemory(message));
        }
        if let Some(logs) = logs {
            if let Some(sent) = &mut logs.sent {
                sent.append_and_observe(&message, seen);
            }
        }
        waiting.push_back_reserved(message);
        Ok(())
    }

    // Takes the message at the front of the queue.
    pub(crate) fn take(&mut self, seen: &mut Seen<T, S, R>) -> Result<T, TryRecvError>
        ensures taken { IfOk result (λ message. S.kept ≡ true → Takes seen.old message seen.new) }
        ensures ended { IfErr result (λ e. S.kept ≡ true → EndsTry e seen.old seen.new) }
        ensures lacks { IfErr result (Lacks self.old) }
    {
        let Queue {
            waiting,
            closed,
            logs,
            ..
        } = self;
        match waiting.pop_front() {
            Some(message) => {
                if let Some(logs) = logs {
                    logs.taken.append_and_observe(&message, &mut seen.taken);
                    logs.show_sent(*closed, seen);
                }
                Ok(message)
            }
            None if !*closed => Err(TryRecvError::Empty),
            None => {
                if let Some(logs) = logs {
                    logs.taken.observe(&mut seen.taken);
                    logs.show_sent(true, seen);
                }
                Err(TryRecvError::Disconnected)
            }
        }
    }

    // A new end. A closed channel has no sender that could be cloned.
    pub(crate) fn add(&mut self, side: Side) {
        match side {
            Side::Sends if self.closed => {}
            Side::Sends => self.senders = self.senders.saturating_add(1),
            Side::Receives => self.receivers = self.receivers.saturating_add(1),
        }
    }

    // An end is dropped. Returns whether it was the last of its side.
    pub(crate) fn lose(&mut self, side: Side) -> bool {
        match side {
            Side::Sends => self.lose_sender(),
            Side::Receives => {
                self.receivers = self.receivers.saturating_sub(1);
                self.receivers == 0
            }
        }
    }

    // The last sender closes the channel. Returns whether it is closed.
    fn lose_sender(&mut self) -> bool {
        let Queue {
            senders,
            closed,
            logs,
            ..
        } = self;
        *senders = senders.saturating_sub(1);
        if *senders == 0 && !*closed {
            if let Some(logs) = logs {
                logs.close();
            }
            *closed = true;
        }
        *closed
    }
}
