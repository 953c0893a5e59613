//! What a channel keeps of its messages, as ghost state. Begin with [`Kept`].
ghost use Rattle.std.specs.Prelude.{◌≡◌, Bool, true, false, Some, IfSome};
ghost use mathlib.Core.List.{IsPrefix};
ghost use Rattle.spin_history.specs.Known.{known_to};
ghost use Rattle.spin_channel.specs.Kept.{all_sent, all_taken, closed_in, KnowsNothing, Shows};

use spin_history::history::{ClosedLog, History, Log, Snapshot};
use std::marker::Brand;

/// The name of a log of what is sent on a channel, and whether the channel keeps it.
///
/// A plain channel keeps nothing, and has `Brand` for this name. Generic code takes a type parameter `S: Kept`. The code
/// that makes such a channel passes `Brand` for `S`, and says in its proof that `kept` is `true`.
pub trait Kept: History {
    ghost kept: { Bool };
}

impl Kept for Brand {
    ghost kept = { false };
}

/// What a receiver knows: messages that were sent, messages that were taken, and, at the end, that nothing more is sent.
/// Of a plain channel it knows nothing.
#[derive(Drop)]
pub struct Seen<T, S: History, R: History> {
    pub sent: Snapshot<T, S>,
    pub taken: Snapshot<T, R>,
    pub closed: Option<ClosedLog<T, S>>,
}

impl<T, S: History, R: History> Seen<T, S, R> {
    /// Returns what a receiver knows that has received nothing.
    ///
    /// # Contract
    /// It knows of no message.
    pub fn nothing() -> Self
        ensures { KnowsNothing result }
    {
        Seen {
            sent: Snapshot::nothing(),
            taken: Snapshot::nothing(),
            closed: None,
        }
    }

    /// Compares what a receiver knows that has found the channel closed and empty with what a sender knows.
    ///
    /// # Contract
    /// The log of what was sent has to be closed, and all of it taken, as `TookAll` says after a receive. All that the
    /// sender knew to be sent was taken, and in that order.
    pub fn covers(&self, sent: &Snapshot<T, S>)
        requires { closed_in self.now.closed ≡ Some self.now.taken.entries }
        ensures { IsPrefix (known_to sent.now) self.now.taken.entries }
    {
        if let Some(closed) = &self.closed {
            closed.observe(&mut sent.copy());
        }
    }
}

// The messages that were sent and those that were taken, each in order. The last sender closes the log of what was sent.
#[derive(Drop)]
pub struct Logs<T, S: History, R: History> {
    pub(crate) sent: Option<Log<T, S>>,
    pub(crate) closed: Option<ClosedLog<T, S>>,
    pub(crate) taken: Log<T, R>,
}

impl<T, S: History, R: History> Logs<T, S, R> {
    pub(crate) fn new(sent: Log<T, S>, taken: Log<T, R>) -> Self
        ensures sent { all_sent (Some result) false ≡ Some sent.entries }
        ensures taken { all_taken (Some result) ≡ taken.entries }
    {
        Logs {
            sent: Some(sent),
            closed: None,
            taken,
        }
    }

    // Brings what a receiver knows to be sent up to date.
    pub(crate) fn show_sent(&self, closed: bool, seen: &mut Seen<T, S, R>)
        ensures known { IfSome (all_sent (Some self.now) closed) (λ all. Shows closed all seen.old seen.new) }
        ensures taken { seen.new.taken ≡ seen.old.taken }
    {
        match (closed, &self.sent, &self.closed) {
            (false, Some(sent), _) => sent.observe(&mut seen.sent),
            (true, _, Some(all)) => {
                all.observe(&mut seen.sent);
                seen.closed = Some(all.copy());
            }
            _ => {}
        }
    }

    // Closes the log of what was sent.
    pub(crate) fn close(&mut self)
        ensures sent { all_sent (Some self.new) true ≡ all_sent (Some self.old) false }
        ensures taken { all_taken (Some self.new) ≡ all_taken (Some self.old) }
    {
        self.closed = match self.sent.take() {
            Some(sent) => Some(sent.close()),
            None => None,
        };
    }
}
