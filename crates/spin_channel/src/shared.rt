//! What the ends of a channel share, and how they wait. Begin with [`Shared`].
ghost use Rattle.std.specs.Prelude.{◌≡◌, true, IfOk, IfErr, IfSome, OnOk, OnErr};
ghost use Rattle.spin_core.specs.Guard.{guard_value};
ghost use Rattle.spin_history.specs.Entries.{WritesOne};
ghost use Rattle.spin_history.specs.Known.{known_to};
ghost use Rattle.spin_channel.specs.Calls.{EndsTry};
ghost use Rattle.spin_channel.specs.Errors.{try_send_message};
ghost use Rattle.spin_channel.specs.Kept.{Takes};
ghost use Rattle.spin_channel.specs.Queues.{lets, Refuses, Lacks};

use crate::err::{TryRecvError, TrySendError};
use crate::kept::{Kept, Seen};
use crate::queue::{Queue, Side};
use spin_core::relax::{RelaxStrategy, Spin};
use spin_event::{Event, Heard};
use spin_flag::spin::{SpinMutex, SpinMutexGuard};
use spin_history::history::{History, Snapshot};
use std::sync::Wait;
use std::time::{Clock, Duration, Instant};

// How many hints a thread gives before it looks again, the first time.
const HINTS_BEFORE_SLEEP: u32 = 64;

/// What the ends of a channel share: the queue, and two events on which they sleep.
///
/// A thread that is about to sleep counts itself in the queue, and listens, while it has the lock. So whoever changes the
/// queue later finds it, and rings.
#[derive(Drop)]
pub struct Shared<T, S: Kept, R: History> {
    queue: SpinMutex<Queue<T, S, R>, Spin>,
    // rings when there is room, or no receiver
    room: Event,
    // rings when there is a message, or no sender
    more: Event,
}

type Guard<'a, T, S, R> = SpinMutexGuard<'a, Queue<T, S, R>, Spin>;

impl<T, S: Kept, R: History> Shared<T, S, R> {
    pub(crate) fn new(queue: Queue<T, S, R>) -> Self {
        Shared {
            queue: SpinMutex::new(queue),
            room: Event::new(),
            more: Event::new(),
        }
    }

    pub(crate) fn lock<W: Wait>(&self, rt: &W) -> Guard<'_, T, S, R> {
        self.queue.lock(rt)
    }

    // Acquires the lock. If the queue does not let this side do what it waits for, it acquires the lock again after a short
    // pause, in which others have often changed the queue more than once.
    fn lock_soon<W: Wait>(&self, rt: &W, side: Side) -> Guard<'_, T, S, R> {
        let queue = self.queue.lock(rt);
        if queue.lets(side) {
            return queue;
        }
        drop(queue);
        Spin::pause(rt, HINTS_BEFORE_SLEEP);
        self.queue.lock(rt)
    }

    // Releases the lock of a thread that is about to sleep. It listens before.
    fn enter(&self, queue: Guard<'_, T, S, R>, side: Side) -> Heard<'_> {
        let mut queue = queue;
        queue.enter(side);
        let heard = match side {
            Side::Sends => self.room.listen(),
            Side::Receives => self.more.listen(),
        };
        drop(queue);
        heard
    }

    // Acquires the lock for a thread that has slept.
    fn leave<W: Wait>(&self, rt: &W, side: Side) -> Guard<'_, T, S, R> {
        let mut queue = self.queue.lock(rt);
        queue.leave(side);
        queue
    }

    // Acquires the lock when the queue lets this side do what it waits for.
    pub(crate) fn lock_when<W: Wait>(&self, rt: &W, side: Side) -> Guard<'_, T, S, R>
        ensures { lets (guard_value result) side ≡ true }
    {
        let mut queue = self.lock_soon(rt, side);
        for _ in rt.forever() {
            if queue.lets(side) {
                return queue;
            }
            self.enter(queue, side).wait(rt);
            queue = self.leave(rt, side);
        }
        unreachable!()
    }

    // The same for some time. It looks at the queue at least once. A clock that cannot be read ends the wait.
    pub(crate) fn lock_when_for<W: Wait + Clock>(
        &self,
        rt: &W,
        side: Side,
        time: Duration,
    ) -> Option<Guard<'_, T, S, R>>
        ensures { IfSome result (λ guard. lets (guard_value guard) side ≡ true) }
    {
        let start = Instant::now(rt).ok();
        let mut queue = self.lock_soon(rt, side);
        for _ in rt.forever() {
            if queue.lets(side) {
                return Some(queue);
            }
            let left = time.checked_sub(start?.elapsed(rt).ok()?)?;
            if left.is_zero() {
                return None;
            }
            self.enter(queue, side).wait_timeout(rt, left);
            queue = self.leave(rt, side);
        }
        unreachable!()
    }

    // Sends a message, releases the lock, and calls a receiver if one sleeps.
    pub(crate) fn send(
        &self,
        queue: Guard<'_, T, S, R>,
        message: T,
        seen: &mut Snapshot<T, S>,
    ) -> Result<(), TrySendError<T>>
        ensures sent { OnOk result (S.kept ≡ true → WritesOne (known_to seen.old) message (known_to seen.new)) }
        ensures returned { IfErr result (λ e. try_send_message e ≡ message) }
        ensures unchanged { OnErr result (seen.new ≡ seen.old) }
        ensures refuses { IfErr result (Refuses (guard_value queue.entry)) }
    {
        let mut queue = queue;
        let sent = queue.send(message, seen);
        let calls = sent.is_ok() && queue.calls_one(Side::Receives);
        drop(queue);
        if calls {
            self.more.notify_one();
        }
        sent
    }

    // Takes a message, releases the lock, and calls a sender if one sleeps.
    pub(crate) fn take(
        &self,
        queue: Guard<'_, T, S, R>,
        seen: &mut Seen<T, S, R>,
    ) -> Result<T, TryRecvError>
        ensures taken { IfOk result (λ message. S.kept ≡ true → Takes seen.old message seen.new) }
        ensures ended { IfErr result (λ e. S.kept ≡ true → EndsTry e seen.old seen.new) }
        ensures lacks { IfErr result (Lacks (guard_value queue.entry)) }
    {
        let mut queue = queue;
        let taken = queue.take(seen);
        let calls = taken.is_ok() && queue.calls_one(Side::Sends);
        drop(queue);
        if calls {
            self.room.notify_one();
        }
        taken
    }

    // Calls each sender that sleeps.
    pub(crate) fn call_senders(&self) {
        self.room.notify_all();
    }

    // Takes an end of this side away. Calls each thread of the other side that sleeps, if it was the last.
    pub(crate) fn lose<W: Wait>(&self, rt: &W, side: Side) {
        if self.queue.lock(rt).lose(side) {
            match side {
                Side::Sends => self.more.notify_all(),
                Side::Receives => self.room.notify_all(),
            }
        }
    }
}
