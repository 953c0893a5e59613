//! The rule of a `TicketMutex`: its cell runs the table of tickets. Begin at [`TicketRule`].
ghost use Rattle.std.specs.Prelude.{◌≡◌, ◌≤◌, Some, length, refl};
ghost use Rattle.spin_core.specs.Cell.{use_of, writes};
ghost use Rattle.spin_core.specs.Passes.{Nothing};
ghost use Rattle.spin_core.specs.Spots.{Since};
ghost use Rattle.spin_core.specs.Traced.{MayKnow};
ghost use Rattle.spin_core.specs.Values.{untold};
ghost use Rattle.spin_session.specs.Meaning.{Peeks, use_at, use_of_party, ways_of, with_second};
ghost use Rattle.spin_mutex.specs.Queue.{IsQueue, model, ticket_meaning, ticket_tables};

use spin_core::cell::{Left, Rule, WritePermit};
use spin_core::guard::{self, Uses};
use spin_core::relax::MAX_HINTS;
use spin_core::tie::Opening;
use spin_core::trace::{Trace, Watch};
use spin_session::calls::{finish, give};
use spin_session::second::Word;
use spin_session::table::{self, Peek, Runs};
use spin_step::{
    Answer, Hold, Next, Operation, Steps, TicketCall, TicketPoint, TicketTable, TicketWords,
};

/// The rule of a [`TicketMutex`](super::TicketMutex): its words are the next ticket's number and the number served.
///
/// Callers need not name this type. It is a parameter of the type of a guard.
///
/// # Contract
/// `IsQueue`: the words are those of a plain lock whose tickets are those of the parties that wait or have entered. The
/// trace is a schedule of the lock's model. The schedule leads to these words and to each party's seat. While nobody
/// holds the lock, its value is the one that this schedule writes last (`IsLast`), until the owner borrows it.
pub struct TicketRule;

impl<T> Rule<T, Party> for TicketRule {
    type Key = Opening<T>;

    // The trace, with the served number.
    type Second = Trace<Entry<T>, u64>;

    ghost holds = { IsQueue };

    ghost ways = { ways_of ticket_meaning };

    ghost lent = { untold };
}

/// A party's seat in the lock's model, with its number and its mark.
pub type Party = table::Party<TicketCall, TicketPoint>;

/// An entry of the trace of a lock of values of type `T`.
pub type Entry<T> = table::Entry<TicketCall, T>;

/// The whole history of a lock of values of type `T`, at its end.
pub type History<T> = Trace<Entry<T>, u64>;

// The steps are the same, whatever the first ticket is.
const TABLE: TicketTable = TicketTable { first: 0 };

impl<T> Runs<T> for TicketRule {
    type Call = TicketCall;

    type Word = u64;

    type Point = TicketPoint;

    type Words = TicketWords;

    ghost tables = { ticket_tables };

    ghost meaning = { ticket_meaning };

    fn start(call: TicketCall, holds: Option<Hold>) -> Option<TicketPoint> {
        Steps::<T, TicketCall, TicketPoint>::start(&TABLE, call, holds)
    }

    fn operation(call: TicketCall, point: TicketPoint, holds: Option<Hold>) -> (usize, Operation) {
        let place = Steps::<T, TicketCall, TicketPoint>::place(&TABLE, point);
        let operation = Steps::<T, TicketCall, TicketPoint>::operation(&TABLE, call, point, holds);
        (place, operation)
    }

    fn next(
        call: TicketCall,
        point: TicketPoint,
        holds: Option<Hold>,
        found: u64,
    ) -> Next<TicketPoint, Answer<()>> {
        Steps::<T, TicketCall, TicketPoint>::next(&TABLE, call, point, holds, found)
    }

    // The thread that is next gives one hint. While others wait before it, a thread looks seldom, so that it does not
    // disturb them: most seldom behind four of them, since there may not be so many processors. So does a thread that found
    // no ticket left. An exchange that failed is retried at once.
    fn hints(
        call: TicketCall,
        from: TicketPoint,
        to: TicketPoint,
        holds: Option<Hold>,
        found: u64,
        due: u32,
    ) -> u32 {
        let _ = (call, holds, due);
        match (from, to) {
            (TicketPoint::Await(_), TicketPoint::Await(ticket)) => {
                match ticket.saturating_sub(found) {
                    0 | 1 => 1,
                    2 => 16,
                    3 => 24,
                    _ => MAX_HINTS,
                }
            }
            (_, TicketPoint::Take(_)) | (TicketPoint::Take(_), TicketPoint::Await(_)) => 0,
            _ => MAX_HINTS,
        }
    }

    fn laws() {}
}

impl Uses<Party> for TicketRule {
    ghost use_at = { use_of (use_of_party ticket_meaning) };
}

impl<T> guard::Release<T, Party> for TicketRule {
    // The served number is that of the writer's ticket. A guard does not keep this number. If it did, and the number
    // were tied to the seat, `deref_mut` could not lend the guard's permit.
    fn release<'a>(writer: WritePermit<'a, T, Party, TicketRule>) -> Left<'a, T, Party, TicketRule>
        ensures { result.0 ≡ writer.entry.key }
    {
        let (number, writer, _) = served(writer, Watch::nothing());
        let release = TicketCall::Release;
        let held = Hold::Ticket(number);
        let seen = Watch::nothing();
        finish(give::<T, TicketRule>(writer, seen, release, held, None))
    }

    ghost same = { λ key view. refl };
}

// Loads the served number, for a holder that writes. The load is no step of a call. The number found is the word of a
// lock in which the party has the part of its seat (`finds`). The party and its value stay as they are.
#[inline(always)]
pub(super) fn served<'a, T>(
    writer: WritePermit<'a, T, Party, TicketRule>,
    seen: Watch<Entry<T>>,
) -> (u64, WritePermit<'a, T, Party, TicketRule>, Watch<Entry<T>>)
    requires { MayKnow (IsQueue writer.key) (ways_of ticket_meaning writer.key) seen }
    ensures seat { result.1.view.0 ≡ writer.entry.view.0 }
    ensures writes { use_at ticket_meaning writer.entry.view.0 ≡ writes }
    ensures value { result.1.value ≡ writer.entry.value }
    ensures key { result.1.key ≡ writer.entry.key }
    ensures finds { Peeks with_second ticket_meaning writer.entry.view.0 result.0 }
    ensures since { writer.entry.key.name ≡ seen.name → writer.entry.view.2 ≤ length seen.entries → (Since model Nothing (writer.entry.key, Some writer.entry.view, seen) (result.1.key, Some result.1.view, result.2)) × (result.1.view.2 ≡ length result.2.entries) }
{
    <TicketRule as Runs<T>>::laws();
    let (number, permit, seen) = <u64 as Word>::operate::<
        T,
        Party,
        Entry<T>,
        TicketRule,
        Peek<TicketRule>,
    >(writer.into_permit(), Operation::Load, seen);
    (number, permit.into_writer(), seen)
}
