//! The calls of the ticket lock, their points, its words and its table. Begin with [`TicketCall`] and [`TicketTable`].
ghost use Rattle.std.specs.Prelude.{◌≡◌, None};
ghost use Rattle.spin_step.specs.TicketCalls.{ticket_table};

use crate::answer::Answer;
use crate::place::Hold;
use crate::stepped::Next;
use crate::table::{Operation, Steps};
use crate::ticket;

/// The two words of a `Ticket`.
#[derive(Clone, Copy)]
pub struct TicketWords {
    /// The number of the next ticket.
    pub next: u64,
    /// The number that is served: the party with this ticket may enter.
    pub serving: u64,
}

/// A call of a `Ticket`. `Ticket::new` of `spin_world` promises that each call does what its comment says.
#[derive(Clone, Copy)]
pub enum TicketCall {
    /// Takes a ticket, in as many steps as it needs, and then waits until the ticket is served. If no number
    /// is left, it looks for ever.
    Lock,
    /// Tries to acquire the lock without waiting. It fails only if some party had a ticket at some moment of
    /// the call, or if no number is left.
    TryLock,
    /// Answers whether some party has a ticket.
    IsLocked,
    /// Releases the lock: the next ticket is served.
    Release,
}

/// The point of a call: its next step, with the numbers that the party has found or taken so far.
#[derive(Clone, Copy)]
pub enum TicketPoint {
    /// `Lock` loads the next number.
    LoadNext,
    /// `Lock` tries to take the ticket with this number, by an exchange.
    Take(u64),
    /// `Lock` looks at the served number. The party has the ticket with this number.
    Await(u64),
    /// `TryLock` loads the next number.
    TryLoadNext,
    /// `TryLock` loads the served number, after it found this number to be next.
    TryLoadServing(u64),
    /// `TryLock` tries to take the ticket with this number, by an exchange. It found the number to be next
    /// and served.
    TryTake(u64),
    /// `IsLocked` loads the served number.
    LookServing,
    /// `IsLocked` loads the next number, after it found this number to be served.
    LookNext(u64),
    /// `Release` stores the number after the party's own ticket, which has this number.
    Serve(u64),
}

/// The table of the ticket lock whose first ticket has this number.
///
/// # Contract
/// It is `ticket_table`.
#[derive(Clone, Copy)]
pub struct TicketTable {
    pub first: u64,
}

impl<T> Steps<T, TicketCall, TicketPoint> for TicketTable {
    type Words = TicketWords;

    ghost table = { λ it value. ticket_table value it.first };

    ghost given = { None };

    fn start(&self, call: TicketCall, holds: Option<Hold>) -> Option<TicketPoint> {
        match (call, holds) {
            (TicketCall::Lock, None) => Some(TicketPoint::LoadNext),
            (TicketCall::TryLock, None) => Some(TicketPoint::TryLoadNext),
            (TicketCall::IsLocked, None) => Some(TicketPoint::LookServing),
            (TicketCall::Release, Some(Hold::Ticket(ticket))) => Some(TicketPoint::Serve(ticket)),
            _ => None,
        }
    }

    fn place(&self, point: TicketPoint) -> usize {
        match point {
            TicketPoint::Await(_)
            | TicketPoint::TryLoadServing(_)
            | TicketPoint::LookServing
            | TicketPoint::Serve(_) => 1,
            _ => 0,
        }
    }

    fn operation(&self, call: TicketCall, point: TicketPoint, holds: Option<Hold>) -> Operation {
        let _ = (call, holds);
        match point {
            TicketPoint::Take(next) | TicketPoint::TryTake(next) => {
                Operation::Exchange(next, ticket::take(next).unwrap_or(next))
            }
            TicketPoint::Serve(ticket) => Operation::Store(ticket.wrapping_add(1)),
            _ => Operation::Load,
        }
    }

    fn is_weak(&self, call: TicketCall, point: TicketPoint, holds: Option<Hold>) -> bool {
        let _ = (call, point, holds);
        false
    }

    fn next(
        &self,
        call: TicketCall,
        point: TicketPoint,
        holds: Option<Hold>,
        found: u64,
    ) -> Next<TicketPoint, Answer<()>> {
        let _ = call;
        let refused = Next::Answers(Answer::Refused, holds);
        match point {
            TicketPoint::Take(next) if found == next && next < u64::MAX => {
                Next::Continue(TicketPoint::Await(next))
            }
            TicketPoint::LoadNext | TicketPoint::Take(_) => Next::Continue(if found < u64::MAX {
                TicketPoint::Take(found)
            } else {
                TicketPoint::LoadNext
            }),
            TicketPoint::Await(ticket) => {
                if ticket::is_turn(found, ticket) {
                    Next::Answers(Answer::Granted, Some(Hold::Ticket(ticket)))
                } else {
                    Next::Continue(point)
                }
            }
            TicketPoint::TryLoadNext => Next::Continue(TicketPoint::TryLoadServing(found)),
            TicketPoint::TryLoadServing(next) => {
                if ticket::is_turn(found, next) && next < u64::MAX {
                    Next::Continue(TicketPoint::TryTake(next))
                } else {
                    refused
                }
            }
            TicketPoint::TryTake(next) => {
                if found == next && next < u64::MAX {
                    Next::Answers(Answer::Granted, Some(Hold::Ticket(next)))
                } else {
                    refused
                }
            }
            TicketPoint::LookServing => Next::Continue(TicketPoint::LookNext(found)),
            TicketPoint::LookNext(serving) => Next::Answers(Answer::Is(found != serving), holds),
            TicketPoint::Serve(_) => Next::Answers(Answer::Done, None),
        }
    }
}
