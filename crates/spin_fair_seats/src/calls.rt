//! The calls of fair seats, their points, the words and the table. Begin with [`FairSeatsCall`] and [`FairSeatsTable`].
ghost use Rattle.std.specs.Prelude.{◌≡◌, ◌^◌, None};
ghost use Rattle.spin_fair_seats.specs.Table.{fair_seats_memory, fair_seats_table};

use crate::steps;
use spin_step::{Answer, Hold, Next, Operation, Steps, Words, ticket};

/// The two words of the lock.
#[derive(Clone, Copy)]
pub struct FairSeatsWords {
    /// The number of the next ticket.
    pub next: u64,
    /// How many seats were given back.
    pub given: u64,
}

/// A call of the lock.
#[derive(Clone, Copy)]
pub enum FairSeatsCall {
    /// Takes a ticket, and waits for its turn. It is refused if no ticket is left.
    Enter,
    /// Takes a seat if one is free and nobody waits. It is also refused if another party comes or goes meanwhile.
    TryEnter,
    /// Answers a number of seats; at some moment of the call at least so many were taken.
    Count,
    /// Gives the seat back.
    Leave,
}

/// The point of a call: its next step, with the numbers that it has found.
#[derive(Clone, Copy)]
pub enum FairSeatsPoint {
    LoadNext,
    Take(u64),
    Await(u64),
    TryNext,
    TryGiven(u64),
    TryTake(u64),
    CountNext,
    CountGiven(u64),
    Give,
}

impl Words for FairSeatsWords {
    ghost memory = { fair_seats_memory };

    ghost places = { 2 };

    ghost limit = { 2 ^ 64 };

    fn number(&self, place: usize) -> u64 {
        let FairSeatsWords { next, given } = *self;
        if place == 0 { next } else { given }
    }

    fn put(self, place: usize, number: u64) -> FairSeatsWords {
        if place == 0 {
            FairSeatsWords {
                next: number,
                ..self
            }
        } else {
            FairSeatsWords {
                given: number,
                ..self
            }
        }
    }
}

/// The table of a lock of `seats` seats.
///
/// # Contract
/// It is `fair_seats_table`.
#[derive(Clone, Copy)]
pub struct FairSeatsTable {
    pub seats: usize,
}

impl Steps<(), FairSeatsCall, FairSeatsPoint> for FairSeatsTable {
    type Words = FairSeatsWords;

    ghost table = { λ it value. fair_seats_table it.seats };

    ghost given = { None };

    fn start(&self, call: FairSeatsCall, holds: Option<Hold>) -> Option<FairSeatsPoint> {
        match (call, holds) {
            (FairSeatsCall::Enter, None) => Some(FairSeatsPoint::LoadNext),
            (FairSeatsCall::TryEnter, None) => Some(FairSeatsPoint::TryNext),
            (FairSeatsCall::Count, None) => Some(FairSeatsPoint::CountNext),
            (FairSeatsCall::Leave, Some(Hold::Read)) => Some(FairSeatsPoint::Give),
            _ => None,
        }
    }

    fn place(&self, point: FairSeatsPoint) -> usize {
        match point {
            FairSeatsPoint::Await(_)
            | FairSeatsPoint::TryGiven(_)
            | FairSeatsPoint::CountGiven(_)
            | FairSeatsPoint::Give => 1,
            _ => 0,
        }
    }

    fn operation(
        &self,
        call: FairSeatsCall,
        point: FairSeatsPoint,
        holds: Option<Hold>,
    ) -> Operation {
        let _ = (call, holds);
        match point {
            FairSeatsPoint::Take(next) | FairSeatsPoint::TryTake(next) => {
                Operation::Exchange(next, ticket::take(next).unwrap_or(next))
            }
            FairSeatsPoint::Give => Operation::Add(1),
            _ => Operation::Load,
        }
    }

    fn is_weak(&self, call: FairSeatsCall, point: FairSeatsPoint, holds: Option<Hold>) -> bool {
        let _ = (call, point, holds);
        false
    }

    fn next(
        &self,
        call: FairSeatsCall,
        point: FairSeatsPoint,
        holds: Option<Hold>,
        found: u64,
    ) -> Next<FairSeatsPoint, Answer<()>> {
        let _ = call;
        let refused = Next::Answers(Answer::Refused, holds);
        match point {
            FairSeatsPoint::Take(next) if found == next && next < u64::MAX => {
                Next::Continue(FairSeatsPoint::Await(next))
            }
            FairSeatsPoint::LoadNext | FairSeatsPoint::Take(_) => {
                if found < u64::MAX {
                    Next::Continue(FairSeatsPoint::Take(found))
                } else {
                    refused
                }
            }
            FairSeatsPoint::Await(ticket) => {
                if steps::may_sit(found, ticket, self.seats) {
                    Next::Answers(Answer::Granted, Some(Hold::Read))
                } else {
                    Next::Continue(point)
                }
            }
            FairSeatsPoint::TryNext => Next::Continue(FairSeatsPoint::TryGiven(found)),
            FairSeatsPoint::TryGiven(next) => {
                if steps::may_sit(found, next, self.seats) && next < u64::MAX {
                    Next::Continue(FairSeatsPoint::TryTake(next))
                } else {
                    refused
                }
            }
            FairSeatsPoint::TryTake(next) => {
                if found == next && next < u64::MAX {
                    Next::Continue(FairSeatsPoint::Await(next))
                } else {
                    refused
                }
            }
            FairSeatsPoint::CountNext => Next::Continue(FairSeatsPoint::CountGiven(found)),
            FairSeatsPoint::CountGiven(next) => {
                let most = self.seats.min(steps::MAX_SEATS) as u64;
                let taken = next.saturating_sub(found).min(most);
                Next::Answers(Answer::Count(taken as usize), holds)
            }
            FairSeatsPoint::Give => Next::Answers(Answer::Done, None),
        }
    }
}
