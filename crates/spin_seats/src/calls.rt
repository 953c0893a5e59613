//! The calls of a lock of seats, the points between their steps, and the lock's table. Begin with [`SeatsCall`] and
//! [`SeatsTable`].
ghost use Rattle.std.specs.Prelude.{◌≡◌, None};
ghost use Rattle.spin_seats.specs.Table.{seats_table};

use crate::steps;
use spin_step::{Answer, Hold, Next, Operation, Steps};

/// A call of the lock in the model.
#[derive(Clone, Copy)]
pub enum SeatsCall {
    /// Tries to take a seat. It fails only if all seats were taken at some moment of the call.
    TryEnter,
    /// Tries once to take a seat: a load, and an exchange if the load found a free seat. It also fails if another party
    /// takes or frees a seat between the two.
    TryEnterWeak,
    /// Takes a seat, in as many steps as it needs.
    Enter,
    /// Counts the seats that are taken.
    Count,
    /// Frees the seat of the party.
    Leave,
}

/// The point of a call: its next step. Only a call that takes a seat has a second point.
#[derive(Clone, Copy)]
pub enum SeatsPoint {
    /// The first step of any call, and the look of an `Enter` that has found no free seat.
    First,
    /// The exchange that expects this word, which the call has found.
    Exchange(usize),
}

/// The table of a lock of `seats` seats.
///
/// # Contract
/// It is `seats_table`.
#[derive(Clone, Copy)]
pub struct SeatsTable {
    pub seats: usize,
}

impl Steps<(), SeatsCall, SeatsPoint> for SeatsTable {
    type Words = usize;

    ghost table = { λ it value. seats_table it.seats };

    ghost given = { None };

    fn start(&self, call: SeatsCall, holds: Option<Hold>) -> Option<SeatsPoint> {
        match (call, holds) {
            (SeatsCall::TryEnter | SeatsCall::TryEnterWeak | SeatsCall::Enter, None)
            | (SeatsCall::Count, None)
            | (SeatsCall::Leave, Some(Hold::Read)) => Some(SeatsPoint::First),
            _ => None,
        }
    }

    fn place(&self, point: SeatsPoint) -> usize {
        let _ = point;
        0
    }

    fn operation(&self, call: SeatsCall, point: SeatsPoint, holds: Option<Hold>) -> Operation {
        let _ = holds;
        match (call, point) {
            (SeatsCall::Leave, _) => Operation::Subtract(1),
            (SeatsCall::Count, _) | (_, SeatsPoint::First) => Operation::Load,
            (_, SeatsPoint::Exchange(word)) => {
                let next = steps::enter(word, self.seats).unwrap_or(word);
                Operation::Exchange(word as u64, next as u64)
            }
        }
    }

    fn is_weak(&self, call: SeatsCall, point: SeatsPoint, holds: Option<Hold>) -> bool {
        let _ = (call, point, holds);
        false
    }

    fn next(
        &self,
        call: SeatsCall,
        point: SeatsPoint,
        holds: Option<Hold>,
        found: u64,
    ) -> Next<SeatsPoint, Answer<()>> {
        let word = found as usize;
        let is_free = steps::enter(word, self.seats).is_some();
        let is_found = matches!(point, SeatsPoint::Exchange(known) if known == word);
        let has_looked = matches!(point, SeatsPoint::Exchange(_));
        match call {
            SeatsCall::Count => Next::Answers(Answer::Count(word), holds),
            SeatsCall::Leave => Next::Answers(Answer::Done, None),
            _ if is_found && is_free => Next::Answers(Answer::Granted, Some(Hold::Read)),
            SeatsCall::TryEnterWeak if has_looked => Next::Answers(Answer::Refused, holds),
            _ if is_free => Next::Continue(SeatsPoint::Exchange(word)),
            SeatsCall::TryEnter | SeatsCall::TryEnterWeak => Next::Answers(Answer::Refused, holds),
            SeatsCall::Enter => Next::Continue(SeatsPoint::First),
        }
    }
}
