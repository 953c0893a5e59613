//! The calls of the lock of one flag, the points that a call reaches between its steps, and its table. Begin with
//! [`FlagCall`] and [`FlagTable`].
ghost use Rattle.std.specs.Prelude.{◌≡◌, None};
ghost use Rattle.spin_step.specs.FlagCalls.{flag_table, granted};

use crate::answer::Answer;
use crate::flag;
use crate::place::Hold;
use crate::stepped::Next;
use crate::table::{Operation, Steps};

/// A call of a `Flag`. `Flag::new` of `spin_world` promises that each call does what its comment says.
#[derive(Clone, Copy)]
pub enum FlagCall {
    /// Acquires the lock, in as many steps as it needs.
    Lock,
    /// Tries to acquire the lock. It fails if a party holds it.
    TryLock,
    /// Like `TryLock`, but makes a weak exchange, which may also fail spuriously.
    TryLockWeak,
    /// Answers whether a party holds the lock.
    IsLocked,
    /// Releases the lock.
    Release,
}

/// The point of a call: its next step. Only `Lock` has a second point.
#[derive(Clone, Copy)]
pub enum FlagPoint {
    /// The first step of any call, and of each further attempt.
    First,
    /// `Lock` looks at the flag, after its exchange has failed.
    Second,
}

/// The table of the lock.
///
/// # Contract
/// It is `flag_table`.
#[derive(Clone, Copy)]
pub struct FlagTable;

impl<T> Steps<T, FlagCall, FlagPoint> for FlagTable {
    type Words = bool;

    ghost table = { λ it. flag_table };

    ghost given = { None };

    fn start(&self, call: FlagCall, holds: Option<Hold>) -> Option<FlagPoint> {
        match (call, holds) {
            (FlagCall::Release, Some(Hold::Write)) => Some(FlagPoint::First),
            (FlagCall::Release, _) | (_, Some(_)) => None,
            _ => Some(FlagPoint::First),
        }
    }

    fn place(&self, point: FlagPoint) -> usize {
        let _ = point;
        0
    }

    fn operation(&self, call: FlagCall, point: FlagPoint, holds: Option<Hold>) -> Operation {
        let _ = holds;
        match (call, point) {
            (FlagCall::Lock, FlagPoint::Second) | (FlagCall::IsLocked, _) => Operation::Load,
            (FlagCall::Release, _) => Operation::Store(flag::unlock(true) as u64),
            _ => Operation::Exchange(0, flag::lock(false).unwrap() as u64),
        }
    }

    fn is_weak(&self, call: FlagCall, point: FlagPoint, holds: Option<Hold>) -> bool {
        let _ = holds;
        matches!(
            (call, point),
            (FlagCall::Lock, FlagPoint::First) | (FlagCall::TryLockWeak, _)
        )
    }

    fn next(
        &self,
        call: FlagCall,
        point: FlagPoint,
        holds: Option<Hold>,
        found: u64,
    ) -> Next<FlagPoint, Answer<()>> {
        let refused = Next::Answers(Answer::Refused, holds);
        match call {
            FlagCall::Lock => match point {
                FlagPoint::Second if found == 1 => Next::Continue(point),
                FlagPoint::Second => Next::Continue(FlagPoint::First),
                FlagPoint::First if found == 0 => granted(),
                FlagPoint::First => Next::Continue(FlagPoint::Second),
            },
            FlagCall::TryLock if found == 0 => granted(),
            FlagCall::TryLock => refused,
            FlagCall::TryLockWeak if found == 0 => granted(),
            FlagCall::TryLockWeak => refused,
            FlagCall::IsLocked => Next::Answers(Answer::Is(found == 1), holds),
            FlagCall::Release => Next::Answers(Answer::Done, None),
        }
    }
}

// Returns the end of a call that acquires the lock.
fn granted() -> Next<FlagPoint, Answer<()>>
    ensures { result ≡ granted }
{
    Next::Answers(Answer::Granted, Some(Hold::Write))
}
