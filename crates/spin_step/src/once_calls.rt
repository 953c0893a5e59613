//! The calls of a `Once`, the points that a call reaches between its steps, and its table. Begin with [`OnceCall`] and
//! [`OnceTable`].
ghost use Rattle.std.specs.Prelude.{◌≡◌, Option, Some};
ghost use Rattle.spin_step.specs.OnceCalls.{once_table_of};

use crate::answer::Answer;
use crate::once;
use crate::place::Hold;
use crate::stepped::Next;
use crate::table::{Operation, Steps};

/// A call of a `OnceObject`. `OnceObject::new` of `spin_world` promises that each call does what its comment
/// says.
///
/// A call with a closure answers the value if there is one. If there is none, the call runs its closure.
/// While another closure runs, the call waits.
#[derive(Copy)]
pub enum OnceCall<V> {
    /// Runs a closure that gives this value.
    CallOnce(V),
    /// Runs a closure that could fail, but gives this value.
    TryCallOnceOk(V),
    /// Runs a closure that fails.
    TryCallOnceErr,
    /// Runs a closure that copies this value.
    InitFromRef(V),
    /// Waits for the value.
    Wait,
    /// Returns the value, or says that there is none. It waits while a closure runs.
    Poll,
    /// Returns the value, or says that there is none, without waiting.
    Get,
    /// Says whether there is a value.
    IsCompleted,
}

/// The point of a call: its next step.
#[derive(Clone, Copy)]
pub enum OncePoint {
    /// The first look of any call, and each further look of `Wait` and `Poll`.
    Look,
    /// A call with a closure tries to begin it, by an exchange.
    TryBegin,
    /// The call looks until no other closure runs.
    Await,
    /// The call's closure ends: it gives a value, or fails.
    Run,
}

/// The table of a `Once`. An answer `Value` stands for the value that is there after the step.
///
/// # Contract
/// It is `once_table_of`, whose steps are those of `once_table`.
#[derive(Clone, Copy)]
pub struct OnceTable;

impl<V: Copy> Steps<(), OnceCall<V>, OncePoint> for OnceTable {
    type Words = u8;

    ghost table = { λ it value. once_table_of (Some value) };

    ghost given = { Some tt };

    fn start(&self, call: OnceCall<V>, holds: Option<Hold>) -> Option<OncePoint> {
        let _ = call;
        match holds {
            None => Some(OncePoint::Look),
            Some(_) => None,
        }
    }

    fn place(&self, point: OncePoint) -> usize {
        let _ = point;
        0
    }

    fn operation(&self, call: OnceCall<V>, point: OncePoint, holds: Option<Hold>) -> Operation {
        let _ = holds;
        match (call, point) {
            (OnceCall::Wait | OnceCall::Poll | OnceCall::Get | OnceCall::IsCompleted, _)
            | (_, OncePoint::Look | OncePoint::Await) => Operation::Load,
            (_, OncePoint::TryBegin) => Operation::Exchange(0, once::begin(0).unwrap() as u64),
            (OnceCall::TryCallOnceErr, _) => Operation::Store(once::fail(1) as u64),
            _ => Operation::Store(once::complete(1) as u64),
        }
    }

    fn is_weak(&self, call: OnceCall<V>, point: OncePoint, holds: Option<Hold>) -> bool {
        let _ = (call, point, holds);
        false
    }

    fn next(
        &self,
        call: OnceCall<V>,
        point: OncePoint,
        holds: Option<Hold>,
        found: u64,
    ) -> Next<OncePoint, Answer<()>> {
        let value = Next::Answers(Answer::Value(()), holds);
        match (call, point) {
            (OnceCall::IsCompleted, _) => Next::Answers(Answer::Is(found == 2), holds),
            (OnceCall::Wait | OnceCall::Poll | OnceCall::Get, _) if found == 2 => value,
            (OnceCall::Wait, _) => Next::Continue(OncePoint::Look),
            (OnceCall::Poll, _) if found != 0 => Next::Continue(OncePoint::Look),
            (OnceCall::Poll | OnceCall::Get, _) => Next::Answers(Answer::NoValue, holds),
            (OnceCall::TryCallOnceErr, OncePoint::Run) => Next::Answers(Answer::Failed, holds),
            (_, OncePoint::Run) => value,
            (_, OncePoint::TryBegin) if found == 0 => Next::Continue(OncePoint::Run),
            _ if found == 2 => value,
            (_, OncePoint::Look) => Next::Continue(OncePoint::TryBegin),
            (_, OncePoint::Await) if found == 0 => Next::Continue(OncePoint::TryBegin),
            _ => Next::Continue(OncePoint::Await),
        }
    }
}
