//! The rule of the cell of a `FairMutex`, which runs the table of a fair lock. Begin at [`FairRule`].
ghost use Rattle.std.specs.Prelude.{◌≡◌, refl};
ghost use Rattle.spin_core.specs.Cell.{use_of};
ghost use Rattle.spin_core.specs.Values.{untold};
ghost use Rattle.spin_session.specs.Meaning.{use_of_party, ways_of};
ghost use Rattle.spin_step_more.specs.declared.fair_calls.FairPoint.TheVariants.{Unregister};
ghost use Rattle.spin_fair.specs.Fair.{IsFair, fair_meaning, fair_tables};

use super::STARVATION_SPINS;
use spin_core::cell::{Left, Rule, WritePermit};
use spin_core::guard::{self, Uses};
use spin_core::relax::MAX_BACK_OFF;
use spin_core::tie::Opening;
use spin_core::trace::{Trace, Watch};
use spin_session::calls::{finish, give};
use spin_session::table::{self, Ahead, Runs};
use spin_session_more::leaps::Leaps;
use spin_step::{Answer, Hold, Next, Operation, Steps};
use spin_step_more::fair::{self, HOLDER, STARVER};
use spin_step_more::{FairCall, FairPoint, FairTable};

/// A party: where it is in a call, or what it holds; with its number.
pub type Party = table::Party<FairCall, FairPoint>;

/// An entry of the trace of a lock of values of type `T`.
pub type Entry<T> = table::Entry<FairCall, T>;

/// The whole history of a lock of values of type `T`, at its end.
pub type History<T> = Trace<Entry<T>>;

/// The rule of a [`FairMutex`](super::FairMutex): its word is the sum of what its holder and its starvers weigh.
///
/// Callers need not name this type. It is a parameter of the type of a guard.
///
/// # Contract
/// `IsFair`: the word is that of a plain lock whose holder and starvers are the parties that hold or starve. The trace
/// is a schedule of the lock's model. The schedule leads to this word and to each party's seat. While nobody holds the
/// lock, its value is the one that this schedule writes last (`IsLast`), until the owner borrows it.
pub struct FairRule;

impl<T> Rule<T, Party> for FairRule {
    type Key = Opening<T>;

    type Second = Trace<Entry<T>>;

    ghost holds = { IsFair };

    ghost ways = { ways_of fair_meaning };

    ghost lent = { untold };
}

const TABLE: FairTable = FairTable {
    cap: fair::MAX_STARVERS,
    patience: STARVATION_SPINS + 1,
};

impl<T> Runs<T> for FairRule {
    type Call = FairCall;

    type Word = ();

    type Point = FairPoint;

    type Words = usize;

    ghost tables = { fair_tables };

    ghost meaning = { fair_meaning };

    fn start(call: FairCall, holds: Option<Hold>) -> Option<FairPoint> {
        Steps::<T, FairCall, FairPoint>::start(&TABLE, call, holds)
    }

    fn operation(call: FairCall, point: FairPoint, holds: Option<Hold>) -> (usize, Operation) {
        let place = Steps::<T, FairCall, FairPoint>::place(&TABLE, point);
        let operation = Steps::<T, FairCall, FairPoint>::operation(&TABLE, call, point, holds);
        (place, operation)
    }

    fn next(
        call: FairCall,
        point: FairPoint,
        holds: Option<Hold>,
        found: u64,
    ) -> Next<FairPoint, Answer<()>> {
        Steps::<T, FairCall, FairPoint>::next(&TABLE, call, point, holds, found)
    }

    // A thread that found the lock held pauses before it looks again. All pauses are equally long, so the number of
    // looks measures time.
    fn hints(
        call: FairCall,
        from: FairPoint,
        to: FairPoint,
        holds: Option<Hold>,
        found: u64,
        due: u32,
    ) -> u32 {
        let _ = (call, from, holds, found, due);
        match to {
            FairPoint::Look(_) | FairPoint::Await => MAX_BACK_OFF,
            FairPoint::Load => 1,
            _ => 0,
        }
    }

    fn laws() {}
}

impl<T> Leaps<T> for FairRule {
    // The only starver of a free lock acquires it and stops starving by one exchange. The first exchange of `starve`
    // expects a free lock, which saves a load.
    fn ahead(call: FairCall, holds: Option<Hold>) -> Option<Ahead<FairPoint>> {
        match (call, holds) {
            (FairCall::StarverTryLockFair, Some(Hold::Starver)) => Some(alone(true)),
            (FairCall::StarverTryLock | FairCall::StarverLock, Some(Hold::Starver)) => {
                Some(alone(false))
            }
            (FairCall::Starve, None) => Some(Ahead {
                old: 0,
                new: STARVER as u64,
                point: FairPoint::Register(0),
                number: 0,
                looks: true,
            }),
            _ => None,
        }
    }
}

// Returns the exchange of the only starver. `looks` says whether it is a step of the call if another starves.
fn alone(looks: bool) -> Ahead<FairPoint>
    ensures { result ≡ record { old = 2; new = 1; point = Unregister; number = 3; looks = looks } }
{
    Ahead {
        old: STARVER as u64,
        new: HOLDER as u64,
        point: FairPoint::Unregister,
        number: (STARVER + HOLDER) as u64,
        looks,
    }
}

impl Uses<Party> for FairRule {
    ghost use_at = { use_of (use_of_party fair_meaning) };
}

impl<T> guard::Release<T, Party> for FairRule {
    fn release<'a>(writer: WritePermit<'a, T, Party, FairRule>) -> Left<'a, T, Party, FairRule>
        ensures { result.0 ≡ writer.entry.key }
    {
        let (seen, release) = (Watch::nothing(), FairCall::Release);
        finish(give::<T, FairRule>(writer, seen, release, Hold::Write, None))
    }

    ghost same = { λ key view. refl };
}
