//! The rule of the cell of a `SpinMutex`, which runs the table of a flag. Begin at [`FlagRule`].
ghost use Rattle.std.specs.Prelude.{◌≡◌, refl};
ghost use Rattle.spin_core.specs.Cell.{use_of};
ghost use Rattle.spin_core.specs.Values.{untold};
ghost use Rattle.spin_session.specs.Meaning.{use_of_party, ways_of};
ghost use Rattle.spin_flag.specs.Flag.{IsFlag, flag_meaning, flag_tables};

use spin_core::cell::{Left, Rule, WritePermit};
use spin_core::guard::{self, Uses};
use spin_core::tie::Opening;
use spin_core::trace::{Trace, Watch};
use spin_session::calls::{finish, give};
use spin_session::table::{self, Runs};
use spin_step::{Answer, FlagCall, FlagPoint, FlagTable, Hold, Next, Operation, Steps};

/// A party: where it is in a call, or what it holds; with its number.
pub type Party = table::Party<FlagCall, FlagPoint>;

/// An entry of the trace of a lock of values of type `T`.
pub type Entry<T> = table::Entry<FlagCall, T>;

/// The whole history of a lock of values of type `T`, at its end.
pub type History<T> = Trace<Entry<T>>;

/// The rule of a [`SpinMutex`](super::SpinMutex): its word is 1 while a party holds the lock, else 0.
///
/// Callers need not name this type. It is a parameter of the type of a guard.
///
/// # Contract
/// `IsFlag`: the word is that of a plain lock whose holders are the parties that hold. The trace is a schedule of the
/// lock's model. The schedule leads to this word and to each party's view. While nobody holds the lock, its value is
/// the one that this schedule writes last (`IsLast`), until the owner borrows it.
pub struct FlagRule;

impl<T> Rule<T, Party> for FlagRule {
    type Key = Opening<T>;

    type Second = Trace<Entry<T>>;

    ghost holds = { IsFlag };

    ghost ways = { ways_of flag_meaning };

    ghost lent = { untold };
}

impl<T> Runs<T> for FlagRule {
    type Call = FlagCall;

    type Word = ();

    type Point = FlagPoint;

    type Words = bool;

    ghost tables = { flag_tables };

    ghost meaning = { flag_meaning };

    fn start(call: FlagCall, holds: Option<Hold>) -> Option<FlagPoint> {
        Steps::<T, FlagCall, FlagPoint>::start(&FlagTable, call, holds)
    }

    fn operation(call: FlagCall, point: FlagPoint, holds: Option<Hold>) -> (usize, Operation) {
        let place = Steps::<T, FlagCall, FlagPoint>::place(&FlagTable, point);
        let operation = Steps::<T, FlagCall, FlagPoint>::operation(&FlagTable, call, point, holds);
        (place, operation)
    }

    fn next(
        call: FlagCall,
        point: FlagPoint,
        holds: Option<Hold>,
        found: u64,
    ) -> Next<FlagPoint, Answer<()>> {
        Steps::<T, FlagCall, FlagPoint>::next(&FlagTable, call, point, holds, found)
    }

    fn laws() {}
}

impl Uses<Party> for FlagRule {
    ghost use_at = { use_of (use_of_party flag_meaning) };
}

impl<T> guard::Release<T, Party> for FlagRule {
    fn release<'a>(writer: WritePermit<'a, T, Party, FlagRule>) -> Left<'a, T, Party, FlagRule>
        ensures { result.0 ≡ writer.entry.key }
    {
        let (seen, release) = (Watch::nothing(), FlagCall::Release);
        finish(give::<T, FlagRule>(writer, seen, release, Hold::Write, None))
    }

    ghost same = { λ key view. refl };
}
