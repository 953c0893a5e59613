//! The rule of the cell of an `RwLock`, which runs the table of a read-write lock. Begin at [`RwRule`].
ghost use Rattle.std.specs.Prelude.{◌≡◌, refl};
ghost use Rattle.spin_core.specs.Cell.{use_of};
ghost use Rattle.spin_core.specs.Values.{untold};
ghost use Rattle.spin_session.specs.Meaning.{use_of_party, ways_of};
ghost use Rattle.spin_step.specs.declared.place.Hold.{Hold as AHold};
ghost use Rattle.spin_step.specs.declared.place.Hold.TheVariants as hold;
ghost use Rattle.spin_rwlock.specs.Rw.{IsRw, Comes, call_of, downgrade_to, rw_meaning, rw_tables};

use spin_core::cell::{Left, Rule, WritePermit};
use spin_core::guard::{Release, Uses};
use spin_core::relax::MAX_BACK_OFF;
use spin_core::tie::Opening;
use spin_core::trace::{Trace, Watch};
use spin_session::calls::{SessionOf, finish, give};
use spin_session::table::{self, Ahead, Runs};
use spin_session_more::leaps::Leaps;
use spin_step::{Answer, Hold, Next, Operation, Steps};
use spin_step_more::rw;
use spin_step_more::rw_calls::{RwCall, RwPoint, RwTable};

/// The rule of an [`RwLock`](super::RwLock): its word is the sum of the weights of its holders.
///
/// No value of this type exists, and no caller names it. Its field makes it `Sync` only if `T` is, since several
/// threads read a `T` at once.
///
/// # Contract
/// `IsRw`: the word is that of a plain lock with these holders. The trace is a schedule of the lock's model. The
/// schedule leads to this word, and to the seat of each party. While nobody writes the value, it is the one that this
/// schedule writes last (`IsLast`), until the owner borrows it.
pub struct RwRule<T> {
    never: T,
}

/// A party: its seat in the model, with its number and its mark.
pub type Party = table::Party<RwCall, RwPoint>;

/// An entry of the trace of a lock of values of type `T`.
pub type Entry<T> = table::Entry<RwCall, T>;

/// The whole history of a lock of values of type `T`, at its end.
pub type History<T> = Trace<Entry<T>>;

pub(super) type RwSession<'a, T> = SessionOf<'a, T, RwRule<T>>;

pub(super) type Writer<'a, T> = WritePermit<'a, T, Party, RwRule<T>>;

impl<T> Rule<T, Party> for RwRule<T> {
    type Key = Opening<T>;

    type Second = Trace<Entry<T>>;

    ghost holds = { IsRw };

    ghost ways = { ways_of rw_meaning };

    ghost lent = { untold };
}

// The longest pause of a reader that is kept out, as a number of spin hints.
const MAX_READER_BACK_OFF: u32 = 64;

// The pause of a reader that has lost two exchanges.
const HINTS_AFTER_LOSSES: u32 = 512;

const TABLE: RwTable = RwTable {
    cap: rw::MAX_READERS,
};

impl<T> Runs<T> for RwRule<T> {
    type Call = RwCall;

    type Word = ();

    type Point = RwPoint;

    type Words = usize;

    ghost tables = { rw_tables };

    ghost meaning = { rw_meaning };

    fn start(call: RwCall, holds: Option<Hold>) -> Option<RwPoint> {
        Steps::<T, RwCall, RwPoint>::start(&TABLE, call, holds)
    }

    fn operation(call: RwCall, point: RwPoint, holds: Option<Hold>) -> (usize, Operation) {
        let place = Steps::<T, RwCall, RwPoint>::place(&TABLE, point);
        let operation = Steps::<T, RwCall, RwPoint>::operation(&TABLE, call, point, holds);
        (place, operation)
    }

    fn next(
        call: RwCall,
        point: RwPoint,
        holds: Option<Hold>,
        found: u64,
    ) -> Next<RwPoint, Answer<()>> {
        Steps::<T, RwCall, RwPoint>::next(&TABLE, call, point, holds, found)
    }

    // A writer backs off, and so does a reader that the word found keeps out, but for less, since it does not exchange the
    // word before it is free. A reader that loses a second exchange in a round stands back, since readers that try again at
    // once keep each other from succeeding. The reader that waits to upgrade is next, and gives one hint.
    fn hints(
        call: RwCall,
        from: RwPoint,
        to: RwPoint,
        holds: Option<Hold>,
        found: u64,
        due: u32,
    ) -> u32 {
        let _ = (holds, found);
        match (call, from, to) {
            (RwCall::Write, _, _) => due.max(1).min(MAX_BACK_OFF),
            (RwCall::Upgrade, RwPoint::First, _) => 0,
            (RwCall::Upgrade, _, _) => 1,
            (_, RwPoint::Exchange(_), RwPoint::Exchange(_)) if due > 0 => HINTS_AFTER_LOSSES,
            (_, _, RwPoint::Exchange(_)) => 0,
            _ => due.max(1).min(MAX_READER_BACK_OFF),
        }
    }

    fn laws() {}
}

impl<T> Uses<Party> for RwRule<T> {
    ghost use_at = { use_of (use_of_party rw_meaning) };
}

impl<T> Release<T, Party> for RwRule<T> {
    fn release<'a>(writer: WritePermit<'a, T, Party, RwRule<T>>) -> Left<'a, T, Party, RwRule<T>>
        ensures { result.0 ≡ writer.entry.key }
    {
        let (seen, release) = (Watch::nothing(), RwCall::Release);
        finish(give::<T, RwRule<T>>(writer, seen, release, Hold::Write, None))
    }

    ghost same = { λ key view. refl };
}

impl<T> Leaps<T> for RwRule<T> {
    // A call that acquires shared access expects a free lock, and makes its exchange at once. This saves a load, since
    // a failed exchange returns the word too.
    fn ahead(call: RwCall, holds: Option<Hold>) -> Option<Ahead<RwPoint>> {
        let _ = holds;
        let new = match call {
            RwCall::Read | RwCall::TryRead => rw::READER,
            RwCall::UpgradeableRead | RwCall::TryUpgradeableRead => rw::UPGRADABLE,
            _ => return None,
        };
        Some(Ahead {
            old: 0,
            new: new as u64,
            point: RwPoint::Exchange(0),
            number: 0,
            looks: true,
        })
    }
}

/// A kind of reader: [`Reader`] or [`Upgrader`].
///
/// # Contract
/// A reader of the kind holds `hold`.
pub trait Kind {
    ghost hold: { AHold };

    /// Returns what a reader of this kind holds.
    fn hold() -> Hold
        ensures { result ≡ Self.hold };

    ghost comes: { Comes Self.hold };
}

/// The kind of a plain reader.
pub struct Reader;

/// The kind of the upgradable reader.
pub struct Upgrader;

impl Kind for Reader {
    ghost hold = { hold.Read };

    fn hold() -> Hold {
        Hold::Read
    }

    ghost comes = { tt };
}

impl Kind for Upgrader {
    ghost hold = { hold.Upgradable };

    fn hold() -> Hold {
        Hold::Upgradable
    }

    ghost comes = { tt };
}

// Returns the call by which a party comes to hold so: the one that waits, or the one that tries.
pub(super) fn call_of(hold: Hold, waits: bool) -> RwCall
    ensures { result ≡ call_of hold waits }
{
    match (hold, waits) {
        (Hold::Upgradable, true) => RwCall::UpgradeableRead,
        (Hold::Upgradable, false) => RwCall::TryUpgradeableRead,
        (Hold::Read | Hold::Write | Hold::Ticket(_) | Hold::Starver, true) => RwCall::Read,
        (Hold::Read | Hold::Write | Hold::Ticket(_) | Hold::Starver, false) => RwCall::TryRead,
    }
}

// Returns the call by which the writer becomes such a reader.
pub(super) fn downgrade_to(hold: Hold) -> RwCall
    ensures { result ≡ downgrade_to hold }
{
    match hold {
        Hold::Upgradable => RwCall::DowngradeToUpgradeable,
        Hold::Read | Hold::Write | Hold::Ticket(_) | Hold::Starver => RwCall::Downgrade,
    }
}
