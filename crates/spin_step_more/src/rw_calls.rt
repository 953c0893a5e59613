//! The calls of the read-write lock, the points between their steps, and its table. Begin with [`RwCall`] and
//! [`RwTable`].
ghost use Rattle.std.specs.Prelude.{◌≡◌, ◌==◌, None, is_some};
ghost use Rattle.spin_step.specs.Acts.{either};
ghost use Rattle.spin_step.specs.declared.place.Hold.TheVariants.{Write};
ghost use Rattle.spin_step_more.specs.RwCalls.{comes, granted, rw_table};

use crate::rw;
use spin_step::{Answer, Hold, Next, Operation, Steps};

/// A call of an `Rw`. `Rw::new` of `spin_world` promises that each call does what its comment says.
///
/// A try fails only if, at some moment of the call, what it asks is not open to the party. A weak try may also
/// fail spuriously.
#[derive(Clone, Copy)]
pub enum RwCall {
    /// Tries to acquire shared access. It fails if a writer holds the lock, if a reader asks to upgrade, or
    /// at the cap.
    TryRead,
    /// Acquires shared access, in as many steps as it takes.
    Read,
    /// Like `TryRead`, for shared access with the right to upgrade. It also fails if another party has this
    /// right.
    TryUpgradeableRead,
    /// Acquires shared access with the right to upgrade, in as many steps as it takes.
    UpgradeableRead,
    /// Tries to acquire exclusive access. It fails if the lock is held.
    TryWrite,
    /// Like `TryWrite`, but makes a weak exchange, which may also fail spuriously.
    TryWriteWeak,
    /// Acquires exclusive access, in as many steps as it takes.
    Write,
    /// Counts the readers, including the upgradable one.
    ReaderCount,
    /// Counts the writers.
    WriterCount,
    /// Answers whether a party holds the lock.
    IsLocked,
    /// Tries to turn the upgradable reader into the writer. It fails if another party reads; then the party
    /// stays upgradable.
    TryUpgrade,
    /// Like `TryUpgrade`, but makes a weak exchange, which may also fail spuriously.
    TryUpgradeWeak,
    /// Asks to turn the upgradable reader into the writer, and then does so, in as many steps as it takes.
    Upgrade,
    /// Turns the writer or the upgradable reader into a reader, in one step.
    Downgrade,
    /// Turns the writer into the upgradable reader, in one step.
    DowngradeToUpgradeable,
    /// Releases the lock, whatever the party holds.
    Release,
}

/// The point of a call: its next step. Only a call that acquires shared access, or that waits to upgrade, has
/// a second point.
#[derive(Clone, Copy)]
pub enum RwPoint {
    /// The first step of any call, and of each further attempt.
    First,
    /// The exchange that expects this word, which the call has found.
    Exchange(usize),
    /// The exchange by which a reader that has asked becomes the writer.
    Asking,
}

/// The table of the read-write lock that admits at most `cap` readers.
///
/// # Contract
/// It is `rw_table`.
#[derive(Clone, Copy)]
pub struct RwTable {
    pub cap: usize,
}

impl<T> Steps<T, RwCall, RwPoint> for RwTable {
    type Words = usize;

    ghost table = { λ it value. rw_table value it.cap };

    ghost given = { None };

    fn start(&self, call: RwCall, holds: Option<Hold>) -> Option<RwPoint> {
        match (call, holds) {
            (
                RwCall::TryRead
                | RwCall::Read
                | RwCall::TryUpgradeableRead
                | RwCall::UpgradeableRead
                | RwCall::TryWrite
                | RwCall::TryWriteWeak
                | RwCall::Write
                | RwCall::ReaderCount
                | RwCall::WriterCount
                | RwCall::IsLocked,
                None,
            )
            | (
                RwCall::TryUpgrade | RwCall::TryUpgradeWeak | RwCall::Upgrade | RwCall::Downgrade,
                Some(Hold::Upgradable),
            )
            | (RwCall::Downgrade | RwCall::DowngradeToUpgradeable, Some(Hold::Write))
            | (RwCall::Release, Some(Hold::Read | Hold::Upgradable | Hold::Write)) => {
                Some(RwPoint::First)
            }
            _ => None,
        }
    }

    fn place(&self, point: RwPoint) -> usize {
        let _ = point;
        0
    }

    fn operation(&self, call: RwCall, point: RwPoint, holds: Option<Hold>) -> Operation {
        match (call, point) {
            (RwCall::TryRead | RwCall::Read, RwPoint::Exchange(word)) => {
                let next = rw::read(word, self.cap).unwrap_or(word);
                Operation::Exchange(word as u64, next as u64)
            }
            (RwCall::TryUpgradeableRead | RwCall::UpgradeableRead, RwPoint::Exchange(word)) => {
                let next = rw::upgradable(word, self.cap).unwrap_or(word);
                Operation::Exchange(word as u64, next as u64)
            }
            (RwCall::TryWrite | RwCall::TryWriteWeak | RwCall::Write, _) => {
                Operation::Exchange(0, rw::WRITER as u64)
            }
            (RwCall::TryUpgrade | RwCall::TryUpgradeWeak, _) => {
                Operation::Exchange(rw::UPGRADABLE as u64, rw::WRITER as u64)
            }
            (RwCall::Upgrade, RwPoint::Asking) => {
                Operation::Exchange((rw::UPGRADABLE + rw::ASKING) as u64, rw::WRITER as u64)
            }
            (RwCall::Upgrade, _) => Operation::Add(rw::ASKING as u64),
            (RwCall::Downgrade, _) => Operation::Add(match holds {
                Some(Hold::Write) => (rw::READER - rw::WRITER) as u64,
                _ => (rw::READER - rw::UPGRADABLE) as u64,
            }),
            (RwCall::DowngradeToUpgradeable, _) => {
                Operation::Add((rw::UPGRADABLE - rw::WRITER) as u64)
            }
            (RwCall::Release, _) => Operation::Subtract(match holds {
                Some(Hold::Read) => rw::READER as u64,
                Some(Hold::Upgradable) => rw::UPGRADABLE as u64,
                _ => rw::WRITER as u64,
            }),
            _ => Operation::Load,
        }
    }

    fn is_weak(&self, call: RwCall, point: RwPoint, holds: Option<Hold>) -> bool {
        let _ = holds;
        match call {
            RwCall::TryWriteWeak | RwCall::Write | RwCall::TryUpgradeWeak => true,
            RwCall::Upgrade => matches!(point, RwPoint::Asking),
            _ => false,
        }
    }

    fn next(
        &self,
        call: RwCall,
        point: RwPoint,
        holds: Option<Hold>,
        found: u64,
    ) -> Next<RwPoint, Answer<()>> {
        let word = found as usize;
        let refused = Next::Answers(Answer::Refused, holds);
        let again = Next::Continue(RwPoint::First);
        match call {
            RwCall::TryRead => comes(rw::read(word, self.cap), Hold::Read, point, word, refused),
            RwCall::Read => comes(rw::read(word, self.cap), Hold::Read, point, word, again),
            RwCall::TryUpgradeableRead => {
                let to = rw::upgradable(word, self.cap);
                comes(to, Hold::Upgradable, point, word, refused)
            }
            RwCall::UpgradeableRead => {
                let to = rw::upgradable(word, self.cap);
                comes(to, Hold::Upgradable, point, word, again)
            }
            RwCall::TryWrite | RwCall::TryWriteWeak => exchanges(word, 0, refused),
            RwCall::Write => exchanges(word, 0, again),
            RwCall::ReaderCount => Next::Answers(Answer::Count(rw::readers(word)), holds),
            RwCall::WriterCount => Next::Answers(Answer::Count(rw::writers(word)), holds),
            RwCall::IsLocked => Next::Answers(Answer::Is(rw::is_locked(word)), holds),
            RwCall::TryUpgrade | RwCall::TryUpgradeWeak => {
                exchanges(word, rw::UPGRADABLE, refused)
            }
            RwCall::Upgrade => match point {
                RwPoint::Asking => exchanges(
                    word,
                    rw::UPGRADABLE + rw::ASKING,
                    Next::Continue(point),
                ),
                _ => Next::Continue(RwPoint::Asking),
            },
            RwCall::Downgrade => Next::Answers(Answer::Done, Some(Hold::Read)),
            RwCall::DowngradeToUpgradeable => {
                Next::Answers(Answer::Done, Some(Hold::Upgradable))
            }
            RwCall::Release => Next::Answers(Answer::Done, None),
        }
    }
}

// Returns how a call that wants to read goes on, if its step found this word. `to` is the word after its party comes.
fn comes(
    to: Option<usize>,
    hold: Hold,
    point: RwPoint,
    found: usize,
    missed: Next<RwPoint, Answer<()>>,
) -> Next<RwPoint, Answer<()>>
    ensures { result ≡ either (is_some to) (comes hold point found) missed }
{
    if to.is_none() {
        missed
    } else if matches!(point, RwPoint::Exchange(word) if word == found) {
        Next::Answers(Answer::Granted, Some(hold))
    } else {
        Next::Continue(RwPoint::Exchange(found))
    }
}

// Returns how a call that wants to write goes on after an exchange that expects `old`.
fn exchanges(found: usize, old: usize, lost: Next<RwPoint, Answer<()>>) -> Next<RwPoint, Answer<()>>
    ensures { result ≡ either (found == old) (granted Write) lost }
{
    if found == old {
        Next::Answers(Answer::Granted, Some(Hold::Write))
    } else {
        lost
    }
}
