//! The calls of the fair lock, the points between their steps, and its table. Begin with [`FairCall`] and
//! [`FairTable`].
ghost use Rattle.std.specs.Prelude.{◌≡◌, ◌≢◌, None};
ghost use Rattle.spin_step.specs.Acts.{filled, one_number, step_at};
ghost use Rattle.spin_step_more.specs.FairCalls.{act_of_first, fair_table, rejects};

use crate::fair;
use crate::fair::LockRejectReason;
use spin_step::{Answer, Hold, Next, Operation, Steps};

/// A call of a `Fair`. `Fair::new` of `spin_world` promises that each call does what its comment says.
#[derive(Clone, Copy)]
pub enum FairCall {
    /// Acquires the lock, in as many steps as it takes. After too many looks that find the flag set, the call
    /// registers its party as a starver if the cap allows.
    Lock,
    /// Tries to acquire the lock. It fails if a party holds it or a starver is registered.
    TryLock,
    /// Like `TryLock`, but if it fails the answer says for which of the two reasons.
    TryLockStarver,
    /// Answers whether a party holds the lock.
    IsLocked,
    /// Tries to register as a starver. It fails only if the number of starvers was at the cap at some moment
    /// of the call.
    Starve,
    /// Tries to acquire the lock as a starver, and then ends the registration. It fails if a party holds the
    /// lock or another starver is registered; then the party stays a starver.
    StarverTryLockFair,
    /// Like `StarverTryLockFair`, but fails only if a party holds the lock.
    StarverTryLock,
    /// Acquires the lock as a starver, in as many steps as it takes, and then ends the registration.
    StarverLock,
    /// Ends the registration of a starver.
    StarverDrop,
    /// Releases the lock.
    Release,
}

/// The point of a call: its next step, with what the party has found so far.
#[derive(Clone, Copy)]
pub enum FairPoint {
    /// The only step of a one-step call, or the exchange of `StarverTryLockFair`.
    First,
    /// `Lock` tries to set the flag, after this many looks that found it set. The count stops at the patience of
    /// the lock.
    Attempt(usize),
    /// `Lock` looks at the flag. The number is that of `Attempt`.
    Look(usize),
    /// `Lock` or `Starve` loads the word before it registers.
    Load,
    /// `Lock` or `Starve` registers by an exchange that expects this word, which it found.
    Register(usize),
    /// A starver tries to set the flag.
    SetFlag,
    /// A starver looks at the flag.
    Await,
    /// A starver that holds the lock ends its registration.
    Unregister,
}

/// The table of the fair lock. At most `cap` starvers may be registered at a time. `Lock` tries to register when more
/// than `patience` of its looks have found the flag set.
///
/// # Contract
/// It is `fair_table`.
#[derive(Clone, Copy)]
pub struct FairTable {
    pub cap: usize,
    pub patience: usize,
}

impl<T> Steps<T, FairCall, FairPoint> for FairTable {
    type Words = usize;

    ghost table = { λ it value. fair_table value it.cap it.patience };

    ghost given = { None };

    fn start(&self, call: FairCall, holds: Option<Hold>) -> Option<FairPoint> {
        match (call, holds) {
            (FairCall::Lock, None) => Some(FairPoint::Attempt(0)),
            (FairCall::TryLock | FairCall::TryLockStarver | FairCall::IsLocked, None) => {
                Some(FairPoint::First)
            }
            (FairCall::Starve, None) => Some(FairPoint::Load),
            (FairCall::StarverTryLockFair | FairCall::StarverDrop, Some(Hold::Starver)) => {
                Some(FairPoint::First)
            }
            (FairCall::StarverTryLock | FairCall::StarverLock, Some(Hold::Starver)) => {
                Some(FairPoint::SetFlag)
            }
            (FairCall::Release, Some(Hold::Write)) => Some(FairPoint::First),
            _ => None,
        }
    }

    fn place(&self, point: FairPoint) -> usize {
        let _ = point;
        0
    }

    fn operation(&self, call: FairCall, point: FairPoint, holds: Option<Hold>) -> Operation {
        let _ = holds;
        let taken = fair::lock(0).unwrap() as u64;
        match point {
            FairPoint::First => match call {
                FairCall::TryLock | FairCall::TryLockStarver => Operation::Exchange(0, taken),
                FairCall::StarverTryLockFair => {
                    let next = fair::lock_fair(fair::STARVER).unwrap();
                    Operation::Exchange(fair::STARVER as u64, next as u64)
                }
                FairCall::StarverDrop => Operation::Subtract(fair::STARVER as u64),
                FairCall::Release => Operation::Subtract(fair::HOLDER as u64),
                _ => Operation::Load,
            },
            FairPoint::Attempt(_) => Operation::Exchange(0, taken),
            FairPoint::Look(_) | FairPoint::Load | FairPoint::Await => Operation::Load,
            FairPoint::Register(word) => {
                let next = fair::starve(word, self.cap).unwrap_or(word);
                Operation::Exchange(word as u64, next as u64)
            }
            FairPoint::SetFlag => Operation::SetLowestBit,
            FairPoint::Unregister => Operation::Subtract(fair::STARVER as u64),
        }
    }

    fn is_weak(&self, call: FairCall, point: FairPoint, holds: Option<Hold>) -> bool {
        let _ = (call, holds);
        matches!(point, FairPoint::Attempt(_))
    }

    fn next(
        &self,
        call: FairCall,
        point: FairPoint,
        holds: Option<Hold>,
        found: u64,
    ) -> Next<FairPoint, Answer<()>> {
        let word = found as usize;
        let granted = Next::Answers(Answer::Granted, Some(Hold::Write));
        let refused = Next::Answers(Answer::Refused, holds);
        match point {
            FairPoint::First => first_next::<T>(call, holds, word),
            FairPoint::Attempt(_) if word == 0 => granted,
            FairPoint::Attempt(looks) => Next::Continue(FairPoint::Look(looks)),
            FairPoint::Look(looks) => Next::Continue(if !fair::is_locked(word) {
                FairPoint::Attempt(looks)
            } else if looks < self.patience {
                FairPoint::Look(looks + 1)
            } else {
                FairPoint::Load
            }),
            FairPoint::Load | FairPoint::Register(_) => {
                let is_found = matches!(point, FairPoint::Register(known) if known == word);
                match (fair::starve(word, self.cap), call) {
                    (None, FairCall::Lock) => Next::Continue(FairPoint::Look(self.patience)),
                    (None, _) => refused,
                    (Some(_), _) if !is_found => Next::Continue(FairPoint::Register(word)),
                    (Some(_), FairCall::Lock) => Next::Continue(FairPoint::SetFlag),
                    (Some(_), _) => Next::Answers(Answer::Granted, Some(Hold::Starver)),
                }
            }
            FairPoint::SetFlag if !fair::is_locked(word) => Next::Continue(FairPoint::Unregister),
            FairPoint::SetFlag => match call {
                FairCall::StarverTryLock => refused,
                _ => Next::Continue(FairPoint::Await),
            },
            FairPoint::Await => Next::Continue(if fair::is_locked(word) {
                FairPoint::Await
            } else {
                FairPoint::SetFlag
            }),
            FairPoint::Unregister => granted,
        }
    }
}

// Returns how a call with one step goes on, or `StarverTryLockFair` after its first step.
fn first_next<T>(call: FairCall, holds: Option<Hold>, word: usize) -> Next<FairPoint, Answer<()>>
    ensures { filled {V = T} None result ≡ (step_at {V = Unit {0}} one_number 0 word (act_of_first call holds) 0).next }
{
    let granted = Next::Answers(Answer::Granted, Some(Hold::Write));
    let refused = Next::Answers(Answer::Refused, holds);
    match call {
        FairCall::TryLock if word == 0 => granted,
        FairCall::TryLock => refused,
        FairCall::TryLockStarver if word == 0 => granted,
        FairCall::TryLockStarver => reject(word, holds),
        FairCall::StarverTryLockFair if word == fair::STARVER => {
            Next::Continue(FairPoint::Unregister)
        }
        FairCall::StarverTryLockFair => refused,
        FairCall::StarverDrop | FairCall::Release => Next::Answers(Answer::Done, None),
        _ => Next::Answers(Answer::Is(fair::is_locked(word)), holds),
    }
}

// Returns the refusal of `TryLockStarver`, with its reason.
fn reject(word: usize, holds: Option<Hold>) -> Next<FairPoint, Answer<()>>
    requires { word ≢ 0 }
    ensures { result ≡ rejects holds word }
{
    Next::Answers(
        match fair::reject(word) {
            LockRejectReason::Locked => Answer::Locked,
            LockRejectReason::Starved => Answer::Starved,
        },
        holds,
    )
}
