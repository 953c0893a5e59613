//! What a call with a closure does. Begin with [`make`].
ghost use Rattle.std.specs.Prelude.{◌≡◌, Some, Ok, Err, false, IfOk, IfErr};
ghost use Rattle.spin_core.specs.Own.{what};
ghost use Rattle.spin_session.specs.Turns.{has_begun};
ghost use Rattle.spin_step.specs.declared.once_calls.OnceCall.TheVariants.{CallOnce, TryCallOnceOk};
ghost use Rattle.spin_step.specs.declared.once_calls.OncePoint.TheVariants.{TryBegin};
ghost use Rattle.spin_once.specs.Accounts.{Place, here, MadeSince, Entered, Finds};
ghost use Rattle.spin_once.specs.Once.{in_call, IsFailedCall};

use crate::once_core::{Account, Found};
use spin_core::relax::RelaxStrategy;
use spin_step::OnceCall;
use std::sync::Wait;

// Makes the value, or waits for it. It is not inlined, since that would lengthen the path of each caller that finds a
// value.
#[cold]
#[inline(never)]
pub(super) fn make<'a, T, R: RelaxStrategy, F: FnOnce() -> T, W: Wait>(
    rt: &W,
    account: Account<'a, T, ()>,
    f: F,
) -> Found<'a, T, ()>
    requires wants { what account.party.view ≡ Some (in_call (CallOnce tt) TryBegin) }
    requires calls { F.pre f }
    ensures { (p : Place T (Unit {0})) → Entered (CallOnce tt) p (here account.entry) → Finds (CallOnce tt) (F.post f) p result.account }
{
    match account.claim::<R, W>(OnceCall::CallOnce(()), rt) {
        Ok(found) => found,
        Err(permit) => permit.complete(f()),
    }
}

// Like `make`, with a closure that may fail. If it fails, returns its error with the account.
#[cold]
#[inline(never)]
pub(super) fn try_make<'a, T, R: RelaxStrategy, F: FnOnce() -> Result<T, E>, E, W: Wait>(
    rt: &W,
    account: Account<'a, T, ()>,
    f: F,
) -> Result<Found<'a, T, ()>, (E, Account<'a, T, ()>)>
    requires wants { what account.party.view ≡ Some (in_call (TryCallOnceOk tt) TryBegin) }
    requires calls { F.pre f }
    ensures found { IfOk result (λ found. (p : Place T (Unit {0})) → Entered (TryCallOnceOk tt) p (here account.entry) → Finds (TryCallOnceOk tt) (λ v. F.post f (Ok v)) p found.account) }
    ensures failed { IfErr result (λ failed. (p : Place T (Unit {0})) → Entered (TryCallOnceOk tt) p (here account.entry) → MadeSince p IsFailedCall (here failed.1)) }
    ensures err { IfErr result (λ failed. F.post f (Err failed.0) × (has_begun (what failed.1.party.view) ≡ false)) }
{
    let permit = match account.claim::<R, W>(OnceCall::TryCallOnceOk(()), rt) {
        Ok(found) => return Ok(found),
        Err(permit) => permit,
    };
    match f() {
        Ok(value) => Ok(permit.complete(value)),
        Err(error) => Err((error, permit.fail())),
    }
}
