//! For each step on the table: which call it is, with its answer.
ghost use Rattle.std.specs.Prelude.{◌==◌, Some, not};
ghost use Rattle.spin_seated.specs.declared.mutex.Call.TheVariants.{TryLock, IsLocked, Read, Write, Unlock};
ghost use Rattle.spin_seated.specs.declared.lock.Answer.TheVariants.{Truth, Value, Done};

use super::Call;
use crate::lock::Tells;

pub(super) struct Acquire;

impl Tells<Call> for Acquire {
    ghost told = { λ _ found. Some (TryLock, Truth (found == 0)) };
}

pub(super) struct Load;

impl Tells<Call> for Load {
    ghost told = { λ _ found. Some (IsLocked, Truth (not (found == 0))) };
}

pub(super) struct ReadValue;

impl Tells<Call> for ReadValue {
    ghost told = { λ _ found. Some (Read, Value found) };
}

pub(super) struct WriteValue;

impl Tells<Call> for WriteValue {
    ghost told = { λ new _. Some (Write new, Done) };
}

pub(super) struct FreeFlag;

impl Tells<Call> for FreeFlag {
    ghost told = { λ _ _. Some (Unlock, Done) };
}
