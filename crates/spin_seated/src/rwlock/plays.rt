//! For each step on the table: which call it is, if any, with its answer.
ghost use Rattle.std.specs.Prelude.{◌==◌, true, if◌then◌else◌, Some};
ghost use Rattle.spin_step_more.specs.Readers.{readers_in, writers_in};
ghost use Rattle.spin_seated.specs.declared.rwlock.Call.TheVariants.{TryRead, TryWrite, ReaderCount, WriterCount, Read, Write, UnlockRead, UnlockWrite, Downgrade};
ghost use Rattle.spin_seated.specs.declared.lock.Answer.TheVariants.{Truth, Value, Done};
ghost use Rattle.spin_seated.specs.Rw.{refused_by};

use super::Call;
use crate::lock::Tells;

pub(super) struct Load;

impl Tells<Call> for Load {
    ghost told = { λ _ found. refused_by found };
}

pub(super) struct AcquireRead;

impl Tells<Call> for AcquireRead {
    ghost told = { λ old found. if found == old then Some (TryRead, Truth true) else refused_by found };
}

pub(super) struct AcquireWrite;

impl Tells<Call> for AcquireWrite {
    ghost told = { λ _ found. Some (TryWrite, Truth (found == 0)) };
}

pub(super) struct CountReaders;

impl Tells<Call> for CountReaders {
    ghost told = { λ _ found. Some (ReaderCount, Value (readers_in found)) };
}

pub(super) struct CountWriters;

impl Tells<Call> for CountWriters {
    ghost told = { λ _ found. Some (WriterCount, Value (writers_in found)) };
}

pub(super) struct ReadValue;

impl Tells<Call> for ReadValue {
    ghost told = { λ _ found. Some (Read, Value found) };
}

pub(super) struct WriteValue;

impl Tells<Call> for WriteValue {
    ghost told = { λ new _. Some (Write new, Done) };
}

pub(super) struct ReleaseRead;

impl Tells<Call> for ReleaseRead {
    ghost told = { λ _ _. Some (UnlockRead, Done) };
}

pub(super) struct ReleaseWrite;

impl Tells<Call> for ReleaseWrite {
    ghost told = { λ _ _. Some (UnlockWrite, Done) };
}

pub(super) struct DowngradeWrite;

impl Tells<Call> for DowngradeWrite {
    ghost told = { λ _ _. Some (Downgrade, Done) };
}
