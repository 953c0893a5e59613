//! The reasons why a run of a program fails, each with its status and its line. Begin with [`Fault`] and [`report`].
ghost use Rattle.std.specs.Prelude.{◌≡◌, ◌≤◌, length, false};
ghost use Rattle.spin_run.specs.declared.faults.Fault.TheVariants.{Refused, Memory, Write};
ghost use Rattle.spin_run.specs.Faults.{status_of, line_of, fault_of, stop_of};
ghost use Rattle.spin_text.specs.Failures.{Told, failure_line};

use crate::run::CountError;
use spin_explore::Stop;
use spin_text::program::tell;
use spin_text::{Failed, RunError, Sink};
use std::alloc::AllocError;

/// The reason why a run of a program fails.
#[derive(Clone, Copy, Drop)]
pub enum Fault {
    /// The words are no command.
    Usage,
    /// A thread could not be started, or memory for it could not be allocated.
    Refused,
    /// Another allocation failed.
    Memory,
    /// A read of standard input failed.
    Read,
    /// The first line of standard input that does not belong to the text, counted from 1.
    BadLine(usize),
    /// There are more states than the limit; this many were seen.
    TooMany(usize),
    /// There is no outcome with the number that was asked for.
    NoOutcome,
    /// The search did not find out from which states a run can end. No text is known for which this happens.
    Unsettled,
    /// A write to standard output failed.
    Write,
}

impl Fault {
    /// Returns the exit status of the process for this fault.
    fn status(self) -> u8
        ensures { result ≡ status_of self }
    {
        match self {
            Fault::Usage | Fault::BadLine(_) | Fault::NoOutcome => 2,
            _ => 1,
        }
    }

    /// Returns the words of the fault's line, and the number after them if there is one.
    fn line(self, usage: &'static [u8]) -> (&'static [u8], Option<u64>)
        requires { length usage.now ≤ 64 }
        ensures line { failure_line result.0.now result.1 ≡ line_of usage.now self }
        ensures short { length result.0.now ≤ 64 }
    {
        match self {
            Fault::Usage => (usage, None),
            Fault::Refused => (b"count refused", None),
            Fault::Memory => (b"out of memory", None),
            Fault::Read => (b"read failed", None),
            Fault::BadLine(line) => (b"bad line ", Some(line as u64)),
            Fault::TooMany(seen) => (b"too many states: stopped after ", Some(seen as u64)),
            Fault::NoOutcome => (b"no such outcome", None),
            Fault::Unsettled => (b"search not settled", None),
            Fault::Write => (b"write failed", None),
        }
    }
}

/// Writes the line of the fault, and returns its status. If the write fails, the status is the same.
pub fn report<E: Sink>(fault: Fault, usage: &'static [u8], errors: &mut E) -> u8
    requires usage { length usage.now ≤ 64 }
    requires errors { E.failed errors.old ≡ false }
    ensures status { result ≡ status_of fault }
    ensures told { Told (E.failed errors.new) (E.written errors.old) (E.written errors.new) (line_of usage.now fault) }
{
    let (words, number) = fault.line(usage);
    tell(words, number, errors);
    fault.status()
}

impl From<RunError> for Fault {
    ghost from_gives = { λ e f. f ≡ fault_of e };

    fn from(error: RunError) -> Fault {
        match error {
            RunError::Read => Fault::Read,
            RunError::Memory => Fault::Memory,
            RunError::BadLine(line) => Fault::BadLine(line),
            RunError::Write => Fault::Write,
        }
    }
}

impl From<Stop> for Fault {
    ghost from_gives = { λ e f. f ≡ stop_of e };

    fn from(stop: Stop) -> Fault {
        match stop {
            Stop::Memory => Fault::Memory,
            Stop::TooLarge(seen) => Fault::TooMany(seen),
            Stop::Unsettled => Fault::Unsettled,
        }
    }
}

impl From<CountError> for Fault {
    ghost from_gives = { λ _ f. f ≡ Refused };

    fn from(_refused: CountError) -> Fault {
        Fault::Refused
    }
}

impl From<AllocError> for Fault {
    ghost from_gives = { λ _ f. f ≡ Memory };

    fn from(_refused: AllocError) -> Fault {
        Fault::Memory
    }
}

impl From<Failed> for Fault {
    ghost from_gives = { λ _ f. f ≡ Write };

    fn from(_failed: Failed) -> Fault {
        Fault::Write
    }
}
