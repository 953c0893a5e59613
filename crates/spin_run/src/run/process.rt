//! The program over the arguments of the process. Begin with [`program_over_arguments`].
ghost use Rattle.std.specs.Prelude.{◌≡◌, ◌≤◌, ◌<◌, ◌⊎◌, List, ℕ, false};
ghost use Rattle.spin_run.specs.declared.faults.Fault.{Fault};
ghost use Rattle.spin_run.specs.Command.{Does, StopsCommand, usage};
ghost use Rattle.spin_run.specs.Faults.{IsWordless, line_of, status_of};
ghost use Rattle.spin_text.specs.Failures.{Told};
ghost use Rattle.spin_text.specs.Texts.{streams};

use super::command::{USAGE, program};
use crate::faults::{Fault, report};
use spin_text::program::{arguments, texts};
use spin_text::{Sink, Source};
use std::env::Env;
use std::sync::Wait;
use std::thread::Threads;

/// Runs [`program`] on the arguments of the process.
///
/// If an argument is not text, the arguments are treated as no command. If allocating the arguments fails,
/// the call only writes a line about it to `errors`.
///
/// # Contract
/// The caller gives streams that have not failed. The status is 0, 1 or 2. Either it is a status that
/// [`program`] returns for some words, and means the same. Or the run failed before the words were known: an
/// argument was not text, or an allocation failed (`IsWordless`). Then `input` and `output` are unchanged.
pub fn program_over_arguments<
    I: Source,
    O: Sink,
    E: Sink,
    R: Env + AllocGlobal + Threads + Wait + Sync,
>(rt: &R, input: &mut I, output: &mut O, errors: &mut E) -> u8
    requires input { I.failed input.old ≡ false }
    requires output { O.failed output.old ≡ false }
    requires errors { E.failed errors.old ≡ false }
    ensures status { result ≤ 2 }
    ensures done { result ≡ 0 → (words : List (List ℕ)) × Does words (input.new ≡ input.old)
        (streams I.remaining I.failed O.written O.failed input.old input.new output.old output.new) }
    ensures silent { result ≡ 0 → errors.new ≡ errors.old }
    ensures fault { 0 < result → (fault : Fault) × (words : List (List ℕ)) × (result ≡ status_of fault)
        × (StopsCommand words (input.new ≡ input.old) (output.new ≡ output.old)
        (streams I.remaining I.failed O.written O.failed input.old input.new output.old output.new) fault
        ⊎ (IsWordless fault × (input.new ≡ input.old) × (output.new ≡ output.old)))
        × Told (E.failed errors.new) (E.written errors.old) (E.written errors.new) (line_of usage fault) }
    ensures nothing_written { result ≡ 2 → output.new ≡ output.old }
{
    let arguments = match arguments(rt) {
        Ok(Some(arguments)) => arguments,
        Ok(None) => return report(Fault::Usage, USAGE, errors),
        Err(_) => return report(Fault::Memory, USAGE, errors),
    };
    match texts(rt.alloc(), &arguments) {
        Ok(words) => program(rt, rt.alloc(), words.as_slice(), input, output, errors),
        Err(_) => report(Fault::Memory, USAGE, errors),
    }
}
