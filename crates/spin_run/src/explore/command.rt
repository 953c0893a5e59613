//! The program over streams that the caller names. Begin with [`program`].
ghost use Rattle.std.specs.Prelude.{◌≡◌, ◌≤◌, ◌<◌, ◌⊎◌, ℕ, Bool, true, false, IfOk, IfErr, map};
ghost use Rattle.spin_text.specs.Failures.{Told};
ghost use Rattle.spin_text.specs.Texts.{streams};
ghost use Rattle.spin_run.specs.declared.faults.Fault.{Fault};
ghost use Rattle.spin_run.specs.declared.explore.options.Options.{Options};
ghost use Rattle.spin_run.specs.Faults.{status_of, line_of};
ghost use Rattle.spin_run.specs.Runs.{Does, StopsRun, AsksFor, StopsProgram, status_for, usage};
ghost use Rattle.spin_text.specs.Lines.{texts_of};

use crate::explore::explored::explored;
use crate::explore::options::{Options, options_of};
use crate::faults::{Fault, report};
use spin_text::{Sink, Source, read_all, write_whole};
use std::alloc::Global;

/// The words of the line for words that are no command.
pub const USAGE: &[u8] = b"usage: spin-explore [--schedule NUMBER] [--limit STATES]";

/// Reads a text from `input`, and writes to `output` all that its programs may result in. Returns `true` if
/// the output says that a run can get stuck.
fn run<I: Source, O: Sink>(
    alloc: Global,
    options: Options,
    input: &mut I,
    output: &mut O,
) -> Result<bool, Fault>
    requires input { I.failed input.old ≡ false }
    requires output { O.failed output.old ≡ false }
    ensures done { IfOk result (Does options
        (streams I.remaining I.failed O.written O.failed input.old input.new output.old output.new)) }
    ensures stops { IfErr result (StopsRun options
        (streams I.remaining I.failed O.written O.failed input.old input.new output.old output.new)
        (output.new ≡ output.old)) }
{
    let bytes = read_all(alloc, input)?;
    let (text, stuck) = explored(alloc, options, &bytes)?;
    write_whole(output, &text)?;
    Ok(stuck)
}

/// Runs the program on these words and streams, and returns the status of the process.
///
/// It reads a text from `input`. The text is a schedule as [`world_text`](spin_text::world_text) reads it. The
/// search leaves out the moves `step` and `weak`, and the moves of parties that do not exist. The other lines of one
/// party, in their order, are its program. In place of the header the text may begin with lines `lock NAME HEADER`,
/// each with a header that lacks the number of parties. In such a text each move names its lock: `PARTY NAME MOVE`.
///
/// It writes a line that says whether the programs use their locks in one order ([`order_of`](spin_explore::order_of)).
/// Then it writes each outcome that any interleaving has, and how many states it has seen. It also writes each way to get
/// stuck, and for each of these a schedule that leads there. The words `--schedule NUMBER` ask instead for a schedule
/// of the outcome with this number. The words `--limit STATES` bound the search. With `--limit 0`, and without
/// `--schedule`, it searches nothing, and writes the first line alone. A run that fails writes one line with the reason
/// to `errors`.
///
/// # Contract
/// The caller gives streams that have not failed. The status is one of these:
///
/// - 0: what was asked for is written (`Does`). No run can get stuck, a schedule was asked for, or nothing was searched.
/// - 3: what was asked for is written (`Does`), and some run can get stuck.
/// - 1: an allocation, a read or a write failed, schedules lead to more states than the limit (`IsOver`, `HasSeen`), or the
///   search did not settle (`DoesNotSettle`).
///   Only a failed write leaves a beginning of the text on `output`.
/// - 2: the words are no command, a line of the text is wrong, or there is no such outcome.
///
/// Status 1 or 2 is that of a fault (`status_of`). The run stopped as the fault says (`StopsProgram`), and
/// the fault's line is on `errors`. If the write of this line failed, a beginning of it is there (`Told`).
pub fn program<I: Source, O: Sink, E: Sink>(
    alloc: Global,
    words: &[&str],
    input: &mut I,
    output: &mut O,
    errors: &mut E,
) -> u8
    requires input { I.failed input.old ≡ false }
    requires output { O.failed output.old ≡ false }
    requires errors { E.failed errors.old ≡ false }
    ensures status { result ≤ 3 }
    ensures done { (stuck : Bool) → result ≡ status_for stuck
        → (o : Options) × AsksFor (texts_of words.now) o × Does o
        (streams I.remaining I.failed O.written O.failed input.old input.new output.old output.new) stuck }
    ensures silent { (stuck : Bool) → result ≡ status_for stuck → errors.new ≡ errors.old }
    ensures fault { 0 < result → result < 3 → (fault : Fault) × (result ≡ status_of fault)
        × StopsProgram (texts_of words.now)
        (streams I.remaining I.failed O.written O.failed input.old input.new output.old output.new)
        (input.new ≡ input.old) (output.new ≡ output.old) fault
        × Told (E.failed errors.new) (E.written errors.old) (E.written errors.new) (line_of usage fault) }
{
    let Some(options) = options_of(words) else {
        return report(Fault::Usage, USAGE, errors);
    };
    match run(alloc, options, input, output) {
        Ok(true) => 3,
        Ok(false) => 0,
        Err(fault) => report(fault, USAGE, errors),
    }
}
