//! The command line: what words ask for, what a run writes, and its exit status. Begin with [`program`].
ghost use Rattle.std.specs.Prelude.{◌≡◌, ◌≤◌, ◌<◌, ℕ, true, false, OnOk, IfErr, IfSome, IfNone};
ghost use Rattle.std.specs.Io.KnownBytes.{Appends};
ghost use Rattle.spin_run.specs.declared.faults.Fault.{Fault};
ghost use Rattle.spin_run.specs.declared.faults.Fault.TheVariants.{Usage};
ghost use Rattle.spin_run.specs.Command.{AsksCount, AsksWorld, AsksNothing, Does, StopsCommand, StopsCount, total_text, usage};
ghost use Rattle.spin_run.specs.Faults.{line_of, status_of};
ghost use Rattle.spin_text.specs.Failures.{Told};
ghost use Rattle.spin_text.specs.Texts.{streams};
ghost use Rattle.spin_text.specs.Lines.{texts_of};

use super::counting::{MAX_TIMES, MAX_WORKERS, count_with};
use crate::faults::{Fault, report};
use spin_barrier::gate::Open;
use spin_text::{Sink, Source, number, world_text, write_whole};
use std::alloc::Allocator;
use std::sync::Wait;
use std::thread::Threads;

/// The words of the line for words that are no command.
pub const USAGE: &[u8] = b"usage: spin-run count WORKERS TIMES | spin-run world";

/// A count that words ask for.
#[derive(Clone, Copy)]
struct Count {
    workers: usize,
    times: u64,
}

/// Returns the count that the words ask for, or `None` if they ask for no count.
fn count_of(words: &[&str]) -> Option<Count>
    ensures some { IfSome result (λ c. AsksCount (texts_of words.now) c.workers c.times) }
    ensures none { IfNone result ((workers times : ℕ) → ¬ (AsksCount (texts_of words.now) workers times)) }
{
    if words.len() != 3 || words[0] != "count" {
        return None;
    }
    let workers = number(words[1])?;
    let times = number(words[2])?;
    if workers > MAX_WORKERS as u64 || times > MAX_TIMES {
        return None;
    }
    Some(Count {
        workers: workers as usize,
        times,
    })
}

/// Returns `true` if the words ask for a world.
fn asks_world(words: &[&str]) -> bool
    ensures yes { result ≡ true → AsksWorld (texts_of words.now) }
    ensures no { result ≡ false → ¬ (AsksWorld (texts_of words.now)) }
{
    words.len() == 1 && words[0] == "world"
}

/// Counts, and writes the total.
fn write_count<O: Sink, R: Threads + Wait + Sync, A: Allocator>(
    rt: &R,
    alloc: A,
    asked: Count,
    output: &mut O,
) -> Result<(), Fault>
    requires workers { asked.workers ≤ MAX_WORKERS }
    requires times { asked.times ≤ MAX_TIMES }
    ensures bytes { OnOk result (Appends (O.written output.old) (O.written output.new) (total_text asked.workers asked.times)) }
    ensures ok { OnOk result (O.failed output.new ≡ O.failed output.old) }
    ensures fault { IfErr result (StopsCount asked.workers asked.times (output.new ≡ output.old)
        (O.failed output.new) (O.written output.old) (O.written output.new)) }
{
    let total = count_with(rt, &alloc, &Open, asked.workers, asked.times)?;
    let text = format!(in &alloc; "{total}\n")?;
    write_whole(output, text.as_bytes())?;
    Ok(())
}

/// Does what the words ask for.
fn run<I: Source, O: Sink, R: AllocGlobal + Threads + Wait + Sync, A: Allocator>(
    rt: &R,
    alloc: A,
    words: &[&str],
    input: &mut I,
    output: &mut O,
) -> Result<(), Fault>
    requires input { I.failed input.old ≡ false }
    requires output { O.failed output.old ≡ false }
    ensures done { OnOk result (Does (texts_of words.now) (input.new ≡ input.old)
        (streams I.remaining I.failed O.written O.failed input.old input.new output.old output.new)) }
    ensures fault { IfErr result (StopsCommand (texts_of words.now) (input.new ≡ input.old) (output.new ≡ output.old)
        (streams I.remaining I.failed O.written O.failed input.old input.new output.old output.new)) }
{
    if asks_world(words) {
        return match world_text(rt.alloc(), input, output) {
            Ok(()) => Ok(()),
            Err(error) => Err(Fault::from(error)),
        };
    }
    match count_of(words) {
        None => Err(Fault::Usage),
        Some(asked) => write_count(rt, alloc, asked, output),
    }
}

/// Runs the program on these words and streams, and returns the status of the process.
///
/// The words `count WORKERS TIMES` ask for a count, whose total and a line feed are written to `output`. The
/// word `world` asks for a world: a schedule is read from `input`, and its transcript is written
/// ([`world_text`]). A run that fails writes one line with the reason to `errors`; if this write fails too,
/// the status is the same. A count allocates from `alloc`, a world from `rt`.
///
/// # Contract
/// The caller gives streams that have not failed. The status is one of these:
///
/// - 0: the run did what the words ask for, no read or write failed, and `errors` is unchanged (`Does`).
/// - 1: the start of a thread, an allocation, a read or a write failed. Only a failed write leaves a beginning of the
///   text on `output`.
/// - 2: the words are no command, or a line of the schedule is wrong. Then `output` is unchanged.
///
/// Status 1 or 2 is that of a fault (`status_of`). The run stopped as the fault says (`StopsCommand`), and the
/// fault's line is on `errors`. If the write of this line failed, a beginning of it is there (`Told`).
pub fn program<I: Source, O: Sink, E: Sink, R: AllocGlobal + Threads + Wait + Sync, A: Allocator>(
    rt: &R,
    alloc: A,
    words: &[&str],
    input: &mut I,
    output: &mut O,
    errors: &mut E,
) -> u8
    requires input { I.failed input.old ≡ false }
    requires output { O.failed output.old ≡ false }
    requires errors { E.failed errors.old ≡ false }
    ensures status { result ≤ 2 }

    // 0: the program did what the words ask for, and wrote nothing on standard error.
    ensures done { result ≡ 0 → Does (texts_of words.now) (input.new ≡ input.old)
        (streams I.remaining I.failed O.written O.failed input.old input.new output.old output.new) }
    ensures silent { result ≡ 0 → errors.new ≡ errors.old }

    // Any other status is that of a fault. The fault's line is on standard error, or its beginning if a write failed.
    ensures fault { 0 < result → (fault : Fault) × (result ≡ status_of fault)
        × StopsCommand (texts_of words.now) (input.new ≡ input.old) (output.new ≡ output.old)
        (streams I.remaining I.failed O.written O.failed input.old input.new output.old output.new) fault
        × Told (E.failed errors.new) (E.written errors.old) (E.written errors.new) (line_of usage fault) }

    // If the words are no command, the status is 2, and the line tells the usage.
    ensures usage { AsksNothing (texts_of words.now) → (result ≡ 2)
        × Told (E.failed errors.new) (E.written errors.old) (E.written errors.new) (line_of usage Usage) }
    ensures nothing_written { result ≡ 2 → output.new ≡ output.old }
{
    match run(rt, alloc, words, input, output) {
        Ok(()) => 0,
        Err(fault) => report(fault, USAGE, errors),
    }
}
