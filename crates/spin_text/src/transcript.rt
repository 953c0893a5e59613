//! The text of a transcript. Begin with [`write_transcript`]. Each line is written into a buffer, its last
//! part first.
ghost use Rattle.std.specs.Prelude.{◌≡◌, ◌≤◌, ◌<◌, ◌++◌, ◌+◌, ◌^◌, OnOk, OnErr, IfOk, IfErr, ℕ, None, true, take, drop, length};
ghost use Rattle.std.specs.Io.KnownBytes.{Appends};
ghost use Rattle.spin_step.specs.Schedules.{after, begin_of};
ghost use Rattle.spin_text.specs.declared.text.RunError.TheVariants.{Memory};
ghost use Rattle.spin_text.specs.Ends.{AppendsBeginning, AppendsBut};
ghost use Rattle.spin_text.specs.Texts.{StopsWriting};
ghost use Rattle.spin_text.specs.Pieces.{PutBefore, HasLine, TellsLine};
ghost use Rattle.spin_text.specs.Readable.{AllLinesRead};
ghost use Rattle.spin_text.specs.Reading.{entries_in, lines_left, numbers_of};
ghost use Rattle.spin_text.specs.Transcripts.{value_text, number_text, answer_text, from_text, outcome_text, numbers_text, event_line, end_line, schedule_lines, transcript_from, transcript_text};

use crate::ends::{Failed, Sink, write_whole};
use crate::entries::entry;
use crate::objects::Spelled;
use crate::piece::{LONGEST_LINE, PIECE, buffer, write_line};
use crate::put::{put, put_number};
use crate::text::RunError;
use crate::words::{Rest, first_line};
use spin_world::{Answer, Outcome, World};
use spin_world_core::{no_begins, with_begin};
use std::alloc::Global;

fn put_value(value: Option<u64>, buffer: &mut [u8], end: usize) -> usize
    requires room { 20 ≤ end }
    requires within { end ≤ length buffer.old }
    ensures put { PutBefore (value_text value) buffer.old end buffer.new result }
    ensures near { end ≤ result + 20 }
{
    match value {
        None => put(b"none", buffer, end),
        Some(value) => put_number(value, buffer, end),
    }
}

/// Returns the words that begin an answer's text, and the number after them if there is one.
pub fn parts_of(answer: Answer<u64>) -> (&'static [u8], Option<u64>)
    ensures parts { result.0.now ++ number_text result.1 ≡ answer_text answer }
    ensures short { length result.0.now ≤ 8 }
{
    match answer {
        Answer::Granted => (b"granted", None),
        Answer::Refused => (b"refused", None),
        Answer::Locked => (b"locked", None),
        Answer::Starved => (b"starved", None),
        Answer::Done => (b"done", None),
        Answer::Is(true) => (b"true", None),
        Answer::Is(false) => (b"false", None),
        Answer::Count(count) => (b"", Some(count as u64)),
        Answer::Value(value) => (b"value ", Some(value)),
        Answer::NoValue => (b"none", None),
        Answer::Failed => (b"err", None),
        Answer::Leader => (b"leader", None),
        Answer::Follower => (b"follower", None),
    }
}

fn put_answer(answer: Answer<u64>, buffer: &mut [u8], end: usize) -> usize
    requires room { 28 ≤ end }
    requires within { end ≤ length buffer.old }
    ensures put { PutBefore (answer_text answer) buffer.old end buffer.new result }
    ensures near { end ≤ result + 28 }
{
    let (words, number) = parts_of(answer);
    match number {
        None => put(words, buffer, end),
        Some(number) => {
            let end = put_number(number, buffer, end);
            put(words, buffer, end)
        }
    }
}

/// Writes ` from ` and the number of the line at which a call began, or nothing if the call began in an earlier run.
/// The place `began` is counted from 0, so the line's number is one more.
fn put_from(began: Option<usize>, buffer: &mut [u8], end: usize) -> usize
    requires line { HasLine began }
    requires room { 26 ≤ end }
    requires within { end ≤ length buffer.old }
    ensures put { PutBefore (from_text began) buffer.old end buffer.new result }
    ensures near { end ≤ result + 26 }
{
    match began {
        None => put(b"", buffer, end),
        Some(began) => {
            let end = put_number((began + 1) as u64, buffer, end);
            put(b" from ", buffer, end)
        }
    }
}

fn put_outcome(outcome: Outcome<Answer<u64>, u64>, buffer: &mut [u8], end: usize) -> usize
    requires line { TellsLine outcome }
    requires room { 61 ≤ end }
    requires within { end ≤ length buffer.old }
    ensures put { PutBefore (outcome_text outcome) buffer.old end buffer.new result }
    ensures near { end ≤ result + 61 }
{
    match outcome {
        Outcome::Skipped => put(b"passed over", buffer, end),
        Outcome::Begun => put(b"begun", buffer, end),
        Outcome::GoingOn => put(b"going on", buffer, end),
        Outcome::Answered { answer, began } => {
            let end = put_from(began, buffer, end);
            let end = put_answer(answer, buffer, end);
            put(b"answer ", buffer, end)
        }
        Outcome::Value(value) => {
            let end = put_value(value, buffer, end);
            put(b"value ", buffer, end)
        }
        Outcome::Written => put(b"written", buffer, end),
        Outcome::Leaked => put(b"leaked", buffer, end),
    }
}

fn put_numbers(numbers: (u64, Option<u64>), buffer: &mut [u8], end: usize) -> usize
    requires room { 41 ≤ end }
    requires within { end ≤ length buffer.old }
    ensures put { PutBefore (numbers_text (numbers_of numbers)) buffer.old end buffer.new result }
    ensures near { end ≤ result + 41 }
{
    match numbers.1 {
        None => put_number(numbers.0, buffer, end),
        Some(second) => {
            let end = put_number(second, buffer, end);
            let end = put(b" ", buffer, end);
            put_number(numbers.0, buffer, end)
        }
    }
}

/// Writes the line of an event so that it ends with the buffer.
fn put_event(
    line: usize,
    party: usize,
    outcome: Outcome<Answer<u64>, u64>,
    numbers: (u64, Option<u64>),
    buffer: &mut [u8],
) -> usize
    requires line { TellsLine outcome }
    requires room { length buffer.old ≡ LONGEST_LINE }
    ensures line { drop result buffer.new ≡ event_line line party outcome (numbers_of numbers) }
    ensures within { result ≤ LONGEST_LINE }
{
    let end = put(b"\n", buffer, buffer.len());
    let end = put_numbers(numbers, buffer, end);
    let end = put(b": ", buffer, end);
    let end = put_outcome(outcome, buffer, end);
    let end = put(b" ", buffer, end);
    let end = put_number(party as u64, buffer, end);
    let end = put(b" ", buffer, end);
    put_number(line as u64, buffer, end)
}

/// Writes the last line so that it ends with the buffer.
fn put_end(numbers: (u64, Option<u64>), value: Option<u64>, buffer: &mut [u8]) -> usize
    requires room { length buffer.old ≡ LONGEST_LINE }
    ensures line { drop result buffer.new ≡ end_line (numbers_of numbers) value }
    ensures within { result ≤ LONGEST_LINE }
{
    let end = put(b"\n", buffer, buffer.len());
    let end = put_value(value, buffer, end);
    let end = put(b" value ", buffer, end);
    let end = put_numbers(numbers, buffer, end);
    put(b"end: ", buffer, end)
}

/// Plays the entries that the lines spell, and writes a line for each event. Returns the number of bytes in
/// the piece afterwards.
fn write_events<O: Spelled, K: Sink>(
    world: &mut World<O>,
    begins: &mut [Option<usize>],
    lines: Rest,
    piece: &mut [u8],
    output: &mut K,
) -> Result<usize, Failed>
    requires parties { length begins.old ≡ length world.old.state.seats }
    requires none_begun { (p : ℕ) → begin_of begins.old p ≡ None }
    requires room { length piece.old ≡ PIECE }
    requires counted { length (lines_left lines) < 2 ^ 64 }
    requires read { AllLinesRead O.read (lines_left lines) }
    ensures object { OnOk result (world.new.object ≡ world.old.object) }
    ensures state { OnOk result (world.new.state ≡ after (O.machine world.old.object) world.old.state
        (entries_in O.read (lines_left lines.entry))) }
    ensures used { IfOk result (λ n. n + LONGEST_LINE ≤ PIECE) }
    ensures bytes { IfOk result (λ n. AppendsBut (K.written output.old) (K.written output.new)
        (schedule_lines (O.machine world.old.object) world.old.state (entries_in O.read (lines_left lines.entry)))
        (take n piece.new)) }
    ensures ok { OnOk result (K.failed output.new ≡ K.failed output.old) }
    ensures beginning { OnErr result (AppendsBeginning (K.written output.old) (K.written output.new)
        (schedule_lines (O.machine world.old.object) world.old.state (entries_in O.read (lines_left lines.entry)))) }
    ensures err { OnErr result (K.failed output.new ≡ true) }
{
    let mut buffer = [0u8; LONGEST_LINE];
    let mut used = 0;
    let mut place = 0;
    let mut rest = lines;
    while let Some(bytes) = rest {
        let (line, further) = first_line(bytes);
        let (party, action) = entry::<O>(line).unwrap();
        let outcome = with_begin(begins, party, place, world.act(party, action));
        let numbers = O::numbers(world.words());
        let start = put_event(place + 1, party, outcome, numbers, &mut buffer);
        used = write_line(&buffer[start..], piece, used, output)?;
        place += 1;
        rest = further;
    }
    Ok(used)
}

/// Appends the last line to a piece of `used` bytes, and writes the piece.
fn write_end<K: Sink>(
    numbers: (u64, Option<u64>),
    value: Option<u64>,
    piece: &mut [u8],
    used: usize,
    output: &mut K,
) -> Result<(), Failed>
    requires room { length piece.old ≡ PIECE }
    requires used { used + LONGEST_LINE ≤ PIECE }
    ensures bytes { OnOk result (Appends (K.written output.old) (K.written output.new)
        (take used piece.old ++ end_line (numbers_of numbers) value)) }
    ensures ok { OnOk result (K.failed output.new ≡ K.failed output.old) }
    ensures beginning { OnErr result (AppendsBeginning (K.written output.old) (K.written output.new)
        (take used piece.old ++ end_line (numbers_of numbers) value)) }
    ensures err { OnErr result (K.failed output.new ≡ true) }
{
    let mut buffer = [0u8; LONGEST_LINE];
    let start = put_end(numbers, value, &mut buffer);
    let used = write_line(&buffer[start..], piece, used, output)?;
    write_whole(output, &piece[..used])
}

/// Plays the entries that the lines spell, and writes the transcript.
fn play<O: Spelled, K: Sink>(
    world: &mut World<O>,
    begins: &mut [Option<usize>],
    lines: Rest,
    piece: &mut [u8],
    output: &mut K,
) -> Result<(), Failed>
    requires parties { length begins.old ≡ length world.old.state.seats }
    requires none_begun { (p : ℕ) → begin_of begins.old p ≡ None }
    requires room { length piece.old ≡ PIECE }
    requires counted { length (lines_left lines) < 2 ^ 64 }
    requires read { AllLinesRead O.read (lines_left lines) }
    ensures bytes { OnOk result (Appends (K.written output.old) (K.written output.new)
        (transcript_from (O.machine world.old.object) world.old.state (entries_in O.read (lines_left lines.entry)))) }
    ensures ok { OnOk result (K.failed output.new ≡ K.failed output.old) }
    ensures beginning { OnErr result (AppendsBeginning (K.written output.old) (K.written output.new)
        (transcript_from (O.machine world.old.object) world.old.state (entries_in O.read (lines_left lines.entry)))) }
    ensures err { OnErr result (K.failed output.new ≡ true) }
{
    let used = write_events(world, begins, lines, piece, output)?;
    write_end(
        O::numbers(world.words()),
        world.value(),
        piece,
        used,
        output,
    )
}

/// Plays the entries that the lines spell, in a world of their own, and writes the transcript as text.
///
/// It reads an entry, plays it and writes its line before it reads the next one. So it needs no list of entries
/// or events. It allocates nothing once it reads the first entry.
///
/// # Contract
/// The caller has checked that each line spells an entry (`AllLinesRead`).
pub fn write_transcript<O: Spelled, K: Sink>(
    alloc: Global,
    object: O,
    parties: usize,
    lines: Rest,
    output: &mut K,
) -> Result<(), RunError>
    requires counted { length (lines_left lines) < 2 ^ 64 }
    requires read { AllLinesRead O.read (lines_left lines) }
    ensures bytes { OnOk result (Appends (K.written output.old) (K.written output.new)
        (transcript_text (O.machine object) parties (entries_in O.read (lines_left lines.entry)))) }
    ensures ok { OnOk result (K.failed output.new ≡ K.failed output.old) }
    ensures stops { IfErr result (StopsWriting (λ e. e ≡ Memory) (output.new ≡ output.old)
        ((K.failed output.new ≡ true) × AppendsBeginning (K.written output.old) (K.written output.new)
        (transcript_text (O.machine object) parties (entries_in O.read (lines_left lines.entry))))) }
{
    let mut world = World::new(alloc, object, parties)?;
    let mut begins = no_begins(alloc, parties)?;
    let mut piece = buffer(alloc, PIECE)?;
    match play(&mut world, &mut begins, lines, &mut piece, output) {
        Ok(()) => Ok(()),
        Err(Failed) => Err(RunError::Write),
    }
}
