//! A whole text: reads it, checks it, plays it, and writes its transcript. Begin with [`world_text`].
ghost use Rattle.std.specs.Prelude.{◌≡◌, ◌<◌, ◌+◌, ◌^◌, false, true, length, OnOk, IfOk, IfErr};
ghost use Rattle.spin_text.specs.Ends.{AppendsSome, AppendsSomeBeginning};
ghost use Rattle.spin_text.specs.Lines.{words_by_line};
ghost use Rattle.spin_text.specs.Reading.{lines_left};
ghost use Rattle.spin_text.specs.Readable.{StopsEntries};
ghost use Rattle.spin_text.specs.Texts.{ReadsAll, Plays, Stops, streams, StopsReading, StopsPlaying, StopsWriting, PlaysBytes, PlaysLines};

use crate::ends::{Sink, Source};
use crate::entries::check_entries;
use crate::header::{Header, header_of};
use crate::objects::Spelled;
use crate::piece::buffer;
use crate::transcript::write_transcript;
use crate::words::{Rest, first_line};
use spin_world::{BarrierObject, Fair, Flag, OnceObject, Rw, Ticket};
use std::alloc::{AllocError, AllocFailed, Global};

/// The reason why [`world_text`] fails.
#[derive(Clone, Copy, Debug, PartialEq, Eq, Drop)]
pub enum RunError {
    /// A read failed.
    Read,
    /// An allocation failed.
    Memory,
    /// The first line that does not belong to a schedule, counted from 1. An empty text has one line, which is empty.
    BadLine(usize),
    /// A write failed. A beginning of the text may have been written.
    Write,
}

impl From<AllocError> for RunError {
    ghost use Rattle.spin_text.specs.declared.text.RunError.TheVariants.{Memory};

    ghost from_gives = { λ _ e. e ≡ Memory };

    fn from(_refused: AllocError) -> RunError {
        RunError::Memory
    }
}

impl<T: Drop> From<AllocFailed<T>> for RunError {
    ghost use Rattle.spin_text.specs.declared.text.RunError.TheVariants.{Memory};

    ghost from_gives = { λ _ e. e ≡ Memory };

    fn from(_refused: AllocFailed<T>) -> RunError {
        RunError::Memory
    }
}

/// How many bytes one read asks for.
const CHUNK: usize = 65_536;

/// Reads all bytes of a source, one chunk at a time.
fn read_by<I: Source>(alloc: Global, input: &mut I, chunk: &mut [u8]) -> Result<Vec<u8>, RunError>
    requires { 0 < length chunk.old }
    ensures bytes { IfOk result (λ bytes. ReadsAll (I.remaining input.old) (I.remaining input.new) bytes.items) }
    ensures ok { OnOk result (I.failed input.new ≡ I.failed input.old) }
    ensures stops { IfErr result (StopsReading (I.failed input.old) (I.failed input.new)) }
{
    let mut bytes = Vec::new(alloc);
    loop {
        let Ok(n) = input.read(chunk) else {
            return Err(RunError::Read);
        };
        if n == 0 {
            return Ok(bytes);
        }
        bytes.extend_from_slice(&chunk[..n])?;
    }
}

/// Reads all bytes of a source.
pub fn read_all<I: Source>(alloc: Global, input: &mut I) -> Result<Vec<u8>, RunError>
    ensures bytes { IfOk result (λ bytes. ReadsAll (I.remaining input.old) (I.remaining input.new) bytes.items) }
    ensures ok { OnOk result (I.failed input.new ≡ I.failed input.old) }
    ensures stops { IfErr result (StopsReading (I.failed input.old) (I.failed input.new)) }
{
    let mut chunk = buffer(alloc, CHUNK)?;
    read_by(alloc, input, &mut chunk)
}

/// Plays the lines after the header, and writes their transcript.
fn play_lines<O: Spelled, K: Sink>(
    alloc: Global,
    object: O,
    parties: usize,
    lines: Rest,
    output: &mut K,
) -> Result<(), RunError>
    requires counted { length (lines_left lines) + 1 < 2 ^ 64 }
    ensures bytes { OnOk result (AppendsSome
        (PlaysLines O.calls (O.machine object) parties (lines_left lines.entry))
        (K.written output.old) (K.written output.new)) }
    ensures ok { OnOk result (K.failed output.new ≡ K.failed output.old) }
    ensures stops { IfErr result (StopsWriting
        (StopsEntries O.calls O.read (lines_left lines.entry)) (output.new ≡ output.old)
        ((K.failed output.new ≡ true) × AppendsSomeBeginning
        (PlaysLines O.calls (O.machine object) parties (lines_left lines.entry))
        (K.written output.old) (K.written output.new))) }
{
    check_entries::<O>(lines)?;
    write_transcript(alloc, object, parties, lines, output)
}

/// Plays the schedule that bytes spell, and writes its transcript.
fn play<K: Sink>(alloc: Global, bytes: &[u8], output: &mut K) -> Result<(), RunError>
    requires counted { length (words_by_line bytes.now) < 2 ^ 64 }
    ensures bytes { OnOk result (AppendsSome (PlaysBytes bytes.now) (K.written output.old) (K.written output.new)) }
    ensures ok { OnOk result (K.failed output.new ≡ K.failed output.old) }
    ensures stops { IfErr result (StopsWriting (StopsPlaying bytes.now) (output.new ≡ output.old)
        ((K.failed output.new ≡ true) × AppendsSomeBeginning (PlaysBytes bytes.now)
        (K.written output.old) (K.written output.new))) }
{
    let (line, lines) = first_line(bytes);
    match header_of(line) {
        None => Err(RunError::BadLine(1)),
        Some(Header::Flag { value, parties }) => {
            play_lines(alloc, Flag::new(value), parties, lines, output)
        }
        Some(
            Header::Ticket {
                value,
                first,
                parties,
            },
        ) => play_lines(alloc, Ticket::new(value, first), parties, lines, output),
        Some(
            Header::Rw {
                value,
                cap,
                parties,
            },
        ) => play_lines(alloc, Rw::new(value, cap), parties, lines, output),
        Some(
            Header::Fair {
                value,
                cap,
                spins,
                parties,
            },
        ) => play_lines(alloc, Fair::new(value, cap, spins), parties, lines, output),
        Some(Header::Barrier { n, parties }) => {
            play_lines(alloc, BarrierObject::new(n), parties, lines, output)
        }
        Some(Header::Once { parties }) => play_lines(
            alloc,
            OnceObject::new(),
            parties,
            lines,
            output,
        ),
    }
}

/// Reads a schedule as text, plays it in a world of its own, and writes the transcript as text.
///
/// The first line is one of these, with 1 to 1000 parties:
///
/// - `flag VALUE PARTIES`
/// - `ticket VALUE FIRST PARTIES`
/// - `rw VALUE CAP PARTIES`, with a cap from 1 to 2^60 - 1
/// - `fair VALUE CAP SPINS PARTIES`, with a cap from 1 to 2^62 - 1 and up to 1024 spins
/// - `once PARTIES`, which has no value at first
/// - `barrier N PARTIES`
///
/// Each further line is `PARTY MOVE`. The moves are `begin CALL`, `step`, `weak`, `read`, `write VALUE`,
/// `leak`, `owner get` and `owner set VALUE`. A call without a closure is spelled as its variant in snake
/// case. The calls with a closure are `call_once VALUE`, `init_from_ref VALUE`, `try_call_once ok VALUE` and
/// `try_call_once err`.
///
/// A line ends at a line feed, which may be missing after the last line. One space separates two words. A
/// number is decimal digits without a sign and without leading zeros, at most `u64::MAX`. Parties are
/// numbered from 0. If a line names a party that does not exist, its move is skipped.
///
/// The call writes a line `LINE PARTY OUTCOME: WORDS` for each move, and finally `end: WORDS value VALUE`. An
/// answer ends with ` from LINE`, the line at which its call began.
///
/// # Contract
/// The caller gives streams that have not failed. On `Ok` neither stream has failed, and the source is at its
/// end. The transcript of what was read follows the bytes written before, if these are known (`Plays`).
///
/// The call reads and checks all lines before the world runs, and allocates all memory before the first
/// write. So only the error `Write` leaves something written: a beginning of the text (`Stops`).
///
/// # Examples
/// ```
/// use spin_text::{OfStd, world_text};
///
/// let text = "flag 5 1\n0 begin try_lock\n0 step\n";
/// let mut output = Vec::new(rt.alloc());
/// let (mut from, mut to) = (OfStd::new(text.as_bytes()), OfStd::new(&mut output));
/// assert!(rt; world_text(rt.alloc(), &mut from, &mut to).is_ok());
/// drop(to);
/// let told = "1 0 begun: 0\n2 0 answer granted from 1: 1\nend: 1 value 5\n";
/// assert_eq!(rt; str::from_utf8(&output), Ok(told));
/// ```
pub fn world_text<I: Source, O: Sink>(
    alloc: Global,
    input: &mut I,
    output: &mut O,
) -> Result<(), RunError>
    requires input { I.failed input.old ≡ false }
    requires output { O.failed output.old ≡ false }
    ensures input { OnOk result (I.failed input.new ≡ false) }
    ensures output { OnOk result (O.failed output.new ≡ false) }
    ensures plays { OnOk result (Plays
        (streams I.remaining I.failed O.written O.failed input.old input.new output.old output.new)) }
    ensures stops { IfErr result (Stops
        (streams I.remaining I.failed O.written O.failed input.old input.new output.old output.new)
        (output.new ≡ output.old)) }
{
    let bytes = read_all(alloc, input)?;
    play(alloc, &bytes, output)
}
