//! Text that is written in pieces: lines gather in a buffer of fixed size. Begin with [`write_line`].
ghost use Rattle.std.specs.Prelude.{◌≡◌, ◌≤◌, ◌+◌, ◌++◌, take, length, true, IfOk, OnOk, OnErr};
ghost use Rattle.spin_text.specs.Ends.{AppendsBeginning, AppendsBut};

use crate::ends::{Failed, Sink, write_whole};
use std::alloc::{AllocError, Global};

/// The longest line: six numbers of up to 20 digits, and the words between them.
pub const LONGEST_LINE: usize = 160;

/// A piece with more bytes than this is written to the sink.
const FULL: usize = 65_536;

/// The size of the buffer for a piece.
pub const PIECE: usize = FULL + LONGEST_LINE;

/// Creates a buffer of this many bytes.
pub fn buffer(alloc: Global, size: usize) -> Result<Vec<u8>, AllocError>
    ensures { IfOk result (λ bytes. length bytes.items ≡ size) }
{
    vec![in alloc; 0u8; size]
}

/// Appends a line to a piece of `used` bytes, and writes the piece to the sink if it is full. Returns the
/// number of bytes in the piece afterwards.
pub fn write_line<K: Sink>(
    line: &[u8],
    piece: &mut [u8],
    used: usize,
    output: &mut K,
) -> Result<usize, Failed>
    requires short { length line.now ≤ LONGEST_LINE }
    requires room { length piece.old ≡ PIECE }
    requires used { used + LONGEST_LINE ≤ PIECE }
    ensures used { IfOk result (λ n. n + LONGEST_LINE ≤ PIECE) }
    ensures bytes { IfOk result (λ n. AppendsBut (K.written output.old) (K.written output.new)
        (take used piece.old ++ line.now) (take n piece.new)) }
    ensures ok { OnOk result (K.failed output.new ≡ K.failed output.old) }
    ensures beginning { OnErr result (AppendsBeginning (K.written output.old) (K.written output.new)
        (take used piece.old ++ line.now)) }
    ensures err { OnErr result (K.failed output.new ≡ true) }
{
    let end = used + line.len();
    piece[used..end].copy_from_slice(line);
    if end <= FULL {
        return Ok(end);
    }
    write_whole(output, &piece[..end])?;
    Ok(0)
}
