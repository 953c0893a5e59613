//! Text that is written from its end to its start: each piece goes in front of what is written so far. Begin
//! with [`put`].
ghost use Rattle.std.specs.Prelude.{◌≡◌, ◌≤◌, ◌+◌, length, decimal};
ghost use Rattle.spin_text.specs.Pieces.{PutBefore};

use itoa::write_digits;

/// Writes `bytes` in front of place `end` of the buffer, and returns the place where they begin.
#[inline]
pub fn put(bytes: &[u8], buffer: &mut [u8], end: usize) -> usize
    requires room { length bytes.now ≤ end }
    requires within { end ≤ length buffer.old }
    ensures { PutBefore bytes.now buffer.old end buffer.new result }
{
    let start = end - bytes.len();
    buffer[start..end].copy_from_slice(bytes);
    start
}

/// Writes the digits of a number in front of place `end` of the buffer, and returns the place where they
/// begin.
#[inline]
pub fn put_number(number: u64, buffer: &mut [u8], end: usize) -> usize
    requires room { 20 ≤ end }
    requires within { end ≤ length buffer.old }
    ensures put { PutBefore (decimal number) buffer.old end buffer.new result }
    ensures near { end ≤ result + 20 }
{
    write_digits(number, buffer, end)
}
