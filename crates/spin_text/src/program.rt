//! What programs over streams share: their arguments, and the line that reports a failure. Begin with
//! [`arguments`] and [`tell`].
ghost use Rattle.std.specs.Prelude.{◌≡◌, ◌≤◌, ◌+◌, ◌++◌, length, drop, map, false, IfOk};
ghost use Rattle.spin_text.specs.Failures.{Told, failure_line};
ghost use Rattle.spin_text.specs.Lines.{texts_of};

use crate::ends::{Sink, write_whole};
use crate::piece::LONGEST_LINE;
use crate::put::{put, put_number};
use std::alloc::{AllocError, Allocator};
use std::env::Env;
use std::{env, io};

/// Returns the arguments of the process after the program's name, or `None` if one of them is not text.
///
/// It reserves the room first: `collect` would not report a failed allocation, but would try a smaller one.
pub fn arguments<R: Env + Alloc>(rt: &R) -> Result<Option<Vec<String<R::A>, R::A>>, AllocError> {
    match env::args(rt) {
        Ok(mut all) => {
            let _program = all.next();
            let mut words = Vec::with_capacity(rt.alloc(), all.len())?;
            words.extend(all)?;
            Ok(Some(words))
        }
        Err(e) if e.kind() == io::ErrorKind::OutOfMemory => Err(AllocError),
        Err(_) => Ok(None),
    }
}

/// Returns the texts of the arguments, in their order.
pub fn texts<'a, A: Allocator>(
    alloc: A,
    arguments: &'a [String<A>],
) -> Result<Vec<&'a str, A>, AllocError>
    ensures { IfOk result (λ texts. texts_of texts.items ≡ map (λ word. word.bytes.items) arguments.now) }
{
    let mut texts = Vec::with_capacity(alloc, arguments.len())?;
    let mut rest = arguments;
    while let [word, further @ ..] = rest {
        texts.push(word.as_str())?;
        rest = further;
    }
    Ok(texts)
}

/// Writes a line into the last bytes of the buffer, and returns where it begins. The line has the words, and the
/// number after them if there is one.
fn put_line(words: &[u8], number: Option<u64>, buffer: &mut [u8]) -> usize
    requires short { length words.now + 21 ≤ LONGEST_LINE }
    requires room { length buffer.old ≡ LONGEST_LINE }
    ensures line { drop result buffer.new ≡ failure_line words.now number }
    ensures within { result ≤ LONGEST_LINE }
{
    let end = put(b"\n", buffer, buffer.len());
    let end = match number {
        None => put(b"", buffer, end),
        Some(number) => put_number(number, buffer, end),
    };
    put(words, buffer, end)
}

/// Writes the line that reports a failure: the words, and the number after them if there is one.
///
/// If this write fails too, the program's status is the same.
///
/// # Contract
/// The caller gives words of at most 139 bytes, and a sink that has not failed. Suppose that the bytes written
/// before are known. Then the line follows them. If a write fails, only a beginning of the line does
/// (`Told`).
///
/// # Examples
/// ```
/// use spin_text::OfStd;
/// use spin_text::program::tell;
///
/// let mut bytes = Vec::new(rt.alloc());
/// tell(b"bad line ", Some(3), &mut OfStd::new(&mut bytes));
/// assert_eq!(rt; bytes.as_slice(), b"bad line 3\n".as_slice());
/// ```
pub fn tell<E: Sink>(words: &[u8], number: Option<u64>, errors: &mut E)
    requires short { length words.now + 21 ≤ LONGEST_LINE }
    requires errors { E.failed errors.old ≡ false }
    ensures { Told (E.failed errors.new) (E.written errors.old) (E.written errors.new) (failure_line words.now number) }
{
    let mut buffer = [0u8; LONGEST_LINE];
    let start = put_line(words, number, &mut buffer);
    let _ = write_whole(errors, &buffer[start..]);
}
