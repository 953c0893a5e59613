//! Streams of bytes, whose contracts say what was read or written, and whether they failed. Begin with [`Source`],
//! [`Sink`] and [`OfStd`].
ghost use Rattle.std.specs.Prelude.{◌≡◌, ℕ, Bool, List, ◌<◌, length, IfOk, OnOk, OnErr, Option, true};
ghost use Rattle.std.specs.Io.{ReadsAtMost, WritesAtMost};
ghost use Rattle.std.specs.Io.KnownBytes.{Appends, ReadConsumes, WriteAppends};
ghost use Rattle.spin_text.specs.Ends.{AppendsBeginning};

use std::io::{Read, Write};

/// The error of a failed read or write.
#[derive(Clone, Copy, Debug, PartialEq, Eq)]
pub struct Failed;

/// A stream to read bytes from.
///
/// # Contract
/// A failure is permanent: from then on [`has_failed`](Source::has_failed) returns `true`.
pub trait Source {
    /// The bytes that further reads will return, if they are known.
    ghost remaining: { Self → Option (List ℕ) };

    /// Whether a read has failed.
    ghost failed: { Self → Bool };

    /// Reads bytes into the front of `to`, and returns how many. The number is 0 only at the end, or if `to`
    /// is empty.
    ///
    /// # Contract
    /// On `Ok` the bytes read are the first of the remaining ones, if these are known. A failed read returns
    /// no byte; from then on the source has failed.
    fn read(&mut self, to: &mut [u8]) -> Result<usize, Failed>
        ensures bound { ReadsAtMost result to.new }
        ensures bytes { ReadConsumes (remaining self.old) (remaining self.new) result to.new }
        ensures ok { OnOk result (failed self.new ≡ failed self.old) }
        ensures err { OnErr result (failed self.new ≡ true) };

    /// Returns `true` if a read has failed.
    ///
    /// # Contract
    /// The answer is `failed` of the source.
    fn has_failed(&self) -> bool
        ensures { result ≡ failed self.now };
}

/// A stream to write bytes to.
///
/// # Contract
/// A failure is permanent: from then on [`has_failed`](Sink::has_failed) returns `true`.
pub trait Sink {
    /// The bytes written so far, if they are known.
    ghost written: { Self → Option (List ℕ) };

    /// Whether a write has failed.
    ghost failed: { Self → Bool };

    /// Writes bytes from the front of `from`, and returns how many. It writes at least one, unless `from` is
    /// empty.
    ///
    /// # Contract
    /// On `Ok` the bytes written follow those written before, if these are known. A failed write writes no
    /// byte; from then on the sink has failed.
    fn write(&mut self, from: &[u8]) -> Result<usize, Failed>
        ensures bound { WritesAtMost result from.now }
        ensures some { IfOk result (λ n. 0 < length from.now → 0 < n) }
        ensures bytes { WriteAppends (written self.old) (written self.new) result from.now }
        ensures ok { OnOk result (failed self.new ≡ failed self.old) }
        ensures err { OnErr result (failed self.new ≡ true) };

    /// Returns `true` if a write has failed.
    ///
    /// # Contract
    /// The answer is `failed` of the sink.
    fn has_failed(&self) -> bool
        ensures { result ≡ failed self.now };
}

/// A [`Source`] or [`Sink`] over a reader or writer of `std`.
///
/// An error of the reader or writer is a failure, and so is a write that accepts no byte. The stream never
/// retries.
#[derive(Drop)]
pub struct OfStd<X> {
    inner: X,
    failed: bool,
}

impl<X> OfStd<X> {
    ghost use Rattle.spin_text.specs.OfStd.{of_std_inner, of_std_failed};
    ghost use Rattle.std.specs.Prelude.{false, IsErr};

    /// Creates a stream over `x`.
    ///
    /// # Contract
    /// The stream is over `x` (`of_std_inner`), and has not failed (`of_std_failed`).
    pub fn new(x: X) -> OfStd<X>
        ensures inner { of_std_inner result ≡ x }
        ensures failed { of_std_failed result ≡ false }
    {
        OfStd {
            inner: x,
            failed: false,
        }
    }

    /// Records a failure.
    fn fail(&mut self) -> Result<usize, Failed>
        ensures err { IsErr result }
        ensures failed { of_std_failed self.new ≡ true }
        ensures inner { of_std_inner self.new ≡ of_std_inner self.old }
    {
        self.failed = true;
        Err(Failed)
    }
}

impl<X: Read> Source for OfStd<X> {
    ghost remaining = { λ s. X.remaining s.inner };

    ghost failed = { λ s. s.failed };

    fn read(&mut self, to: &mut [u8]) -> Result<usize, Failed> {
        match self.inner.read(to) {
            Ok(n) => Ok(n),
            Err(_) => self.fail(),
        }
    }

    fn has_failed(&self) -> bool {
        self.failed
    }
}

impl<X: Write> Sink for OfStd<X> {
    ghost written = { λ s. X.contents s.inner };

    ghost failed = { λ s. s.failed };

    fn write(&mut self, from: &[u8]) -> Result<usize, Failed> {
        match self.inner.write(from) {
            Ok(n) if n > 0 || from.is_empty() => Ok(n),
            _ => self.fail(),
        }
    }

    fn has_failed(&self) -> bool {
        self.failed
    }
}

/// Writes a whole text, by as many writes as it takes.
///
/// # Contract
/// On `Ok` the whole text follows the bytes written before, if these are known. After an `Err` the sink has
/// failed, and only a beginning of the text follows them (`AppendsBeginning`).
///
/// # Examples
/// ```
/// use spin_text::{OfStd, write_whole};
///
/// let mut bytes = Vec::new(rt.alloc());
/// assert!(rt; write_whole(&mut OfStd::new(&mut bytes), b"flag 5 1").is_ok());
/// assert_eq!(rt; bytes.as_slice(), b"flag 5 1".as_slice());
/// ```
pub fn write_whole<S: Sink>(sink: &mut S, text: &[u8]) -> Result<(), Failed>
    ensures bytes { OnOk result (Appends (S.written sink.old) (S.written sink.new) text.now) }
    ensures ok { OnOk result (S.failed sink.new ≡ S.failed sink.old) }
    ensures beginning { OnErr result (AppendsBeginning (S.written sink.old) (S.written sink.new) text.now) }
    ensures err { OnErr result (S.failed sink.new ≡ true) }
{
    let mut rest = text;
    while !rest.is_empty() {
        let n = sink.write(rest)?;
        rest = &rest[n..];
    }
    Ok(())
}
