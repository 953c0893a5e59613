//! Streams in memory, which count their calls and fail when a test wants it.
ghost use Rattle.std.specs.Prelude.{◌≡◌, Some, None, false};

use spin_run::run::{Failed, Sink, Source};
use std::alloc::Global;
use std::process::Abort;

/// A sink in memory. It accepts at most `step` bytes at a time, and fails once it holds `room` bytes.
#[derive(Drop)]
pub struct Paper {
    pub bytes: Vec<u8>,
    pub step: usize,
    pub room: usize,
    pub failed: bool,
    /// How many writes there were.
    pub writes: u64,
}

impl Paper {
    pub fn new(alloc: Global, step: usize, room: usize) -> Paper
        ensures { result.failed ≡ false }
    {
        Paper {
            bytes: Vec::new(alloc),
            step,
            room,
            failed: false,
            writes: 0,
        }
    }

    /// Creates a sink without limits.
    pub fn endless(alloc: Global) -> Paper
        ensures { result.failed ≡ false }
    {
        Paper::new(alloc, usize::MAX, usize::MAX)
    }

    /// What was written, as text.
    pub fn text(&self, rt: &impl Abort) -> &str {
        str::from_utf8(&self.bytes).expect(rt, "text")
    }

    /// Checks that as much of the text was written as there is room for, and that a write failed exactly if this was
    /// not the whole text.
    pub fn must_show(&self, rt: &impl Abort, text: &[u8]) {
        let (fits, rest) = text.split_at(text.len().min(self.room));
        assert_eq!(rt; self.bytes.as_slice(), fits);
        assert!(rt; self.failed != rest.is_empty());
    }
}

impl Sink for Paper {
    ghost written = { λ s. Some s.bytes.items };

    ghost failed = { λ s. s.failed };

    fn write(&mut self, from: &[u8]) -> Result<usize, Failed> {
        self.writes = self.writes.saturating_add(1);
        let left = self.room.saturating_sub(self.bytes.len());
        let n = from.len().min(self.step).min(left);
        if n == 0 && !from.is_empty() || self.bytes.extend_from_slice(&from[..n]).is_err() {
            self.failed = true;
            return Err(Failed);
        }
        Ok(n)
    }

    fn has_failed(&self) -> bool {
        self.failed
    }
}

/// A source that returns at most `step` bytes at a time. If `fails`, a read fails once the bytes are used up.
#[derive(Drop)]
pub struct Tape<'a> {
    pub rest: &'a [u8],
    pub step: usize,
    pub fails: bool,
    pub failed: bool,
    /// How many reads there were.
    pub reads: u64,
}

impl<'a> Tape<'a> {
    pub fn new(text: &'a [u8]) -> Tape<'a>
        ensures { result.failed ≡ false }
    {
        Tape {
            rest: text,
            step: usize::MAX,
            fails: false,
            failed: false,
            reads: 0,
        }
    }
}

impl Source for Tape<'_> {
    ghost remaining = { λ _. None };

    ghost failed = { λ s. s.failed };

    fn read(&mut self, to: &mut [u8]) -> Result<usize, Failed> {
        self.reads = self.reads.saturating_add(1);
        let n = self.rest.len().min(self.step).min(to.len());
        if n == 0 && self.fails {
            self.failed = true;
            return Err(Failed);
        }
        let (front, rest) = self.rest.split_at(n);
        to[..n].copy_from_slice(front);
        self.rest = rest;
        Ok(n)
    }

    fn has_failed(&self) -> bool {
        self.failed
    }
}
