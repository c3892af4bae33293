//! Lines of a stream, of which at most one is kept.
ghost use Rattle.std.specs.Prelude.{◌≡◌, ◌+◌, ◌-◌, ◌*◌, ◌<◌, ◌≤◌, [], ◌++◌, drop, length, ◌==◌, if◌then◌else◌, ℕ, List, MatchBool, IfSome};
ghost use Rattle.std.specs.List.{position, position_or_len};
ghost use Rattle.l4_text.specs.Inside.Reading.{is_newline, Filled, EndsLines, IsLineLen};
ghost use Rattle.l4_text.specs.Lines.{NoNewline, GivesLine};
ghost use Rattle.l4_text.specs.Sizes.{most_reads};

use crate::faults::RunFault;
use crate::kept::KeptBytes;
use memchr::{memchr, memrchr};
use std::io::Read;
use std::marker::Model;

/// The maximum number of bytes of a line that are kept, and that one read requests.
pub(crate) const MAX_LINE: usize = 4_096;

/// The maximum number of reads of a stream.
const MOST_READS: u32 = 16_777_216;

/// The way in which a line ended.
#[derive(Clone, Copy, Debug, PartialEq, Eq)]
pub enum Ending {
    /// By a newline, after at most 4,096 bytes.
    Whole,
    /// By a newline, after more than 4,096 bytes.
    Long,
    /// By the end of the input.
    Cut,
}

/// What was read of a stream and not taken yet, and the number of reads that gave bytes. A read requests at most 4,096 bytes, and there are
/// at most 16,777,216 reads. Each read searches once for the end of the last whole line.
#[derive(Drop)]
pub(crate) struct Source {
    chunk: [u8; MAX_LINE],
    start: usize,
    lines: usize,
    end: usize,
    reads: u32,
}

impl Model for Source {
    ghost use Rattle.std.specs.Prelude.{ℕ, List, ◌≤◌, slice_range};
    ghost use Rattle.l4_text.specs.Inside.Reading.{EndsLines};
    ghost use Rattle.l4_text.specs.Sizes.{line_bytes, most_reads};

    ghost Value = { List ℕ × ℕ };

    ghost view = { λ a. (slice_range a.chunk a.start a.end, a.reads) };

    ghost invariant = { λ a. (a.start ≤ a.end) × (a.end ≤ line_bytes) × (a.reads ≤ most_reads) × EndsLines a.chunk a.end a.lines };
}

/// Returns the number of bytes of the whole lines at the front.
fn lines_len(bytes: &[u8]) -> usize
    ensures { EndsLines bytes.now (length bytes.now) result }
{
    match memrchr(b'\n', bytes) {
        Some(place) => place + 1,
        None => 0,
    }
}

impl Source {
    /// A source from which nothing was read.
    fn new() -> Source
        ensures { result ≡ ([], 0) }
    {
        Source {
            chunk: [0; MAX_LINE],
            start: 0,
            lines: 0,
            end: 0,
            reads: 0,
        }
    }

    /// Ghost function: gives a proof the bound on the number of reads. It compiles to nothing.
    fn law_few_reads(&self)
        ensures { self.now.1 ≤ most_reads }
    {
        let _ = &self.reads;
    }

    /// Returns the bytes that were read and not taken.
    fn pending(&self) -> &[u8]
        ensures { result.now ≡ self.now.0 }
    {
        &self.chunk[self.start..self.end]
    }

    /// Returns whether a whole line was read after this many bytes.
    fn has_line_behind(&self, count: usize) -> bool
        requires { count ≤ length self.now.0 }
        ensures { MatchBool result (NoNewline (drop count self.now.0) → ⊥)
            (NoNewline (drop count self.now.0)) }
    {
        if self.start + count < self.lines {
            return true;
        }
        false
    }

    /// Returns the length of the next line, if a whole one was read and not taken.
    fn whole_line_len(&self) -> Option<usize>
        ensures { IfSome result (IsLineLen self.now) }
    {
        first_newline(&self.chunk[self.start..self.end])
    }

    /// Takes this many of them.
    fn take(&mut self, count: usize)
        requires { count ≤ length self.old.0 }
        ensures { self.new ≡ (drop count self.old.0, self.old.1) }
    {
        self.start += count;
    }

    /// Reads the next bytes, in one read, in place of those that were there. False at the end of the
    /// stream.
    #[cold]
    #[inline(never)]
    fn fill<R: Read>(&mut self, reader: &mut R) -> Result<bool, RunFault>
        ensures { Filled (R.remaining reader.old) (R.remaining reader.new) self.old self.new
            result }
    {
        if self.reads >= MOST_READS {
            return Err(RunFault::Read);
        }
        let Ok(count) = reader.read(&mut self.chunk) else {
            self.start = 0;
            self.lines = 0;
            self.end = 0;
            return Err(RunFault::Read);
        };
        self.start = 0;
        self.lines = lines_len(&self.chunk[..count]);
        self.end = count;
        if count == 0 {
            return Ok(false);
        }
        self.reads += 1;
        Ok(true)
    }
}

/// A line, or the first 4,096 bytes of a longer one.
#[derive(Drop)]
pub(crate) struct Line {
    bytes: KeptBytes<MAX_LINE>,
    long: bool,
}

impl Model for Line {
    ghost use Rattle.std.specs.Prelude.{ℕ, List, Bool};

    ghost Value = { List ℕ × Bool };

    ghost view = { λ a. (a.bytes, a.long) };
}

impl Line {
    ghost use Rattle.l4_text.specs.Lines.{kept_of};

    /// An empty line.
    fn new() -> Line
        ensures { result ≡ kept_of [] }
    {
        Line {
            bytes: KeptBytes::new(),
            long: false,
        }
    }

    /// Its bytes, at most 4,096.
    fn as_slice(&self) -> &[u8]
        ensures { result.now ≡ self.now.0 }
    {
        self.bytes.as_slice()
    }

    fn is_empty(&self) -> bool
        ensures { result ≡ (length self.now.0 == 0) }
    {
        self.bytes.is_empty()
    }

    fn clear(&mut self)
        ensures { self.new ≡ kept_of [] }
    {
        self.bytes.clear();
        self.long = false;
    }

    fn add(&mut self, bytes: &[u8])
        ensures { (before : List ℕ) → self.old ≡ kept_of before → self.new
            ≡ kept_of (before ++ bytes.now) }
    {
        let room = self.bytes.room();
        if bytes.len() <= room {
            self.bytes.extend(bytes);
        } else {
            self.bytes.extend(&bytes[..room]);
            self.long = true;
        }
    }

    /// Returns how a line ended that ended with a newline.
    fn ending(&self) -> Ending
        ensures { result ≡ (if self.now.1 then Ending.Long else Ending.Whole) }
    {
        if self.long {
            Ending::Long
        } else {
            Ending::Whole
        }
    }
}

/// Returns the index of the first newline.
fn first_newline(bytes: &[u8]) -> Option<usize>
    ensures { result ≡ position is_newline bytes.now }
{
    memchr(b'\n', bytes)
}

/// Returns the number of bytes before the first newline.
fn line_len(bytes: &[u8]) -> usize
    ensures value { result ≡ position_or_len is_newline bytes.now }
    ensures within { result ≤ length bytes.now }
{
    first_newline(bytes).unwrap_or(bytes.len())
}

/// Takes the next line, and copies it into `line`. Returns how it ended, or None at the end of the stream. A call after that reads the
/// stream again. It is a function of its own because few lines need it.
#[cold]
#[inline(never)]
fn next_line<R: Read>(
    source: &mut Source,
    line: &mut Line,
    reader: &mut R,
) -> Result<Option<Ending>, RunFault>
    ensures { GivesLine (R.remaining reader.old) (R.remaining reader.new) source.old source.new
        line.new result }
{
    source.law_few_reads();
    line.clear();
    for turn in 0..MOST_READS + 1 {
        let pending = source.pending();
        let count = line_len(pending);
        let found = count < pending.len();
        line.add(&pending[..count]);
        if found {
            source.take(count + 1);
            return Ok(Some(line.ending()));
        }
        source.take(count);
        if !source.fill(reader)? {
            return Ok(if line.is_empty() {
                None
            } else {
                Some(Ending::Cut)
            });
        }
    }
    Err(RunFault::Read)
}

/// The lines of a stream, one at a time. A line that one read delivered whole stays where it was read until the next line is taken; none of
/// its bytes is copied.
#[derive(Drop)]
pub struct LineReader {
    source: Source,
    line: Line,
    lent: usize,
}

impl Model for LineReader {
    ghost use Rattle.std.specs.Prelude.{ℕ, List, Bool, ◌≤◌, length};
    ghost use Rattle.l4_text.specs.Inside.Reading.{behind, line_in_front};

    ghost Value = { (List ℕ × ℕ) × (List ℕ × Bool) };

    ghost view = { λ a. (behind a.lent a.source, line_in_front a.lent a.source a.line) };

    ghost invariant = { λ a. a.lent ≤ length a.source.0 };
}

impl LineReader {
    ghost use Rattle.l4_text.specs.Lines.{kept_of};

    /// Creates a reader that has read nothing.
    pub fn new() -> LineReader
        ensures { result ≡ (([], 0), kept_of []) }
    {
        LineReader {
            source: Source::new(),
            line: Line::new(),
            lent: 0,
        }
    }

    /// Returns whether a whole line was read after this one, so that the next line needs no read.
    pub fn has_line(&self) -> bool
        ensures { MatchBool result (NoNewline self.now.0.0 → ⊥) (NoNewline self.now.0.0) }
    {
        self.source.has_line_behind(self.lent)
    }

    /// Returns the bytes of the line that was taken last, at most 4,096.
    pub fn line(&self) -> &[u8]
        ensures { result.now ≡ self.now.1.0 }
    {
        if self.lent == 0 {
            return self.line.as_slice();
        }
        &self.source.pending()[..self.lent - 1]
    }

    /// Takes the next line. Returns how it ended, or None at the end of the stream. A call after that reads the stream again.
    pub fn next<R: Read>(&mut self, reader: &mut R) -> Result<Option<Ending>, RunFault>
        ensures { GivesLine (R.remaining reader.old) (R.remaining reader.new) self.old.0 self.new.0
            self.new.1 result }
    {
        self.source.take(self.lent);
        self.lent = 0;
        let Some(len) = self.source.whole_line_len() else {
            return next_line(&mut self.source, &mut self.line, reader);
        };
        self.lent = len + 1;
        Ok(Some(Ending::Whole))
    }
}
