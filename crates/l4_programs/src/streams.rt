//! A reader and a writer that remember what a program reports of them when it ends.
ghost use Rattle.std.specs.Prelude.{◌≡◌, ◌≢◌, None, Some, false, true, IfSome};

use l4_text::RunFault;
use std::io;
use std::io::{Read, Write};

/// A reader that remembers its last error, and how the bytes that it gave ended.
#[derive(Drop)]
pub struct WatchedReader<R: Read> {
    reader: R,
    error: Option<io::Error>,
    last: Option<u8>,
    at_end: bool,
}

impl<R: Read> WatchedReader<R> {
    /// Returns a reader that gives what this one gives.
    pub fn new(reader: R) -> WatchedReader<R>
        ensures { result.reader ≡ reader }
    {
        WatchedReader {
            reader,
            error: None,
            last: None,
            at_end: false,
        }
    }

    /// Returns the error of the last read that failed.
    pub fn error(&self) -> Option<io::Error>
        ensures { result ≡ self.now.error }
    {
        self.error
    }

    /// Returns whether the input ended without giving a byte.
    pub fn is_empty(&self) -> bool
        ensures { result ≡ true → (self.now.at_end ≡ true) × (self.now.last ≡ None) }
    {
        self.at_end && self.last.is_none()
    }

    /// Returns whether the input ended in a line without a newline.
    pub fn is_cut(&self) -> bool
        ensures { result ≡ true → (self.now.at_end ≡ true)
            × IfSome self.now.last (λ byte. byte ≢ 10) }
    {
        match self.last {
            Some(byte) => self.at_end && byte != b'\n',
            None => false,
        }
    }
}

impl<R: Read> Read for WatchedReader<R> {
    ghost remaining = { λ a. R.remaining a.reader };

    fn read(&mut self, buf: &mut [u8]) -> io::Result<usize> {
        match self.reader.read(buf) {
            Ok(count) => {
                if count > 0 {
                    self.last = Some(buf[count - 1]);
                } else {
                    self.at_end = !buf.is_empty();
                }
                Ok(count)
            }
            Err(error) => {
                self.error = Some(error);
                Err(error)
            }
        }
    }
}

/// A writer that remembers its last error.
#[derive(Drop)]
pub struct WatchedWriter<W: Write> {
    writer: W,
    error: Option<io::Error>,
}

impl<W: Write> WatchedWriter<W> {
    /// Returns a writer that writes to this one.
    pub fn new(writer: W) -> WatchedWriter<W>
        ensures { result.writer ≡ writer }
    {
        WatchedWriter {
            writer,
            error: None,
        }
    }

    /// Returns the error of the last write or flush that failed.
    pub fn error(&self) -> Option<io::Error>
        ensures { result ≡ self.now.error }
    {
        self.error
    }
}

impl<W: Write> Write for WatchedWriter<W> {
    ghost contents = { λ a. W.contents a.writer };

    fn write(&mut self, buf: &[u8]) -> io::Result<usize> {
        match self.writer.write(buf) {
            Ok(count) => Ok(count),
            Err(error) => {
                self.error = Some(error);
                Err(error)
            }
        }
    }

    fn flush(&mut self) -> io::Result<()> {
        match self.writer.flush() {
            Ok(()) => Ok(()),
            Err(error) => {
                self.error = Some(error);
                Err(error)
            }
        }
    }
}

/// Returns the error that caused this fault, if the system reported one.
pub fn cause<R: Read, W: Write>(
    fault: RunFault,
    reader: &WatchedReader<R>,
    writer: &WatchedWriter<W>,
) -> Option<io::Error> {
    match fault {
        RunFault::Read => reader.error(),
        RunFault::Write => writer.error(),
        RunFault::Memory => None,
    }
}
