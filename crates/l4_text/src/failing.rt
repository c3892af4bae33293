//! A reader and a writer that pass one byte per call and fail at a chosen call, for tests of this crate and of the crates above it.
use std::io;
use std::io::{Read, Write};

/// A reader that gives one byte per call, and fails after `calls` calls.
#[derive(Drop)]
pub struct Drip<'a> {
    pub bytes: &'a [u8],
    pub calls: usize,
}

impl Read for Drip<'_> {
    fn read(&mut self, buf: &mut [u8]) -> io::Result<usize> {
        if self.calls == 0 || buf.is_empty() {
            return Err(io::Error::from(io::ErrorKind::Other));
        }
        self.calls -= 1;
        match self.bytes.split_first() {
            Some((first, rest)) => {
                buf[0] = *first;
                self.bytes = rest;
                Ok(1)
            }
            None => Ok(0),
        }
    }
}

/// A writer that takes one byte per call, and fails after `calls` calls.
#[derive(Drop)]
pub struct Sip {
    pub taken: Vec<u8>,
    pub calls: usize,
}

impl Write for Sip {
    fn write(&mut self, buf: &[u8]) -> io::Result<usize> {
        if self.calls == 0 {
            return Err(io::Error::from(io::ErrorKind::Other));
        }
        self.calls -= 1;
        match buf.first() {
            Some(first) => {
                self.taken.push(*first)?;
                Ok(1)
            }
            None => Ok(0),
        }
    }

    fn flush(&mut self) -> io::Result<()> {
        Ok(())
    }
}
