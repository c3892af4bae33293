//! The input of a script.
ghost use Rattle.l4_text.specs.Readers.{left};

use std::io;
use std::io::Read;

/// Standard input, or an open file. It is one type, so the code that answers a script's lines is compiled once.
#[derive(Drop)]
pub enum ScriptReader<S, F> {
    Standard(S),
    File(F),
}

impl<S: Read, F: Read> Read for ScriptReader<S, F> {
    ghost remaining = { left S.remaining F.remaining };

    fn read(&mut self, buf: &mut [u8]) -> io::Result<usize> {
        match self {
            ScriptReader::Standard(reader) => reader.read(buf),
            ScriptReader::File(reader) => reader.read(buf),
        }
    }
}
