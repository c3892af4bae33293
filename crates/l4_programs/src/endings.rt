//! What the programs share: the words of the command line, the files that they read, and the exit statuses.
ghost use Rattle.std.specs.Prelude.{◌≡◌, ◌⊎◌, IfErr, MatchResult};
ghost use Rattle.std.specs.Fn.{FnOnceReturnsAt};
ghost use Rattle.l4_programs.specs.Statuses.{run_status};

use crate::streams::WatchedReader;
use l4_text::{RunFault, ScriptReader};
use std::alloc::AllocError;
use std::fmt::{Display, Formatter};
use std::io::{ErrorKind, Read};
use std::rt::{Env, Files};
use std::{env, fmt, fs, io};

/// The exit status if the command line, or a line of a step list, is invalid.
pub const NOT_UNDERSTOOD: u8 = 2;

/// The exit status if a read or a write failed.
const STREAM_FAILED: u8 = 3;

/// The exit status if there is not enough memory at the start.
pub const NO_MEMORY: u8 = 4;

/// The name of a file that stands for standard input.
pub const STANDARD_INPUT: &str = "-";

/// Prints what went wrong on standard error, and returns the exit status.
fn failed(rt: &impl Eprint, text: &str, status: u8) -> u8
    ensures { result ≡ status }
{
    let _ = rt.eprintln(text);
    status
}

/// The name of an input in messages: the name of a file in quotes, or standard input if no file is named, or the name is `-`.
#[derive(Drop)]
pub struct Source<'a>(pub Option<&'a str>);

impl Display for Source<'_> {
    fn fmt<W: fmt::Write>(&self, f: &mut Formatter<W>) -> fmt::Result {
        match self.0 {
            Some(name) if name != STANDARD_INPUT => write!(f, "'{name}'"),
            _ => f.write_str("standard input"),
        }
    }
}

/// The error that the system reported, after a colon, if it reported one.
#[derive(Drop)]
struct Cause(Option<io::Error>);

impl Display for Cause {
    fn fmt<W: fmt::Write>(&self, f: &mut Formatter<W>) -> fmt::Result {
        match self.0 {
            Some(error) => write!(f, ": {error}"),
            None => Ok(()),
        }
    }
}

/// Prints on standard error that a file cannot be opened, and returns the exit status.
fn not_opened(rt: &impl Eprint, name: &str, error: io::Error) -> u8
    ensures { result ≡ 2 }
{
    let _ = eprintln!(rt;
        "error: cannot open {}{}",
        Source(Some(name)),
        Cause(Some(error))
    );
    NOT_UNDERSTOOD
}

/// Opens a file to read, or standard input if no file is named, or the name is `-`. If the file cannot be opened, reports this and returns the
/// exit status.
pub fn opened<R: Files + Input + Eprint>(
    rt: &R,
    file: Option<&str>,
) -> Result<WatchedReader<ScriptReader<R::Reader, R::File>>, u8>
    ensures { IfErr result (λ status. status ≡ 2) }
{
    let name = match file {
        Some(name) if name != STANDARD_INPUT => name,
        _ => return Ok(WatchedReader::new(ScriptReader::Standard(rt.reader()))),
    };
    match fs::open(rt, name) {
        Ok(file) => Ok(WatchedReader::new(ScriptReader::File(file))),
        Err(error) => Err(not_opened(rt, name, error)),
    }
}

/// Prints on standard error that a file cannot be created or written, and returns the exit status.
pub fn not_created(rt: &impl Eprint, name: &str, error: io::Error) -> u8
    ensures { result ≡ 3 }
{
    let _ = eprintln!(rt;
        "error: cannot write {}{}",
        Source(Some(name)),
        Cause(Some(error))
    );
    STREAM_FAILED
}

/// Prints on standard error that standard output cannot be written, and returns the exit status. Prints nothing for a closed pipe, because
/// the program that reads it has ended.
fn not_written(rt: &impl Eprint, cause: Option<io::Error>) -> u8
    ensures { result ≡ 3 }
{
    if let Some(error) = cause {
        if error.kind() == ErrorKind::BrokenPipe {
            return STREAM_FAILED;
        }
    }
    let _ = eprintln!(rt; "error: cannot write to standard output{}", Cause(cause));
    STREAM_FAILED
}

/// Prints on standard error why a run over this file, or standard input, stopped. Returns the exit status: 4 if there was not enough
/// memory, else 3.
pub fn stopped(
    rt: &impl Eprint,
    fault: RunFault,
    file: Option<&str>,
    cause: Option<io::Error>,
) -> u8
    ensures { result ≡ run_status fault }
{
    match fault {
        RunFault::Read => {
            let _ = eprintln!(rt; "error: cannot read {}{}", Source(file), Cause(cause));
            STREAM_FAILED
        }
        RunFault::Write => not_written(rt, cause),
        RunFault::Memory => failed(rt, "error: out of memory", NO_MEMORY),
    }
}

/// Prints a warning on standard error if the last line of a script was refused because it has no newline (S4).
pub fn warn_of_cut_line<R: Read>(rt: &impl Eprint, reader: &WatchedReader<R>, file: Option<&str>) {
    if reader.is_cut() {
        let _ = eprintln!(rt;
            "warning: the last line of {} was not executed: it does not end with a newline",
            Source(file)
        );
    }
}

/// Prints the usage or the version. Returns the exit status: 3 if the write failed, else 0.
pub fn show<R: Print + Eprint>(rt: &R, text: &str) -> u8
    ensures { (result ≡ 0) ⊎ (result ≡ 3) }
{
    match rt.print(text) {
        Ok(_) => 0,
        Err(error) => not_written(rt, Some(error)),
    }
}

/// Returns the words of the command line, the program's name first. If they cannot be had, prints the reason on standard error, and returns
/// the exit status: 2 if a word is not UTF-8, 4 if there was not enough memory.
pub fn command_words<R: AllocGlobal + Env + Eprint>(rt: &R) -> Result<Vec<String>, u8>
    ensures { IfErr result (λ status. (status ≡ 2) ⊎ (status ≡ 4)) }
{
    let words: Result<Vec<String>, AllocError> = match env::args(rt) {
        Ok(args) => args.collect(rt.alloc()),
        Err(error) if error.kind() == ErrorKind::OutOfMemory => Err(AllocError),
        Err(_) => return Err(failed(
            rt,
            "error: a command-line argument is not valid UTF-8",
            NOT_UNDERSTOOD,
        )),
    };
    match words {
        Ok(words) => Ok(words),
        Err(_) => Err(failed(rt, "error: out of memory", NO_MEMORY)),
    }
}

/// Returns the exit status: what `obey` returns for the words of the command line, or the status in place of words that could not be had.
pub fn status_of<F: FnOnce(&[String]) -> u8>(words: Result<Vec<String>, u8>, obey: F) -> u8
    requires { F.IsAlwaysCallable obey }
    ensures { MatchResult words (λ some. FnOnceReturnsAt F.FnOnce obey some.items result)
        (λ status. result ≡ status) }
{
    match words {
        Ok(words) => obey(words.as_slice()),
        Err(status) => status,
    }
}
