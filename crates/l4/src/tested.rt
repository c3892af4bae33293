//! `l4 test`: scripts that state the answers that they expect.
ghost use Rattle.std.specs.Prelude.{◌≡◌, ◌⊎◌, IfOk, MatchResult};
ghost use Rattle.l4.specs.Files.{IsWholeFile};
ghost use Rattle.l4.specs.Statuses.{test_status};
ghost use Rattle.l4_options.specs.Ranges.{IsFrameCount};

use crate::DIFFERS;
use crate::kinds::is_litmus;
use crate::plan_tests::{report_not_copied, test_plan};
use crate::tap::Escaped;
use l4_expectations::{
    Copied, Difference, Failure, Fault, Passed, UnexpectedRefusal, copy_script, test_script,
};
use l4_litmus::{WRONG_OPTIONS, options_line, options_of};
use l4_options::ScriptOptions;
use l4_programs::{NOT_UNDERSTOOD, STANDARD_INPUT, WatchedReader, not_created, opened, stopped};
use l4_text::RunFault;
use std::alloc::Global;
use std::fmt::{Display, Formatter};
use std::fs::File;
use std::io::{Error, ErrorKind, Read, Write};
use std::rt::Files;
use std::{fmt, fs, io, str};

/// Why a script has no copy that passes.
const NO_ANSWERS: &str = "no line has answers, so a copy would test nothing";

/// Why a script that expects no answer does not pass.
const NO_EXPECTATIONS: &str =
    "the script expects no answers, apart from '#= ..', so it tests nothing";

/// Whether a write succeeded.
pub(crate) type Written = io::Result<()>;

/// Where a result is printed: the name of its file, and its number in TAP.
#[derive(Drop)]
pub(crate) struct Place<'a> {
    pub(crate) file: &'a str,
    pub(crate) tap: bool,
    pub(crate) number: usize,
}

/// The size of a script in a message: `1 line, 0 expectations`.
#[derive(Clone, Copy)]
struct Size(Passed);

impl Display for Size {
    fn fmt<W: fmt::Write>(&self, f: &mut Formatter<W>) -> fmt::Result {
        let Passed {
            lines,
            expectations,
        } = self.0;
        let line = if lines == 1 { "line" } else { "lines" };
        let expectation = if expectations == 1 {
            "expectation"
        } else {
            "expectations"
        };
        write!(f, "{lines} {line}, {expectations} {expectation}")
    }
}

/// Returns the status, or that of a write that failed.
pub(crate) fn printed(rt: &impl Eprint, written: Written, status: u8) -> u8
    ensures exact { MatchResult written (λ _. result ≡ status) (λ _. result ≡ 3) }
    ensures either { (result ≡ status) ⊎ (result ≡ 3) }
{
    match written {
        Ok(()) => status,
        Err(error) => stopped(rt, RunFault::Write, None, Some(error)),
    }
}

/// Prints that a script passed.
fn print_passed(rt: &impl Print, place: &Place<'_>, passed: Passed) -> Written {
    let file = place.file;
    if place.tap {
        let number = place.number;
        return println!(rt; "ok {number} - {}: {}", Escaped(file), Size(passed));
    }
    println!(rt; "{file}: {}, passed", Size(passed))
}

/// Returns an answer, or the words for none.
fn named(answer: &[u8]) -> &str {
    if answer.is_empty() {
        return "no further answer";
    }
    str::from_utf8(answer).unwrap_or("an answer that is not valid UTF-8")
}

/// Prints that one answer was expected, and another one was found.
fn print_other(
    rt: &impl Print,
    place: &Place<'_>,
    line: u64,
    expected: &str,
    found: &str,
) -> Written {
    let file = place.file;
    if place.tap {
        let number = place.number;
        return println!(rt;
            "not ok {number} - {}: line {line}: expected {}, found {}",
            Escaped(file),
            Escaped(expected),
            Escaped(found)
        );
    }
    println!(rt; "{file}: line {line}: expected {expected}, found {found}")
}

/// Prints the first difference.
fn print_difference(rt: &impl Print, place: &Place<'_>, differs: &Difference) -> Written {
    let expected = named(differs.expected.as_slice());
    let found = named(differs.found.as_slice());
    print_other(rt, place, differs.line, expected, found)
}

/// Prints the first refusal that is not expected.
fn print_refusal(rt: &impl Print, place: &Place<'_>, refused: &UnexpectedRefusal) -> Written {
    let found = named(refused.answer.as_slice());
    print_other(rt, place, refused.line, "no refusal", found)
}

/// Says why a line cannot be part of a test.
fn reason(fault: Fault) -> &'static str {
    match fault {
        Fault::Cut => "the line does not end with a newline",
        Fault::Long => "the line is longer than 4,096 bytes",
        Fault::NoAnswer => "'#=' must be followed by a space and an answer, or by a space and '..'",
        Fault::NoLine => "the line expects an answer, but no line above it has answers",
        Fault::AfterRest =>
            "the line expects an answer, but '#= ..' above it has ended the expectations",
    }
}

/// Prints on standard error why a line cannot be part of a test, and the result in TAP.
pub(crate) fn print_malformed<R: Print + Eprint>(
    rt: &R,
    place: &Place<'_>,
    line: u64,
    reason: &str,
) -> Written {
    let file = place.file;
    let _ = eprintln!(rt; "error: {file}: line {line}: {reason}");
    if !place.tap {
        return Ok(());
    }
    let number = place.number;
    println!(rt;
        "not ok {number} - {}: line {line}: {reason}",
        Escaped(file)
    )
}

/// Prints in TAP why a file does not pass.
pub(crate) fn print_reason(rt: &impl Print, place: &Place<'_>, reason: &str) -> Written {
    if !place.tap {
        return Ok(());
    }
    let number = place.number;
    println!(rt;
        "not ok {number} - {}: {}",
        Escaped(place.file),
        Escaped(reason)
    )
}

/// Prints on standard error why a file tests nothing, and the result in TAP.
pub(crate) fn print_empty<R: Print + Eprint>(rt: &R, place: &Place<'_>, reason: &str) -> Written {
    let file = place.file;
    let _ = eprintln!(rt; "error: {file}: {reason}");
    print_reason(rt, place, reason)
}

/// Prints in TAP that a file was not tested to its end, after the reason was reported.
pub(crate) fn print_untested(rt: &impl Print, place: &Place<'_>) -> Written {
    if !place.tap {
        return Ok(());
    }
    let number = place.number;
    println!(rt;
        "not ok {number} - {}: the script was not tested to its end",
        Escaped(place.file)
    )
}

/// Reads all bytes of a file.
fn whole_file<Q: Read>(alloc: Global, reader: &mut Q) -> Result<Vec<u8>, RunFault>
    ensures { IfOk result
        (λ bytes. IsWholeFile (Q.remaining reader.old) (Q.remaining reader.new) bytes.items) }
{
    let mut bytes = Vec::new(alloc);
    match reader.read_to_end(&mut bytes) {
        Ok(_) => Ok(bytes),
        Err(error) => match error.kind() {
            ErrorKind::OutOfMemory => Err(RunFault::Memory),
            _ => Err(RunFault::Read),
        },
    }
}

/// Prints the result of a test.
fn print_result<R: Print + Eprint>(
    rt: &R,
    place: &Place<'_>,
    tested: &Result<Passed, Failure>,
) -> Written {
    match tested {
        Ok(passed) => print_passed(rt, place, *passed),
        Err(Failure::Differs(difference)) => print_difference(rt, place, difference),
        Err(Failure::Refused(refused)) => print_refusal(rt, place, refused),
        Err(Failure::NoExpectations) => print_empty(rt, place, NO_EXPECTATIONS),
        Err(Failure::Malformed(line, fault)) => print_malformed(rt, place, *line, reason(*fault)),
        Err(Failure::Stopped(_)) => print_untested(rt, place),
    }
}

/// Returns the exit status of a test. If it stopped, reports why: `error` is what the system has reported.
fn tested_status(
    rt: &impl Eprint,
    file: &str,
    tested: Result<Passed, Failure>,
    error: Option<Error>,
) -> u8
    ensures { result ≡ test_status tested }
{
    match tested {
        Ok(_) => 0,
        Err(Failure::Differs(_)) => DIFFERS,
        Err(Failure::Refused(_)) => DIFFERS,
        Err(Failure::NoExpectations) => NOT_UNDERSTOOD,
        Err(Failure::Malformed(_, _)) => NOT_UNDERSTOOD,
        Err(Failure::Stopped(fault)) => stopped(rt, fault, Some(file), error),
    }
}

/// Returns the exit status of a test whose result was written: 3 if the write failed.
fn report(
    rt: &impl Eprint,
    file: &str,
    tested: Result<Passed, Failure>,
    error: Option<Error>,
    written: Written,
) -> u8
    ensures { MatchResult written (λ _. result ≡ test_status tested) (λ _. result ≡ 3) }
{
    let status = tested_status(rt, file, tested, error);
    printed(rt, written, status)
}

/// Prints the result of a test, and returns the exit status.
fn tell<R: Print + Eprint>(
    rt: &R,
    place: &Place<'_>,
    tested: Result<Passed, Failure>,
    error: Option<Error>,
) -> u8 {
    let written = print_result(rt, place, &tested);
    report(rt, place.file, tested, error, written)
}

/// Reads a script, and the options in its first line. Reports why they cannot be had, and returns the exit status.
fn begun<Q: Read, R: AllocGlobal + Print + Eprint>(
    rt: &R,
    place: &Place<'_>,
    reader: &mut WatchedReader<Q>,
) -> Result<(Vec<u8>, ScriptOptions), u8>
    ensures { IfOk result (λ r. IsFrameCount r.1.frames) }
{
    let bytes = match whole_file(rt.alloc(), reader) {
        Ok(bytes) => bytes,
        Err(fault) => return Err(tell(rt, place, Err(Failure::Stopped(fault)), reader.error())),
    };
    match options_of(rt.alloc(), bytes.as_slice()) {
        Ok(Some(script)) => Ok((bytes, script)),
        Ok(None) => {
            let line = options_line(bytes.as_slice());
            let written = print_malformed(rt, place, line, WRONG_OPTIONS);
            Err(printed(rt, written, NOT_UNDERSTOOD))
        }
        Err(fault) => Err(tell(rt, place, Err(Failure::Stopped(fault)), None)),
    }
}

/// Tests the script or the litmus test that a reader gives, and prints the result. Returns the exit status.
fn test_reader<Q: Read, R: AllocGlobal + Print + Eprint>(
    rt: &R,
    place: &Place<'_>,
    lenient: bool,
    reader: &mut WatchedReader<Q>,
) -> u8 {
    let (bytes, script) = match begun(rt, place, reader) {
        Ok(parts) => parts,
        Err(status) => return status,
    };
    if is_litmus(place.file, bytes.as_slice()) {
        return test_plan(rt, place, &script, lenient, bytes.as_slice());
    }
    let mut text = bytes.as_slice();
    let tested = test_script(rt.alloc(), script.frames, script.size, lenient, &mut text);
    tell(rt, place, tested, None)
}

/// Tests the script or the litmus test in a file, and prints the result. Returns the exit status.
fn test_file<R: AllocGlobal + Files + Input + Print + Eprint>(
    rt: &R,
    place: &Place<'_>,
    lenient: bool,
) -> u8 {
    match opened(rt, Some(place.file)) {
        Ok(mut reader) => test_reader(rt, place, lenient, &mut reader),
        Err(status) => {
            let written = print_untested(rt, place);
            printed(rt, written, status)
        }
    }
}

/// Tests these files. Returns the greatest of their exit statuses.
#[inline(never)]
fn test_files<R: AllocGlobal + Files + Input + Print + Eprint>(
    rt: &R,
    files: &[String],
    tap: bool,
    lenient: bool,
) -> u8 {
    let mut greatest = 0;
    if tap {
        let count = files.len();
        let written = println!(rt; "TAP version 13\n1..{count}");
        greatest = printed(rt, written, 0);
    }
    for index in 0..files.len() {
        let place = Place {
            file: files[index].as_str(),
            tap,
            number: index + 1,
        };
        greatest = greatest.max(test_file(rt, &place, lenient));
    }
    greatest
}

/// Returns the name of the copy of a file. None if there is not enough memory.
fn copy_name(alloc: Global, file: &str) -> Option<String> {
    let Ok(mut name) = String::from_str(alloc, file) else {
        return None;
    };
    match name.push_str(".new") {
        Ok(()) => Some(name),
        Err(_) => None,
    }
}

/// Creates a file with these bytes. If the file exists, returns an error and leaves it unchanged. If a write fails, removes the new file.
fn create<R: Files>(rt: &R, name: &str, bytes: &[u8]) -> Written {
    let mut file = match File::create_new(rt, name) {
        Ok(file) => file,
        Err(error) => return Err(error),
    };
    match file.write_all(bytes) {
        Ok(()) => Ok(()),
        Err(error) => {
            let _ = fs::remove_file(rt, name);
            Err(error)
        }
    }
}

/// Prints that a copy was written.
fn print_copied(rt: &impl Print, file: &str, name: &str, size: Passed) -> Written {
    println!(rt; "{file}: {}, written to {name}", Size(size))
}

/// Writes the copy of a script to a file, and prints its size. Returns the exit status.
fn write_copy<R: AllocGlobal + Files + Print + Eprint>(rt: &R, file: &str, copy: &Copied) -> u8
    ensures { (result ≡ 0) ⊎ ((result ≡ 3) ⊎ (result ≡ 4)) }
{
    let Some(name) = copy_name(rt.alloc(), file) else {
        return stopped(rt, RunFault::Memory, None, None);
    };
    match create(rt, name.as_str(), copy.text.as_slice()) {
        Ok(()) => {
            let written = print_copied(rt, file, name.as_str(), copy.size);
            printed(rt, written, 0)
        }
        Err(error) => not_created(rt, name.as_str(), error),
    }
}

/// Writes a copy of the script that a reader gives. Returns the exit status.
fn copy_reader<Q: Read, R: AllocGlobal + Files + Print + Eprint>(
    rt: &R,
    place: &Place<'_>,
    reader: &mut WatchedReader<Q>,
) -> u8 {
    let (bytes, script) = match begun(rt, place, reader) {
        Ok(parts) => parts,
        Err(status) => return status,
    };
    if is_litmus(place.file, bytes.as_slice()) {
        return report_not_copied(rt, place.file);
    }
    let mut text = bytes.as_slice();
    match copy_script(rt.alloc(), script.frames, script.size, &mut text) {
        Ok(copy) => write_copy(rt, place.file, &copy),
        Err(Failure::NoExpectations) => {
            let written = print_empty(rt, place, NO_ANSWERS);
            printed(rt, written, NOT_UNDERSTOOD)
        }
        Err(failure) => tell(rt, place, Err(failure), None),
    }
}

/// Writes a copy of the script in a file, but not of one on standard input, since that has no name. Returns the exit status.
fn copy_file<R: AllocGlobal + Files + Input + Print + Eprint>(rt: &R, place: &Place<'_>) -> u8 {
    if place.file == STANDARD_INPUT {
        let _ = rt.eprintln("error: the argument '--write' cannot be used with '-'");
        return NOT_UNDERSTOOD;
    }
    match opened(rt, Some(place.file)) {
        Ok(mut reader) => copy_reader(rt, place, &mut reader),
        Err(status) => status,
    }
}

/// Writes a copy of each script in these files, with the actual answers. Returns the greatest of the exit statuses.
#[inline(never)]
fn copy_files<R: AllocGlobal + Files + Input + Print + Eprint>(rt: &R, files: &[String]) -> u8 {
    let mut greatest = 0;
    for index in 0..files.len() {
        let place = Place {
            file: files[index].as_str(),
            tap: false,
            number: index + 1,
        };
        greatest = greatest.max(copy_file(rt, &place));
    }
    greatest
}

/// Tests these files, or writes a copy of each script with the actual answers. Returns the greatest of the exit statuses.
pub(crate) fn test<R: AllocGlobal + Files + Input + Print + Eprint>(
    rt: &R,
    files: &[String],
    tap: bool,
    write: bool,
    lenient: bool,
) -> u8 {
    if write {
        copy_files(rt, files)
    } else {
        test_files(rt, files, tap, lenient)
    }
}
