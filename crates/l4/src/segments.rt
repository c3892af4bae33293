//! `l4 history --from`: the history in files of segments.
ghost use Rattle.std.specs.Prelude.{◌≡◌, ◌≤◌, ◌-◌, length, nat_lt, Err};
ghost use Rattle.std.specs.List.{position};
ghost use Rattle.l4.specs.Files.{segments_before, file_at};
ghost use Rattle.l4.specs.Statuses.{history_status};

use crate::reports::{report_file, report_history, report_misfit};
use l4_programs::{NOT_UNDERSTOOD, WatchedWriter, opened, stopped};
use l4_saved::{HistoryFault, segments_history};
use l4_segments::{FaultKind, Joined, Misfit, SavedSegment, join, read_segments};
use l4_text::RunFault;
use std::io;
use std::io::{ErrorKind, Read};
use std::rt::Files;

/// The segments in files, in order. For each file, `ends` has the number of segments in it and in the files before it.
#[derive(Drop)]
pub(crate) struct Found {
    segments: Vec<SavedSegment>,
    ends: Vec<usize>,
}

/// Reads all bytes of a file. Reports why they cannot be had, and returns the exit status.
fn bytes_of<R: AllocGlobal + Files + Input + Eprint>(rt: &R, name: &str) -> Result<Vec<u8>, u8> {
    let mut reader = match opened(rt, Some(name)) {
        Ok(reader) => reader,
        Err(status) => return Err(status),
    };
    let mut bytes = Vec::new(rt.alloc());
    match reader.read_to_end(&mut bytes) {
        Ok(_) => Ok(bytes),
        Err(error) => match error.kind() {
            ErrorKind::OutOfMemory => Err(stopped(rt, RunFault::Memory, None, None)),
            _ => Err(stopped(rt, RunFault::Read, Some(name), Some(error))),
        },
    }
}

/// Reads the segments in a file. Reports why they cannot be read, and returns the exit status.
fn segments_of<R: AllocGlobal + Files + Input + Eprint>(
    rt: &R,
    name: &str,
) -> Result<Vec<SavedSegment>, u8> {
    let bytes = match bytes_of(rt, name) {
        Ok(bytes) => bytes,
        Err(status) => return Err(status),
    };
    match read_segments(rt.alloc(), bytes.as_slice()) {
        Ok(segments) => Ok(segments),
        Err(fault) => match fault.kind {
            FaultKind::NoMemory => Err(stopped(rt, RunFault::Memory, None, None)),
            _ => {
                report_file(rt, name, fault);
                Err(NOT_UNDERSTOOD)
            }
        },
    }
}

/// Reads the segments in these files. Reports why one cannot be read, and returns the exit status.
pub(crate) fn found_in<R: AllocGlobal + Files + Input + Eprint>(
    rt: &R,
    files: &[String],
) -> Result<Found, u8> {
    let mut segments = Vec::new(rt.alloc());
    let mut ends = Vec::new(rt.alloc());
    for index in 0..files.len() {
        let mut more = match segments_of(rt, files[index].as_str()) {
            Ok(more) => more,
            Err(status) => return Err(status),
        };
        if segments.append(&mut more).is_err() || ends.push(segments.len()).is_err() {
            return Err(stopped(rt, RunFault::Memory, None, None));
        }
    }
    Ok(Found { segments, ends })
}

/// Returns the number of segments in the files before the one at this index.
fn segments_before(ends: &[usize], index: usize) -> usize
    ensures { result ≡ segments_before ends.now index }
{
    if index == 0 {
        return 0;
    }
    match ends.get(index - 1) {
        Some(end) => *end,
        None => 0,
    }
}

/// Returns the index of the first file that ends behind this place.
fn end_behind(ends: &[usize], place: usize) -> Option<usize>
    ensures { result ≡ position (λ end. nat_lt place end) ends.now }
{
    ends.iter().position(|end| place < *end)
}

/// Returns the index of the file that the segment at this place is in.
fn file_at(ends: &[usize], place: usize) -> usize
    ensures value { result ≡ file_at ends.now place }
    ensures within { result ≤ length ends.now }
{
    end_behind(ends, place).unwrap_or(ends.len())
}

/// Returns the place of a segment in the file at this index.
fn place_in_file(ends: &[usize], place: usize, index: usize) -> usize
    ensures { result ≡ place - segments_before ends.now index }
{
    place.saturating_sub(segments_before(ends, index))
}

/// Reports the segment that does not fit those before it.
fn report_place(rt: &impl Eprint, files: &[String], ends: &[usize], misfit: Misfit) {
    let index = file_at(ends, misfit.place);
    let place = place_in_file(ends, misfit.place, index);
    if index < files.len() {
        report_misfit(rt, files[index].as_str(), place, misfit);
    }
}

/// Joins segments that begin at boot. Reports the first that does not fit, and returns the exit status.
pub(crate) fn joined<'a, R: Eprint>(
    rt: &R,
    files: &[String],
    found: &'a Found,
) -> Result<Joined<'a>, u8> {
    let segments = found.segments.as_slice();
    if segments.is_empty() {
        return Err(NOT_UNDERSTOOD);
    }
    let first = segments[0].heading();
    match join(first.frames, first.size, 0, segments) {
        Ok(joined) => Ok(joined),
        Err(misfit) => {
            report_place(rt, files, found.ends.as_slice(), misfit);
            Err(NOT_UNDERSTOOD)
        }
    }
}

/// Reports why the history in segments was not written, or is none. Returns the exit status.
pub(crate) fn history_stopped(rt: &impl Eprint, fault: HistoryFault, cause: Option<io::Error>) -> u8
    ensures { result ≡ history_status (Err fault) }
{
    match fault {
        HistoryFault::Memory => stopped(rt, RunFault::Memory, None, None),
        HistoryFault::Write => stopped(rt, RunFault::Write, None, cause),
        HistoryFault::NotNext(_) | HistoryFault::OtherAnswer(_) => {
            report_history(rt, fault);
            NOT_UNDERSTOOD
        }
    }
}

/// Reports why the history in segments was not written. Returns the exit status.
fn told(rt: &impl Eprint, told: Result<(), HistoryFault>, cause: Option<io::Error>) -> u8
    ensures { result ≡ history_status told }
{
    match told {
        Ok(()) => 0,
        Err(fault) => history_stopped(rt, fault, cause),
    }
}

/// Writes the history in these files as a step list.
#[inline(never)]
pub(crate) fn tell_segments<R: AllocGlobal + Files + Input + Print + Eprint>(
    rt: &R,
    files: &[String],
    answers: bool,
) -> u8 {
    let found = match found_in(rt, files) {
        Ok(found) => found,
        Err(status) => return status,
    };
    let joined = match joined(rt, files, &found) {
        Ok(joined) => joined,
        Err(status) => return status,
    };
    let mut writer = WatchedWriter::new(io::writer(rt));
    let written = segments_history(rt.alloc(), &joined, answers, &mut writer);
    told(rt, written, writer.error())
}
