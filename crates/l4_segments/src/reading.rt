//! Reads the file of a segment.
ghost use Rattle.std.specs.Prelude.{◌≡◌, ◌≤◌, ◌⊎◌, [], take, drop, length, IfOk, IfErr};
ghost use Rattle.sha2.specs.Sha256.{sha256};
ghost use Rattle.l4_segments.specs.declared.faults.FaultKind.TheVariants.{NoMemory as LacksMemory};
ghost use Rattle.l4_segments.specs.Files.{IsHeading, IsSegment, file_of};
ghost use Rattle.l4_segments.specs.Faults.{HasBegun, HasNoEntry, EntryKind, EntryFails, IsWrongEnd, Departs, IsNoFile, IsNotExtra, DepartsAfter, AreNoFiles};
ghost use Rattle.l4_segments.specs.Saved.{saved_files, AreSegments};
ghost use Rattle.l4_segments.specs.Inside.Reading.{BeginsWith, ReadsEntry, EndsWithSum, ReadsFront};

use crate::entries::{put_entry, read_entry};
use crate::faults::{FaultKind, FileFault};
use crate::files::Heading;
use crate::headings::{HEADING_BYTES, read_heading};
use crate::saved::{FileEntry, SavedSegment};
use crate::words::{are_at, are_same, read_words, word_at};
use l4_journal::{Journal, RECORD_WORDS, Record, Words};
use sha2::{Digest, Sha256};
use std::alloc::Global;

/// The bytes of a checksum.
const DIGEST_BYTES: usize = 32;

/// Overwrites the first record with the words of the entry at a position. Returns the position after the entry. The second record is
/// overwritten too.
fn next_entry(
    bytes: &[u8],
    at: usize,
    words: &mut Record,
    again: &mut Record,
) -> Result<usize, FaultKind>
    requires { at ≤ length bytes.now }
    ensures ok { IfOk result (ReadsEntry bytes.now at words.new.items) }
    ensures err { IfErr result (λ kind. EntryKind bytes.now at kind × HasNoEntry bytes.now at) }
{
    if bytes.len() - at < 4 {
        return Err(FaultKind::Cut);
    }
    let count = word_at(bytes, at) as usize;
    let start = at + 4;
    if count > RECORD_WORDS {
        return Err(FaultKind::Entry);
    }
    if bytes.len() - start < 4 * count {
        return Err(FaultKind::Cut);
    }
    read_words(words, bytes, start, count);
    let Some(entry) = read_entry(Words::of(words.as_slice())) else {
        return Err(FaultKind::Entry);
    };
    put_entry(again, &entry);
    if !are_same(words.as_slice(), again.as_slice()) {
        return Err(FaultKind::Entry);
    }
    Ok(start + 4 * count)
}

/// Reads the entries after the heading. Returns the position after them.
fn read_entries(
    bytes: &[u8],
    heading: &Heading,
    entries: &mut Journal<FileEntry>,
) -> Result<usize, FileFault>
    requires begins { BeginsWith bytes.now heading.now }
    requires none { entries.old.items ≡ [] }
    ensures ok { IfOk result
        (λ at. HasBegun bytes.now heading.now entries.new.items at
        × (length entries.new.items ≡ heading.now.count)) }
    ensures err { IfErr result (λ f. (f.kind ≡ LacksMemory) ⊎ EntryFails bytes.now f) }
    ensures within { IfErr result (λ f. f.position ≤ length bytes.now) }
{
    let mut words = Record::new();
    let mut again = Record::new();
    let mut at = HEADING_BYTES;
    for done in 0..heading.count {
        let next = match next_entry(bytes, at, &mut words, &mut again) {
            Ok(next) => next,
            Err(kind) => {
                return Err(FileFault { position: at, kind });
            }
        };
        if entries.reserve(1).is_err() {
            return Err(FileFault {
                position: at,
                kind: FaultKind::NoMemory,
            });
        }
        entries.push(&[], words.as_slice());
        at = next;
    }
    Ok(at)
}

/// Checks that the checksum is at a position. Returns the position after it.
fn check_sum(bytes: &[u8], at: usize) -> Result<usize, FileFault>
    requires { at ≤ length bytes.now }
    ensures ok { IfOk result (EndsWithSum bytes.now at) }
    ensures err { IfErr result (IsWrongEnd bytes.now at) }
    ensures place { IfErr result (λ f. (f.position ≡ at) × IsNotExtra f.kind) }
{
    let digest = Sha256::digest(&bytes[..at]);
    let left = bytes.len() - at;
    if left < DIGEST_BYTES {
        return Err(FileFault {
            position: at,
            kind: FaultKind::Cut,
        });
    }
    if !are_at(bytes, at, &digest) {
        return Err(FileFault {
            position: at,
            kind: FaultKind::Checksum,
        });
    }
    Ok(at + DIGEST_BYTES)
}

/// Reads the segment whose file the bytes begin with. Returns it, and the number of bytes of its file.
fn read_front(alloc: Global, bytes: &[u8]) -> Result<(SavedSegment, usize), FileFault>
    ensures ok { IfOk result (λ r. ReadsFront bytes.now r.0.heading r.0.entries r.1) }
    ensures err { IfErr result (λ f. (f.kind ≡ LacksMemory)
        ⊎ (Departs bytes.now f × IsNotExtra f.kind)) }
    ensures within { IfErr result (λ f. f.position ≤ length bytes.now) }
{
    let heading = match read_heading(bytes) {
        Ok(heading) => heading,
        Err(fault) => return Err(fault),
    };
    let mut entries = Journal::new(alloc);
    let at = match read_entries(bytes, &heading, &mut entries) {
        Ok(at) => at,
        Err(fault) => return Err(fault),
    };
    match check_sum(bytes, at) {
        Ok(end) => Ok((SavedSegment::new(heading, entries), end)),
        Err(fault) => Err(fault),
    }
}

/// Reads the file of a segment. The bytes are exactly the file of the segment that is returned.
///
/// If an allocation fails, the fault is `NoMemory`. Every other fault means that the bytes are the file of no segment, and has the position
/// at which they depart from all such files.
pub fn read_segment(alloc: Global, bytes: &[u8]) -> Result<SavedSegment, FileFault>
    ensures ok { IfOk result
        (λ s. IsSegment s.heading s.entries × (bytes.now ≡ file_of s.heading s.entries)) }
    ensures departs { IfErr result (λ f. (f.kind ≡ LacksMemory) ⊎ Departs bytes.now f) }
    ensures none { IfErr result (λ f. (f.kind ≡ LacksMemory) ⊎ IsNoFile bytes.now) }
{
    let (segment, end) = match read_front(alloc, bytes) {
        Ok(read) => read,
        Err(fault) => return Err(fault),
    };
    if end < bytes.len() {
        return Err(FileFault {
            position: end,
            kind: FaultKind::Extra,
        });
    }
    Ok(segment)
}

/// Reads the files of one or more segments, one after another. The bytes are exactly the files of the segments that are returned.
///
/// If an allocation fails, the fault is `NoMemory`. Every other fault has the position, counted from the first byte, at which the bytes depart
/// from all files of segments, after the files of some segments. Bytes that follow the last segment are read as one more, so the fault is
/// never `Extra`.
pub fn read_segments(alloc: Global, bytes: &[u8]) -> Result<Vec<SavedSegment>, FileFault>
    ensures ok { IfOk result (λ v. AreSegments v.items × (bytes.now ≡ saved_files v.items)) }
    ensures departs { IfErr result (λ f. (f.kind ≡ LacksMemory) ⊎ DepartsAfter bytes.now f) }
    ensures none { IfErr result (λ f. (f.kind ≡ LacksMemory) ⊎ AreNoFiles bytes.now) }
{
    let mut segments = Vec::new(alloc);
    let mut at = 0;
    loop {
        let (segment, len) = match read_front(alloc, &bytes[at..]) {
            Ok(read) => read,
            Err(fault) => return Err(FileFault {
                position: at + fault.position,
                kind: fault.kind,
            }),
        };
        if segments.push(segment).is_err() {
            return Err(FileFault {
                position: at,
                kind: FaultKind::NoMemory,
            });
        }
        at += len;
        if at >= bytes.len() {
            return Ok(segments);
        }
    }
}
