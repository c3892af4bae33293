//! Reads the heading and the end of a checkpoint.
ghost use Rattle.std.specs.Prelude.{◌≡◌, ◌≢◌, ◌≤◌, length, IfOk, IfErr, IfSome, MatchOption};
ghost use Rattle.l4_checkpoints.specs.Checkpoints.{IsNoCheckpoint};
ghost use Rattle.l4_checkpoints.specs.Inside.Reading.{AreHeading, AreNoHeading, BeginsWith, EndsRight, EndsWrong};
ghost use Rattle.l4_checkpoints.specs.declared.faults.CheckpointFaultKind.TheVariants.{Machine as IsOfWords};

use crate::faults::{CheckpointFault, CheckpointFaultKind, fault};
use crate::files::{MAGIC, VERSION};
use l4_fpage::{MAX_FRAMES, PageSize};
use l4_journal::Record;
use l4_record::MAX_HANDED_OUT;
use l4_segments::{are_at, number_of, read_words, size_of};
use sha2::{Digest, Sha256};

/// The words of a heading.
const HEADING_WORDS: usize = 8;

/// The bytes of a heading.
pub(crate) const HEADING_BYTES: usize = 4 * HEADING_WORDS;

/// The bytes of a checksum.
pub(crate) const DIGEST_BYTES: usize = 32;

/// What the heading says.
#[derive(Clone, Copy)]
pub(crate) struct Heading {
    pub(crate) frames: u32,
    pub(crate) size: PageSize,
    pub(crate) entries: usize,
    pub(crate) count: usize,
}

/// Returns the heading that these eight words are.
fn heading_of(words: &[u32]) -> Result<Heading, CheckpointFault>
    requires { length words.now ≡ 8 }
    ensures ok { IfOk result (λ h. AreHeading h.frames h.size h.entries h.count words.now) }
    ensures err { IfErr result (λ _. AreNoHeading words.now) }
    ensures kind { IfErr result (λ f. f.kind ≢ IsOfWords) }
{
    if words[0] != MAGIC {
        return Err(fault(0, CheckpointFaultKind::Magic));
    }
    if words[1] != VERSION {
        return Err(fault(4, CheckpointFaultKind::Version));
    }
    let frames = words[2];
    if frames == 0 || frames > MAX_FRAMES {
        return Err(fault(8, CheckpointFaultKind::Frames));
    }
    let Some(size) = size_of(words[3]) else {
        return Err(fault(12, CheckpointFaultKind::Pages));
    };
    let entries = number_of(words[4], words[5]);
    if entries > MAX_HANDED_OUT {
        return Err(fault(16, CheckpointFaultKind::Numbers));
    }
    let count = number_of(words[6], words[7]);
    Ok(Heading {
        frames,
        size,
        entries,
        count,
    })
}

/// Reads the heading at the beginning.
pub(crate) fn read_heading(bytes: &[u8]) -> Result<Heading, CheckpointFault>
    ensures ok { IfOk result (λ h. BeginsWith bytes.now h.frames h.size h.entries h.count) }
    ensures err { IfErr result (λ _. IsNoCheckpoint bytes.now) }
    ensures kind { IfErr result (λ f. f.kind ≢ IsOfWords) }
{
    if bytes.len() < HEADING_BYTES {
        return Err(fault(0, CheckpointFaultKind::Cut));
    }
    let mut record = Record::new();
    read_words(&mut record, bytes, 0, HEADING_WORDS);
    heading_of(record.as_slice())
}

/// Returns what is wrong with the length or the checksum of a file with this number of words.
pub(crate) fn check_end(bytes: &[u8], count: usize) -> Option<CheckpointFault>
    requires { 32 ≤ length bytes.now }
    ensures end { MatchOption result (EndsRight bytes.now count) (λ _. EndsWrong bytes.now count) }
    ensures kind { IfSome result (λ f. f.kind ≢ IsOfWords) }
{
    let whole = (bytes.len() - HEADING_BYTES) / 4;
    if count > whole {
        return Some(fault(HEADING_BYTES + 4 * whole, CheckpointFaultKind::Cut));
    }
    let end = HEADING_BYTES + 4 * count;
    let left = bytes.len() - end;
    if left < DIGEST_BYTES {
        return Some(fault(end, CheckpointFaultKind::Cut));
    }
    if left > DIGEST_BYTES {
        return Some(fault(end + DIGEST_BYTES, CheckpointFaultKind::Extra));
    }
    let digest = Sha256::digest(&bytes[..end]);
    if !are_at(bytes, end, &digest) {
        return Some(fault(end, CheckpointFaultKind::Checksum));
    }
    None
}
