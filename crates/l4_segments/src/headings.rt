//! Reads the heading of a file.
ghost use Rattle.std.specs.Prelude.{◌≡◌, ◌≢◌, ◌+◌, ◌*◌, ◌^◌, if◌then◌else◌, length, slice_index, IfOk, IfErr, MatchOption};
ghost use Rattle.l4_fpage.specs.Pages.{page_bytes};
ghost use Rattle.l4_fpage.specs.declared.sizes.PageSize.{PageSize as APageSize};
ghost use Rattle.l4_segments.specs.declared.faults.FaultKind.TheVariants.{Cut, Magic};
ghost use Rattle.l4_segments.specs.Files.{heading_code, IsHeading};
ghost use Rattle.l4_segments.specs.Faults.{FieldFails, begins_as_file, HeadingFails};
ghost use Rattle.l4_segments.specs.Inside.Reading.{BeginsWith};

use crate::faults::{FaultKind, FileFault};
use crate::files::{Heading, MAGIC, VERSION};
use crate::words::read_words;
use l4_fpage::{MAX_FRAMES, PageSize};
use l4_journal::Record;
use l4_record::MAX_HANDED_OUT;

/// The first word of a heading, as bytes.
const FIRST_BYTES: &[u8] = b"LSG4";

/// The words of a heading.
const HEADING_WORDS: usize = 8;

/// The bytes of a heading.
pub(crate) const HEADING_BYTES: usize = 4 * HEADING_WORDS;

/// Returns the size of pages with this number of bytes.
pub fn size_of(bytes: u32) -> Option<PageSize>
    ensures { MatchOption result ((size : APageSize) → bytes ≢ page_bytes size)
        (λ size. bytes ≡ page_bytes size) }
{
    match bytes {
        4096 => Some(PageSize::Kib4),
        1024 => Some(PageSize::Kib1),
        _ => None,
    }
}

/// Returns the number that these two words are, the lower one first.
pub fn number_of(lower: u32, upper: u32) -> usize
    ensures { result ≡ lower + 2 ^ 32 * upper }
{
    lower as usize + 0x1_0000_0000 * upper as usize
}

/// Returns the heading that these eight words are.
fn heading_of(words: &[u32]) -> Result<Heading, FileFault>
    requires { length words.now ≡ 8 }
    ensures ok { IfOk result (λ h. IsHeading h × (words.now ≡ heading_code h)) }
    ensures err { IfErr result (λ f. FieldFails words.now f.kind f.position) }
{
    if words[0] != MAGIC {
        return Err(FileFault {
            position: 0,
            kind: FaultKind::Magic,
        });
    }
    if words[1] != VERSION {
        return Err(FileFault {
            position: 4,
            kind: FaultKind::Version,
        });
    }
    let frames = words[2];
    if frames == 0 || frames > MAX_FRAMES {
        return Err(FileFault {
            position: 8,
            kind: FaultKind::Frames,
        });
    }
    let Some(size) = size_of(words[3]) else {
        return Err(FileFault {
            position: 12,
            kind: FaultKind::Pages,
        });
    };
    let first = number_of(words[4], words[5]);
    let count = number_of(words[6], words[7]);
    if first > MAX_HANDED_OUT || count > MAX_HANDED_OUT - first {
        return Err(FileFault {
            position: 16,
            kind: FaultKind::Numbers,
        });
    }
    Ok(Heading {
        frames,
        size,
        first,
        count,
    })
}

/// Returns whether bytes begin with "LSG4", or end within it.
fn begins_as_file(bytes: &[u8]) -> bool
    ensures { result ≡ begins_as_file bytes.now }
{
    bytes.starts_with(FIRST_BYTES) || FIRST_BYTES.starts_with(bytes)
}

/// Returns how bytes that end within the heading are wrong.
fn short_kind(bytes: &[u8]) -> FaultKind
    ensures { result ≡ (if begins_as_file bytes.now then Cut else Magic) }
{
    if begins_as_file(bytes) {
        FaultKind::Cut
    } else {
        FaultKind::Magic
    }
}

/// Reads the heading at the beginning.
pub(crate) fn read_heading(bytes: &[u8]) -> Result<Heading, FileFault>
    ensures ok { IfOk result (λ h. BeginsWith bytes.now h) }
    ensures err { IfErr result (HeadingFails bytes.now) }
{
    if bytes.len() < HEADING_BYTES {
        return Err(FileFault {
            position: 0,
            kind: short_kind(bytes),
        });
    }
    let mut record = Record::new();
    read_words(&mut record, bytes, 0, HEADING_WORDS);
    heading_of(record.as_slice())
}
