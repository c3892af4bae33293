//! The written form of a segment.
ghost use Rattle.std.specs.Prelude.{◌≡◌, ◌++◌, IfOk, OnOk, length};
ghost use Rattle.std.specs.List.{All};
ghost use Rattle.l4_fpage.specs.Pages.{page_bytes};
ghost use Rattle.l4_journal.specs.Codes.{counted};
ghost use Rattle.l4_segments.specs.Entries.{AreWords, IsWritable};
ghost use Rattle.l4_segments.specs.Files.{bytes_of, heading_code, heading_of, entries_code, file_of};

use crate::entries::put_entry;
use l4_fpage::PageSize;
use l4_journal::{Record, put_place};
use l4_record::{History, Segment};
use sha2::{Digest, Sha256};
use std::alloc::{AllocError, Global};

/// The first word of a file: "LSG4".
pub(crate) const MAGIC: u32 = 877_089_612;

/// The version of the form.
pub(crate) const VERSION: u32 = 1;

/// What a file says of a segment before its entries.
#[derive(Clone, Copy, Debug, PartialEq, Eq)]
pub struct Heading {
    /// The page frames of the kernel at boot.
    pub frames: u32,
    /// The size of its pages.
    pub size: PageSize,
    /// The number of the first entry since boot.
    pub first: usize,
    /// The number of entries.
    pub count: usize,
}

/// Returns the bytes of a page.
pub fn page_bytes(size: PageSize) -> u32
    ensures { result ≡ page_bytes size }
{
    match size {
        PageSize::Kib4 => 4096,
        PageSize::Kib1 => 1024,
    }
}

/// Overwrites the record with the words of a heading.
fn put_heading(out: &mut Record, heading: &Heading)
    ensures { out.new.items ≡ heading_code heading.now }
{
    out.clear();
    out.push(MAGIC);
    out.push(VERSION);
    out.push(heading.frames);
    out.push(page_bytes(heading.size));
    put_place(out, heading.first);
    put_place(out, heading.count);
}

/// Appends words as bytes.
pub fn push_words(out: &mut Vec<u8>, words: &[u32]) -> Result<(), AllocError>
    ensures { IfOk result (λ _. out.new.items ≡ out.old.items ++ bytes_of words.now) }
{
    for i in 0..words.len() {
        let bytes = words[i].to_le_bytes();
        out.extend_from_slice(&bytes)?;
    }
    Ok(())
}

/// Appends the words of a record after their number.
fn push_record(out: &mut Vec<u8>, record: &Record) -> Result<(), AllocError>
    ensures items { IfOk result
        (λ _. out.new.items ≡ out.old.items ++ bytes_of (counted record.now.items)) }
    ensures words { AreWords record.now.items }
{
    let words = record.as_slice();
    let count = words.len() as u32;
    push_words(out, &[count])?;
    push_words(out, words)?;
    Ok(())
}

/// Appends all entries of a history.
fn push_entries(out: &mut Vec<u8>, history: &History) -> Result<(), AllocError>
    ensures items { IfOk result
        (λ _. out.new.items ≡ out.old.items ++ bytes_of (entries_code history.now.entries)) }
    ensures each { OnOk result (All IsWritable history.now.entries) }
{
    let mut record = Record::new();
    for place in 0..history.len() {
        let Some(entry) = history.get(place) else {
            unreachable!()
        };
        put_entry(&mut record, &entry);
        push_record(out, &record)?;
    }
    Ok(())
}

/// Returns the file of a segment, of a kernel with these frames and with pages of this size. `read_segment` reads it if there are 1 to 4,096
/// frames and no entry has a number above 2^63, as in every segment that a recorder handed out.
pub fn write_segment(
    alloc: Global,
    frames: u32,
    size: PageSize,
    segment: &Segment,
) -> Result<Vec<u8>, AllocError>
    ensures file { IfOk result
        (λ bytes. bytes.items
        ≡ file_of (heading_of frames size segment.now.first (length segment.now.history.entries))
        segment.now.history.entries) }
    ensures each { OnOk result (All IsWritable segment.now.history.entries) }
{
    let heading = Heading {
        frames,
        size,
        first: segment.first,
        count: segment.history.len(),
    };
    let mut out = Vec::new(alloc);
    let mut record = Record::new();
    put_heading(&mut record, &heading);
    push_words(&mut out, record.as_slice())?;
    push_entries(&mut out, &segment.history)?;
    let digest = Sha256::digest(out.as_slice());
    out.extend_from_slice(&digest)?;
    Ok(out)
}
