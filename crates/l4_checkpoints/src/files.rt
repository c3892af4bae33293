//! The written form of a checkpoint.
ghost use Rattle.std.specs.Prelude.{◌≡◌, ◌<◌, ◌^◌, length, IfOk};
ghost use Rattle.l4_segments.specs.Entries.{AreWords};
ghost use Rattle.l4_checkpoints.specs.Checkpoints.{heading_words, file_of, IsWritten};

use l4_fpage::PageSize;
use l4_ipc::Kernel;
use l4_journal::{Record, put_place};
use l4_keys::put_kernel;
use l4_segments::{page_bytes, push_words};
use sha2::{Digest, Sha256};
use std::alloc::{AllocError, Global};

/// The first word of a checkpoint: "LCP4".
pub(crate) const MAGIC: u32 = 877_675_340;

/// The version of the form.
pub(crate) const VERSION: u32 = 1;

/// Overwrites the record with the words of a heading.
fn put_heading(out: &mut Record, frames: u32, size: PageSize, entries: usize, count: usize)
    ensures { out.new.items ≡ heading_words frames size entries count }
{
    out.clear();
    out.push(MAGIC);
    out.push(VERSION);
    out.push(frames);
    out.push(page_bytes(size));
    put_place(out, entries);
    put_place(out, count);
}

/// Returns the file of a heading and words.
fn file_of(
    alloc: Global,
    frames: u32,
    size: PageSize,
    entries: usize,
    words: &[u32],
) -> Result<Vec<u8>, AllocError>
    ensures file { IfOk result (λ bytes. bytes.items ≡ file_of frames size entries words.now) }
    ensures words { AreWords words.now }
    ensures few { length words.now < 2 ^ 64 }
{
    let mut record = Record::new();
    put_heading(&mut record, frames, size, entries, words.len());
    let mut out = Vec::new(alloc);
    push_words(&mut out, record.as_slice())?;
    push_words(&mut out, words)?;
    let digest = Sha256::digest(out.as_slice());
    out.extend_from_slice(&digest)?;
    Ok(out)
}

/// Returns the checkpoint of a kernel that booted with this number of frames, and whose history has this number of entries since boot. `read_checkpoint`
/// reads it if there are 1 to 4,096 frames, each frame that a page maps is one of them, and there are at most 2^63 entries.
pub fn write_checkpoint(
    alloc: Global,
    frames: u32,
    entries: usize,
    kernel: &Kernel,
) -> Result<Vec<u8>, AllocError>
    ensures { IfOk result (λ bytes. IsWritten frames entries kernel.now bytes.items) }
{
    let mut words = Vec::new(alloc);
    put_kernel(kernel, &mut words)?;
    file_of(alloc, frames, kernel.page_size(), entries, words.as_slice())
}
