//! The meaning of words.
ghost use Rattle.std.specs.Prelude.{◌≡◌, codes};
ghost use Rattle.l4_page.specs.Given.{reading_of, InBytes};
ghost use Rattle.l4_page.specs.Told.{TellsNothing};
ghost use Rattle.l4_page.specs.Words.{TellsWords};

use crate::given::{NO_SUCH_SIZE, size_of};
use crate::telling::{NO_MEMORY, Told, refused, tell};
use l4_decode::{Reading, decode};
use l4_fpage::PageSize;
use std::alloc::Global;

/// Returns the reading with this number. Any other number is a message.
fn reading_of(reading: u32) -> Reading
    ensures { result ≡ reading_of reading }
{
    match reading {
        1 => Reading::Each,
        2 => Reading::Fpage,
        3 => Reading::Window,
        4 => Reading::Id,
        5 => Reading::Control,
        _ => Reading::Message,
    }
}

/// Decodes words, and writes their meaning.
fn decoded(alloc: Global, words: &[u32], reading: u32, size: PageSize, out: &mut [u8]) -> Told
    ensures { TellsWords size (reading_of reading) words.now out.old out.new result }
{
    let mut text = Vec::new(alloc);
    match decode(words, reading_of(reading), size, &mut text) {
        Ok(()) => tell(text.as_slice(), true, 0, out),
        Err(_) => refused(NO_MEMORY),
    }
}

/// Writes what `l4 decode` writes for words. They are read as a message, or each alone as everything that it can be (1), as an fpage (2), as
/// a window (3), as a thread id (4) or as the control of an Unmap (5).
#[unsafe(no_mangle)]
pub extern "C" fn page_decode(
    alloc: Global,
    words: &[u32],
    reading: u32,
    page_bytes: u32,
    out: &mut [u8],
) -> Told
    ensures { InBytes page_bytes
        (λ size. TellsWords size (reading_of reading) words.now out.old out.new result)
        (TellsNothing (codes "B4") out.old out.new result) }
{
    match size_of(page_bytes) {
        Some(size) => decoded(alloc, words, reading, size, out),
        None => refused(NO_SUCH_SIZE),
    }
}
