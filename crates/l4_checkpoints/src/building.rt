//! Builds a kernel from words.
ghost use Rattle.std.specs.Prelude.{◌≤◌};
ghost use Rattle.l4_fpage.specs.Pages.{max_frames};

use crate::pages::{build_pages, read_pages};
use crate::threads::read_all;
use l4_fpage::PageSize;
use l4_ipc::Kernel;
use l4_journal::{Words, read_word};
use std::alloc::Global;

/// Why no kernel was built.
#[derive(Clone, Copy)]
pub(crate) enum Stop {
    /// An allocation failed.
    NoMemory,
    /// The words at the place where this number of words is left could not be used.
    Words(usize),
}

/// Returns how many words are left.
pub(crate) fn left_of(words: &Words<'_>) -> usize {
    words.as_slice().len()
}

/// Returns this number of words at the end of a list, or no word if the list has fewer.
pub(crate) fn words_with(words: &[u32], left: usize) -> Words<'_> {
    match words.get(words.len().saturating_sub(left)..) {
        Some(rest) => Words::of(rest),
        None => Words::of(&[]),
    }
}

/// Builds a kernel of these frames whose words should be these.
pub(crate) fn build(
    alloc: Global,
    frames: u32,
    size: PageSize,
    words: &[u32],
) -> Result<Kernel, Stop>
    requires some { 1 ≤ frames }
    requires few { frames ≤ max_frames }
{
    let Some((_, rest)) = read_word(Words::of(words)) else {
        return Err(Stop::Words(words.len()));
    };
    let start = left_of(&rest);
    let (described, left) = read_all(alloc, words, start)?;
    let threads = described.build(alloc, words, start)?;
    let pages = read_pages(alloc, words, left)?;
    if !pages.have_threads(&described) {
        return Err(Stop::Words(left));
    }
    let forest = build_pages(alloc, frames, &pages, words)?;
    let Some(mut kernel) = Kernel::of_parts(alloc, threads, forest, size) else {
        return Err(Stop::Words(start));
    };
    if !described.put_senders(words, &mut kernel) {
        return Err(Stop::Words(start));
    }
    Ok(kernel)
}
