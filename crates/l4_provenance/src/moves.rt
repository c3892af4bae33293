//! The pages that a transfer moves, computed from the kernel before it.
ghost use Rattle.std.specs.Prelude.{◌≡◌, ℕ, ◌<◌, length, slice_get, Some, MatchOption};
ghost use Rattle.l4_fpage.specs.Pages.{InBlock};
ghost use Rattle.l4_msg.specs.Moves.{MovePairs};
ghost use Rattle.l4_provenance.specs.Moved.{NoneMovedFrom, IsNextMove};
ghost use Rattle.l4_provenance.specs.Inside.Moves.{MovesPage, KeepsPage, MovesNext, MovesNone, IsMoveOf};

use crate::writing::{Letter, letter_of};
use l4_fpage::Rights;
use l4_ipc::{Kernel, Step};
use l4_msg::{Move, item_moves};

/// A page that a transfer moves: the number of the item that names it, its page in the sender's space, the receiver's space and its page there,
/// and the rights that page and item share. The grants of the same transfer may cut these rights, and remove the page again.
#[derive(Clone, Copy)]
pub struct MovedPage {
    pub item: usize,
    pub source: u32,
    pub space: u64,
    pub target: u32,
    pub rights: Rights,
}

/// Returns how this item moves this page of the sender's, if the page is present and shares a right with the item.
fn moved_page(
    kernel: &Kernel,
    letter: &Letter<'_>,
    item: usize,
    pages: Move,
    page: u32,
) -> Option<MovedPage>
    requires item { item < length letter.now.items.now }
    requires pages { IsMoveOf kernel.now.size letter.now.items.now letter.now.window item pages }
    requires page { InBlock pages.source.first pages.source.log page }
    ensures { MatchOption result
        (KeepsPage kernel.now.size kernel.now.mappings letter.now.«from» letter.now.to
        letter.now.items.now letter.now.window item page)
        (MovesPage kernel.now.size kernel.now.mappings letter.now.«from» letter.now.to
        letter.now.items.now letter.now.window item page) }
{
    let Some(shows) = kernel.mapping(letter.from, page) else {
        return None;
    };
    let rights = shows
        .rights
        .intersection(letter.items[item].fpage().rights());
    if rights.is_empty() {
        return None;
    }
    Some(MovedPage {
        item,
        source: page,
        space: letter.to,
        target: pages.target.first + (page - pages.source.first),
        rights,
    })
}

/// Returns the first page, from this page on, that this item moves.
fn next_of_item(kernel: &Kernel, letter: &Letter<'_>, item: usize, from: u32) -> Option<MovedPage>
    requires { item < length letter.now.items.now }
    ensures { MatchOption result
        (MovesNone kernel.now.size kernel.now.mappings letter.now.«from» letter.now.to
        letter.now.items.now letter.now.window item from)
        (MovesNext kernel.now.size kernel.now.mappings letter.now.«from» letter.now.to
        letter.now.items.now letter.now.window item from) }
{
    let Some(pages) = item_moves(&letter.items[item], &letter.window, kernel.page_size()) else {
        return None;
    };
    let mut page = from.max(pages.source.first);
    loop {
        let Some(present) = kernel.next_page(letter.from, page) else {
            return None;
        };
        if !pages.source.contains(present) {
            return None;
        }
        if let Some(moved) = moved_page(kernel, letter, item, pages, present) {
            return Some(moved);
        }
        page = present + 1;
    }
}

/// Returns the next page that a transfer moves if it is delivered now: by this item and from this page on, or by a later item. Returns None
/// if there is none, or if the step is no transfer from a thread that sends to one that receives.
pub fn next_move(kernel: &Kernel, step: &Step, item: usize, page: u32) -> Option<MovedPage>
    ensures { MatchOption result (NoneMovedFrom kernel.now step.now item page)
        (IsNextMove kernel.now step.now item page) }
{
    let Some(letter) = letter_of(kernel, step) else {
        return None;
    };
    let mut from = page;
    for number in item..letter.items.len() {
        if let Some(moved) = next_of_item(kernel, &letter, number, from) {
            return Some(moved);
        }
        from = 0;
    }
    None
}
