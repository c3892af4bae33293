ghost use Rattle.std.specs.Prelude.{◌≡◌, ℕ, ◌+◌, ◌-◌, ◌*◌, ◌/◌, ◌%◌, ◌^◌, ◌<◌, ◌≤◌, ◌↔◌, IfSome};
ghost use Rattle.l4_fpage.specs.Pages.{IsBlock};
ghost use Rattle.l4_msg.specs.Moves.{ItemMoves, MovePairs, StaysIn, round_down};

use crate::items::{Item, Move};
use l4_fpage::{Block, Fpage, PageSize};

/// Returns the block of 2^log pages in the larger block at which a send base puts it; `page` is the send base's page.
fn place(larger: Block, log: u8, page: u32) -> Block
    requires { log ≤ larger.log }
    ensures first { result.first ≡ larger.first + round_down (page % 2 ^ larger.log) log }
    ensures log { result.log ≡ log }
    ensures within { result.first + 2 ^ log ≤ larger.first + 2 ^ larger.log }
{
    let offset = page % (1 << larger.log) >> log << log;
    Block {
        first: larger.first + offset,
        log,
    }
}

/// Returns the pages of this size that an item moves into a receive window, and where they land (L4 X.2 manual, IPC:
/// map item; the table is this profile's own). Returns `None` if it moves none, because the item's fpage or the
/// window covers no whole page. The window's rights are ignored.
#[inline(always)]
pub fn item_moves(item: &Item, window: &Fpage, size: PageSize) -> Option<Move>
    ensures pages { (source target : ℕ) → MovePairs result source target
        ↔ ItemMoves size item.now window.now source target }
    ensures inside { IfSome result (StaysIn size) }
{
    let from = item.fpage().pages(size)?;
    let into = window.pages(size)?;
    let page = size.page_of(item.base());
    if from.log <= into.log {
        return Some(Move {
            source: from,
            target: place(into, from.log, page),
        });
    }
    Some(Move {
        source: place(from, into.log, page),
        target: into,
    })
}
