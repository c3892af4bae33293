//! The pages of an item, the places that they go to, and the runs of table entries that they consist of.

ghost use Rattle.std.specs.Prelude.{◌≡◌, ◌≤◌, ◌<◌, ◌+◌, ◌-◌, ◌^◌, ◌%◌};
ghost use Rattle.l4_fpage.specs.Pages.{most_pages};
ghost use Rattle.l4_spaces.specs.Tables.{IsPage, space_pages, table_pages};
ghost use Rattle.l4_links.specs.Entries.{pages_of, place_for};

use l4_fpage::{Block, Rights};
use l4_msg::ItemMove;
use l4_nodes::Place;
use l4_spaces::BLOCK;
use l4_spaces::tables::TABLE_PAGES;

/// Pages of a space, and what an item does with them.
#[derive(Clone, Copy)]
pub(crate) struct Pages {
    /// The first page.
    pub source: Place,
    /// The page after the last one.
    pub end: u32,
    /// The place to which the first page goes.
    pub target: Place,
    pub rights: Rights,
    /// Whether the pages themselves go to the places. If not, their children come there.
    pub grant: bool,
}

/// Entries of one table, and as many of another one.
#[derive(Clone, Copy)]
pub(crate) struct Run {
    /// The entry of the first page in the table that has the sources.
    pub from: usize,
    /// The entry of the first place in the other table.
    pub to: usize,
    pub entries: usize,
}

/// Returns the page after a block's last one.
pub fn end_of(block: Block) -> u32
    ensures is { result ≡ block.first + 2 ^ block.log }
    ensures small { result ≤ most_pages }
{
    block.first + (1 << block.log)
}

/// Returns the pages of the item, and what it does with them.
#[inline]
pub(crate) fn pages_of(from: u64, to: u64, by: &ItemMove) -> Pages
    ensures { result ≡ pages_of from to by.now }
{
    let source = Place {
        space: from,
        page: by.mv.source.first,
    };
    let target = Place {
        space: to,
        page: by.mv.target.first,
    };
    Pages {
        source,
        end: end_of(by.mv.source),
        target,
        rights: by.rights,
        grant: by.grant,
    }
}

/// Returns the place to which the page goes.
#[inline]
pub(crate) fn place_for(of: &Pages, page: u32) -> Place
    requires after { of.now.source.page ≤ page }
    requires fits { IsPage (page - of.now.source.page + of.now.target.page) }
    ensures { result ≡ place_for of.now page }
{
    Place {
        space: of.target.space,
        page: page - of.source.page + of.target.page,
    }
}

/// Returns the run that begins with the page. It ends with a block of entries, with a table, or with the pages.
#[inline]
pub(crate) fn run_at(of: &Pages, page: u32) -> Run
    requires from { of.now.source.page ≤ page }
    requires before { page < of.now.end }
    requires fits { of.now.end - of.now.source.page + of.now.target.page ≤ space_pages }
    ensures source { result.from ≡ page % table_pages }
    ensures target { result.to ≡ (page - of.now.source.page + of.now.target.page) % table_pages }
    ensures some { 1 ≤ result.entries }
    ensures before { page + result.entries ≤ of.now.end }
    ensures in_source { result.from + result.entries ≤ table_pages }
    ensures in_target { result.to + result.entries ≤ table_pages }
{
    let from = (page % TABLE_PAGES) as usize;
    let to = ((page - of.source.page + of.target.page) % TABLE_PAGES) as usize;
    let left = (of.end - page) as usize;
    let places = (TABLE_PAGES as usize - to).min(BLOCK - from % BLOCK);
    let entries = left.min(places);
    Run { from, to, entries }
}
