//! Builds mappings from words.
ghost use Rattle.std.specs.Prelude.{◌≡◌, ◌≤◌, OnOk};
ghost use Rattle.std.specs.FinSet as set;
ghost use Rattle.l4_fpage.specs.Pages.{max_frames};

use crate::building::{Stop, left_of, words_with};
use crate::states::read_wide;
use crate::threads::AllDescribed;
use l4_forest::{Cause, Forest, ItemMove, Mapping, Place};
use l4_fpage::{Block, Rights};
use l4_journal::{Words, read_word};
use l4_msg::Move;
use std::alloc::Global;

/// The space that the pages of all frames are moved to before they are placed. No machine has a space of this number.
const STORE: u64 = u64::MAX;

/// The logarithm of the greatest number of frames.
const FRAMES_LOG: u8 = 12;

/// A page that words describe.
#[derive(Clone, Copy)]
struct PageAt {
    place: Place,
    /// How many words are left at its mapping.
    mapping: usize,
}

/// The spaces that words describe, and their pages.
#[derive(Drop)]
pub(crate) struct AllPages {
    spaces: Vec<u64>,
    pages: Vec<PageAt>,
}

/// Reads the parent of a page, if it has one.
fn read_parent(words: Words<'_>) -> Option<(Option<Place>, Words<'_>)> {
    let (some, rest) = read_word(words)?;
    match some {
        0 => Some((None, rest)),
        1 => {
            let (page, rest) = read_word(rest)?;
            let (space, rest) = read_wide(rest)?;
            Some((Some(Place { space, page }), rest))
        }
        _ => None,
    }
}

/// Reads the mapping of a page.
fn read_mapping(words: Words<'_>) -> Option<(Mapping, Words<'_>)> {
    let (frame, rest) = read_word(words)?;
    let (bits, rest) = read_word(rest)?;
    let (parent, rest) = read_parent(rest)?;
    let rights = Rights::of_bits((bits & 7) as u8);
    let mapping = Mapping {
        frame,
        rights,
        parent,
    };
    Some((mapping, rest))
}

/// Reads a page. Returns its number, how many words are left at its mapping, and the words after it.
fn read_page(words: Words<'_>) -> Option<(u32, usize, Words<'_>)> {
    let (page, rest) = read_word(words)?;
    let mapping = left_of(&rest);
    let (_, rest) = read_mapping(rest)?;
    Some((page, mapping, rest))
}

/// Reads the pages of a space. Returns how many words are left after them.
fn read_space(
    words: &[u32],
    start: usize,
    space: u64,
    pages: &mut Vec<PageAt>,
) -> Result<usize, Stop> {
    let mut left = start;
    for _turn in 0..words.len() {
        let Some((more, rest)) = read_word(words_with(words, left)) else {
            return Err(Stop::Words(left));
        };
        if more == 0 {
            return Ok(left_of(&rest));
        }
        let Some((page, mapping, rest)) = read_page(rest) else {
            return Err(Stop::Words(left));
        };
        let place = Place { space, page };
        if pages.push(PageAt { place, mapping }).is_err() {
            return Err(Stop::NoMemory);
        }
        left = left_of(&rest);
    }
    Err(Stop::Words(left))
}

/// Reads all spaces and their pages.
pub(crate) fn read_pages(alloc: Global, words: &[u32], start: usize) -> Result<AllPages, Stop> {
    let mut all = AllPages {
        spaces: Vec::new(alloc),
        pages: Vec::new(alloc),
    };
    let mut left = start;
    for _turn in 0..words.len() {
        let Some((more, rest)) = read_word(words_with(words, left)) else {
            return Err(Stop::Words(left));
        };
        if more == 0 {
            return Ok(all);
        }
        let Some((space, rest)) = read_wide(rest) else {
            return Err(Stop::Words(left));
        };
        if all.spaces.push(space).is_err() {
            return Err(Stop::NoMemory);
        }
        left = read_space(words, left_of(&rest), space, &mut all.pages)?;
    }
    Err(Stop::Words(left))
}

impl AllPages {
    /// Returns whether a thread is in each space.
    pub(crate) fn have_threads(&self, threads: &AllDescribed) -> bool {
        for space in self.spaces.as_slice() {
            if !threads.has_space(*space) {
                return false;
            }
        }
        true
    }

    /// Returns the index of a page, if the pages are listed in rising order.
    fn find(&self, place: Place) -> Option<usize> {
        let pages = self.pages.as_slice();
        let mut low = 0;
        let mut high = pages.len();
        for _turn in 0..64 {
            if low >= high {
                break;
            }
            let middle = low + (high - low) / 2;
            let Some(page) = pages.get(middle) else {
                break;
            };
            let other = page.place;
            if other == place {
                return Some(middle);
            }
            if is_before(other, place) {
                low = middle + 1;
            } else {
                high = middle;
            }
        }
        None
    }

    /// Returns the index of a page's parent, unless that is present, or there is none.
    fn absent_parent(&self, words: &[u32], forest: &Forest, at: usize) -> Option<usize> {
        let page = self.pages.get(at)?;
        let (mapping, _) = read_mapping(words_with(words, page.mapping))?;
        let parent = mapping.parent?;
        if forest.at(parent.space, parent.page).is_some() {
            return None;
        }
        self.find(parent)
    }

    /// Overwrites the list with a page and the absent pages above it, the lowest one first.
    fn climb(
        &self,
        words: &[u32],
        forest: &Forest,
        start: usize,
        chain: &mut Vec<usize>,
    ) -> Result<(), Stop> {
        chain.clear();
        let mut at = start;
        for _turn in 0..self.pages.len() {
            if chain.push(at).is_err() {
                return Err(Stop::NoMemory);
            }
            let Some(above) = self.absent_parent(words, forest, at) else {
                return Ok(());
            };
            at = above;
        }
        Ok(())
    }

    /// Maps a page. Its parent is present.
    fn put(&self, words: &[u32], forest: &mut Forest, at: usize) -> Result<(), Stop> {
        let Some(page) = self.pages.get(at) else {
            return Err(Stop::Words(0));
        };
        let Some((mapping, _)) = read_mapping(words_with(words, page.mapping)) else {
            return Err(Stop::Words(page.mapping));
        };
        let (from, grant) = match mapping.parent {
            Some(parent) => (parent, false),
            None => (
                Place {
                    space: STORE,
                    page: mapping.frame,
                },
                true,
            ),
        };
        match move_page(forest, from, page.place, mapping.rights, grant) {
            Ok(true) => Ok(()),
            Ok(false) => Err(Stop::Words(page.mapping)),
            Err(Cause::Entangled) => Err(Stop::Words(page.mapping)),
            Err(Cause::NoMemory) => Err(Stop::NoMemory),
        }
    }

    /// Maps the pages of a list, the last one first.
    fn put_all(&self, words: &[u32], forest: &mut Forest, chain: &[usize]) -> Result<(), Stop> {
        for i in 0..chain.len() {
            self.put(words, forest, chain[chain.len() - 1 - i])?;
        }
        Ok(())
    }

    /// Maps each page, after the pages above it.
    fn build(&self, alloc: Global, words: &[u32], forest: &mut Forest) -> Result<(), Stop> {
        let mut chain = Vec::new(alloc);
        for at in 0..self.pages.len() {
            let Some(page) = self.pages.get(at) else {
                break;
            };
            let place = page.place;
            if forest.at(place.space, place.page).is_some() {
                continue;
            }
            self.climb(words, forest, at, &mut chain)?;
            self.put_all(words, forest, chain.as_slice())?;
        }
        Ok(())
    }
}

/// Returns whether one place comes before another in the list of pages.
fn is_before(place: Place, other: Place) -> bool {
    place.space < other.space || (place.space == other.space && place.page < other.page)
}

/// Adds a space, unless it exists.
fn add_space(forest: &mut Forest, space: u64) -> Result<(), Cause>
    ensures { OnOk result
        (forest.new ≡ record forest.old { spaces = set.insert forest.old.spaces space }) }
{
    match forest.new_space(space) {
        Ok(()) => Ok(()),
        Err(_) => Err(Cause::NoMemory),
    }
}

/// Moves the pages of a block to another space, where none of them is present.
fn move_block(forest: &mut Forest, from: u64, to: u64, item: ItemMove) -> Result<(), Cause> {
    add_space(forest, from)?;
    add_space(forest, to)?;
    forest.map_all(from, to, &[item])
}

/// Maps or grants one page. Returns whether it is present then.
fn move_page(
    forest: &mut Forest,
    from: Place,
    to: Place,
    rights: Rights,
    grant: bool,
) -> Result<bool, Cause> {
    let (Some(source), Some(target)) = (Block::new(from.page, 0), Block::new(to.page, 0)) else {
        return Ok(false);
    };
    let mv = Move { source, target };
    let item = ItemMove { mv, rights, grant };
    move_block(forest, from.space, to.space, item)?;
    Ok(forest.at(to.space, to.page).is_some())
}

/// Moves the pages of all frames from space 0 to the store.
fn store_frames(forest: &mut Forest) -> Result<(), Cause> {
    let all = Block {
        first: 0,
        log: FRAMES_LOG,
    };
    let mv = Move {
        source: all,
        target: all,
    };
    let item = ItemMove {
        mv,
        rights: Rights::all(),
        grant: true,
    };
    move_block(forest, 0, STORE, item)
}

/// Adds the spaces of a list.
fn add_spaces(forest: &mut Forest, spaces: &[u64]) -> Result<(), Stop> {
    for space in spaces {
        if add_space(forest, *space).is_err() {
            return Err(Stop::NoMemory);
        }
    }
    Ok(())
}

/// Builds the mappings that words describe, from the pages of these frames.
pub(crate) fn build_pages(
    alloc: Global,
    frames: u32,
    pages: &AllPages,
    words: &[u32],
) -> Result<Forest, Stop>
    requires some { 1 ≤ frames }
    requires few { frames ≤ max_frames }
{
    let Ok(mut forest) = Forest::new(alloc, frames) else {
        return Err(Stop::NoMemory);
    };
    if store_frames(&mut forest).is_err() {
        return Err(Stop::NoMemory);
    }
    add_spaces(&mut forest, pages.spaces.as_slice())?;
    pages.build(alloc, words, &mut forest)?;
    forest.end_space(STORE);
    Ok(forest)
}
