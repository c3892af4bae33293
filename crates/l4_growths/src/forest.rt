//! Mappings.
ghost use Rattle.std.specs.Prelude.{◌≡◌, OnOk, IsTrue};
ghost use Rattle.std.specs.FinSet as set;
ghost use Rattle.l4_mapdb.specs.Mappings.{Mappings};
ghost use Rattle.l4_forest.specs.Boot.{IsFirst};

use crate::{end_memory, stop};
use l4_forest::{Cause, Forest, ItemMove, Place};
use l4_ipc::{Block, MOST_PAGES, PageSize, Rights};
use l4_msg::Move;
use l4_unmap::unmap;
use std::io;

/// The spaces that are printed.
const SPACES: u64 = 4;

const FRAMES: u32 = 8;

/// Prints all pages of a space.
fn show_pages(rt: &impl Print, forest: &Forest, space: u64) -> io::Result<()> {
    let mut from = 0;
    for _ in 0..MOST_PAGES {
        let Some(page) = forest.next_present(space, from) else {
            break;
        };
        println!(rt; "page {space} {page} {:?}", forest.at(space, page))?;
        from = page.saturating_add(1);
    }
    Ok(())
}

/// Prints what was done, all pages of all spaces, and where each frame is shown first.
fn show(rt: &impl Print, told: &str, forest: &Forest) -> io::Result<()> {
    println!(rt; "{told}")?;
    for space in 0..SPACES {
        show_pages(rt, forest, space)?;
    }
    for frame in 0..FRAMES {
        println!(rt; "root {frame} {:?}", forest.root(frame))?;
    }
    println!(rt; ".")
}

/// Returns an item that moves blocks of this size.
fn item(source: u32, target: u32, log: u8, grant: bool) -> ItemMove {
    let (Some(source), Some(target)) = (Block::new(source, log), Block::new(target, log)) else {
        return ItemMove::default();
    };
    ItemMove {
        mv: Move { source, target },
        rights: Rights::of_bits(5),
        grant,
    }
}

/// Begins a space.
fn begin(rt: &impl Print, forest: &mut Forest, space: u64) -> io::Result<()>
    ensures { OnOk result (forest.new.spaces ≡ set.insert forest.old.spaces space) }
{
    if forest.new_space(space).is_err() {
        show(rt, "refused new_space", forest)?;
        if forest.new_space(space).is_err() {
            return Err(stop());
        }
    }
    show(rt, "done new_space", forest)
}

/// Moves pages from one space to another.
fn map(
    rt: &impl Print,
    forest: &mut Forest,
    from: u64,
    to: u64,
    moves: &[ItemMove],
) -> io::Result<()>
    requires from_there { IsTrue (set.contains forest.old.spaces from) }
    requires to_there { IsTrue (set.contains forest.old.spaces to) }
    ensures { OnOk result (forest.new.spaces ≡ forest.old.spaces) }
{
    if let Err(cause) = forest.map_all(from, to, moves) {
        if cause == Cause::Entangled {
            return Err(stop());
        }
        show(rt, "refused map_all", forest)?;
        if forest.map_all(from, to, moves).is_err() {
            return Err(stop());
        }
    }
    show(rt, "done map_all", forest)
}

/// The word of page 1,020 of a space with the right to read.
const READS_1020: u32 = 0x3f_c0c4;

/// Takes pages back: from those that descend from a page, by an Unmap, and with a space.
fn take_back<R: Input + Print>(rt: &R, forest: &mut Forest) -> io::Result<()> {
    end_memory(rt)?;
    let page = Place { space: 0, page: 4 };
    forest.revoke(page, Rights::of_bits(1), false);
    show(rt, "done revoke", forest)?;
    if unmap(forest, 2, PageSize::Kib4, 0x40, &[READS_1020]).is_err() {
        return Err(stop());
    }
    show(rt, "done unmap", forest)?;
    forest.end_space(3);
    show(rt, "done end_space", forest)
}

/// Maps pages into tables that are there and into others, grants one of them, and takes them back. Memory for four spaces is taken at once,
/// so the fifth is the one that is refused.
fn tell_pages<R: Input + Print>(rt: &R, forest: &mut Forest) -> io::Result<()>
    requires { IsFirst 8 forest.old }
{
    show(rt, "done new_forest", forest)?;
    begin(rt, forest, 1)?;
    begin(rt, forest, 2)?;
    begin(rt, forest, 3)?;
    let two = [item(4, 6, 1, false)];
    map(rt, forest, 0, 2, &two)?;
    let eight = [item(0, 1020, 2, false), item(0, 2048, 2, false)];
    map(rt, forest, 0, 2, &eight)?;
    let on = [item(6, 9, 0, false)];
    map(rt, forest, 2, 3, &on)?;
    let granted = [item(6, 70, 0, true)];
    map(rt, forest, 2, 3, &granted)?;
    begin(rt, forest, 4)?;
    take_back(rt, forest)
}

/// Makes a forest and does that. Returns whether there was memory for it.
fn tell_once<R: AllocGlobal + Input + Print>(rt: &R) -> io::Result<bool> {
    let Ok(mut forest) = Forest::new(rt.alloc(), FRAMES) else {
        println!(rt; "refused new_forest\n.")?;
        return Ok(false);
    };
    tell_pages(rt, &mut forest)?;
    Ok(true)
}

pub fn tell<R: AllocGlobal + Input + Print>(rt: &R) -> io::Result<()> {
    if tell_once(rt)? || tell_once(rt)? {
        return Ok(());
    }
    Err(stop())
}
