//! Page tables.
ghost use Rattle.std.specs.Prelude.{All};
ghost use Rattle.l4_spaces.specs.Tables.{IsPage};

use crate::{end_memory, stop};
use l4_ipc::MOST_PAGES;
use l4_spaces::{NoMemory, Spaces};
use std::io;

/// The spaces that are printed.
const SPACES: u64 = 3;

/// Prints whether a space is there, and all its pages.
fn show_space(rt: &impl Print, spaces: &Spaces, space: u64) -> io::Result<()> {
    println!(rt; "space {space} {}", spaces.has(space))?;
    let mut from = 0;
    for _ in 0..MOST_PAGES {
        let Some(page) = spaces.next_present(space, from) else {
            break;
        };
        println!(rt; "page {page} key {:?}", spaces.get(space, page))?;
        from = page.saturating_add(1);
    }
    Ok(())
}

/// Prints what was done, and all pages of all spaces.
fn show(rt: &impl Print, told: &str, spaces: &Spaces) -> io::Result<()> {
    println!(rt; "{told}")?;
    for space in 0..SPACES {
        show_space(rt, spaces, space)?;
    }
    println!(rt; ".")
}

/// Adds a space.
fn add(rt: &impl Print, spaces: &mut Spaces, space: u64) -> io::Result<()> {
    if spaces.add(space).is_err() {
        show(rt, "refused add", spaces)?;
        if spaces.add(space).is_err() {
            return Err(stop());
        }
    }
    show(rt, "done add", spaces)
}

/// Makes room for these pages of a space, and sets them.
fn fill(spaces: &mut Spaces, space: u64, pages: &[u32]) -> Result<(), NoMemory>
    requires { All IsPage pages.now }
{
    if !spaces.has(space) {
        return Err(NoMemory);
    }
    spaces.prepare(space, pages)?;
    for page in pages {
        spaces.set(space, *page, 1);
    }
    Ok(())
}

/// Sets pages of a space, for which there may be no room.
fn set(rt: &impl Print, spaces: &mut Spaces, space: u64, pages: &[u32]) -> io::Result<()>
    requires { All IsPage pages.now }
{
    if fill(spaces, space, pages).is_err() {
        show(rt, "refused prepare", spaces)?;
        if fill(spaces, space, pages).is_err() {
            return Err(stop());
        }
    }
    show(rt, "done prepare", spaces)
}

/// Sets a page for which room was made before memory ended. Returns whether there was memory for it.
fn set_later<R: Input + Print>(rt: &R, spaces: &mut Spaces) -> io::Result<bool> {
    if !spaces.has(1) {
        return Err(stop());
    }
    if spaces.prepare(1, &[7000]).is_err() {
        show(rt, "refused set", spaces)?;
        return Ok(false);
    }
    end_memory(rt)?;
    spaces.set(1, 7000, 4);
    show(rt, "done set", spaces)?;
    Ok(true)
}

/// Clears a page, and removes a space.
fn take_away(rt: &impl Print, spaces: &mut Spaces) -> io::Result<()> {
    spaces.clear(1, 9);
    show(rt, "done clear", spaces)?;
    spaces.remove(2);
    show(rt, "done remove", spaces)
}

/// Adds spaces, and sets pages in tables that are there and in others.
pub fn tell<R: AllocGlobal + Input + Print>(rt: &R) -> io::Result<()> {
    let mut spaces = Spaces::new(rt.alloc());
    show(rt, "done start", &spaces)?;
    add(rt, &mut spaces, 1)?;
    set(rt, &mut spaces, 1, &[5])?;
    add(rt, &mut spaces, 2)?;
    set(rt, &mut spaces, 1, &[4100, 9, 1_048_575, 0])?;
    set(rt, &mut spaces, 2, &[2047, 2048])?;
    if !set_later(rt, &mut spaces)? && !set_later(rt, &mut spaces)? {
        return Err(stop());
    }
    take_away(rt, &mut spaces)
}
