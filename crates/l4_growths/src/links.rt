//! Lists of nodes.
ghost use Rattle.l4_spaces.specs.Tables.{IsPage};

use crate::stop;
use l4_ipc::{MOST_PAGES, Rights};
use l4_links::{Links, NoMemory, Place};
use std::io;

/// The spaces that are printed.
const SPACES: u64 = 2;

/// Prints the keys of all pages of a space, and what stands under each.
fn show_keys(rt: &impl Print, links: &Links, space: u64) -> io::Result<()> {
    let mut from = 0;
    for _ in 0..MOST_PAGES {
        let Some(page) = links.next_key(space, from) else {
            break;
        };
        let Some(key) = links.find(Place { space, page }) else {
            return Err(stop());
        };
        println!(rt; "page {space} {page} key {key} {:?}", links.at(key))?;
        from = page.saturating_add(1);
    }
    Ok(())
}

/// Prints what was done, the keys of all pages, and what stands under each.
fn show(rt: &impl Print, told: &str, links: &Links) -> io::Result<()> {
    println!(rt; "{told}")?;
    for space in 0..SPACES {
        show_keys(rt, links, space)?;
    }
    println!(rt; ".")
}

/// Adds a space.
fn add_space(rt: &impl Print, links: &mut Links, space: u64) -> io::Result<()> {
    if links.add_space(space).is_err() {
        show(rt, "refused add_space", links)?;
        if links.add_space(space).is_err() {
            return Err(stop());
        }
    }
    show(rt, "done add_space", links)
}

/// Lets a page of space 0 be the root of its frame.
fn root(links: &mut Links, page: u32) -> Result<(), NoMemory>
    requires { IsPage page }
{
    links.add_space(0)?;
    let place = Place { space: 0, page };
    let None = links.find(place) else {
        return Err(NoMemory);
    };
    let key = links.add_blank(place)?;
    links.stand_root(key, page, Rights::all());
    Ok(())
}

/// The same, for which there may be no memory.
fn add_root(rt: &impl Print, links: &mut Links, page: u32) -> io::Result<()>
    requires { IsPage page }
{
    if root(links, page).is_err() {
        show(rt, "refused add_blank", links)?;
        if root(links, page).is_err() {
            return Err(stop());
        }
    }
    show(rt, "done add_blank", links)
}

/// Adds spaces and roots, with a table of pages that is there and with others.
pub fn tell<R: AllocGlobal + Print>(rt: &R) -> io::Result<()> {
    let Ok(mut links) = Links::new(rt.alloc(), 0) else {
        return Err(stop());
    };
    show(rt, "done start", &links)?;
    add_space(rt, &mut links, 1)?;
    add_space(rt, &mut links, 0)?;
    for page in [5, 6, 7, 2000, 1_048_575] {
        add_root(rt, &mut links, page)?;
    }
    Ok(())
}
