//! Reads a script, with the options of `l4_steps`. Passes what `provenance` finds to `check_provenance`, for each page
//! that a space other than sigma0's has at the end, and for the page after each: tests/random/pages gives it random scripts.
//!
//! Exit statuses: 0 if everything is right, 1 if something is not; otherwise those of `l4 run`.
#![tactic(auto)]

ghost use Rattle.std.specs.Prelude.{◌≤◌};
ghost use Rattle.l4_fpage.specs.Pages.{max_frames};

use l4_fpage::PageSize;
use l4_ipc::{Kernel, MOST_PAGES, Place};
use l4_options::{StepOptions, misread, step_options};
use l4_programs::{command_words, opened, show, status_of, stopped};
use l4_provenance::{provenance, replay};
use l4_provenance_check::check_provenance;
use l4_record::History;
use l4_sinks::record_script;
use l4_text::RunFault;
use std::alloc::Global;
use std::process::ExitCode;
use std::rt::Files;

/// The exit status if a result of the finder is not confirmed.
const WRONG: u8 = 1;

/// A history, and the kernel at its end.
#[derive(Clone, Copy)]
struct Ended<'a> {
    frames: u32,
    size: PageSize,
    history: &'a History,
    kernel: &'a Kernel,
}

/// The number of checked pages, the number of links, and the number of pages for which the checker disagrees with the finder.
#[derive(Clone, Copy)]
struct Counts {
    pages: u64,
    links: u64,
    wrong: u64,
}

/// Returns the number of links that the finder returns for a page, if the checker agrees: they are the provenance of a present page, or no
/// list is that of an absent page. Otherwise returns None.
fn checked(alloc: Global, ended: &Ended<'_>, place: Place) -> Option<usize> {
    let is_there = ended.kernel.mapping(place.space, place.page).is_some();
    let found = provenance(alloc, ended.frames, ended.size, ended.history, place);
    let Ok(found) = found else {
        return None;
    };
    let links = match &found {
        Some(links) => links.as_slice(),
        None => &[],
    };
    let says = check_provenance(alloc, ended.frames, ended.size, ended.history, place, links);
    if says == Ok(is_there) && found.is_some() == is_there {
        Some(links.len())
    } else {
        None
    }
}

/// Judges a page.
fn check(alloc: Global, ended: &Ended<'_>, place: Place, counts: &mut Counts) {
    counts.pages = counts.pages.saturating_add(1);
    match checked(alloc, ended, place) {
        Some(links) => counts.links = counts.links.saturating_add(links as u64),
        None => counts.wrong = counts.wrong.saturating_add(1),
    }
}

/// Judges the pages of a space.
fn check_space(alloc: Global, ended: &Ended<'_>, space: u64, counts: &mut Counts) {
    let mut from = 0u32;
    for _turn in 0..MOST_PAGES {
        let Some(page) = ended.kernel.next_page(space, from) else {
            break;
        };
        check(alloc, ended, Place { space, page }, counts);
        from = page.saturating_add(1);
        if ended.kernel.mapping(space, from).is_none() {
            check(alloc, ended, Place { space, page: from }, counts);
        }
    }
}

/// Judges the pages of all spaces but sigma0's. A history makes no more spaces than it has entries.
fn check_all(alloc: Global, ended: &Ended<'_>) -> Counts {
    let mut counts = Counts {
        pages: 0,
        links: 0,
        wrong: 0,
    };
    for space in 1..(ended.history.len() as u64).saturating_add(2) {
        check_space(alloc, ended, space, &mut counts);
    }
    counts
}

/// Judges a script.
fn check_script<R: AllocGlobal + Files + Input + Print + Eprint>(
    rt: &R,
    frames: u32,
    size: PageSize,
    file: Option<&str>,
) -> u8
    requires some { 1 ≤ frames }
    requires fit { frames ≤ max_frames }
{
    let mut reader = match opened(rt, file) {
        Ok(reader) => reader,
        Err(status) => return status,
    };
    let Some((history, _)) = record_script(rt.alloc(), frames, size, false, &mut reader) else {
        return stopped(rt, RunFault::Memory, None, None);
    };
    let Ok(mut kernel) = Kernel::boot(rt.alloc(), frames, size) else {
        return stopped(rt, RunFault::Memory, None, None);
    };
    if replay(&mut kernel, &history).is_err() {
        return stopped(rt, RunFault::Memory, None, None);
    }
    let ended = Ended {
        frames,
        size,
        history: &history,
        kernel: &kernel,
    };
    let counts = check_all(rt.alloc(), &ended);
    let told = println!(rt;
        "{} pages, {} links, {} wrong",
        counts.pages, counts.links, counts.wrong
    );
    if let Err(error) = told {
        return stopped(rt, RunFault::Write, None, Some(error));
    }
    if counts.wrong == 0 { 0 } else { WRONG }
}

/// Executes the command that these words request.
fn obey<R: AllocGlobal + Files + Input + Print + Eprint>(rt: &R, words: &[String]) -> u8 {
    match step_options(rt.alloc(), words) {
        Ok(StepOptions::Run(list)) => {
            check_script(rt, list.frames, list.size, list.file.as_deref())
        }
        Ok(StepOptions::Show(text)) => show(rt, text.as_str()),
        Err(fault) => misread(rt, &fault),
    }
}

fn main(rt: HostRuntime) -> ExitCode {
    let words = command_words(&rt);
    ExitCode::from(status_of(words, |words| obey(&rt, words)))
}
