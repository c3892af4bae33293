//! How pages got to where they are.
ghost use Rattle.std.specs.Prelude.{◌≡◌, ◌≤◌, codes};
ghost use Rattle.l4_page.specs.Given.{HasFrames, InMachine};
ghost use Rattle.l4_page.specs.Told.{TellsNothing};
ghost use Rattle.l4_page.specs.Scripts.{is_there, TellsWhyOf};

use crate::given::{PageGiven, machine_of};
use crate::telling::{NO_MEMORY, Told, refused, tell};
use l4_fpage::PageSize;
use l4_history::{Presence, Question, ThreadPage, WhyResult, why};
use std::alloc::Global;

/// Returns whether a page is present.
fn is_there(found: Presence) -> bool
    ensures { result ≡ is_there found }
{
    match found {
        Presence::Present => true,
        Presence::Absent => false,
        Presence::NoThread => false,
    }
}

/// Runs a script, and writes how a page got to where it is.
fn traced(
    alloc: Global,
    script: &[u8],
    frames: u32,
    size: PageSize,
    asked: ThreadPage,
    out: &mut [u8],
) -> Told
    requires { HasFrames frames }
    ensures { TellsWhyOf frames size asked script.now out.old out.new result }
{
    let mut rest = script;
    let mut text = Vec::new(alloc);
    let question = Question {
        page: asked,
        strict: false,
    };
    match why(alloc, frames, size, question, &mut rest, &mut text) {
        Ok(WhyResult::Told(found)) => tell(text.as_slice(), is_there(found), 0, out),
        Ok(WhyResult::Refused(_)) => unreachable!(),
        Err(_) => refused(NO_MEMORY),
    }
}

/// Writes what `l4 why` writes for a page of a thread's space after a script.
#[unsafe(no_mangle)]
pub extern "C" fn page_why(
    alloc: Global,
    script: &[u8],
    frames: u32,
    page_bytes: u32,
    asked: &PageGiven,
    out: &mut [u8],
) -> Told
    ensures { InMachine page_bytes frames
        (λ size. TellsWhyOf frames size
        (record { thread = asked.now.thread; page = asked.now.page }) script.now out.old out.new
        result) (λ code. TellsNothing code out.old out.new result) }
{
    match machine_of(page_bytes, frames) {
        Ok(size) => traced(
            alloc,
            script,
            frames,
            size,
            ThreadPage {
                thread: asked.thread,
                page: asked.page,
            },
            out,
        ),
        Err(refusal) => refused(refusal),
    }
}
