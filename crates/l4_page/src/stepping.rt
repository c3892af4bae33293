//! Lists of steps.
ghost use Rattle.l4_page.specs.Given.{InMachine};
ghost use Rattle.l4_page.specs.Told.{TellsNothing};
ghost use Rattle.l4_page.specs.Lists.{TellsList};

use crate::given::machine_of;
use crate::telling::{NO_MEMORY, Told, refused, tell};
use l4_fpage::PageSize;
use l4_step_lines::{Fault, run};
use std::alloc::Global;

/// Executes a list of steps and queries, and writes the answers.
fn stepped(alloc: Global, list: &[u8], frames: u32, size: PageSize, out: &mut [u8]) -> Told
    ensures { TellsList frames size list.now out.old out.new result }
{
    let mut rest = list;
    let mut text = Vec::new(alloc);
    match run(alloc, frames, size, &mut rest, &mut text) {
        Ok(()) => tell(text.as_slice(), true, 0, out),
        Err(Fault::Cut(line)) => tell(text.as_slice(), false, line, out),
        Err(Fault::Long(line)) => tell(text.as_slice(), false, line, out),
        Err(Fault::Unread(line, _)) => tell(text.as_slice(), false, line, out),
        Err(Fault::Stopped(_)) => refused(NO_MEMORY),
    }
}

/// Writes what `l4_steps` writes for a step list. A line that cannot be read ends the list, and `lines` is its number.
#[unsafe(no_mangle)]
pub extern "C" fn page_steps(
    alloc: Global,
    list: &[u8],
    frames: u32,
    page_bytes: u32,
    out: &mut [u8],
) -> Told
    ensures { InMachine page_bytes frames
        (λ size. TellsList frames size list.now out.old out.new result)
        (λ code. TellsNothing code out.old out.new result) }
{
    match machine_of(page_bytes, frames) {
        Ok(size) => stepped(alloc, list, frames, size, out),
        Err(refusal) => refused(refusal),
    }
}
