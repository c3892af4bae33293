//! `l4 why --from`: how a page got to its place in the history in files of segments.
ghost use Rattle.std.specs.Prelude.{◌≡◌};
ghost use Rattle.l4.specs.Statuses.{saved_why_status};

use crate::page_told;
use crate::segments::{found_in, history_stopped, joined};
use l4_history::{Presence, ThreadPage};
use l4_programs::WatchedWriter;
use l4_saved::{HistoryFault, segments_why};
use std::io;
use std::rt::Files;

/// Reports why a page is not present, or why the files have no history. Returns the exit status.
fn saved_why_ended(
    rt: &impl Eprint,
    told: Result<Presence, HistoryFault>,
    cause: Option<io::Error>,
) -> u8
    ensures { result ≡ saved_why_status told }
{
    match told {
        Ok(found) => page_told(rt, found),
        Err(fault) => history_stopped(rt, fault, cause),
    }
}

/// Prints how a page got to its place in the history in these files.
#[inline(never)]
pub(crate) fn why_in<R: AllocGlobal + Files + Input + Print + Eprint>(
    rt: &R,
    files: &[String],
    thread: u32,
    page: u32,
) -> u8 {
    let found = match found_in(rt, files) {
        Ok(found) => found,
        Err(status) => return status,
    };
    let joined = match joined(rt, files, &found) {
        Ok(joined) => joined,
        Err(status) => return status,
    };
    let mut writer = WatchedWriter::new(io::writer(rt));
    let told = segments_why(
        rt.alloc(),
        &joined,
        ThreadPage { thread, page },
        &mut writer,
    );
    saved_why_ended(rt, told, writer.error())
}
