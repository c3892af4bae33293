//! Reads a script, and writes how a page got to its place.
ghost use Rattle.std.specs.Prelude.{◌≡◌, ◌≤◌, IfSome};
ghost use Rattle.l4_fpage.specs.Pages.{max_frames};
ghost use Rattle.l4_text.specs.Streams.{Tells};
ghost use Rattle.l4_history.specs.Inside.Finding.{IsAnswer, IsLookedBack, presence, answer_text};
ghost use Rattle.l4_history.specs.Telling.{unknown_text, TellsPage, TellsWhy};

use crate::absences::put_absent;
use crate::lines::put_chain;
use l4_ipc::{Kernel, Mapping, PageSize, Place};
use l4_provenance::{ChainLink, Removal, Replayable, last_removal, provenance, replay};
use l4_reasons::Reason;
use l4_sinks::record_script;
use l4_text::{Output, RunFault, Text};
use std::alloc::Global;
use std::io::{Read, Write};

/// A page of the space of a thread.
#[derive(Clone, Copy)]
pub struct ThreadPage {
    /// The thread's number.
    pub thread: u32,
    /// The number of the page.
    pub page: u32,
}

/// What is asked of a script: how this page got into the space of its thread. If `strict`, the script must have no refused line.
#[derive(Clone, Copy)]
pub struct Question {
    pub page: ThreadPage,
    pub strict: bool,
}

/// What was written for a script.
#[derive(Drop)]
pub enum WhyResult {
    /// How the page got there, or that it is not present.
    Told(Presence),
    /// Nothing: a refused line ended a strict script, for this reason.
    Refused(Reason),
}

/// Whether a page is present at the end of a script.
#[derive(Clone, Copy, PartialEq, Eq, Debug)]
pub enum Presence {
    /// The thread's space has the page.
    Present,
    /// The thread's space does not have the page.
    Absent,
    /// K2: there is no such thread.
    NoThread,
}

/// `refused K2`
fn unknown_text() -> Text
    ensures { result ≡ unknown_text }
{
    let mut text = Text::new();
    text.add(b"refused K2");
    text.push(b'\n');
    text
}

/// The answer about a page of a thread's space.
#[derive(Drop)]
pub(crate) enum Answer {
    /// There is no such thread at the end.
    Unknown,
    /// The page is not present at the end. The step of the entry with this number removed it, if there is one; else it was never present.
    Absent(Option<usize>),
    /// These links brought the page to its place, where it has this mapping.
    Chain(Place, Vec<ChainLink>, Mapping),
}

/// Returns the answer about a page that is not present, by a history that is executed again. Returns None if there is no memory for it.
fn look_back<H: Replayable>(
    alloc: Global,
    frames: u32,
    size: PageSize,
    history: &H,
    place: Place,
) -> Option<Answer>
    ensures { IfSome result (IsLookedBack frames size (H.entries history.now) place) }
{
    match last_removal(alloc, frames, size, history, place) {
        Ok(Removal::Never) => Some(Answer::Absent(None)),
        Ok(Removal::By(number)) => Some(Answer::Absent(Some(number))),
        Ok(Removal::Present) | Err(_) => None,
    }
}

/// Executes the history again, and returns the answer about a page. Returns None if there is no memory for it.
fn look<H: Replayable>(
    alloc: Global,
    frames: u32,
    size: PageSize,
    history: &H,
    asked: ThreadPage,
) -> Option<Answer>
    requires some { 1 ≤ frames }
    requires fit { frames ≤ max_frames }
    ensures { IfSome result (IsAnswer frames size (H.entries history.now) asked) }
{
    let Ok(mut kernel) = Kernel::boot(alloc, frames, size) else {
        return None;
    };
    if let Err(_) = replay(&mut kernel, history) {
        return None;
    }
    let Some(thread) = kernel.thread(asked.thread) else {
        return Some(Answer::Unknown);
    };
    let place = Place {
        space: thread.space,
        page: asked.page,
    };
    let Some(shows) = kernel.mapping(place.space, place.page) else {
        return look_back(alloc, frames, size, history, place);
    };
    match provenance(alloc, frames, size, history, place) {
        Ok(Some(links)) => Some(Answer::Chain(place, links, shows)),
        Ok(None) => look_back(alloc, frames, size, history, place),
        Err(_) => None,
    }
}

/// Writes the answer, and returns whether the page is present.
fn put_answer<H: Replayable, W: Write>(
    history: &H,
    answer: &Answer,
    out: &mut Output,
    writer: &mut W,
) -> Presence
    ensures found { result ≡ presence answer.now }
    ensures told { Tells (W.contents writer.old) (W.contents writer.new) out.old out.new
        (answer_text (H.entries history.now) answer.now) }
{
    match answer {
        Answer::Unknown => {
            out.put(writer, &unknown_text());
            Presence::NoThread
        }
        Answer::Absent(removed) => {
            put_absent(history, *removed, out, writer);
            Presence::Absent
        }
        Answer::Chain(place, links, shows) => {
            put_chain(history, links.as_slice(), *place, shows, out, writer);
            Presence::Present
        }
    }
}

/// Executes a history again, and writes how a page of a thread's space got there: sigma0's page, the transfers of the chain, and the page at
/// the end. Returns whether the page is present. If it is not, or if there is no such thread, that is what it writes, with the step that removed
/// the page if it was present before.
///
/// The caller must pass 1 to 4,096 frames.
///
/// Returns `Write` if a write failed; a prefix of the text was then written, or nothing. Returns `Memory` if there was no memory for a
/// kernel, for replaying the history or for the chain, or if a step of the replay got another answer than in the history, because memory ran
/// out in one of the two; nothing was written.
pub fn why_page<H: Replayable, W: Write>(
    alloc: Global,
    frames: u32,
    size: PageSize,
    history: &H,
    asked: ThreadPage,
    writer: &mut W,
) -> Result<Presence, RunFault>
    requires some { 1 ≤ frames }
    requires fit { frames ≤ max_frames }
    ensures { TellsPage frames size (H.entries history.now) asked
        (W.contents writer.old) (W.contents writer.new) result }
{
    let Some(answer) = look(alloc, frames, size, history, asked) else {
        return Err(RunFault::Memory);
    };
    let mut out = Output::new();
    let found = put_answer(history, &answer, &mut out, writer);
    match out.finish(writer) {
        Ok(()) => Ok(found),
        Err(_) => Err(RunFault::Write),
    }
}

/// Executes the script of the reader as `run` of `l4_shell` does. Instead of its answers, writes how a page of a thread's space got there, as
/// `why_page` does. A strict script ends at its first refused line; then nothing is written, and the reason is returned.
///
/// The caller must pass 1 to 4,096 frames.
///
/// Returns the faults of `run`. `Read`: a read failed, and nothing was written. `Write`: a write failed, and a prefix of the text was
/// written, or nothing. `Memory`: there was no memory for a kernel, for replaying the history or for the chain, or a transfer of the script
/// ran out of memory and did not when it was replayed; nothing was written.
pub fn why<R: Read, W: Write>(
    alloc: Global,
    frames: u32,
    size: PageSize,
    question: Question,
    reader: &mut R,
    writer: &mut W,
) -> Result<WhyResult, RunFault>
    requires some { 1 ≤ frames }
    requires fit { frames ≤ max_frames }
    ensures { TellsWhy frames size question (R.remaining reader.old) (R.remaining reader.new)
        (W.contents writer.old) (W.contents writer.new) result }
{
    let Some((history, read)) = record_script(alloc, frames, size, question.strict, reader) else {
        return Err(RunFault::Memory);
    };
    let refused = match read {
        Ok(ended) => ended.refused,
        Err(fault) => return Err(fault),
    };
    if let Some(reason) = refused {
        return Ok(WhyResult::Refused(reason));
    }
    match why_page(alloc, frames, size, &history, question.page, writer) {
        Ok(found) => Ok(WhyResult::Told(found)),
        Err(fault) => Err(fault),
    }
}
