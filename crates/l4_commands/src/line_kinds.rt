//! The thread that executes a line, and lines that no thread executes.
ghost use Rattle.std.specs.Prelude.{◌≡◌};
ghost use Rattle.l4_text.specs.Grammar.{is_comment};
ghost use Rattle.l4_text.specs.declared.lines.Ending.TheVariants.{Whole};
ghost use Rattle.l4_commands.specs.Requests.{asked_at, names_after};
ghost use Rattle.l4_commands.specs.LineKinds.{kind_of_request, kind_of, names_by};

use crate::commands::{command_name, request};
use crate::requests::{ROOT, Request};
use l4_fpage::PageSize;
use l4_names::Names;
use l4_pager::wait;
use l4_text::Ending;

/// The kind of a line.
#[derive(Clone, Copy, Debug, PartialEq, Eq)]
pub enum LineKind {
    /// An empty line or a comment.
    Silent,
    /// A line that cannot be read.
    Unread,
    /// A line that the thread with this number executes when it runs.
    OfThread(u32),
    /// A line that cancels the wait of the thread with this number. The environment executes it when the thread waits.
    Cancels(u32),
    /// A line of root that creates the thread with this number.
    Creates(u32),
    /// A line that gives a name to a thread.
    Names,
    /// A query whose answer depends on the state only, or a rule over the outcomes of a plan, which has no answer.
    Query,
    /// The query of the number of steps, whose answer depends on what was executed before.
    Steps,
    /// The line `unordered`.
    Unordered,
    /// The line `finally`.
    Finally,
}

/// Returns whether a line's first byte is `#`.
pub fn is_comment(line: &[u8]) -> bool
    ensures { result ≡ is_comment line.now }
{
    !line.is_empty() && line[0] == b'#'
}

/// Returns the kind of a line with this request. If it gives a name, gives the name.
fn follow(request: Request<'_>, names: &mut Names) -> LineKind
    ensures kind { result ≡ kind_of_request request.entry }
    ensures names { names.new ≡ names_after names.old request.entry }
{
    match request {
        Request::Enter(thread, _) => LineKind::OfThread(thread),
        Request::CreateThread(number, _) => LineKind::Creates(number),
        Request::EndThread(_) => LineKind::OfThread(ROOT),
        Request::SendPlan(thread, _, _, _) => LineKind::OfThread(thread),
        Request::ListPages(_, _, _) => LineKind::Query,
        Request::TellParent(_, _) => LineKind::Query,
        Request::AddRegion(thread, _) => LineKind::OfThread(thread),
        Request::ServeThread(thread) => LineKind::OfThread(thread),
        Request::GiveName(name, number) => {
            let _ = names.give(name, number);
            LineKind::Names
        }
        Request::TellReply(_) => LineKind::Query,
        Request::CancelWait(thread, _) => LineKind::Cancels(thread),
        Request::TellSteps => LineKind::Steps,
        Request::BeginUnordered => LineKind::Unordered,
        Request::BeginFinally => LineKind::Finally,
        Request::StateRule => LineKind::Query,
    }
}

/// Returns the kind of a line that ends with a newline and is not too long. If it gives a name, gives the name.
fn whole_kind(size: PageSize, names: &mut Names, bytes: &[u8]) -> LineKind
    ensures kind { result ≡ kind_of (asked_at size names.old Whole bytes.now) }
    ensures names { names.new ≡ names_by names.old (asked_at size names.old Whole bytes.now) }
{
    if is_comment(bytes) {
        return LineKind::Silent;
    }
    let Some((name, rest)) = command_name(bytes) else {
        return LineKind::Silent;
    };
    let mut call = wait();
    match request(name, rest, size, names, &mut call) {
        Ok(request) => follow(request, names),
        Err(_) => LineKind::Unread,
    }
}

/// Returns the kind of a line with this ending, where pages have this size and threads these names. If it gives a name, gives the name.
pub fn read_kind(size: PageSize, names: &mut Names, ending: Ending, bytes: &[u8]) -> LineKind
    ensures kind { result ≡ kind_of (asked_at size names.old ending bytes.now) }
    ensures names { names.new ≡ names_by names.old (asked_at size names.old ending bytes.now) }
{
    match ending {
        Ending::Whole => whole_kind(size, names, bytes),
        Ending::Long => LineKind::Unread,
        Ending::Cut => LineKind::Unread,
    }
}
