//! The queries of a litmus test.
ghost use Rattle.std.specs.Prelude.{◌≡◌};
ghost use Rattle.l4_text.specs.declared.lines.Ending.TheVariants.{Whole};
ghost use Rattle.l4_commands.specs.Requests.{asked_at};
ghost use Rattle.l4_rules.specs.Queries.{query_in, query_of, is_reply_of};

use crate::forms::Query;
use l4_commands::{Request, command_name, is_comment, request};
use l4_fpage::PageSize;
use l4_names::Names;
use l4_pager::wait;

/// Returns the query that a request is, if it is one.
fn query_in(request: Request<'_>) -> Option<Query>
    ensures { result ≡ query_in request.entry }
{
    match request {
        Request::ListPages(_, _, _) => Some(Query::Pages),
        Request::TellParent(_, _) => Some(Query::Parent),
        Request::TellReply(thread) => Some(Query::Reply(thread)),
        _ => None,
    }
}

/// Returns the query in a line, if it has one.
pub fn query_of(size: PageSize, names: &Names, bytes: &[u8]) -> Option<Query>
    ensures { result ≡ query_of (asked_at size names.now Whole bytes.now) }
{
    if is_comment(bytes) {
        return None;
    }
    let Some((name, rest)) = command_name(bytes) else {
        return None;
    };
    let mut call = wait();
    match request(name, rest, size, names, &mut call) {
        Ok(request) => query_in(request),
        Err(_) => None,
    }
}

/// Returns whether a query asks for the reply of this thread.
pub fn is_reply_of(thread: u32, query: Query) -> bool
    ensures { result ≡ is_reply_of thread query }
{
    match query {
        Query::Pages => false,
        Query::Parent => false,
        Query::Reply(number) => number == thread,
    }
}
