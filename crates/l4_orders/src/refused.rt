//! Lines that no part of a litmus test can have.
ghost use Rattle.std.specs.Prelude.{◌≡◌};
ghost use Rattle.l4_text.specs.declared.lines.Ending.TheVariants.{Whole};
ghost use Rattle.l4_commands.specs.Requests.{asked_at};
ghost use Rattle.l4_orders.specs.Reading.{fault_in, asked_fault, early_fault};

use crate::parts::LineFault;
use l4_commands::{Request, ScriptFault, command_name, is_comment, request};
use l4_expectations::is_marked;
use l4_fpage::PageSize;
use l4_names::Names;
use l4_pager::wait;

/// Returns S5 if a request gives a name and there are too many.
fn fault_in(request: Request<'_>, names: &Names) -> Option<LineFault>
    ensures { result ≡ fault_in names.now request.entry }
{
    match request {
        Request::GiveName(name, number) => {
            if names.copy().give(name, number) {
                None
            } else {
                Some(LineFault::NamesFull)
            }
        }
        _ => None,
    }
}

/// Returns S1, S2 or S5 if a line cannot be read, or gives a name and there are too many.
fn asked_fault(size: PageSize, names: &Names, bytes: &[u8]) -> Option<LineFault>
    ensures { result ≡ asked_fault names.now (asked_at size names.now Whole bytes.now) }
{
    if is_comment(bytes) {
        return None;
    }
    let Some((name, rest)) = command_name(bytes) else {
        return None;
    };
    let mut call = wait();
    match request(name, rest, size, names, &mut call) {
        Ok(request) => fault_in(request, names),
        Err(ScriptFault::UnknownCommand) => Some(LineFault::Unknown),
        Err(_) => Some(LineFault::Unread),
    }
}

/// Returns why a line can be part of no litmus test, whatever lines are around it: O8, S1, S2 or S5.
pub(crate) fn early_fault(size: PageSize, names: &Names, bytes: &[u8]) -> Option<LineFault>
    ensures { result ≡ early_fault size names.now bytes.now }
{
    if is_marked(bytes) {
        return Some(LineFault::Expectation);
    }
    asked_fault(size, names, bytes)
}
