//! Why there is no search.
ghost use Rattle.std.specs.Prelude.{◌≡◌};
ghost use Rattle.l4_outcomes.specs.Faults.{search_result, line_thread, fault_result, failure_result};

use l4_merges::Failure;
use l4_orders::{LineFault, PlanFault, line_code};
use l4_refusals::number_of;

/// The result of a search: 0 if there is one, or a refusal. `line` is the number of the line of the test that is refused, and `detail` the
/// thread that no line creates (O5).
#[repr(C)]
#[derive(Clone, Copy)]
pub struct SearchResult {
    pub refusal: u32,
    pub detail: u32,
    pub line: u64,
}

/// Returns the result with this refusal, or with 0, that names no line.
pub fn without_line(refusal: u32) -> SearchResult
    ensures { result ≡ search_result refusal 0 0 }
{
    SearchResult {
        refusal,
        detail: 0,
        line: 0,
    }
}

/// Returns the thread that the refusal of a line names, or 0.
fn line_thread(fault: LineFault) -> u32
    ensures { result ≡ line_thread fault }
{
    match fault {
        LineFault::NoThread(thread) => thread,
        _ => 0,
    }
}

/// Returns the result for a text that is not a litmus test.
pub(crate) fn fault_told(fault: PlanFault) -> SearchResult
    ensures { result ≡ fault_result fault }
{
    match fault {
        PlanFault::Stopped(_) => without_line(number_of(b"NoMemory")),
        PlanFault::Malformed(line, fault) => SearchResult {
            refusal: number_of(line_code(fault)),
            detail: line_thread(fault),
            line,
        },
        PlanFault::NoUnordered => without_line(number_of(b"O6")),
    }
}

/// Returns the result for a litmus test whose orders cannot be executed.
pub(crate) fn failure_told(failure: Failure) -> SearchResult
    ensures { result ≡ failure_result failure }
{
    match failure {
        Failure::Memory => without_line(number_of(b"NoMemory")),
        Failure::Full => without_line(number_of(b"L1")),
    }
}
