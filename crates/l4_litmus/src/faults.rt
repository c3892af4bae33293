//! Why a file is not searched as a litmus test.
ghost use Rattle.std.specs.Prelude.{◌≡◌};
ghost use Rattle.l4_litmus.specs.Statuses.{failure_status, fault_status, refusal_fault};

use l4_merges::Failure;
use l4_orders::{LineFault, PlanFault, line_code};
use l4_programs::{NOT_UNDERSTOOD, stopped};
use l4_reasons::Reason;
use l4_refusals::{number_of, text_of};
use l4_sinks::LineRefusal;
use l4_text::RunFault;
use std::fmt::{Display, Formatter};
use std::{fmt, str};

/// The exit status if the script of an order, or the beginning of one, fills the history.
const FULL: u8 = 1;

/// Why a file is not searched as a litmus test.
#[derive(Debug, Drop)]
pub enum TestFault {
    /// A line before `unordered` is refused, or a line cannot be read, for this reason.
    Refused(Reason),
    /// No outcome can have the line that a rule names: the token that is wrong, and what is expected.
    Impossible(Reason),
    /// The line of this number cannot be part of a litmus test.
    Malformed(u64, LineFault),
    /// O6: there is no line `unordered`.
    NoUnordered,
    /// There was not enough memory.
    Stopped(RunFault),
}

/// Returns what a code means of a line of a litmus test.
fn words_of(code: &[u8]) -> &'static str {
    str::from_utf8(text_of(number_of(code)).line).unwrap_or("")
}

/// A code of a line that cannot be part of a litmus test, and what it means.
#[derive(Drop)]
struct Coded(LineFault);

impl Display for Coded {
    fn fmt<W: fmt::Write>(&self, f: &mut Formatter<W>) -> fmt::Result {
        let code = line_code(self.0);
        let name = str::from_utf8(code).unwrap_or("");
        if let LineFault::NoThread(thread) = self.0 {
            return write!(f, "{name}: no line creates thread {thread}");
        }
        let words = words_of(code);
        write!(f, "{name}: {words}")
    }
}

impl Display for TestFault {
    fn fmt<W: fmt::Write>(&self, f: &mut Formatter<W>) -> fmt::Result {
        match self {
            TestFault::Refused(reason) => write!(f, "{reason}"),
            TestFault::Impossible(reason) => write!(
                f,
                "{reason}; no outcome can have this line (O7)"
            ),
            TestFault::Malformed(number, fault) => write!(f, "line {number}: {}", Coded(*fault)),
            TestFault::NoUnordered => {
                let words = words_of(b"O6");
                write!(f, "O6: {words}")
            }
            TestFault::Stopped(_) => f.write_str("out of memory"),
        }
    }
}

/// Returns why a file with a refused line is not searched. If memory ran out, the line is not to blame.
pub(crate) fn refusal_fault(refusal: LineRefusal) -> TestFault
    ensures { result ≡ refusal_fault refusal }
{
    if refusal.lacks_memory {
        return TestFault::Stopped(RunFault::Memory);
    }
    TestFault::Refused(refusal.reason)
}

/// Reports why a file is not searched, with its name if it has one. Returns the exit status.
pub fn report_fault(rt: &impl Eprint, file: Option<&str>, fault: &TestFault) -> u8
    ensures { result ≡ fault_status fault.now }
{
    if let TestFault::Stopped(stop) = fault {
        return stopped(rt, *stop, file, None);
    }
    let _ = match file {
        Some(name) => eprintln!(rt; "error: {name}: {fault}"),
        None => eprintln!(rt; "error: {fault}"),
    };
    NOT_UNDERSTOOD
}

impl From<PlanFault> for TestFault {
    fn from(fault: PlanFault) -> TestFault {
        match fault {
            PlanFault::Malformed(number, fault) => TestFault::Malformed(number, fault),
            PlanFault::NoUnordered => TestFault::NoUnordered,
            PlanFault::Stopped(fault) => TestFault::Stopped(fault),
        }
    }
}

/// Reports why a search has not begun, or why an order could not be executed again. Returns the exit status.
pub fn not_searched(rt: &impl Eprint, failure: Failure) -> u8
    ensures { result ≡ failure_status failure }
{
    match failure {
        Failure::Memory => stopped(rt, RunFault::Memory, None, None),
        Failure::Full => {
            let words = words_of(b"L1");
            let _ = eprintln!(rt; "error: L1: {words}");
            FULL
        }
    }
}
