//! The answer that is expected below a step or query.
ghost use Rattle.std.specs.Prelude.{◌≡◌, ◌==◌, ◌&&◌, ◌||◌, not, length};
ghost use Rattle.l4_judging.specs.Judging.{is_unknown, has_said, lacks};

use l4_answers::AnswerLines;
use l4_ipc::Step;

/// The line that matches any line of an answer.
const UNKNOWN: &[u8] = b"?";

/// A step or query, and the part of the kernel's answer to it that has not been compared yet.
#[derive(Drop)]
pub(crate) struct Expected {
    /// The line of the step or query.
    pub(crate) line: Vec<u8>,
    /// The lines of the answer that were not compared yet.
    pub(crate) due: AnswerLines,
    /// The last calls of the threads that it names, as lines of a report.
    pub(crate) calls: Vec<u8>,
    /// The step that is enabled after it.
    pub(crate) next: Option<Step>,
    /// The number of the line of the last answer, or of the step or query if it has no answer yet.
    pub(crate) last: u64,
    /// Whether it has an answer.
    pub(crate) answered: bool,
}

/// Whether an answer is `?`, which matches any line.
pub(crate) fn is_unknown(said: &[u8]) -> bool
    ensures { result ≡ is_unknown said.now }
{
    said == UNKNOWN
}

/// Whether an answer is the first of the lines that are due, or matches any line.
pub(crate) fn has_said(due: &AnswerLines, said: &[u8]) -> bool
    ensures { result ≡ has_said due.now said.now }
{
    if due.is_empty() {
        return false;
    }
    is_unknown(said) || said == due.first()
}

/// Whether lines of the answer are missing. If `partial`, all of them may be missing.
pub(crate) fn lacks(expected: &Expected, partial: bool) -> bool
    ensures { result ≡ lacks partial expected.now }
{
    if expected.due.is_empty() {
        return false;
    }
    expected.answered || !partial
}
