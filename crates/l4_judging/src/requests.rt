//! The requests of a list.
ghost use Rattle.l4_judging.specs.Requests.{ReadsRequests};
ghost use Rattle.l4_judging.specs.Inside.Judged.{KeepsLine};

use crate::ending::check_ending;
use l4_answers::AnswerLines;
use l4_step_lines::{Fault, is_silent};
use l4_text::{LineReader, RunFault};
use std::alloc::Global;
use std::io::Read;

/// Adds a line with its newline, if it has a step or query. Returns false if there is not enough memory.
fn keep(text: &mut Vec<u8>, line: &[u8]) -> bool
    ensures { KeepsLine text.old.items line.now text.new.items result }
{
    if is_silent(line) {
        return true;
    }
    if text.extend_from_slice(line).is_err() {
        return false;
    }
    if text.push(b'\n').is_err() {
        return false;
    }
    true
}

/// Reads the requests of a list: its lines with their newlines, without comments, answers and empty lines.
///
/// Returns `Cut` and `Long` as `run` does. A line that is neither a step nor a query is returned like the others.
pub fn read_requests<R: Read>(alloc: Global, reader: &mut R) -> Result<AnswerLines, Fault>
    ensures { ReadsRequests (R.remaining reader.old) (R.remaining reader.new) result }
{
    let mut lines = LineReader::new();
    let mut text = Vec::new(alloc);
    for number in 1..u64::MAX {
        let next = match lines.next(reader) {
            Ok(next) => next,
            Err(_) => return Err(Fault::Stopped(RunFault::Read)),
        };
        let Some(ending) = next else {
            return Ok(AnswerLines::new(text));
        };
        match check_ending(number, ending) {
            Ok(()) => {}
            Err(fault) => return Err(fault),
        }
        if !keep(&mut text, lines.line()) {
            return Err(Fault::Stopped(RunFault::Memory));
        }
    }
    Err(Fault::Stopped(RunFault::Read))
}
