//! Reads litmus tests.
ghost use Rattle.l4_orders.specs.Files.{ReadsPlan};
ghost use Rattle.l4_orders.specs.Inside.Parts.{parts_of, IsNew};
ghost use Rattle.l4_orders.specs.Inside.Taking.{ReadsLines};

use crate::parts::{PlanFault, Reading};
use crate::plans::Plan;
use l4_fpage::PageSize;
use l4_text::{LineReader, RunFault};
use std::alloc::Global;
use std::io::Read;

/// Reads line after line, to the end of the file or to the first line that cannot be part of a litmus test.
fn read_lines<R: Read>(
    size: PageSize,
    reading: &mut Reading,
    reader: &mut R,
) -> Result<(), PlanFault>
    requires { IsNew reading.old }
    ensures { ReadsLines size (R.remaining reader.old) (R.remaining reader.new)
        (parts_of reading.new) result }
{
    let mut lines = LineReader::new();
    for number in 1..u64::MAX {
        let next = match lines.next(reader) {
            Ok(next) => next,
            Err(_) => return Err(PlanFault::Stopped(RunFault::Read)),
        };
        let Some(ending) = next else {
            return Ok(());
        };
        match reading.take_line(size, number, ending, lines.line()) {
            Ok(()) => {}
            Err(fault) => return Err(fault),
        }
    }
    Err(PlanFault::Stopped(RunFault::Read))
}

/// Reads a litmus test for pages of this size: lines of a script, with a line `unordered` and, if there are queries, a line `finally`.
///
/// Before `finally`, only lines of threads are allowed, and before `unordered` also lines that give names. After `finally`, only `show`,
/// `parent`, `reply`, `never` and `always` are allowed. A line belongs to the thread that starts its call: root for `thread`, `setpager` and
/// `delete`, and P for `region P` and `serve P`. Lines `timeout N` and `cancel N` are kept in a block of their own for each thread N.
///
/// Returns `Malformed` with the first line that cannot be part of a litmus test; `NoUnordered` if there is no line `unordered`; then
/// `Malformed` with the first line of a thread that neither is there at boot nor is created; then with the first rule that names an answer
/// that no outcome can have; and `Stopped` if a read failed or there was not enough memory.
pub fn read_plan<R: Read>(alloc: Global, size: PageSize, reader: &mut R) -> Result<Plan, PlanFault>
    ensures { ReadsPlan size (R.remaining reader.old) (R.remaining reader.new) result }
{
    let mut reading = Reading::new(alloc);
    match read_lines(size, &mut reading, reader) {
        Ok(()) => reading.finish(size),
        Err(fault) => Err(fault),
    }
}
