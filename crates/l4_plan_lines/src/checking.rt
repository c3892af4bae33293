ghost use Rattle.std.specs.Prelude.{◌≡◌, ℕ, List, IfOk, IfErr, Err};
ghost use Rattle.std.specs.Io.KnownBytes.{Appends, Keeps};
ghost use Rattle.l4_plan_lines.specs.Inside.Inputs.{HasRead};
ghost use Rattle.l4_plan_lines.specs.Answers.{Answered, is_proved};
ghost use Rattle.l4_plan_lines.specs.declared.answers.Answer.{Answer as AnAnswer};
ghost use Rattle.l4_text.specs.Streams.{WentOut};

use crate::answers::{Answer, answer_input, answer_text};
use crate::found::Found;
use l4_fpage::PageSize;
use l4_msg::Region;
use l4_text::{Ending, LineReader, Output, RunFault};
use std::io::{Read, Write};

/// Reads all lines of the input.
fn read_lines<R: Read>(reader: &mut R) -> Result<Found, RunFault>
    ensures ok { IfOk result (HasRead (R.remaining reader.old) (R.remaining reader.new)) }
    ensures err { IfErr result (λ e. e ≡ RunFault.Read) }
{
    let mut found = Found::new();
    let mut lines = LineReader::new();
    for turn in 0..u64::MAX {
        let next = match lines.next(reader) {
            Ok(next) => next,
            Err(fault) => return Err(fault),
        };
        let Some(ending) = next else {
            return Ok(found);
        };
        found.take(ending, lines.line());
        if ending == Ending::Cut {
            return Ok(found);
        }
    }
    Err(RunFault::Read)
}

/// Reads a plan, or the pages that prove that each plan is too long, checks it, and writes the answer in one line.
/// Returns that answer. Allocates no memory.
///
/// Returns `Read` if a read fails, or if the input has not ended after 16,777,216 reads of up to 4,096 bytes; nothing was
/// then written. Returns `Write` if a write fails or writes no byte.
pub fn answer_lines<R: Read, W: Write>(
    region: &Region,
    size: PageSize,
    reader: &mut R,
    writer: &mut W,
) -> Result<Answer, RunFault>
    ensures ok { IfOk result (λ answer. (text : List ℕ)
        × Answered size region.now (R.remaining reader.old) (R.remaining reader.new) answer text
        × Appends (W.contents writer.old) (W.contents writer.new) text) }
    ensures read { result ≡ Err RunFault.Read
        → Keeps (W.contents writer.old) (W.contents writer.new) }
    ensures write { result ≡ Err RunFault.Write → (answer : AnAnswer) × (text : List ℕ)
        × Answered size region.now (R.remaining reader.old) (R.remaining reader.new) answer text
        × WentOut (W.contents writer.old) (W.contents writer.new) text }
    ensures memory { result ≡ Err RunFault.Memory → ⊥ }
{
    let found = match read_lines(reader) {
        Ok(found) => found,
        Err(unread) => return Err(unread),
    };
    let answer = answer_input(region, size, &found);
    let mut out = Output::new();
    out.put(writer, &answer_text(answer));
    match out.finish(writer) {
        Ok(()) => Ok(answer),
        Err(fault) => Err(fault),
    }
}

/// Does what `answer_lines` does, but only returns whether the answer is `proved`.
pub fn check_lines<R: Read, W: Write>(
    region: &Region,
    size: PageSize,
    reader: &mut R,
    writer: &mut W,
) -> Result<bool, RunFault>
    ensures ok { IfOk result
        (λ proved. (answer : AnAnswer) × (text : List ℕ) × (proved ≡ is_proved answer)
        × Answered size region.now (R.remaining reader.old) (R.remaining reader.new) answer text
        × Appends (W.contents writer.old) (W.contents writer.new) text) }
    ensures read { result ≡ Err RunFault.Read
        → Keeps (W.contents writer.old) (W.contents writer.new) }
    ensures write { result ≡ Err RunFault.Write → (answer : AnAnswer) × (text : List ℕ)
        × Answered size region.now (R.remaining reader.old) (R.remaining reader.new) answer text
        × WentOut (W.contents writer.old) (W.contents writer.new) text }
    ensures memory { result ≡ Err RunFault.Memory → ⊥ }
{
    match answer_lines(region, size, reader, writer) {
        Ok(answer) => Ok(answer.is_proved()),
        Err(fault) => Err(fault),
    }
}
