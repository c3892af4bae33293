//! Reads a script, and writes its answers with the numbers of their lines or with the pages that transfers moved.
ghost use Rattle.std.specs.Prelude.{◌≡◌, ◌≤◌, ◌+◌, ◌==◌, ◌++◌, min, ℕ, List, None, true, is_some, codes, decimal, length, IfOk, IfErr, IfSome};
ghost use Rattle.std.specs.List.{position_or_len};
ghost use Rattle.l4_fpage.specs.Pages.{max_frames};
ghost use Rattle.l4_ipc.specs.Machine.{IsBoot};
ghost use Rattle.l4_shell.specs.ByLines.{state_of, IsFirst};
ghost use Rattle.l4_sinks.specs.Scripts.{explains_by};
ghost use Rattle.l4_text.specs.Grammar.{lines_of, is_comment};
ghost use Rattle.l4_text.specs.Sizes.{held_bytes};
ghost use Rattle.l4_text.specs.Streams.{Tells};
ghost use Rattle.l4_text.specs.declared.faults.RunFault.TheVariants.{Memory};
ghost use Rattle.l4_history.specs.Annotations.{number_text, tells_transfer, HasMoves, IsAnnotated, Annotates, IsFirstFollower, AnnotatesScript};
ghost use Rattle.l4_history.specs.Inside.Annotating.{Answered, TellsLine, RanOut, RanOutIn, RanOutBelow, TellsLines};

use crate::moves::Follower;
use l4_answers::{Sink, line_len};
use l4_fpage::PageSize;
use l4_reasons::Reason;
use l4_record::History;
use l4_shell::ScriptRun;
use l4_sinks::{Ended, Style, Teller};
use l4_text::{Ending, LineReader, Output, RunFault};
use std::alloc::Global;
use std::io::{Read, Write};

/// The bytes of an answer that are written at once.
const PIECE: usize = 160;

/// The first word of the answers that say what happened to a transfer.
const TRANSFER: &[u8] = b"transfer ";

/// What is added to the answers of a script.
#[derive(Clone, Copy)]
pub struct Annotations {
    pub style: Style,
    /// Whether the number of its line is written before each answer.
    pub number: bool,
    /// Whether a line for each page that it moved is written below each transfer.
    pub moves: bool,
}

/// Adds `L: `, for which there is room.
fn add_number(line: u64, out: &mut Output)
    requires { length out.old.0 + 22 ≤ held_bytes }
    ensures { out.new ≡ (out.old.0 ++ (decimal line ++ codes ": "), out.old.1) }
{
    out.add_number(line);
    out.add(b": ");
}

/// Writes `L: ` if numbers are written.
fn put_number<W: Write>(numbers: bool, line: u64, out: &mut Output, writer: &mut W)
    ensures { Tells (W.contents writer.old) (W.contents writer.new) out.old out.new
        (number_text numbers line) }
{
    if numbers {
        out.make_room(writer);
        add_number(line, out);
    }
}

/// Adds bytes, for which there is room.
fn put_piece<W: Write>(piece: &[u8], out: &mut Output, writer: &mut W)
    requires { length piece.now ≤ 160 }
    ensures { Tells (W.contents writer.old) (W.contents writer.new) out.old out.new piece.now }
{
    out.make_room(writer);
    out.add(piece);
}

/// Writes bytes, however many there are.
fn put_bytes<W: Write>(bytes: &[u8], out: &mut Output, writer: &mut W)
    ensures { Tells (W.contents writer.old) (W.contents writer.new) out.old out.new bytes.now }
{
    for piece in bytes.chunks(PIECE) {
        put_piece(piece, out, writer);
    }
}

/// Returns whether a line of answers explains the answer above it.
fn is_comment(bytes: &[u8]) -> bool
    ensures { result ≡ is_comment bytes.now }
{
    !bytes.is_empty() && bytes[0] == b'#'
}

/// Returns whether a line of answers says what happened to a transfer.
fn tells_transfer(bytes: &[u8]) -> bool
    ensures { result ≡ tells_transfer bytes.now }
{
    bytes.starts_with(TRANSFER)
}

/// Returns the number of bytes of the first line of a text, with its newline.
fn first_len(text: &[u8]) -> usize
    ensures { result ≡ min (position_or_len (λ byte. byte == 10) text.now + 1) (length text.now) }
{
    let len = line_len(text);
    if len < text.len() {
        len + 1
    } else {
        text.len()
    }
}

/// The kernel of a script, and what is written with its answers.
#[derive(Drop)]
struct Annotated {
    run: ScriptRun,
    explains: Option<PageSize>,
    strict: bool,
    number: bool,
    follower: Option<Follower>,
}

impl Annotated {
    /// Answers a line. Returns the text of its answers, and why it is refused if that ends the script. Returns None if there is not enough
    /// memory.
    fn answered(
        &mut self,
        alloc: Global,
        line: u64,
        ending: Ending,
        bytes: &[u8],
    ) -> Option<(Vec<u8>, Option<Reason>)>
        ensures answered { IfSome result
            (λ r. Answered self.old.explains self.old.strict (state_of self.old.run) line ending bytes.now r.0.items r.1 (state_of self.new.run)) }
        ensures same { self.new ≡ record self.old { run = self.new.run } }
    {
        let mut teller = Teller::new(Vec::new(alloc), self.strict, self.explains);
        self.run.answer_line(line, ending, bytes, &mut teller);
        match teller.finish() {
            Ok(()) => Some(teller.into_parts()),
            Err(_) => None,
        }
    }

    /// Writes a line for each page that the next transfer of the script moved, if moves are written.
    fn put_next_moves<W: Write>(&mut self, out: &mut Output, writer: &mut W) -> Result<(), RunFault>
        ensures ok { IfOk result
            (λ _. (moves : List ℕ) × HasMoves true (state_of self.old.run).session.history self.old.follower moves self.new.follower
            × Tells (W.contents writer.old) (W.contents writer.new) out.old out.new moves) }
        ensures err { IfErr result
            (λ e. (e ≡ Memory) × (is_some self.old.follower ≡ true) × (W.contents writer.new ≡ W.contents writer.old) × (out.new ≡ out.old)) }
        ensures same { self.new ≡ record self.old { follower = self.new.follower } }
    {
        match &mut self.follower {
            Some(follower) => follower.put_next_moves(self.run.history(), out, writer),
            None => Ok(()),
        }
    }

    /// Writes a line of the answers to the script's line of this number, and below a transfer the pages that it moved. A line that explains
    /// an answer is written as it is.
    fn put_line<W: Write>(
        &mut self,
        line: u64,
        bytes: &[u8],
        out: &mut Output,
        writer: &mut W,
    ) -> Result<(), RunFault>
        ensures ok { IfOk result
            (λ _. (text : List ℕ) × IsAnnotated self.old.number line (state_of self.old.run).session.history self.old.follower (is_comment bytes.now) bytes.now text self.new.follower
            × Tells (W.contents writer.old) (W.contents writer.new) out.old out.new text) }
        ensures err { IfErr result
            (RanOutBelow self.old.number line self.old.follower bytes.now (W.contents writer.old) (W.contents writer.new) out.old out.new) }
        ensures same { self.new ≡ record self.old { follower = self.new.follower } }
    {
        if is_comment(bytes) {
            put_bytes(bytes, out, writer);
            return Ok(());
        }
        put_number(self.number, line, out, writer);
        put_bytes(bytes, out, writer);
        if tells_transfer(bytes) {
            return self.put_next_moves(out, writer);
        }
        Ok(())
    }

    /// Writes the text of the answers to the script's line of this number, line by line.
    fn put_text<W: Write>(
        &mut self,
        line: u64,
        text: &[u8],
        out: &mut Output,
        writer: &mut W,
    ) -> Result<(), RunFault>
        ensures ok { IfOk result
            (λ _. (written : List ℕ) × Annotates self.old.number line (state_of self.old.run).session.history self.old.follower (lines_of text.now) written self.new.follower
            × Tells (W.contents writer.old) (W.contents writer.new) out.old out.new written) }
        ensures err { IfErr result
            (RanOutIn self.old.number line (state_of self.old.run).session.history self.old.follower (lines_of text.now)
            (W.contents writer.old) (W.contents writer.new) out.old out.new) }
        ensures same { self.new ≡ record self.old { follower = self.new.follower } }
    {
        let mut rest = text;
        while !rest.is_empty() {
            let len = first_len(rest);
            match self.put_line(line, &rest[..len], out, writer) {
                Ok(()) => rest = &rest[len..],
                Err(fault) => return Err(fault),
            }
        }
        Ok(())
    }

    /// Answers a line, and writes the answers. Returns why the line is refused if that ends the script.
    fn annotate_line<W: Write>(
        &mut self,
        alloc: Global,
        line: u64,
        read: (Ending, &[u8]),
        out: &mut Output,
        writer: &mut W,
    ) -> Result<Option<Reason>, RunFault>
        ensures ok { IfOk result
            (λ refused. TellsLine self.old.explains self.old.strict self.old.number (state_of self.old.run) line read.entry.0 read.entry.1.now self.old.follower refused (state_of self.new.run) self.new.follower
            (W.contents writer.old) (W.contents writer.new) out.old out.new) }
        ensures err { IfErr result
            (RanOut self.old.explains self.old.strict self.old.number (state_of self.old.run) line read.entry.0 read.entry.1.now self.old.follower
            (W.contents writer.old) (W.contents writer.new) out.old out.new) }
        ensures same { self.new ≡ record self.old { run = self.new.run; follower = self.new.follower } }
    {
        let (ending, bytes) = read;
        let Some((text, refused)) = self.answered(alloc, line, ending, bytes) else {
            return Err(RunFault::Memory);
        };
        match self.put_text(line, text.as_slice(), out, writer) {
            Ok(()) => Ok(refused),
            Err(fault) => Err(fault),
        }
    }

    /// Answers all lines, to the end of the script or to the first refused line of a strict one.
    fn annotate_lines<R: Read, W: Write>(
        &mut self,
        alloc: Global,
        reader: &mut R,
        out: &mut Output,
        writer: &mut W,
    ) -> Result<Ended, RunFault>
        ensures { TellsLines self.old.explains self.old.strict self.old.number (state_of self.old.run) self.old.follower
            (R.remaining reader.old) (R.remaining reader.new) (W.contents writer.old) (W.contents writer.new) out.old out.new result }
    {
        let mut lines = LineReader::new();
        for line in 1..u64::MAX {
            out.send_before_line(&lines, writer);
            if out.has_failed() {
                return Err(RunFault::Write);
            }
            let next = match lines.next(reader) {
                Ok(next) => next,
                Err(_) => return Err(RunFault::Read),
            };
            let Some(ending) = next else {
                return Ok(Ended {
                    lines: line - 1,
                    refused: None,
                });
            };
            let refused = match self.annotate_line(
                alloc,
                line,
                (ending, lines.line()),
                out,
                writer,
            ) {
                Ok(refused) => refused,
                Err(fault) => return Err(fault),
            };
            if refused.is_some() {
                return Ok(Ended {
                    lines: line,
                    refused,
                });
            }
            if ending == Ending::Cut {
                return Ok(Ended {
                    lines: line,
                    refused: None,
                });
            }
        }
        Err(RunFault::Read)
    }
}

/// Boots a second kernel if moves are written. Returns None if there is no memory for it.
fn follower(alloc: Global, frames: u32, size: PageSize, moves: bool) -> Option<Option<Follower>>
    ensures { IfSome result (IsFirstFollower frames size moves) }
{
    if !moves {
        return Some(None);
    }
    match Follower::new(alloc, frames, size) {
        Some(follower) => Some(Some(follower)),
        None => None,
    }
}

/// Returns the page size by which answers are explained, if they are.
fn explains_by(explain: bool, size: PageSize) -> Option<PageSize>
    ensures { result ≡ explains_by explain size }
{
    if explain { Some(size) } else { None }
}

/// Boots the kernel of a script, and a second one if moves are written. Returns None if there is no memory for them.
fn booted(alloc: Global, frames: u32, size: PageSize, notes: Annotations) -> Option<Annotated>
    requires { frames ≤ max_frames }
    ensures { IfSome result
        (λ a. IsFirst frames size a.run × (a.explains ≡ explains_by notes.style.explain size) × (a.strict ≡ notes.style.strict) × (a.number ≡ notes.number)
        × IsFirstFollower frames size notes.moves a.follower) }
{
    let Some(run) = ScriptRun::new(alloc, frames, size) else {
        return None;
    };
    let Some(follower) = follower(alloc, frames, size, notes.moves) else {
        return None;
    };
    Some(Annotated {
        run,
        explains: explains_by(notes.style.explain, size),
        strict: notes.style.strict,
        number: notes.number,
        follower,
    })
}

/// Executes the script that the reader gives as `answer_script` of `l4_sinks` does, on a new kernel with this many frames, 1 to 4,096, of this
/// size. Writes the answers to each line in this style, with these annotations. Returns how the script ended.
///
/// With `number`, `L: ` stands before each answer to line L. With `moves`, each transfer is followed by a line `# moved SOURCE to TARGET RIGHTS`
/// for each page that it moved, by item and then by page. To find them, it executes the steps again on a separate kernel.
///
/// Returns the faults of `answer_script`. `Memory` is also returned if there was no memory for the answers to a line, or if a step gets
/// another answer when it is executed again, because memory ran out in one of the two executions. The answers to the lines before were then
/// written, and a part of those to this line.
pub fn annotated_script<R: Read, W: Write>(
    alloc: Global,
    frames: u32,
    size: PageSize,
    notes: Annotations,
    reader: &mut R,
    writer: &mut W,
) -> Result<Ended, RunFault>
    requires some { 1 ≤ frames }
    requires fit { frames ≤ max_frames }
    ensures { AnnotatesScript frames size notes (R.remaining reader.old) (R.remaining reader.new)
        (W.contents writer.old) (W.contents writer.new) result }
{
    let Some(mut annotated) = booted(alloc, frames, size, notes) else {
        return Err(RunFault::Memory);
    };
    let mut out = Output::new();
    let answered = annotated.annotate_lines(alloc, reader, &mut out, writer);
    match out.finish(writer) {
        Ok(()) => answered,
        Err(_) => Err(RunFault::Write),
    }
}
