//! The lines of the pages that the transfers of a history moved.
ghost use Rattle.std.specs.Prelude.{◌≡◌, ◌≤◌, ◌+◌, ◌++◌, ◌<◌, ◌^◌, ℕ, List, Ok, true, length, drop, IfOk, IfErr, IfSome};
ghost use Rattle.std.specs.List.{flat_map};
ghost use Rattle.l4_ipc.specs.Machine.{IsBoot};
ghost use Rattle.l4_ipc.specs.Steps.{Steps, is_done};
ghost use Rattle.l4_text.specs.Sizes.{text_bytes};
ghost use Rattle.l4_text.specs.Streams.{Tells};
ghost use Rattle.l4_text.specs.declared.faults.RunFault.TheVariants.{Memory};
ghost use Rattle.l4_history.specs.Inside.Moving.{page_line, ArePages};
ghost use Rattle.l4_history.specs.Moves.{left_text, IsMovesText, is_transfer, NextMoves};

use crate::telling::repeats;
use l4_answers::add_rights;
use l4_ipc::{Kernel, Mapping, Outcome, PageSize, Step};
use l4_provenance::{MovedPage, next_move};
use l4_record::{Entry, History};
use l4_text::{Output, RunFault, Text};
use std::alloc::Global;
use std::io::Write;

/// Adds the rights that the receiver has at a page, or `absent`.
#[tactic(auto, unfolding(crate::specs::Moves::left_text))]
fn add_left(text: &mut Text, left: Option<Mapping>)
    requires { length text.old + 6 ≤ text_bytes }
    ensures value { text.new ≡ text.old ++ left_text left }
    ensures len { length text.new ≤ length text.old + 6 }
{
    match left {
        Some(mapping) => add_rights(text, mapping.rights),
        None => text.add(b"absent"),
    }
}

/// `# moved SOURCE to TARGET RIGHTS`, or `absent` in place of the rights
#[tactic(auto, unfolding(crate::specs::Inside::Moving::page_line))]
fn moved_text(kernel: &Kernel, moved: &MovedPage) -> Text
    ensures { result ≡ page_line kernel.now.mappings moved.now }
{
    let mut text = Text::new();
    text.add(b"# moved ");
    text.add_number(u64::from(moved.source));
    text.add(b" to ");
    text.add_number(u64::from(moved.target));
    text.push(b' ');
    add_left(&mut text, kernel.mapping(moved.space, moved.target));
    text.push(b'\n');
    text
}

/// Writes a line for each of these pages, with what the receiver has there now.
fn put_moved<W: Write>(kernel: &Kernel, moved: &[MovedPage], out: &mut Output, writer: &mut W)
    ensures { Tells (W.contents writer.old) (W.contents writer.new) out.old out.new
        (flat_map (page_line kernel.now.mappings) moved.now) }
{
    for page in moved {
        out.put(writer, &moved_text(kernel, page));
    }
}

/// Returns the pages that a transfer moves if it is delivered now, by item and then by page. Returns None if there is no memory for them.
fn step_moves(alloc: Global, kernel: &Kernel, step: &Step) -> Option<Vec<MovedPage>>
    ensures { IfSome result (λ pages. ArePages kernel.now step.now true pages.items) }
{
    let mut pages = Vec::new(alloc);
    let mut item = 0;
    let mut page = 0;
    loop {
        let Some(moved) = next_move(kernel, step, item, page) else {
            return Some(pages);
        };
        item = moved.item;
        page = moved.source + 1;
        if let Err(_) = pages.push(moved) {
            return None;
        }
    }
}

/// Returns the pages that the step of an entry moves, from the kernel before it: none if it is not delivered. Returns None if there is no memory
/// for them.
fn entry_moves(alloc: Global, kernel: &Kernel, entry: &Entry) -> Option<Vec<MovedPage>>
    ensures { IfSome result
        (λ pages. ArePages kernel.now entry.now.step (is_done entry.now.answer.outcome) pages.items) }
{
    if entry.answer.outcome == Outcome::Done {
        step_moves(alloc, kernel, &entry.step)
    } else {
        Some(Vec::new(alloc))
    }
}

/// Returns whether the step is a transfer.
fn is_transfer(step: &Step) -> bool
    ensures { result ≡ is_transfer step.now }
{
    match step {
        Step::Transfer(_, _) => true,
        Step::Start(_, _) => false,
        Step::Expire(_) => false,
        Step::Cancel(_, _) => false,
    }
}

/// A second kernel, which has executed the first entries of a history, and their number.
#[derive(Drop)]
pub(crate) struct Follower {
    alloc: Global,
    kernel: Kernel,
    next: usize,
}

impl Follower {
    /// Boots a kernel that has executed no entry. Returns None if there is no memory for it.
    pub(crate) fn new(alloc: Global, frames: u32, size: PageSize) -> Option<Follower>
        ensures { IfSome result
            (λ f. IsBoot frames f.kernel × (f.kernel.size ≡ size) × (f.next ≡ 0)) }
    {
        let Ok(kernel) = Kernel::boot(alloc, frames, size) else {
            return None;
        };
        Some(Follower {
            alloc,
            kernel,
            next: 0,
        })
    }

    /// Executes the transfer of the entry with this number, and writes a line for each page that it moved, with what the receiver has there
    /// now.
    fn put_transfer<W: Write>(
        &mut self,
        place: usize,
        entry: &Entry,
        out: &mut Output,
        writer: &mut W,
    ) -> Result<(), RunFault>
        requires { place + 1 < 2 ^ 64 }
        ensures ok { IfOk result (λ _. (text : List ℕ) × IsMovesText self.old.kernel entry.now.step self.new.kernel (is_done entry.now.answer.outcome) text
            × Steps self.old.kernel entry.now.step (Ok entry.now.answer) self.new.kernel
            × (self.new.next ≡ place + 1)
            × Tells (W.contents writer.old) (W.contents writer.new) out.old out.new text) }
        ensures err { IfErr result (λ e. (e ≡ Memory) × (W.contents writer.new ≡ W.contents writer.old) × (out.new ≡ out.old)) }
    {
        let Some(moved) = entry_moves(self.alloc, &self.kernel, entry) else {
            return Err(RunFault::Memory);
        };
        if !repeats(&mut self.kernel, entry) {
            return Err(RunFault::Memory);
        }
        put_moved(&self.kernel, moved.as_slice(), out, writer);
        self.next = place + 1;
        Ok(())
    }

    /// Executes the entries of the history up to its next transfer, and writes a line for each page that this transfer moved.
    ///
    /// Returns `Memory`, and writes nothing, if there is no memory for the pages, or if a step gets another answer than the entry has, because
    /// memory ran out in one of the two executions.
    pub(crate) fn put_next_moves<W: Write>(
        &mut self,
        history: &History,
        out: &mut Output,
        writer: &mut W,
    ) -> Result<(), RunFault>
        ensures ok { IfOk result (λ _. (text : List ℕ)
            × NextMoves (drop self.old.next history.now.entries) self.old.kernel self.old.next text self.new.kernel self.new.next
            × Tells (W.contents writer.old) (W.contents writer.new) out.old out.new text) }
        ensures err { IfErr result (λ e. (e ≡ Memory) × (W.contents writer.new ≡ W.contents writer.old) × (out.new ≡ out.old)) }
    {
        for place in self.next..history.len() {
            let Some(entry) = history.get(place) else {
                return Ok(());
            };
            if is_transfer(&entry.step) {
                return self.put_transfer(place, &entry, out, writer);
            }
            if !repeats(&mut self.kernel, &entry) {
                return Err(RunFault::Memory);
            }
            self.next = place + 1;
        }
        Ok(())
    }
}
