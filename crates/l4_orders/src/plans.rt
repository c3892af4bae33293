//! Litmus tests: the parts of a file.
ghost use Rattle.std.specs.Prelude.{◌≡◌, IfOk, OnOk, option_map, slice_get};
ghost use Rattle.std.specs.Option.{option_copied};
ghost use Rattle.l4_orders.specs.Inside.Parts.{is_of};
ghost use Rattle.l4_orders.specs.Plans.{line_at, next_of, cancels_at, gone_with, none_gone};

use l4_names::Names;
use std::alloc::{AllocError, Global};

/// A line of a litmus test, with its number in the file.
#[derive(Drop)]
pub struct PlanLine {
    pub number: u64,
    pub bytes: Vec<u8>,
}

/// The lines of a thread in their order, or the lines that end its waits (`timeout` and `cancel`).
#[derive(Drop)]
pub struct Block {
    pub thread: u32,
    /// Whether the lines end waits of the thread. Then each can be executed when the thread waits, and otherwise when it runs.
    pub cancels: bool,
    pub lines: Vec<PlanLine>,
}

/// A litmus test: the lines before `unordered`, the lines of each thread after it, the queries and rules after `finally`, and the names of
/// threads. With a rule that is about all threads, the queries of their replies follow (as lines of number 0).
#[derive(Drop)]
pub struct Plan {
    pub first: Vec<PlanLine>,
    pub blocks: Vec<Block>,
    pub queries: Vec<PlanLine>,
    pub names: Names,
}

/// Counts one more line of the thread at a place. Returns an error if there is no such count.
pub(crate) fn advance(gone: &mut Vec<usize>, place: usize) -> Result<(), AllocError>
    ensures { OnOk result (gone.new.items ≡ gone_with gone.old.items place) }
{
    if place >= gone.len() {
        return Ok(());
    }
    let Some(next) = gone[place].checked_add(1) else {
        return Err(AllocError);
    };
    gone[place] = next;
    Ok(())
}

impl Block {
    /// Returns whether the block has the lines of this thread, or with `cancels` those that end its waits.
    pub(crate) fn is_of(&self, thread: u32, cancels: bool) -> bool
        ensures { result ≡ is_of thread cancels self.now }
    {
        self.thread == thread && self.cancels == cancels
    }

    /// Returns the line at a place.
    pub(crate) fn line(&self, place: usize) -> Option<&PlanLine>
        ensures { option_copied result ≡ slice_get self.now.lines.items place }
    {
        self.lines.get(place)
    }
}

impl Plan {
    /// Returns the counts of a state in which no thread has executed any of its lines.
    pub(crate) fn none_gone(&self, alloc: Global) -> Result<Vec<usize>, AllocError>
        ensures { IfOk result (λ gone. gone.items ≡ none_gone self.now) }
    {
        vec![in alloc; 0usize; self.blocks.len()]
    }

    /// Returns the next line of the thread at a place, where the threads have executed this many lines each.
    pub(crate) fn line_at(&self, gone: &[usize], place: usize) -> Option<&PlanLine>
        ensures { option_copied result ≡ line_at self.now.blocks.items gone.now place }
    {
        let count = gone.get(place)?;
        let block = self.blocks.get(place)?;
        block.lines.get(*count)
    }

    /// Returns whether the lines at a place end waits.
    pub(crate) fn cancels(&self, place: usize) -> bool
        ensures { result ≡ cancels_at self.now.blocks.items place }
    {
        match self.blocks.get(place) {
            Some(block) => block.cancels,
            None => false,
        }
    }

    /// Returns the thread at a place, and its next line, where the threads have executed this many lines each.
    pub(crate) fn next_of(&self, gone: &[usize], place: usize) -> Option<(u32, &[u8])>
        ensures { option_map (λ n. (n.0, n.1.now)) result
            ≡ next_of self.now.blocks.items gone.now place }
    {
        let count = gone.get(place)?;
        let block = self.blocks.get(place)?;
        let line = block.lines.get(*count)?;
        Some((block.thread, line.bytes.as_slice()))
    }
}
