//! The parts of a litmus test whose lines are read one after another.
ghost use Rattle.std.specs.Prelude.{◌≡◌, ◌∷◌, ◌++◌, ◌==◌, [], IfErr, OnOk};
ghost use Rattle.std.specs.List.{position, list_any};
ghost use Rattle.l4_commands.specs.declared.line_kinds.LineKind.TheVariants.{Creates};
ghost use Rattle.l4_text.specs.declared.faults.RunFault.TheVariants.{Memory};
ghost use Rattle.l4_orders.specs.declared.parts.PlanFault.TheVariants.{Stopped};
ghost use Rattle.l4_orders.specs.Reading.{line_in, lines_in, groups_in, with_line, add_call, add_naming, add_query, begin_free, begin_last, add_line, take_whole, take_line, is_known, first_number};
ghost use Rattle.l4_orders.specs.Inside.Parts.{is_of, parts_of, Takes, IsNew, AreOfKnown, Finishes};

use crate::plans::{Block, Plan, PlanLine};
use crate::possible::complete;
use crate::refused::early_fault;
use l4_commands::{LineKind, read_kind};
use l4_fpage::PageSize;
use l4_names::Names;
use l4_text::{Ending, RunFault};
use std::alloc::Global;

/// Root, which creates and deletes threads.
const ROOT: u32 = 2;

/// Why a line cannot be part of a litmus test.
#[derive(Clone, Copy, Debug, PartialEq, Eq)]
pub enum LineFault {
    /// It has more than 4,096 bytes (S3).
    Long,
    /// It does not end with a newline (S4).
    Cut,
    /// The command is unknown (S1).
    Unknown,
    /// It cannot be read (S2).
    Unread,
    /// It gives a name, but there are 64 names already (S5).
    NamesFull,
    /// O1: a second line `unordered`, a second line `finally`, or a line `finally` that is not after `unordered`.
    Repeated,
    /// O2: before `finally`, a query or a rule; or after `unordered`, a line that gives a name.
    OfNoThread,
    /// O3: after `finally`, a line that is neither a query nor a rule.
    NoQuery,
    /// O4: the query `steps`. Its answer depends on all lines before it.
    Steps,
    /// O5: a line of a thread, or one that ends its wait, and no `thread` line creates the thread.
    NoThread(u32),
    /// O7: a rule that names an answer that no outcome can have.
    NoAnswer,
    /// O8: an expectation.
    Expectation,
}

/// Why a file is not a litmus test.
#[derive(Clone, Copy, Debug, PartialEq, Eq)]
pub enum PlanFault {
    /// A read failed, or there was not enough memory.
    Stopped(RunFault),
    /// The line of this number cannot be part of a litmus test.
    Malformed(u64, LineFault),
    /// O6: there is no line `unordered`.
    NoUnordered,
}

/// The part of the file that a line is in.
#[derive(Clone, Copy, Debug, PartialEq, Eq)]
pub(crate) enum Part {
    First,
    Unordered,
    Finally,
}

/// A litmus test that is read: its parts so far, the part of the next line, and the threads that its lines create.
#[derive(Drop)]
pub(crate) struct Reading {
    alloc: Global,
    plan: Plan,
    part: Part,
    created: Vec<u32>,
}

/// Adds a line to others.
pub(crate) fn add(lines: &mut Vec<PlanLine>, line: PlanLine) -> Result<(), PlanFault>
    ensures ok { OnOk result
        (lines_in lines.new.items ≡ lines_in lines.old.items ++ line_in line ∷ []) }
    ensures err { IfErr result (λ e. e ≡ Stopped Memory) }
{
    if lines.reserve(1).is_err() {
        return Err(PlanFault::Stopped(RunFault::Memory));
    }
    lines.push_reserved(line);
    Ok(())
}

/// Returns the place of a thread's block, or with `cancels` of the block that ends its waits.
fn place_of(blocks: &[Block], thread: u32, cancels: bool) -> Option<usize>
    ensures { result ≡ position (is_of thread cancels) blocks.now }
{
    blocks.iter().position(|block| block.is_of(thread, cancels))
}

/// Adds a block with one line.
fn add_block(
    alloc: Global,
    blocks: &mut Vec<Block>,
    thread: u32,
    cancels: bool,
    line: PlanLine,
) -> Result<(), PlanFault>
    ensures ok { OnOk result (groups_in blocks.new.items
        ≡ groups_in blocks.old.items
        ++ record { thread = thread; cancels = cancels; lines = line_in line ∷ [] } ∷ []) }
    ensures err { IfErr result (λ e. e ≡ Stopped Memory) }
{
    let mut lines = Vec::new(alloc);
    match add(&mut lines, line) {
        Ok(()) => {}
        Err(fault) => return Err(fault),
    }
    if blocks.reserve(1).is_err() {
        return Err(PlanFault::Stopped(RunFault::Memory));
    }
    blocks.push_reserved(Block {
        thread,
        cancels,
        lines,
    });
    Ok(())
}

/// Adds a line to its block.
fn add_to_block(
    alloc: Global,
    blocks: &mut Vec<Block>,
    thread: u32,
    cancels: bool,
    line: PlanLine,
) -> Result<(), PlanFault>
    ensures ok { OnOk result (groups_in blocks.new.items
        ≡ with_line (groups_in blocks.old.items) thread cancels (line_in line)) }
    ensures err { IfErr result (λ e. e ≡ Stopped Memory) }
{
    let Some(place) = place_of(blocks.as_slice(), thread, cancels) else {
        return add_block(alloc, blocks, thread, cancels, line);
    };
    add(&mut blocks.as_mut_slice()[place].lines, line)
}

/// Returns whether a line creates the thread.
fn is_created(created: &[u32], thread: u32) -> bool
    ensures { result ≡ list_any (λ n. n == thread) created.now }
{
    created.contains(&thread)
}

/// Returns whether a thread is there at boot, or is created.
fn is_known(created: &[u32], thread: u32) -> bool
    ensures { result ≡ is_known created.now thread }
{
    if thread == 1 || thread == ROOT {
        return true;
    }
    is_created(created, thread)
}

/// Returns the number of the first of these lines.
fn first_number(lines: &[PlanLine]) -> u64
    ensures { result ≡ first_number (lines_in lines.now) }
{
    match lines.first() {
        Some(line) => line.number,
        None => 0,
    }
}

/// Checks that the thread of each block is there at boot or is created.
fn check_known(created: &[u32], blocks: &[Block]) -> Result<(), PlanFault>
    ensures { AreOfKnown created.now (groups_in blocks.now) result }
{
    for block in blocks {
        if !is_known(created, block.thread) {
            let number = first_number(block.lines.as_slice());
            return Err(PlanFault::Malformed(number, LineFault::NoThread(block.thread)));
        }
    }
    Ok(())
}

impl Reading {
    /// Begins a litmus test.
    pub(crate) fn new(alloc: Global) -> Reading
        ensures { IsNew result }
    {
        Reading {
            alloc,
            plan: Plan {
                first: Vec::new(alloc),
                blocks: Vec::new(alloc),
                queries: Vec::new(alloc),
                names: Names::new(),
            },
            part: Part::First,
            created: Vec::new(alloc),
        }
    }

    /// Adds a line of a thread, or with `cancels` one that ends a wait of the thread.
    fn add_call(&mut self, thread: u32, cancels: bool, line: PlanLine) -> Result<(), PlanFault>
        ensures { Takes
            (add_call self.old.part (parts_of self.old) thread cancels (line_in line))
            (parts_of self.new) line.number result }
    {
        let number = line.number;
        match self.part {
            Part::First => add(&mut self.plan.first, line),
            Part::Unordered => add_to_block(
                self.alloc,
                &mut self.plan.blocks,
                thread,
                cancels,
                line,
            ),
            Part::Finally => Err(PlanFault::Malformed(number, LineFault::NoQuery)),
        }
    }

    /// Adds a line that gives a name.
    fn add_naming(&mut self, line: PlanLine) -> Result<(), PlanFault>
        ensures { Takes
            (add_naming self.old.part (parts_of self.old) (line_in line))
            (parts_of self.new) line.number result }
    {
        let number = line.number;
        match self.part {
            Part::First => add(&mut self.plan.first, line),
            Part::Unordered => Err(PlanFault::Malformed(number, LineFault::OfNoThread)),
            Part::Finally => Err(PlanFault::Malformed(number, LineFault::NoQuery)),
        }
    }

    /// Adds a query or a rule.
    fn add_query(&mut self, line: PlanLine) -> Result<(), PlanFault>
        ensures { Takes
            (add_query self.old.part (parts_of self.old) (line_in line))
            (parts_of self.new) line.number result }
    {
        let number = line.number;
        match self.part {
            Part::First => Err(PlanFault::Malformed(number, LineFault::OfNoThread)),
            Part::Unordered => Err(PlanFault::Malformed(number, LineFault::OfNoThread)),
            Part::Finally => add(&mut self.plan.queries, line),
        }
    }

    /// Begins the lines whose order is free.
    fn begin_free(&mut self, number: u64) -> Result<(), PlanFault>
        ensures { Takes
            (begin_free self.old.part (parts_of self.old))
            (parts_of self.new) number result }
    {
        match self.part {
            Part::First => {
                self.part = Part::Unordered;
                Ok(())
            }
            Part::Unordered => Err(PlanFault::Malformed(number, LineFault::Repeated)),
            Part::Finally => Err(PlanFault::Malformed(number, LineFault::Repeated)),
        }
    }

    /// Begins the queries.
    fn begin_last(&mut self, number: u64) -> Result<(), PlanFault>
        ensures { Takes
            (begin_last self.old.part (parts_of self.old))
            (parts_of self.new) number result }
    {
        match self.part {
            Part::First => Err(PlanFault::Malformed(number, LineFault::Repeated)),
            Part::Unordered => {
                self.part = Part::Finally;
                Ok(())
            }
            Part::Finally => Err(PlanFault::Malformed(number, LineFault::Repeated)),
        }
    }

    /// Adds a line of root that creates a thread.
    fn add_creation(&mut self, created: u32, line: PlanLine) -> Result<(), PlanFault>
        ensures { Takes
            (add_line (Creates created) (parts_of self.old) (line_in line))
            (parts_of self.new) line.number result }
    {
        if self.created.reserve(1).is_err() {
            return Err(PlanFault::Stopped(RunFault::Memory));
        }
        self.created.push_reserved(created);
        self.add_call(ROOT, false, line)
    }

    /// Adds a line of this kind.
    fn add_line(&mut self, kind: LineKind, line: PlanLine) -> Result<(), PlanFault>
        ensures { Takes
            (add_line kind (parts_of self.old) (line_in line))
            (parts_of self.new) line.number result }
    {
        let number = line.number;
        match kind {
            LineKind::Silent => Ok(()),
            LineKind::Unread => Err(PlanFault::Malformed(number, LineFault::Unread)),
            LineKind::OfThread(thread) => self.add_call(thread, false, line),
            LineKind::Cancels(thread) => self.add_call(thread, true, line),
            LineKind::Creates(created) => self.add_creation(created, line),
            LineKind::Names => self.add_naming(line),
            LineKind::Query => self.add_query(line),
            LineKind::Steps => Err(PlanFault::Malformed(number, LineFault::Steps)),
            LineKind::Unordered => self.begin_free(number),
            LineKind::Finally => self.begin_last(number),
        }
    }

    /// Adds a line that ends with a newline and is not too long.
    fn take_whole(&mut self, size: PageSize, number: u64, text: &[u8]) -> Result<(), PlanFault>
        ensures { Takes
            (take_whole size (parts_of self.old) (record { number = number; bytes = text.now }))
            (parts_of self.new) number result }
    {
        if let Some(fault) = early_fault(size, &self.plan.names, text) {
            return Err(PlanFault::Malformed(number, fault));
        }
        let Ok(bytes) = Vec::from_slice(self.alloc, text) else {
            return Err(PlanFault::Stopped(RunFault::Memory));
        };
        let kind = read_kind(size, &mut self.plan.names, Ending::Whole, text);
        self.add_line(kind, PlanLine { number, bytes })
    }

    /// Adds the line with this number and this ending.
    pub(crate) fn take_line(
        &mut self,
        size: PageSize,
        number: u64,
        ending: Ending,
        bytes: &[u8],
    ) -> Result<(), PlanFault>
        ensures { Takes
            (take_line size (parts_of self.old) number ending bytes.now)
            (parts_of self.new) number result }
    {
        match ending {
            Ending::Whole => self.take_whole(size, number, bytes),
            Ending::Long => Err(PlanFault::Malformed(number, LineFault::Long)),
            Ending::Cut => Err(PlanFault::Malformed(number, LineFault::Cut)),
        }
    }

    /// Returns the test, if it has a line `unordered`, each of its threads is there at boot or is created, and each rule names an answer
    /// that an outcome can have. Adds the queries for which rules ask.
    pub(crate) fn finish(self, size: PageSize) -> Result<Plan, PlanFault>
        ensures { Finishes size (parts_of self) result }
    {
        let Reading {
            alloc,
            plan,
            part,
            created,
        } = self;
        if let Part::First = part {
            return Err(PlanFault::NoUnordered);
        }
        match check_known(created.as_slice(), plan.blocks.as_slice()) {
            Ok(()) => complete(alloc, size, created, plan),
            Err(fault) => Err(fault),
        }
    }
}
