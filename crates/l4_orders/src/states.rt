//! A script between two lines, with the lines that each thread has left.
ghost use Rattle.std.specs.Prelude.{◌≡◌, IfOk};
ghost use Rattle.l4_orders.specs.Turns.{is_ready};
ghost use Rattle.l4_shell.specs.ByLines.{state_of, unread};
ghost use Rattle.l4_orders.specs.Words.{HasWords};

use crate::executing::{answers, execute, next_number};
use crate::plans::{Plan, advance};
use crate::stuck::put_all_stuck;
use l4_ipc::Kernel;
use l4_keys::{put_counted, put_counts, put_kernel, put_names, put_servers};
use l4_merges::{Failure, Machine};
use l4_shell::ScriptRun;
use std::alloc::{AllocError, Global};
use std::marker::Model;

/// A state of a plan: the script, the number of lines that the thread of each block has executed, and the number of the next line, counted as
/// in a script of the executed lines.
#[derive(Drop)]
pub(crate) struct PlanState<'a> {
    pub(crate) plan: &'a Plan,
    pub(crate) alloc: Global,
    pub(crate) script: Box<ScriptRun>,
    pub(crate) gone: Vec<usize>,
    pub(crate) line: u64,
}

impl<'a> Model for PlanState<'a> {
    ghost use Rattle.l4_threads.specs.contracts.Thread as thread;
    ghost use Rattle.l4_pager.specs.contracts.regions.Entry as entry;
    ghost use Rattle.l4_names.specs.contracts.names.NamedThread as named;
    ghost use Rattle.l4_orders.specs.contracts.plans.Plan as lines;
    ghost use Rattle.l4_orders.specs.Turns.{PlanPoint, point, point_code};
    ghost use Rattle.l4_orders.specs.Inside.Laws.{IsInStep};
    ghost use Rattle.l4_shell.specs.ByLines.{state_of};

    ghost Value = { PlanPoint };

    ghost coded = { point_code lines.the_row.coded thread.the_row.coded entry.the_row.coded
        named.the_row.coded };

    ghost view = { λ s. point s.plan.now (state_of s.script.value) s.gone.items };

    ghost invariant = { λ s. IsInStep s.plan.now s.gone.items s.line };
}

/// Copies a script.
fn copied(alloc: Global, script: &ScriptRun) -> Result<Box<ScriptRun>, Failure>
    ensures { IfOk result (λ copy. state_of copy.value ≡ unread (state_of script.now)) }
{
    let Ok(copy) = script.copy(alloc) else {
        return Err(Failure::Memory);
    };
    match Box::new(alloc, copy) {
        Ok(copy) => Ok(copy),
        Err(_) => Err(Failure::Memory),
    }
}

/// Returns whether a line of a thread can be executed: when the thread runs, and with `cancels` when it waits.
fn is_ready(kernel: &Kernel, cancels: bool, number: u32) -> bool
    ensures { result ≡ is_ready kernel.now.threads cancels number }
{
    let runs = kernel.runs(number);
    match kernel.thread(number) {
        Some(_) => runs != cancels,
        None => false,
    }
}

impl<'a> PlanState<'a> {
    /// Returns the words of the state.
    fn words(&self) -> Result<Vec<u32>, AllocError>
        ensures { IfOk result (λ key. HasWords self.now key.items) }
    {
        let mut key = Vec::new(self.alloc);
        put_counts(&mut key, self.gone.as_slice())?;
        put_kernel(self.script.kernel(), &mut key)?;
        put_servers(self.script.servers(), &mut key)?;
        put_counted(&mut key, self.script.seats())?;
        put_names(self.script.names(), &mut key)?;
        Ok(key)
    }
}

impl<'a> Machine for PlanState<'a> {
    ghost use Rattle.l4_orders.specs.Turns.{may_turn, Turns, next_line, turns_left, HasOutcome};
    ghost use Rattle.l4_orders.specs.Words.{HasWords};
    ghost use Rattle.l4_orders.specs.Inside.Words.{one_point};
    ghost use Rattle.std.specs.Prelude.{length};
    ghost use Rattle.l4_orders.specs.Inside.Laws.{AreAkin, turn_within, turn_falls, own_point, turn_stays};

    ghost enabled = { may_turn };

    ghost Turns = { Turns };

    ghost threads = { λ s. length s.plan.blocks.items };

    ghost name = { next_line };

    ghost left = { turns_left };

    ghost HasOutcome = { HasOutcome };

    ghost Akin = { AreAkin };

    ghost HasKey = { HasWords };

    fn threads(&self) -> usize {
        self.plan.blocks.len()
    }

    fn enabled(&self, thread: usize) -> bool {
        match self.plan.next_of(self.gone.as_slice(), thread) {
            Some((number, _)) => is_ready(self.script.kernel(), self.plan.cancels(thread), number),
            None => false,
        }
    }

    fn after_turn(&self, thread: usize) -> Result<Self, Failure> {
        let Some((_, bytes)) = self.plan.next_of(self.gone.as_slice(), thread) else {
            return Err(Failure::Full);
        };
        let mut script = copied(self.alloc, &self.script)?;
        execute(&mut script, self.line, bytes)?;
        let Ok(mut gone) = Vec::from_slice(self.alloc, self.gone.as_slice()) else {
            return Err(Failure::Memory);
        };
        if advance(&mut gone, thread).is_err() {
            return Err(Failure::Full);
        }
        Ok(PlanState {
            plan: self.plan,
            alloc: self.alloc,
            script,
            gone,
            line: next_number(self.line)?,
        })
    }

    fn name(&self, thread: usize) -> u64 {
        match self.plan.line_at(self.gone.as_slice(), thread) {
            Some(line) => line.number,
            None => 0,
        }
    }

    fn outcome(&self) -> Result<Vec<u8>, Failure> {
        let mut script = copied(self.alloc, &self.script)?;
        let queries = self.plan.queries.as_slice();
        let mut text = answers(self.alloc, &mut script, self.line, queries)?;
        let blocks = self.plan.blocks.as_slice();
        match put_all_stuck(self.alloc, &mut text, blocks, self.gone.as_slice()) {
            Ok(()) => Ok(text),
            Err(_) => Err(Failure::Memory),
        }
    }

    fn key(&self) -> Result<Vec<u32>, Failure> {
        match self.words() {
            Ok(key) => Ok(key),
            Err(_) => Err(Failure::Memory),
        }
    }

    ghost within = { turn_within };

    ghost falls = { turn_falls };

    ghost own = { own_point };

    ghost stays = { turn_stays };

    ghost one_state = { one_point };
}
