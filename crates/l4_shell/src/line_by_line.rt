//! Answers the lines of scripts whose caller reads them.
ghost use Rattle.std.specs.Prelude.{◌≡◌, ◌≤◌, List, IfOk, IfSome};
ghost use Rattle.l4_answers.specs.Reports.{Report, AddsAll};
ghost use Rattle.l4_fpage.specs.Pages.{max_frames};
ghost use Rattle.l4_shell.specs.ByLines.{state_of, unread, IsFirst};
ghost use Rattle.l4_commands.specs.Requests.{asked_at};
ghost use Rattle.l4_shell.specs.Sessions.{AnswersLine};

use crate::answering::Script;
use crate::by_lines::ScriptRun;
use crate::running::booted;
use l4_answers::Sink;
use l4_ipc::{Kernel, NoMemory, PageSize};
use l4_names::Names;
use l4_record::History;
use l4_servers::Servers;
use l4_text::Ending;
use std::alloc::Global;

impl ScriptRun {
    /// Boots a kernel with 1 to 4,096 frames of this size, in which sigma0 and root have their seats. Returns None if there is not enough
    /// memory, or if the number of frames is 0.
    pub fn new(alloc: Global, frames: u32, size: PageSize) -> Option<ScriptRun>
        requires { frames ≤ max_frames }
        ensures { IfSome result (IsFirst frames size) }
    {
        let Some(kernel) = booted(alloc, frames, size) else {
            return None;
        };
        Some(ScriptRun {
            script: Script::new(kernel, Servers::new(alloc, frames, size)),
        })
    }

    /// Returns a copy between the same lines, in memory of its own, or `NoMemory` if an allocation fails.
    pub fn copy(&self, alloc: Global) -> Result<ScriptRun, NoMemory>
        ensures { IfOk result (λ copy. state_of copy ≡ unread (state_of self.now)) }
    {
        let Ok(script) = self.script.copy(alloc) else {
            return Err(NoMemory);
        };
        Ok(ScriptRun { script })
    }

    /// Returns the kernel.
    pub fn kernel(&self) -> &Kernel
        ensures { result.now ≡ (state_of self.now).session.machine }
    {
        self.script.session.kernel.kernel()
    }

    /// Returns the served threads and their tables.
    pub fn servers(&self) -> &Servers
        ensures { result.now ≡ (state_of self.now).session.servers }
    {
        &self.script.session.servers
    }

    /// Returns the numbers that have their seats.
    pub fn seats(&self) -> &[u32]
        ensures { result.now ≡ (state_of self.now).session.numbers }
    {
        self.script.session.kernel.seats()
    }

    /// Returns the names of threads.
    pub fn names(&self) -> &Names
        ensures { result.now ≡ (state_of self.now).names }
    {
        &self.script.names
    }

    /// Returns the history of the lines that were answered.
    pub fn history(&self) -> &History
        ensures { result.now.entries ≡ (state_of self.now).session.history }
    {
        self.script.history()
    }

    /// Answers the line with this number and this ending.
    pub fn answer_line<S: Sink>(&mut self, line: u64, ending: Ending, bytes: &[u8], sink: &mut S)
        ensures { (told : List Report) × AnswersLine (state_of self.old) line
            (asked_at (state_of self.old).session.machine.size (state_of self.old).names ending
            bytes.now) told (state_of self.new)
            × AddsAll S.has_told sink.old sink.new told }
    {
        self.script.answer_line(line, ending, bytes, sink);
    }
}
