//! Answers lines. Most lines are `recv`, `send`, `ipc` and `fault`, whose tokens are read directly into their call.
ghost use Rattle.std.specs.Prelude.{◌≡◌, ◌∷◌, List, [], Option, IfOk, ok_or, option_map};
ghost use Rattle.l4_answers.specs.Reports.{Report, AddsAll};
ghost use Rattle.l4_text.specs.Tokens.{tokens_of};
ghost use Rattle.l4_text.specs.declared.lines.Ending.TheVariants.{Whole};
ghost use Rattle.l4_commands.specs.declared.commands.ScriptFault.TheVariants.{BadTokens};
ghost use Rattle.l4_commands.specs.declared.requests.Request.TheVariants.{Enter};
ghost use Rattle.l4_commands.specs.declared.requests.Request.{Request};
ghost use Rattle.l4_commands.specs.Commands.{command_of};
ghost use Rattle.l4_commands.specs.Requests.{some_request, asked_at};
ghost use Rattle.l4_record.specs.Segments.{kept};
ghost use Rattle.l4_shell.specs.Sessions.{state, AnswersLine};

use crate::refusals::script_code;
use crate::session::Session;
use l4_answers::Sink;
use l4_commands::{
    CallPlaces, ScriptFault, command_name, is_comment, is_fault, is_ipc, is_recv, is_send,
    read_fault, read_ipc, read_receive, read_send, request,
};
use l4_fpage::PageSize;
use l4_ipc::{Call, NoMemory};
use l4_names::Names;
use l4_record::{History, SeatedKernel};
use l4_servers::Servers;
use l4_text::Ending;
use std::alloc::Global;

impl Session {
    /// Answers a line whose call was read: enters the call of the thread. If no thread was read, refuses the line.
    #[inline(always)]
    fn answer_call<S: Sink>(
        &mut self,
        line: u64,
        bytes: &[u8],
        number: Option<u32>,
        call: &Call,
        names: &Names,
        sink: &mut S,
    )
        ensures { (request : Option Request) → option_map (λ n. Enter n call.now) number ≡ request
            → (told : List Report) × AnswersLine (state self.old.kernel self.old.servers names.now)
            line (some_request bytes.now (ok_or request BadTokens)) told
            (state self.new.kernel self.new.servers names.now)
            × AddsAll S.has_told sink.old sink.new told }
    {
        match number {
            Some(thread) => self.enter_and_follow(line, thread, call, sink),
            None => sink.unread_line(
                line,
                &script_code(ScriptFault::BadTokens),
                bytes,
                self.page_size(),
                names,
            ),
        }
    }
}

/// A script: the session of its lines, the buffers of their calls, which all lines reuse, and the names of its threads.
#[derive(Drop)]
pub(crate) struct Script {
    pub(crate) session: Session,
    calls: CallPlaces,
    pub(crate) names: Names,
}

impl Script {
    /// Creates a script of which no line was read.
    pub(crate) fn new(kernel: SeatedKernel, servers: Servers) -> Script
        ensures { (result.session.kernel ≡ kernel) × (result.session.servers ≡ servers)
            × (result.names ≡ []) }
    {
        Script {
            session: Session::new(kernel, servers),
            calls: CallPlaces::new(),
            names: Names::new(),
        }
    }

    /// Returns a copy in memory of its own, or `NoMemory` if an allocation fails.
    pub(crate) fn copy(&self, alloc: Global) -> Result<Script, NoMemory>
        ensures { IfOk result (λ copy. (copy.session.kernel ≡ record self.now.session.kernel { seen = 0 })
            × (copy.session.servers ≡ self.now.session.servers) × (copy.names ≡ self.now.names)) }
    {
        let Ok(session) = self.session.copy(alloc) else {
            return Err(NoMemory);
        };
        Ok(Script {
            session,
            calls: CallPlaces::new(),
            names: self.names.copy(),
        })
    }

    /// Returns the entries of the history that are kept.
    pub(crate) fn history(&self) -> &History
        ensures { result.now.entries
            ≡ kept self.now.session.kernel.kept_from self.now.session.kernel.history }
    {
        self.session.kernel.history()
    }

    /// Returns the entries of the history that are kept.
    pub(crate) fn into_history(self) -> History
        ensures { result.entries ≡ kept self.session.kernel.kept_from self.session.kernel.history }
    {
        let Script {
            session,
            calls: _,
            names: _,
        } = self;
        session.into_history()
    }

    /// Answers a line with this first token and this rest.
    #[inline(never)]
    fn answer_other<S: Sink>(
        &mut self,
        line: u64,
        bytes: &[u8],
        name: &[u8],
        rest: &[u8],
        sink: &mut S,
    )
        ensures { (told : List Report)
            × AnswersLine (state self.old.session.kernel self.old.session.servers self.old.names)
            line (some_request bytes.now
            (command_of self.old.session.kernel.machine.size self.old.names
            (name.now ∷ tokens_of rest.now))) told
            (state self.new.session.kernel self.new.session.servers self.new.names)
            × AddsAll S.has_told sink.old sink.new told }
    {
        let size = self.session.page_size();
        match request(name, rest, size, &self.names, &mut self.calls.ipc) {
            Ok(request) => self.session.carry_out(line, request, &mut self.names, sink),
            Err(fault) => sink.unread_line(line, &script_code(fault), bytes, size, &self.names),
        }
    }

    /// Does the same. Reads the call of a frequent line directly into its buffer.
    #[inline(always)]
    fn answer_command<S: Sink>(
        &mut self,
        line: u64,
        bytes: &[u8],
        name: &[u8],
        rest: &[u8],
        sink: &mut S,
    )
        ensures { (told : List Report)
            × AnswersLine (state self.old.session.kernel self.old.session.servers self.old.names)
            line (some_request bytes.now
            (command_of self.old.session.kernel.machine.size self.old.names
            (name.now ∷ tokens_of rest.now))) told
            (state self.new.session.kernel self.new.session.servers self.new.names)
            × AddsAll S.has_told sink.old sink.new told }
    {
        let Script {
            session,
            calls,
            names,
        } = self;
        if is_recv(name) {
            let number = read_receive(rest, session.page_size(), names, &mut calls.ipc);
            return session.answer_call(line, bytes, number, &calls.ipc, names, sink);
        }
        if is_send(name) {
            let number = read_send(rest, session.page_size(), names, &mut calls.ipc);
            return session.answer_call(line, bytes, number, &calls.ipc, names, sink);
        }
        if is_ipc(name) {
            let number = read_ipc(rest, session.page_size(), names, &mut calls.ipc);
            return session.answer_call(line, bytes, number, &calls.ipc, names, sink);
        }
        if is_fault(name) {
            let number = read_fault(rest, names, &mut calls.fault);
            return session.answer_call(line, bytes, number, &calls.fault, names, sink);
        }
        self.answer_other(line, bytes, name, rest, sink);
    }

    /// Answers a line that ends with a newline, and is not too long.
    #[inline(always)]
    fn answer_whole<S: Sink>(&mut self, line: u64, bytes: &[u8], sink: &mut S)
        ensures { (told : List Report)
            × AnswersLine (state self.old.session.kernel self.old.session.servers self.old.names)
            line (asked_at self.old.session.kernel.machine.size self.old.names Whole bytes.now) told
            (state self.new.session.kernel self.new.session.servers self.new.names)
            × AddsAll S.has_told sink.old sink.new told }
    {
        if is_comment(bytes) {
            return;
        }
        let Some((name, rest)) = command_name(bytes) else {
            return;
        };
        self.answer_command(line, bytes, name, rest, sink);
    }

    /// Answers one line.
    #[inline(always)]
    pub(crate) fn answer_line<S: Sink>(
        &mut self,
        line: u64,
        ending: Ending,
        bytes: &[u8],
        sink: &mut S,
    )
        ensures { (told : List Report)
            × AnswersLine (state self.old.session.kernel self.old.session.servers self.old.names)
            line (asked_at self.old.session.kernel.machine.size self.old.names ending bytes.now)
            told (state self.new.session.kernel self.new.session.servers self.new.names)
            × AddsAll S.has_told sink.old sink.new told }
    {
        match ending {
            Ending::Whole => self.answer_whole(line, bytes, sink),
            Ending::Long => sink.unread_line(
                line,
                &script_code(ScriptFault::LineTooLong),
                b"",
                self.session.page_size(),
                &self.names,
            ),
            Ending::Cut => sink.unread_line(
                line,
                &script_code(ScriptFault::CutLine),
                b"",
                self.session.page_size(),
                &self.names,
            ),
        }
    }
}
