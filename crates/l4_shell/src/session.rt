//! A script's kernel and its servers, and the execution of a line's request on them.
ghost use Rattle.std.specs.Prelude.{◌≡◌, ◌⊎◌, ◌∷◌, List, [], false, IfOk, MatchOption};
ghost use Rattle.l4_answers.specs.Reports.{Report, AddsAll};
ghost use Rattle.l4_shell.specs.Sessions.{session, Enters, Creates, ServesThread, AddsRegion, place_reports, ListsBelow, Shows, parent_answer, reply_answer, Delegates, CancelsWait, TellsCount, CarriesOut, naming_report, Refuses, LacksRoom};
ghost use Rattle.l4_record.specs.Segments.{kept};
ghost use Rattle.l4_shell.specs.Inside.Telling.{TellsCall, TellsRefusal};
ghost use Rattle.l4_pager.specs.Serving.{waiting};
ghost use Rattle.l4_servers.specs.Servers.{Servers as AllServers, is_served, without};
ghost use Rattle.l4_names.specs.Names.{after_giving};
ghost use Rattle.l4_commands.specs.Calls.{root, delete_call};
ghost use Rattle.l4_commands.specs.Requests.{names_after};

use crate::delegations::plan_words;
use crate::refusals::{call_code, memory_code, plan_code, region_code, too_many_names_code};
use crate::serving::{tell_appended, tell_canceled};
use l4_answers::Sink;
use l4_commands::{Partner, ROOT, Request, Which, delete_call, send_call};
use l4_fpage::PageSize;
use l4_ipc::{Call, CancelCause, Kernel, NoMemory};
use l4_msg::Region;
use l4_names::{Name, Names};
use l4_pager::{Entry, wait};
use l4_record::{Appended, History, SeatedKernel};
use l4_servers::Servers;
use std::alloc::Global;

/// The session of a script: the kernel, the served threads, the buffer for the calls of served threads, and the buffer for what a call
/// appended to the history. Lines reuse both buffers.
#[derive(Drop)]
pub(crate) struct Session {
    pub(crate) kernel: SeatedKernel,
    pub(crate) servers: Servers,
    pub(crate) act: Call,
    pub(crate) appended: Appended,
}

/// Reports a page, if it is present.
fn tell_page<S: Sink>(kernel: &Kernel, space: u64, page: u32, sink: &mut S)
    ensures { AddsAll S.has_told sink.old sink.new
        (place_reports kernel.now space page) }
{
    if let Some(mapping) = kernel.mapping(space, page) {
        sink.page(page, &mapping);
    }
}

/// Lists the present pages of a space from the first on, below an end. Returns their number.
#[inline(never)]
fn list_pages<S: Sink>(kernel: &Kernel, space: u64, first: u32, end: u32, sink: &mut S) -> u32
    ensures { ListsBelow kernel.now space first end result
        S.has_told sink.old sink.new }
{
    let mut from = first;
    let mut shown = 0u32;
    loop {
        let Some(page) = kernel.next_page(space, from) else {
            return shown;
        };
        if page >= end {
            return shown;
        }
        tell_page(kernel, space, page, sink);
        shown += 1;
        from = page + 1;
    }
}

/// Lists the present pages of a thread's space.
#[inline(never)]
fn show<S: Sink>(kernel: &Kernel, line: u64, number: u32, pages: (u32, u32), sink: &mut S)
    ensures { (told : List Report) × Shows kernel.now line number pages.0 pages.1 told
        × AddsAll S.has_told sink.old sink.new told }
{
    let Some(space) = kernel.space_of(number) else {
        return sink.unknown_thread(line);
    };
    let (first, count) = pages;
    let most = kernel.page_size().space_pages();
    let end = first.saturating_add(count).min(most);
    let shown = list_pages(kernel, space, first, end, sink);
    sink.shown(shown);
}

/// Reports the parent of a page of a thread's space.
#[inline(never)]
fn tell_parent<S: Sink>(kernel: &Kernel, line: u64, number: u32, page: u32, sink: &mut S)
    ensures { AddsAll S.has_told sink.old sink.new
        (parent_answer kernel.now line number page ∷ []) }
{
    let Some(space) = kernel.space_of(number) else {
        return sink.unknown_thread(line);
    };
    sink.parent(kernel.mapping(space, page));
}

/// Reports how the last call of a thread ended, or that it has not ended.
#[inline(never)]
fn tell_reply<S: Sink>(kernel: &Kernel, line: u64, number: u32, sink: &mut S)
    ensures { AddsAll S.has_told sink.old sink.new
        (reply_answer kernel.now line number ∷ []) }
{
    let Some(_) = kernel.space_of(number) else {
        return sink.unknown_thread(line);
    };
    if !kernel.runs(number) {
        return sink.waits(number);
    }
    let Some(reply) = kernel.reply(number) else {
        return sink.none_ended(number);
    };
    sink.ended(number, Some(reply));
}

/// Reports the number of entries of the history.
#[inline(never)]
fn tell_count<S: Sink>(kernel: &mut SeatedKernel, sink: &mut S)
    ensures { (s : AllServers) → (told : List Report) × TellsCount (session kernel.old s) told
        (session kernel.new s)
        × AddsAll S.has_told sink.old sink.new told }
{
    let count = kernel.steps();
    sink.steps(count);
}

/// Gives a name to a thread. Refuses the line if there are too many names.
#[inline(never)]
fn give_name<S: Sink>(line: u64, name: Name, number: u32, names: &mut Names, sink: &mut S)
    ensures told { AddsAll S.has_told sink.old sink.new
        (naming_report names.old line name number ∷ []) }
    ensures names { names.new ≡ after_giving names.old name number }
{
    if names.give(name, number) {
        sink.named(number);
    } else {
        sink.refused_line(line, &too_many_names_code());
    }
}

impl Session {
    /// Creates a session in which nothing was reported.
    pub(crate) fn new(kernel: SeatedKernel, servers: Servers) -> Session
        ensures { (result.kernel ≡ kernel) × (result.servers ≡ servers) }
    {
        Session {
            kernel,
            servers,
            act: wait(),
            appended: Appended::new(),
        }
    }

    /// Returns a copy in memory of its own, or `NoMemory` if an allocation fails.
    pub(crate) fn copy(&self, alloc: Global) -> Result<Session, NoMemory>
        ensures { IfOk result (λ copy. (copy.kernel ≡ record self.now.kernel { seen = 0 })
            × (copy.servers ≡ self.now.servers)) }
    {
        let Ok(kernel) = self.kernel.copy(alloc) else {
            return Err(NoMemory);
        };
        let Ok(servers) = self.servers.copy(alloc) else {
            return Err(NoMemory);
        };
        Ok(Session::new(kernel, servers))
    }

    /// Returns the kernel's page size.
    #[inline(always)]
    pub(crate) fn page_size(&self) -> PageSize
        ensures { result ≡ self.now.kernel.machine.size }
    {
        self.kernel.kernel().page_size()
    }

    /// Returns the entries of the history that are kept.
    pub(crate) fn into_history(self) -> History
        ensures { result.entries ≡ kept self.kernel.kept_from self.kernel.history }
    {
        let Session {
            kernel,
            servers: _,
            act: _,
            appended: _,
        } = self;
        kernel.into_history()
    }

    /// Enters a call, and reports its start and the steps that follow it. Returns whether it has ended. If it is refused, reports the
    /// refusal, and returns None.
    #[inline(always)]
    fn enter_and_tell<S: Sink>(
        &mut self,
        line: u64,
        thread: u32,
        call: &Call,
        sink: &mut S,
    ) -> Option<bool>
        ensures told { MatchOption result
            (TellsRefusal self.old.kernel line thread call.now self.new.kernel S.has_told sink.old
            sink.new)
            (λ ended. TellsCall self.old.kernel thread call.now thread ended self.new.kernel
            S.has_told sink.old sink.new) }
        ensures servers { self.new.servers ≡ self.old.servers }
    {
        let entered = self
            .kernel
            .enter_if_seated(thread, call, &mut self.appended);
        match entered {
            Ok(()) => {
                let kernel = self.kernel.kernel();
                Some(tell_appended(kernel, &self.appended, thread, sink))
            }
            Err(refusal) => {
                sink.refused_line(line, &call_code(refusal));
                None
            }
        }
    }

    /// Enters a call and reports it, and then lets the served threads act.
    pub(crate) fn enter_and_follow<S: Sink>(
        &mut self,
        line: u64,
        thread: u32,
        call: &Call,
        sink: &mut S,
    )
        ensures { (told : List Report)
            × Enters (session self.old.kernel self.old.servers) line thread call.now
            self.old.servers told (session self.new.kernel self.new.servers)
            × AddsAll S.has_told sink.old sink.new told }
    {
        let Some(ended) = self.enter_and_tell(line, thread, call, sink) else {
            return;
        };
        self.follow(thread, ended, sink);
    }

    /// Root creates a thread, whose number has its seat from then on.
    #[inline(never)]
    fn create_thread<S: Sink>(&mut self, line: u64, number: u32, call: &Call, sink: &mut S)
        ensures { (told : List Report)
            × Creates (session self.old.kernel self.old.servers) line number call.now told
            (session self.new.kernel self.new.servers)
            × AddsAll S.has_told sink.old sink.new told }
    {
        let Ok(()) = self.kernel.give(number) else {
            return sink.refused_line(line, &memory_code());
        };
        self.enter_and_follow(line, ROOT, call, sink);
    }

    /// Root deletes a thread, which is served no longer and has no table.
    #[inline(never)]
    fn end_thread<S: Sink>(&mut self, line: u64, thread: u32, sink: &mut S)
        ensures { (told : List Report) × Enters (session self.old.kernel self.old.servers) line root
            (delete_call thread) (without self.old.servers thread) told
            (session self.new.kernel self.new.servers)
            × AddsAll S.has_told sink.old sink.new told }
    {
        let call = delete_call(thread);
        let Some(ended) = self.enter_and_tell(line, ROOT, &call, sink) else {
            return;
        };
        self.servers.forget(thread);
        self.follow(ROOT, ended, sink);
    }

    /// Refuses to serve a thread for which there is no memory: with the refusal of its call, if there is one, and otherwise with lack of
    /// memory.
    #[inline(never)]
    fn refuse_to_serve<S: Sink>(&mut self, line: u64, thread: u32, sink: &mut S)
        ensures told { (s : AllServers) → is_served s thread ≡ false → (told : List Report)
            × (Refuses (session self.old.kernel s) line thread waiting told
            (session self.new.kernel s) ⊎ LacksRoom (session self.old.kernel s) line thread told
            (session self.new.kernel s))
            × AddsAll S.has_told sink.old sink.new told }
        ensures servers { self.new.servers ≡ self.old.servers }
    {
        if self.kernel.may_enter(thread) {
            return sink.refused_line(line, &memory_code());
        }
        let call = wait();
        let _ = self.enter_and_tell(line, thread, &call, sink);
    }

    /// Makes a thread receive from any thread, and serves it from then on.
    #[inline(never)]
    fn serve_thread<S: Sink>(&mut self, line: u64, thread: u32, sink: &mut S)
        ensures { (told : List Report)
            × ServesThread (session self.old.kernel self.old.servers) line thread told
            (session self.new.kernel self.new.servers)
            × AddsAll S.has_told sink.old sink.new told }
    {
        let Ok(begins) = self.servers.serve(thread) else {
            return self.refuse_to_serve(line, thread, sink);
        };
        let call = wait();
        let Some(ended) = self.enter_and_tell(line, thread, &call, sink) else {
            if begins {
                return self.servers.take_back(thread);
            }
            return;
        };
        self.follow(thread, ended, sink);
    }

    /// Adds a region to a thread's table.
    #[inline(never)]
    fn add_region<S: Sink>(&mut self, line: u64, thread: u32, entry: Entry, sink: &mut S)
        ensures { (told : List Report) × AddsRegion (session self.old.kernel self.old.servers) line
            thread entry told (session self.new.kernel self.new.servers)
            × AddsAll S.has_told sink.old sink.new told }
    {
        let Some(_) = self.kernel.kernel().space_of(thread) else {
            return sink.unknown_thread(line);
        };
        match self.servers.add_region(thread, entry) {
            Ok(()) => sink.region_added(),
            Err(refusal) => sink.refused_line(line, &region_code(refusal)),
        }
    }

    /// Sends a message of a region's plan. If there is none, reports the refusal, and does nothing else.
    #[inline(never)]
    fn delegate<S: Sink>(
        &mut self,
        line: u64,
        thread: u32,
        to: Partner,
        which: Which,
        region: Region,
        sink: &mut S,
    )
        ensures { (told : List Report)
            × Delegates (session self.old.kernel self.old.servers) line thread to which region told
            (session self.new.kernel self.new.servers)
            × AddsAll S.has_told sink.old sink.new told }
    {
        let size = self.page_size();
        match plan_words(&region, size, which) {
            Ok(words) => {
                let call = send_call(to, words);
                self.enter_and_follow(line, thread, &call, sink)
            }
            Err(refusal) => sink.refused_line(line, &plan_code(&refusal)),
        }
    }

    /// Cancels the wait of a thread, and reports it and how the thread's call ended. Then lets the served threads act.
    #[inline(never)]
    fn cancel_wait<S: Sink>(&mut self, line: u64, thread: u32, cause: CancelCause, sink: &mut S)
        ensures { (told : List Report)
            × CancelsWait (session self.old.kernel self.old.servers) line thread cause told
            (session self.new.kernel self.new.servers)
            × AddsAll S.has_told sink.old sink.new told }
    {
        let ended = self.kernel.cancel(thread, cause);
        if let Err(refusal) = ended {
            return sink.refused_line(line, &call_code(refusal));
        }
        let kernel = self.kernel.kernel();
        tell_canceled(kernel, thread, cause, sink);
        self.follow(thread, true, sink);
    }

    /// Carries out the request of a line, where threads have these names.
    pub(crate) fn carry_out<S: Sink>(
        &mut self,
        line: u64,
        request: Request<'_>,
        names: &mut Names,
        sink: &mut S,
    )
        ensures told { (told : List Report)
            × CarriesOut names.old (session self.old.kernel self.old.servers) line request.entry
            told (session self.new.kernel self.new.servers)
            × AddsAll S.has_told sink.old sink.new told }
        ensures names { names.new ≡ names_after names.old request.entry }
    {
        match request {
            Request::Enter(thread, call) => self.enter_and_follow(line, thread, call.call, sink),
            Request::CreateThread(number, call) => {
                self.create_thread(line, number, call.call, sink)
            }
            Request::EndThread(thread) => self.end_thread(line, thread, sink),
            Request::SendPlan(thread, to, which, region) => {
                self.delegate(line, thread, to, which, region, sink)
            }
            Request::ListPages(thread, first, count) => {
                show(self.kernel.kernel(), line, thread, (first, count), sink)
            }
            Request::TellParent(thread, page) => {
                tell_parent(self.kernel.kernel(), line, thread, page, sink)
            }
            Request::AddRegion(thread, entry) => self.add_region(line, thread, entry, sink),
            Request::ServeThread(thread) => self.serve_thread(line, thread, sink),
            Request::GiveName(name, number) => give_name(line, name, number, names, sink),
            Request::TellReply(thread) => tell_reply(self.kernel.kernel(), line, thread, sink),
            Request::CancelWait(thread, cause) => self.cancel_wait(line, thread, cause, sink),
            Request::TellSteps => tell_count(&mut self.kernel, sink),
            Request::BeginUnordered => {}
            Request::BeginFinally => {}
            Request::StateRule => {}
        }
    }
}
