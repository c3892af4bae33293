//! The last call of each thread of a list.
ghost use Rattle.std.specs.Prelude.{◌≡◌, ◌++◌, ℕ, List, true, codes, decimal, IfSome};
ghost use Rattle.std.specs.FinMap as fin;
ghost use Rattle.l4_judging.specs.Calls.{call_text, caller_of, starts_call, partner_of, thread_of, receiver_of, first_named, second_named, last_call, calls_of, with_last};

use l4_ipc::{Call, Step};
use l4_step_lines::Request;
use l4_text::Text;
use std::alloc::Global;
use std::collections::BTreeMap;
use std::marker::Model;

/// The line of a report that names a call.
#[derive(Drop)]
struct CallLine {
    text: Vec<u8>,
}

impl Model for CallLine {
    ghost use Rattle.std.specs.Prelude.{ℕ, List};

    ghost Value = { List ℕ };

    ghost view = { λ c. c.text.items };
}

impl CallLine {
    /// Its bytes, with a newline.
    fn as_slice(&self) -> &[u8]
        ensures { result.now ≡ self.now }
    {
        self.text.as_slice()
    }
}

/// The last call of each thread that has one, as a line of a report.
#[derive(Drop)]
pub(crate) struct LastCalls {
    calls: BTreeMap<u32, CallLine>,
}

impl Model for LastCalls {
    ghost use Rattle.std.specs.FinMap as fin;
    ghost use Rattle.std.specs.Coded.{coded_ℕ, coded_list};
    ghost use Rattle.l4_judging.specs.Calls.{Calls};

    ghost Value = { Calls };

    ghost coded = { fin.code coded_ℕ (coded_list coded_ℕ) };

    ghost view = { λ c. fin.from_entries c.calls.entries };
}

/// The thread that starts a call in a step.
fn caller_of(step: &Step) -> Option<u32>
    ensures { result ≡ caller_of step.now }
{
    match step {
        Step::Start(thread, _) => Some(*thread),
        Step::Transfer(_, _) | Step::Expire(_) | Step::Cancel(_, _) => None,
    }
}

/// The thread that starts a call, if the request is such a step.
pub(crate) fn starts_call(request: &Request) -> Option<u32>
    ensures { result ≡ starts_call request.now }
{
    match request {
        Request::Do(step) => caller_of(step),
        Request::Enabled | Request::Reply(_) | Request::Space(_) | Request::Pages(_) => None,
    }
}

/// The thread to which a call sends.
fn partner_of(call: &Call) -> Option<u32>
    ensures { result ≡ partner_of call.now }
{
    match call {
        Call::Ipc(call) => Some(call.to.number()),
        Call::Fault(_) | Call::Unmap(_) | Call::Control(_) => None,
    }
}

/// The first thread that a step names.
fn thread_of(step: &Step) -> u32
    ensures { result ≡ thread_of step.now }
{
    match step {
        Step::Start(thread, _) => *thread,
        Step::Transfer(sender, _) => *sender,
        Step::Expire(thread) | Step::Cancel(thread, _) => *thread,
    }
}

/// The receiver of a transfer, or the thread to which a call sends that is started.
fn receiver_of(step: &Step) -> Option<u32>
    ensures { result ≡ receiver_of step.now }
{
    match step {
        Step::Start(_, call) => partner_of(call),
        Step::Transfer(_, receiver) => Some(*receiver),
        Step::Expire(_) | Step::Cancel(_, _) => None,
    }
}

/// The first thread that a request names.
fn first_named(request: &Request) -> Option<u32>
    ensures { result ≡ first_named request.now }
{
    match request {
        Request::Do(step) => Some(thread_of(step)),
        Request::Reply(thread) => Some(*thread),
        Request::Space(thread) => Some(*thread),
        Request::Enabled | Request::Pages(_) => None,
    }
}

/// The second thread that a request names.
fn second_named(request: &Request) -> Option<u32>
    ensures { result ≡ second_named request.now }
{
    match request {
        Request::Do(step) => receiver_of(step),
        Request::Enabled | Request::Reply(_) | Request::Space(_) | Request::Pages(_) => None,
    }
}

/// `  line N: `
fn place_text(number: u64) -> Text
    ensures { result ≡ codes "  line " ++ decimal number ++ codes ": " }
{
    let mut text = Text::new();
    text.add(b"  line ");
    text.add_number(number);
    text.add(b": ");
    text
}

/// The line of a report that names the call in the line of this number. None if there is not enough memory.
fn call_line(alloc: Global, number: u64, line: &[u8]) -> Option<CallLine>
    ensures { IfSome result (λ made. made ≡ call_text number line.now) }
{
    let mut text = Vec::new(alloc);
    let place = place_text(number);
    if text.extend_from_slice(place.as_slice()).is_err() {
        return None;
    }
    if text.extend_from_slice(line).is_err() {
        return None;
    }
    if text.push(b'\n').is_err() {
        return None;
    }
    Some(CallLine { text })
}

impl LastCalls {
    /// No thread has a call.
    pub fn new(alloc: Global) -> LastCalls
        ensures { result ≡ fin.empty }
    {
        LastCalls {
            calls: BTreeMap::new(alloc),
        }
    }

    /// Makes the call in the line of this number the last one of its thread, if `keeps` and there is such a thread. Returns false if there is
    /// not enough memory.
    pub fn keep(
        &mut self,
        alloc: Global,
        keeps: bool,
        thread: Option<u32>,
        number: u64,
        line: &[u8],
    ) -> bool
        ensures { result ≡ true → self.new ≡ with_last keeps self.old thread number line.now }
    {
        let Some(thread) = thread else {
            return true;
        };
        if !keeps {
            return true;
        }
        let Some(made) = call_line(alloc, number, line) else {
            return false;
        };
        let Ok(_) = self.calls.insert(thread, made) else {
            return false;
        };
        true
    }

    /// Adds the last call of a thread to a text, if there is one. Returns false if there is not enough memory.
    fn add(&self, thread: Option<u32>, text: &mut Vec<u8>) -> bool
        ensures { result ≡ true → text.new.items ≡ text.old.items ++ last_call self.now thread }
    {
        let Some(thread) = thread else {
            return true;
        };
        let Some(line) = self.calls.get(&thread) else {
            return true;
        };
        match text.extend_from_slice(line.as_slice()) {
            Ok(()) => true,
            Err(_) => false,
        }
    }

    /// The last calls of the threads that a request names, as lines of a report. None if there is not enough memory.
    pub fn named(&self, alloc: Global, request: &Request) -> Option<Vec<u8>>
        ensures { IfSome result (λ text. text.items ≡ calls_of self.now request.now) }
    {
        let mut text = Vec::new(alloc);
        if !self.add(first_named(request), &mut text) {
            return None;
        }
        if !self.add(second_named(request), &mut text) {
            return None;
        }
        Some(text)
    }
}
