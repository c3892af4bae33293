//! The program `l4_steps`: executes kernel steps in any order, and prints each answer (`l4_steps --help`).
//!
//! Exit statuses: 0 at the end of the list; 2 for a command line or a line that is not understood; 3 if a read or a write failed; 4 if
//! there was no memory at the start.
#![tactic(auto)]

ghost use Rattle.std.specs.Prelude.{◌≡◌};
ghost use Rattle.l4_steps.specs.Statuses.{list_status};

use l4_options::{ScriptOptions, StepOptions, misread, step_options};
use l4_programs::{
    NOT_UNDERSTOOD, WatchedReader, WatchedWriter, cause, command_words, opened, show, status_of,
    stopped,
};
use l4_step_lines::{Fault, run};
use std::io;
use std::io::{Read, Write};
use std::process::ExitCode;
use std::rt::Files;

/// Reports why a step list ended. Returns the exit status.
fn ended<R: Read, W: Write>(
    rt: &impl Eprint,
    answered: Result<(), Fault>,
    file: Option<&str>,
    reader: &WatchedReader<R>,
    writer: &WatchedWriter<W>,
) -> u8
    ensures { result ≡ list_status answered }
{
    match answered {
        Ok(()) => 0,
        Err(Fault::Stopped(fault)) => stopped(rt, fault, file, cause(fault, reader, writer)),
        Err(fault) => {
            let _ = rt.eprintln(&fault);
            NOT_UNDERSTOOD
        }
    }
}

/// Answers a step list.
fn answer_list<R: AllocGlobal + Files + Input + Print + Eprint>(
    rt: &R,
    list: &ScriptOptions,
) -> u8 {
    let file = list.file.as_deref();
    let mut reader = match opened(rt, file) {
        Ok(reader) => reader,
        Err(status) => return status,
    };
    let mut writer = WatchedWriter::new(io::writer(rt));
    let answered = run(rt.alloc(), list.frames, list.size, &mut reader, &mut writer);
    ended(rt, answered, file, &reader, &writer)
}

/// Executes the command that these words request.
fn obey<R: AllocGlobal + Files + Input + Print + Eprint>(rt: &R, words: &[String]) -> u8 {
    match step_options(rt.alloc(), words) {
        Ok(StepOptions::Run(list)) => answer_list(rt, &list),
        Ok(StepOptions::Show(text)) => show(rt, text.as_str()),
        Err(fault) => misread(rt, &fault),
    }
}

fn main(rt: HostRuntime) -> ExitCode {
    let words = command_words(&rt);
    ExitCode::from(status_of(words, |words| obey(&rt, words)))
}
