//! The program `l4`: answers scripts of kernel calls (`l4 --help`).
//!
//! Exit statuses: 0 at the end of the script, for a plan, for a proved one, for a list that agrees and for scripts that pass; 1 if there is
//! no plan, if it is not proved, if the page asked about is not present, if a refused line ended a strict script, or if answers differ from
//! those in a list or in a tested script; 2 for a command line, a list or a tested script that is not understood or a file that cannot be
//! opened; 3 if a read or a write failed; 4 if there was no memory.
#![tactic(auto)]

mod judged;
mod kinds;
mod plan_tests;
mod recorded;
mod reports;
mod segments;
mod tap;
mod tested;
mod whys;

ghost use Rattle.std.specs.Prelude.{◌≡◌};
ghost use Rattle.l4.specs.Statuses.{script_status, page_status, why_status, plan_status, check_status, text_status};
ghost use Rattle.l4_options.specs.Ranges.{IsFrameCount, IsInRange};

use judged::judge_list;
use l4_decode::{Reading, decode};
use l4_fpage::PageSize;
use l4_history::{
    Annotations, Presence, Question, ThreadPage, WhyResult, annotated_script, answered_history,
    history, why,
};
use l4_litmus::print_orders;
use l4_msg::Region;
use l4_options::{Options, OrdersOptions, ScriptOptions, misread, options};
use l4_plan::plan;
use l4_plan_lines::{Answer, answer_lines, plan_lines};
use l4_programs::{
    WatchedReader, WatchedWriter, cause, command_words, opened, show, status_of, stopped,
    warn_of_cut_line,
};
use l4_reasons::Reason;
use l4_record::NoSegments;
use l4_sinks::{Ended, Outputs, Style, answer_script};
use l4_symbols::write_words;
use l4_text::RunFault;
use recorded::run_to;
use reports::{report_no_plan, report_no_thread, report_refused, report_unproved};
use segments::tell_segments;
use std::io;
use std::io::{IsTerminal, Read, Write};
use std::process::ExitCode;
use std::rt::Files;
use std::time::Clock;
use tested::test;
use whys::why_in;

const NOT_FOUND: u8 = 1;

/// The exit status of a strict script that a refused line ended.
const REFUSED: u8 = 1;

/// The exit status if another kernel's answers differ.
const DIFFERS: u8 = 1;

/// Reports why a refused line ended a strict script. Returns the exit status.
fn refused(rt: &impl Eprint, reason: &Reason) -> u8
    ensures { result ≡ 1 }
{
    report_refused(rt, reason);
    REFUSED
}

/// Reports how a script ended whose answers or history were written. Returns the exit status.
fn script_ended<R: Read, W: Write>(
    rt: &impl Eprint,
    answered: Result<Ended, RunFault>,
    file: Option<&str>,
    reader: &WatchedReader<R>,
    writer: &WatchedWriter<W>,
) -> u8
    ensures { result ≡ script_status answered }
{
    match answered {
        Ok(end) => {
            if let Some(reason) = end.refused {
                return refused(rt, &reason);
            }
            warn_of_cut_line(rt, reader, file);
            0
        }
        Err(fault) => stopped(rt, fault, file, cause(fault, reader, writer)),
    }
}

/// Reports that there is no thread with a page. Returns the exit status.
pub(crate) fn page_told(rt: &impl Eprint, found: Presence) -> u8
    ensures { result ≡ page_status found }
{
    match found {
        Presence::Present => 0,
        Presence::Absent => NOT_FOUND,
        Presence::NoThread => {
            report_no_thread(rt);
            NOT_FOUND
        }
    }
}

/// Reports why a page is not present, or why a line was refused. Returns the exit status.
fn why_ended<R: Read, W: Write>(
    rt: &impl Eprint,
    told: Result<WhyResult, RunFault>,
    file: Option<&str>,
    reader: &WatchedReader<R>,
    writer: &WatchedWriter<W>,
) -> u8
    ensures { result ≡ why_status told }
{
    let found = match told {
        Ok(WhyResult::Told(found)) => found,
        Ok(WhyResult::Refused(reason)) => return refused(rt, &reason),
        Err(fault) => return stopped(rt, fault, file, cause(fault, reader, writer)),
    };
    warn_of_cut_line(rt, reader, file);
    page_told(rt, found)
}

/// Reports why a region has no plan. Returns the exit status.
fn planned<W: Write>(
    rt: &impl Eprint,
    told: Result<bool, RunFault>,
    region: &Region,
    size: PageSize,
    writer: &WatchedWriter<W>,
) -> u8
    ensures { result ≡ plan_status told }
{
    match told {
        Ok(true) => 0,
        Ok(false) => {
            if let Err(refusal) = plan(region, size) {
                report_no_plan(rt, &refusal);
            }
            NOT_FOUND
        }
        Err(fault) => stopped(rt, fault, None, writer.error()),
    }
}

/// Reports why a plan is not proved. Returns the exit status.
fn checked<R: Read, W: Write>(
    rt: &impl Eprint,
    told: Result<Answer, RunFault>,
    file: Option<&str>,
    reader: &WatchedReader<R>,
    writer: &WatchedWriter<W>,
) -> u8
    ensures { result ≡ check_status told }
{
    match told {
        Ok(answer) => {
            if answer.is_proved() {
                return 0;
            }
            report_unproved(rt, &answer, reader.is_empty());
            NOT_FOUND
        }
        Err(fault) => stopped(rt, fault, file, cause(fault, reader, writer)),
    }
}

/// Reports why a text was not written. Returns the exit status.
fn text_ended<W: Write>(
    rt: &impl Eprint,
    told: Result<(), RunFault>,
    writer: &WatchedWriter<W>,
) -> u8
    ensures { result ≡ text_status told }
{
    match told {
        Ok(()) => 0,
        Err(fault) => stopped(rt, fault, None, writer.error()),
    }
}

/// Returns the annotations of the answers to a script, by these switches.
fn annotations(strict: bool, explain: bool, number: bool, moves: bool) -> Annotations
    ensures { result ≡ record {
      style = record { strict = strict; explain = explain };
      number = number;
      moves = moves;
    } }
{
    Annotations {
        style: Style { strict, explain },
        number,
        moves,
    }
}

/// Answers a script: up to its first refused line in a strict run, with explanations in an explained run.
#[inline(never)]
fn run<R: AllocGlobal + Files + Input + Print + Eprint>(
    rt: &R,
    script: &ScriptOptions,
    notes: Annotations,
) -> u8
    requires { IsFrameCount script.now.frames }
{
    let file = script.file.as_deref();
    let mut reader = match opened(rt, file) {
        Ok(reader) => reader,
        Err(status) => return status,
    };
    let mut output = WatchedWriter::new(io::writer(rt));
    let answered = if notes.number || notes.moves {
        annotated_script(
            rt.alloc(),
            script.frames,
            script.size,
            notes,
            &mut reader,
            &mut output,
        )
    } else {
        let outputs = Outputs {
            answers: &mut output,
            segments: NoSegments,
        };
        let (_, answered) = answer_script(
            rt.alloc(),
            script.frames,
            script.size,
            notes.style,
            &mut reader,
            outputs,
        );
        answered
    };
    script_ended(rt, answered, file, &reader, &output)
}

/// Answers a script. If a file is named, writes its history to it.
fn run_script<R: AllocGlobal + Files + Input + Print + Eprint>(
    rt: &R,
    script: &ScriptOptions,
    notes: Annotations,
    history_to: Option<String>,
) -> u8
    requires { IsFrameCount script.now.frames }
{
    match history_to {
        None => run(rt, script, notes),
        Some(name) => run_to(rt, script, notes.style, name.as_str()),
    }
}

/// Writes the history of a script.
#[inline(never)]
fn tell_history<R: AllocGlobal + Files + Input + Print + Eprint>(
    rt: &R,
    script: &ScriptOptions,
    strict: bool,
    answers: bool,
) -> u8
    requires { IsFrameCount script.now.frames }
{
    let file = script.file.as_deref();
    let mut reader = match opened(rt, file) {
        Ok(reader) => reader,
        Err(status) => return status,
    };
    let mut writer = WatchedWriter::new(io::writer(rt));
    let told = if answers {
        answered_history(
            rt.alloc(),
            script.frames,
            script.size,
            strict,
            &mut reader,
            &mut writer,
        )
    } else {
        history(
            rt.alloc(),
            script.frames,
            script.size,
            strict,
            &mut reader,
            &mut writer,
        )
    };
    script_ended(rt, told, file, &reader, &writer)
}

/// Prints how a page got to its place in a script.
#[inline(never)]
fn tell_why<R: AllocGlobal + Files + Input + Print + Eprint>(
    rt: &R,
    script: &ScriptOptions,
    strict: bool,
    page: ThreadPage,
) -> u8
    requires { IsFrameCount script.now.frames }
{
    let file = script.file.as_deref();
    let mut reader = match opened(rt, file) {
        Ok(reader) => reader,
        Err(status) => return status,
    };
    let mut writer = WatchedWriter::new(io::writer(rt));
    let told = why(
        rt.alloc(),
        script.frames,
        script.size,
        Question { page, strict },
        &mut reader,
        &mut writer,
    );
    why_ended(rt, told, file, &reader, &writer)
}

/// Plans a region.
#[inline(never)]
fn write_plan<R: Print + Eprint>(rt: &R, region: &Region, size: PageSize) -> u8 {
    let mut writer = WatchedWriter::new(io::writer(rt));
    let told = plan_lines(region, size, &mut writer);
    planned(rt, told, region, size, &writer)
}

/// Checks a plan.
#[inline(never)]
fn check<R: Files + Input + Print + Eprint>(
    rt: &R,
    region: &Region,
    size: PageSize,
    file: Option<&str>,
) -> u8 {
    let mut reader = match opened(rt, file) {
        Ok(reader) => reader,
        Err(status) => return status,
    };
    let mut writer = WatchedWriter::new(io::writer(rt));
    let told = answer_lines(region, size, &mut reader, &mut writer);
    checked(rt, told, file, &reader, &writer)
}

/// Searches all orders of a litmus test. `terminal` says whether standard error is a terminal.
fn search_orders<R: AllocGlobal + Files + Input + Print + Eprint + Clock>(
    rt: &R,
    asked: &OrdersOptions,
    terminal: bool,
) -> u8
    requires { IsFrameCount asked.now.test.frames }
{
    match opened(rt, asked.test.file.as_deref()) {
        Ok(mut reader) => print_orders(rt, asked, terminal, &mut reader),
        Err(status) => status,
    }
}

/// Says what words mean.
#[inline(never)]
fn tell_words<R: Print + Eprint>(rt: &R, words: &[u32], reading: Reading, size: PageSize) -> u8 {
    let mut writer = WatchedWriter::new(io::writer(rt));
    let told = decode(words, reading, size, &mut writer);
    text_ended(rt, told, &writer)
}

/// Prints the words of a message.
#[inline(never)]
fn print_words<R: Print + Eprint>(rt: &R, words: &[u32]) -> u8 {
    let mut writer = WatchedWriter::new(io::writer(rt));
    let told = write_words(words, &mut writer);
    text_ended(rt, told, &writer)
}

/// Executes a command. `terminal` says whether standard error is a terminal.
fn execute<R: AllocGlobal + Files + Input + Print + Eprint + Clock>(
    rt: &R,
    asked: Options,
    terminal: bool,
) -> u8
    requires { IsInRange asked }
{
    match asked {
        Options::Run {
            script,
            strict,
            explain,
            number,
            moves,
            history_to: to,
        } => run_script(rt, &script, annotations(strict, explain, number, moves), to),
        Options::History {
            script,
            strict,
            answers,
        } => tell_history(rt, &script, strict, answers),
        Options::Segments { files, answers } => tell_segments(rt, files.as_slice(), answers),
        Options::Judge(asked) => judge_list(rt, &asked),
        Options::Why {
            script,
            strict,
            thread,
            page,
        } => tell_why(rt, &script, strict, ThreadPage { thread, page }),
        Options::WhySegments {
            files,
            thread,
            page,
        } => why_in(rt, files.as_slice(), thread, page),
        Options::Plan { region, size } => write_plan(rt, &region, size),
        Options::Check { region, size, file } => check(rt, &region, size, file.as_deref()),
        Options::Decode {
            words,
            reading,
            size,
        } => tell_words(rt, words.as_slice(), reading, size),
        Options::Test {
            files,
            tap,
            write,
            lenient,
        } => test(rt, files.as_slice(), tap, write, lenient),
        Options::Orders(asked) => search_orders(rt, &asked, terminal),
        Options::Encode(words) => print_words(rt, words.as_slice()),
        Options::Show(text) => show(rt, text.as_str()),
    }
}

/// Executes the command that these words request. `terminal` says whether standard error is a terminal.
fn obey<R: AllocGlobal + Files + Input + Print + Eprint + Clock>(
    rt: &R,
    words: &[String],
    terminal: bool,
) -> u8 {
    match options(rt.alloc(), words) {
        Ok(asked) => execute(rt, asked, terminal),
        Err(fault) => misread(rt, &fault),
    }
}

fn main(rt: HostRuntime) -> ExitCode {
    let words = command_words(&rt);
    let terminal = rt.stderr().is_terminal();
    ExitCode::from(status_of(words, |words| obey(&rt, words, terminal)))
}
