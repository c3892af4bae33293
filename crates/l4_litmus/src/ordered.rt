//! `l4 orders`: every outcome that some order of the threads' calls can have.
ghost use Rattle.std.specs.Prelude.{◌≡◌, ◌⊎◌, if◌then◌else◌, IfOk, IfErr, MatchResult};
ghost use Rattle.l4_litmus.specs.Inside.Printing.{found_text, script_text, requested_text};
ghost use Rattle.l4_litmus.specs.Statuses.{found_status};
ghost use Rattle.l4_options.specs.Ranges.{IsFrameCount};
ghost use Rattle.l4_programs.specs.Statuses.{run_status};

use crate::faults::{not_searched, report_fault};
use crate::first_line::{WRONG_OPTIONS, options_line, options_of};
use crate::progress::Progress;
use crate::reading::read_test;
use crate::statuses::ruled_status;
use l4_graphs::graph_text;
use l4_options::{OrdersOptions, ScriptOptions};
use l4_orders::{
    Explored, Found, OrderStyle, Plan, orders_text, rules_text, watched_orders, witness_text,
};
use l4_programs::{NOT_UNDERSTOOD, WatchedReader, WatchedWriter, stopped};
use l4_text::RunFault;
use std::alloc::{AllocError, Global};
use std::io;
use std::io::{ErrorKind, Read, Write};
use std::time::Clock;

/// The exit status if the script of the requested outcome was printed, even if the outcome breaks a rule.
const WITNESSED: u8 = 0;

/// Whether a text was printed. If not, why, and what the system has reported.
type Printed = Result<(), (RunFault, Option<io::Error>)>;

/// Returns the text of the outcomes, of the summary, and of the rules that an outcome breaks.
fn found_text(
    alloc: Global,
    plan: &Plan,
    explored: &Explored,
    style: OrderStyle,
) -> Result<Vec<u8>, AllocError>
    ensures { IfOk result (λ text. text.items ≡ found_text plan.now explored.now style) }
{
    let mut text = orders_text(alloc, plan, explored, style)?;
    let broken = rules_text(alloc, plan, style.explain, explored.found.as_slice())?;
    text.extend_from_slice(broken.as_slice())?;
    Ok(text)
}

/// Returns the script of the outcome with this number. It is empty if there is no such outcome.
fn script_text(
    alloc: Global,
    plan: &Plan,
    found: &[Found],
    number: u32,
) -> Result<Vec<u8>, AllocError>
    ensures { IfOk result (λ text. text.items ≡ script_text plan.now found.now number) }
{
    let index = number as usize;
    if index == 0 || index > found.len() {
        return Ok(Vec::new(alloc));
    }
    witness_text(alloc, plan, found[index - 1].order.as_slice())
}

/// Returns the text that is requested of a search.
fn requested_text(
    alloc: Global,
    plan: &Plan,
    explored: &Explored,
    asked: &OrdersOptions,
) -> Result<Vec<u8>, AllocError>
    ensures { IfOk result (λ text. text.items ≡ requested_text asked.now plan.now explored.now) }
{
    if let Some(number) = asked.witness {
        return script_text(alloc, plan, explored.found.as_slice(), number);
    }
    if asked.dot {
        return graph_text(alloc, plan, explored);
    }
    let style = OrderStyle {
        brief: asked.brief,
        explain: asked.explain,
    };
    found_text(alloc, plan, explored, style)
}

/// Reports that the test has no outcome of this number. Returns the exit status.
fn no_outcome(rt: &impl Eprint, number: u32, count: usize) -> u8
    ensures { result ≡ 2 }
{
    let name = if count == 1 { "outcome" } else { "outcomes" };
    let _ = eprintln!(rt; "error: --witness: there is no outcome {number}: {count} {name} found");
    NOT_UNDERSTOOD
}

/// Prints a text, unless there was not enough memory for it.
fn print_text<R: Print>(rt: &R, text: Result<Vec<u8>, AllocError>) -> Printed
    ensures { MatchResult text (λ _. IfErr result (λ fault. fault.0 ≡ RunFault.Write))
        (λ _. MatchResult result (λ _. ⊥) (λ fault. fault.0 ≡ RunFault.Memory)) }
{
    let Ok(text) = text else {
        return Err((RunFault::Memory, None));
    };
    let mut writer = WatchedWriter::new(io::writer(rt));
    if writer.write_all(text.as_slice()).is_err() || writer.flush().is_err() {
        return Err((RunFault::Write, writer.error()));
    }
    Ok(())
}

/// Returns the exit status of a search. If there is no outcome with the requested number, reports this.
fn searched_status(rt: &impl Eprint, plan: &Plan, explored: &Explored, witness: Option<u32>) -> u8
    ensures { result ≡ found_status witness plan.now explored.now }
{
    let Some(number) = witness else {
        return ruled_status(plan, explored);
    };
    let count = explored.found.len();
    if number == 0 || number as usize > count {
        return no_outcome(rt, number, count);
    }
    WITNESSED
}

/// Returns the exit status of a search after what is requested of it was printed. If it was not, reports why.
fn report_found(
    rt: &impl Eprint,
    plan: &Plan,
    explored: &Explored,
    witness: Option<u32>,
    printed: Printed,
) -> u8
    ensures { MatchResult printed (λ _. result ≡ found_status witness plan.now explored.now)
        (λ fault. result ≡ run_status fault.0) }
{
    match printed {
        Ok(()) => searched_status(rt, plan, explored, witness),
        Err((fault, cause)) => stopped(rt, fault, None, cause),
    }
}

/// Searches all orders of the litmus test in this text by these options, and prints what is requested.
fn search_text<R: AllocGlobal + Print + Eprint + Clock>(
    rt: &R,
    asked: &OrdersOptions,
    script: &ScriptOptions,
    terminal: bool,
    text: &[u8],
) -> u8
    requires { IsFrameCount script.now.frames }
{
    let plan = match read_test(rt.alloc(), script, asked.lenient, text) {
        Ok(plan) => plan,
        Err(fault) => return report_fault(rt, None, &fault),
    };
    let searched = watched_orders(
        rt.alloc(),
        script.frames,
        script.size,
        &plan,
        u64::from(asked.most),
        &mut Progress::new(rt, terminal),
    );
    match searched {
        Ok(explored) => {
            let printed = print_text(rt, requested_text(rt.alloc(), &plan, &explored, asked));
            report_found(rt, &plan, &explored, asked.witness, printed)
        }
        Err(failure) => not_searched(rt, failure),
    }
}

/// Returns the options of a search: those of the command line, and each that is left out there as the file's first line has it.
fn joined(asked: &OrdersOptions, own: ScriptOptions) -> ScriptOptions
    requires given { IsFrameCount asked.now.test.frames }
    requires own { IsFrameCount own.frames }
    ensures range { IsFrameCount result.frames }
    ensures frames { result.frames
        ≡ (if asked.now.has_frames then asked.now.test.frames else own.frames) }
    ensures size { result.size ≡ (if asked.now.has_size then asked.now.test.size else own.size) }
{
    ScriptOptions {
        frames: if asked.has_frames {
            asked.test.frames
        } else {
            own.frames
        },
        size: if asked.has_size {
            asked.test.size
        } else {
            own.size
        },
        file: None,
    }
}

/// Reads all bytes of a file. If a read fails, reports this and returns the exit status.
fn whole_text<Q: Read, R: AllocGlobal + Eprint>(
    rt: &R,
    file: Option<&str>,
    reader: &mut WatchedReader<Q>,
) -> Result<Vec<u8>, u8>
    ensures { IfErr result (λ status. (status ≡ 3) ⊎ (status ≡ 4)) }
{
    let mut text = Vec::new(rt.alloc());
    match reader.read_to_end(&mut text) {
        Ok(_) => Ok(text),
        Err(error) => {
            let fault = match error.kind() {
                ErrorKind::OutOfMemory => RunFault::Memory,
                _ => RunFault::Read,
            };
            Err(stopped(rt, fault, file, reader.error()))
        }
    }
}

/// Searches all orders of the litmus test that a reader gives, and prints what is requested, and the progress of the search if `terminal`,
/// which says whether standard error is a terminal. Returns the exit status.
#[inline(never)]
pub fn print_orders<Q: Read, R: AllocGlobal + Print + Eprint + Clock>(
    rt: &R,
    asked: &OrdersOptions,
    terminal: bool,
    reader: &mut WatchedReader<Q>,
) -> u8
    requires { IsFrameCount asked.now.test.frames }
{
    let file = asked.test.file.as_deref();
    let text = match whole_text(rt, file, reader) {
        Ok(text) => text,
        Err(status) => return status,
    };
    match options_of(rt.alloc(), text.as_slice()) {
        Ok(Some(own)) => {
            let script = joined(asked, own);
            search_text(rt, asked, &script, terminal, text.as_slice())
        }
        Ok(None) => {
            let number = options_line(text.as_slice());
            let _ = eprintln!(rt; "error: line {number}: {WRONG_OPTIONS}");
            NOT_UNDERSTOOD
        }
        Err(fault) => stopped(rt, fault, file, None),
    }
}
