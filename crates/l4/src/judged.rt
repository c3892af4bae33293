//! `l4 judge`: step lists with another kernel's answers.
ghost use Rattle.std.specs.Prelude.{◌≡◌};
ghost use Rattle.l4.specs.Statuses.{requests_status, judged_status};

use crate::DIFFERS;
use l4_answers::AnswerLines;
use l4_judging::{JudgeFault, Wanted, judge, read_requests};
use l4_options::JudgeOptions;
use l4_programs::{NOT_UNDERSTOOD, Source, WatchedReader, WatchedWriter, cause, opened, stopped};
use l4_step_lines::Fault;
use std::io;
use std::io::{Read, Write};
use std::rt::Files;

/// The exit status if no answer was compared.
const UNCOMPARED: u8 = 5;

/// Reports why the requests of a list cannot be read. Returns the exit status.
fn unread<R: Read>(rt: &impl Eprint, fault: Fault, file: &str, reader: &WatchedReader<R>) -> u8
    ensures { result ≡ requests_status fault }
{
    if let Fault::Stopped(fault) = fault {
        return stopped(rt, fault, Some(file), reader.error());
    }
    let _ = eprintln!(rt; "{fault}, in {}", Source(Some(file)));
    NOT_UNDERSTOOD
}

/// Reads the requests of the list in this file. If that fails, reports why and returns the exit status.
fn requests_in<R: AllocGlobal + Files + Input + Eprint>(
    rt: &R,
    file: &str,
) -> Result<AnswerLines, u8> {
    let mut reader = opened(rt, Some(file))?;
    match read_requests(rt.alloc(), &mut reader) {
        Ok(requests) => Ok(requests),
        Err(fault) => Err(unread(rt, fault, file, &reader)),
    }
}

/// Reports what is wrong with a judged list. Returns the exit status.
fn judged<R: Read, W: Write>(
    rt: &impl Eprint,
    agrees: Result<bool, JudgeFault>,
    file: Option<&str>,
    reader: &WatchedReader<R>,
    writer: &WatchedWriter<W>,
) -> u8
    ensures { result ≡ judged_status agrees }
{
    let fault = match agrees {
        Ok(true) => return 0,
        Ok(false) => return DIFFERS,
        Err(JudgeFault::List(Fault::Stopped(fault))) => {
            return stopped(rt, fault, file, cause(fault, reader, writer));
        }
        Err(fault) => fault,
    };
    let _ = rt.eprintln(&fault);
    match fault {
        JudgeFault::Uncompared => UNCOMPARED,
        JudgeFault::List(_) | JudgeFault::NoStep(_) | JudgeFault::Empty(_) => NOT_UNDERSTOOD,
    }
}

/// Judges a step list with another kernel's answers, against the requests of a list if its file is named.
#[inline(never)]
pub(crate) fn judge_list<R: AllocGlobal + Files + Input + Print + Eprint>(
    rt: &R,
    asked: &JudgeOptions,
) -> u8 {
    let requests = match asked.against.as_deref() {
        Some(name) => match requests_in(rt, name) {
            Ok(requests) => Some(requests),
            Err(status) => return status,
        },
        None => None,
    };
    let wanted = Wanted {
        requests,
        partial: asked.partial,
        all: asked.all,
        calls: asked.follow,
    };
    let file = asked.list.file.as_deref();
    let mut reader = match opened(rt, file) {
        Ok(reader) => reader,
        Err(status) => return status,
    };
    let mut writer = WatchedWriter::new(io::writer(rt));
    let agrees = judge(
        rt.alloc(),
        asked.list.frames,
        asked.list.size,
        wanted,
        &mut reader,
        &mut writer,
    );
    judged(rt, agrees, file, &reader, &writer)
}
