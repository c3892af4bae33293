//! `l4 run --history-to`: scripts whose history is written while they run.
ghost use Rattle.l4_options.specs.Ranges.{IsFrameCount};

use crate::script_ended;
use l4_options::ScriptOptions;
use l4_programs::{WatchedWriter, not_created, opened, stopped};
use l4_segments::{KeepFault, SegmentWriter};
use l4_sinks::{Outputs, Style, answer_script};
use l4_text::RunFault;
use std::fs::{File, OpenFile};
use std::io;
use std::io::ErrorKind;
use std::rt::Files;

/// If the history is not in its file as a whole, reports why, and returns the exit status. `error` is what the system has reported.
fn kept(
    rt: &impl Eprint,
    name: &str,
    fault: Option<KeepFault>,
    error: Option<io::Error>,
) -> Result<(), u8> {
    match fault {
        Some(KeepFault::Memory) => Err(stopped(rt, RunFault::Memory, None, None)),
        Some(KeepFault::Write) => {
            let error = error.unwrap_or(io::Error::from(ErrorKind::WriteZero));
            Err(not_created(rt, name, error))
        }
        None => match error {
            Some(error) => Err(not_created(rt, name, error)),
            None => Ok(()),
        },
    }
}

/// Answers a script, and writes its history to a new file, as segments. At the end, waits until the system has stored the file, which it may
/// keep in memory at first. If a segment cannot be written, or the file cannot be stored, reports this. Returns the exit status.
#[inline(never)]
pub(crate) fn run_to<R: AllocGlobal + Files + Input + Print + Eprint>(
    rt: &R,
    script: &ScriptOptions,
    style: Style,
    name: &str,
) -> u8
    requires { IsFrameCount script.now.frames }
{
    let file = script.file.as_deref();
    let mut reader = match opened(rt, file) {
        Ok(reader) => reader,
        Err(status) => return status,
    };
    let mut target = match File::create_new(rt, name) {
        Ok(target) => target,
        Err(error) => return not_created(rt, name, error),
    };
    let mut output = WatchedWriter::new(io::writer(rt));
    let mut history = WatchedWriter::new(&mut target);
    let outputs = Outputs {
        answers: &mut output,
        segments: SegmentWriter::new(rt.alloc(), script.frames, script.size, &mut history),
    };
    let (outputs, answered) = answer_script(
        rt.alloc(),
        script.frames,
        script.size,
        style,
        &mut reader,
        outputs,
    );
    let fault = outputs.segments.fault();
    let error = history.error().or(target.sync_all().err());
    if let Err(status) = kept(rt, name, fault, error) {
        return status;
    }
    script_ended(rt, answered, file, &reader, &output)
}
