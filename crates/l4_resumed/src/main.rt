//! Reads a script, with the options of `l4_steps`. Executes the script's steps on a kernel that is written to a checkpoint
//! and read back before each step: its answers must be those of the script, and each kernel that is read must have the words of the one
//! that was written. Then alters bytes of the last checkpoint, with the right checksum: the file must be refused, or read as exactly what it
//! says. tests/random/checkpoints gives it random scripts.
//!
//! Exit statuses: 0 if everything is right, 1 if something is not; otherwise those of `l4 run`.
#![tactic(auto)]

mod altering;
mod resuming;

ghost use Rattle.std.specs.Prelude.{◌≤◌};
ghost use Rattle.l4_fpage.specs.Pages.{max_frames};

use altering::{Readings, read_altered};
use l4_fpage::PageSize;
use l4_options::{StepOptions, misread, step_options};
use l4_programs::{command_words, opened, show, status_of, stopped};
use l4_sinks::record_script;
use l4_text::RunFault;
use resuming::{Resumed, resume_all};
use std::io;
use std::process::ExitCode;
use std::rt::Files;

/// The exit status if something is wrong.
const WRONG: u8 = 1;

/// Prints how many checkpoints there were, the words of the last checksum, and what came of altered files.
fn tell<R: Print>(rt: &R, resumed: &Resumed, readings: Readings) -> io::Result<()> {
    println!(rt; "{} checkpoints, {} wrong", resumed.count, resumed.wrong)?;
    let [a, b, c, d, e, f, g, h] = resumed.sum();
    println!(rt; "sum {} {} {} {} {} {} {} {}", a, b, c, d, e, f, g, h)?;
    println!(rt; "{} altered, {} wrong", readings.count, readings.wrong)
}

/// Executes a script, from checkpoints.
fn resume_script<R: AllocGlobal + Files + Input + Print + Eprint>(
    rt: &R,
    frames: u32,
    size: PageSize,
    file: Option<&str>,
) -> u8
    requires some { 1 ≤ frames }
    requires fit { frames ≤ max_frames }
{
    let mut reader = match opened(rt, file) {
        Ok(reader) => reader,
        Err(status) => return status,
    };
    let Some((history, _)) = record_script(rt.alloc(), frames, size, false, &mut reader) else {
        return stopped(rt, RunFault::Memory, None, None);
    };
    let Some(resumed) = resume_all(rt.alloc(), frames, size, &history) else {
        return stopped(rt, RunFault::Memory, None, None);
    };
    let Some(readings) = read_altered(rt.alloc(), resumed.last.as_slice()) else {
        return stopped(rt, RunFault::Memory, None, None);
    };
    if let Err(error) = tell(rt, &resumed, readings) {
        return stopped(rt, RunFault::Write, None, Some(error));
    }
    if resumed.wrong == 0 && readings.wrong == 0 {
        0
    } else {
        WRONG
    }
}

/// Executes the command that these words request.
fn obey<R: AllocGlobal + Files + Input + Print + Eprint>(rt: &R, words: &[String]) -> u8 {
    match step_options(rt.alloc(), words) {
        Ok(StepOptions::Run(list)) => {
            resume_script(rt, list.frames, list.size, list.file.as_deref())
        }
        Ok(StepOptions::Show(text)) => show(rt, text.as_str()),
        Err(fault) => misread(rt, &fault),
    }
}

fn main(rt: HostRuntime) -> ExitCode {
    let words = command_words(&rt);
    ExitCode::from(status_of(words, |words| obey(&rt, words)))
}
