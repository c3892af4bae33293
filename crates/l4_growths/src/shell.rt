//! Scripts and command lines.

use crate::stop;
use l4_ipc::PageSize;
use l4_options::{OptionFault, Options, StepOptions, options, step_options};
use l4_record::NoSegments;
use l4_shell::{RunFault, run};
use l4_sinks::Teller;
use std::io;

const FRAMES: u32 = 8;

const SCRIPT: &[u8] = b"show 1 0 16\nparent 1 4\nfrob\nsteps\n";

/// Answers a script that takes no memory. Returns whether there was memory for its kernel.
fn run_once<R: AllocGlobal + Print>(rt: &R) -> io::Result<bool> {
    let mut script = SCRIPT;
    println!(rt; "script")?;
    match run(
        rt.alloc(),
        FRAMES,
        PageSize::Kib4,
        &mut script,
        &mut Teller::new(io::writer(rt), false, None),
        &mut NoSegments,
    ) {
        Ok(lines) => {
            println!(rt; "done script {lines} left {}\n.", script.len())?;
            Ok(true)
        }
        Err(RunFault::Memory) => {
            println!(rt; "refused script left {}\n.", script.len())?;
            Ok(false)
        }
        Err(_) => Err(stop()),
    }
}

/// Reads the words of a command line. Returns whether there was memory to read them.
fn read_once<R: AllocGlobal + Print>(rt: &R, words: &[&str]) -> io::Result<bool> {
    let asked = options(rt.alloc(), words);
    if let Err(OptionFault::Memory) = asked {
        println!(rt; "refused options\n.")?;
        return Ok(false);
    }
    println!(rt; "done options {asked:?}\n.")?;
    Ok(true)
}

/// The same, once more if memory ran out.
fn read<R: AllocGlobal + Print>(rt: &R, words: &[&str]) -> io::Result<()> {
    if read_once(rt, words)? || read_once(rt, words)? {
        return Ok(());
    }
    Err(stop())
}

/// Reads the words of the command line of lists of steps. Returns whether there was memory to read them.
fn read_steps_once<R: AllocGlobal + Print>(rt: &R, words: &[&str]) -> io::Result<bool> {
    let asked = step_options(rt.alloc(), words);
    if let Err(OptionFault::Memory) = asked {
        println!(rt; "refused step_options\n.")?;
        return Ok(false);
    }
    println!(rt; "done step_options {asked:?}\n.")?;
    Ok(true)
}

/// The same, once more if memory ran out.
fn read_steps<R: AllocGlobal + Print>(rt: &R, words: &[&str]) -> io::Result<()> {
    if read_steps_once(rt, words)? || read_steps_once(rt, words)? {
        return Ok(());
    }
    Err(stop())
}

/// Runs a script, and reads each command line.
pub fn tell<R: AllocGlobal + Print>(rt: &R) -> io::Result<()> {
    if !run_once(rt)? && !run_once(rt)? {
        return Err(stop());
    }
    for words in [
        ["l4", "run", "--frames", "5"].as_slice(),
        ["l4", "run"].as_slice(),
        ["l4", "plan", "4", "12", "9", "r_x"].as_slice(),
        ["l4", "check", "4", "12", "9", "rwx"].as_slice(),
        ["l4", "run", "--frames", "0"].as_slice(),
        ["l4", "plan", "4", "12", "9", "rxw"].as_slice(),
        ["l4", "frob"].as_slice(),
        ["l4", "--version"].as_slice(),
    ] {
        read(rt, words)?;
    }
    for words in [
        ["l4_steps", "--frames", "5"].as_slice(),
        ["l4_steps", "--bogus"].as_slice(),
    ] {
        read_steps(rt, words)?;
    }
    Ok(())
}
