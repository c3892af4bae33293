//! Makes calls that may run out of memory, and calls that allocate none, and prints all visible state after each one.
//!
//! If a call is refused, its state is printed, and the same call is made once more. tests/programs/memory makes each allocation fail in
//! turn. The state after a refusal must be the state before the call, and everything else must be printed as it is with ample memory.
//! Before each series of calls that allocate nothing, the program reads once; from there on, tests/programs/memory refuses every
//! allocation.
#![tactic(auto)]

mod forest;
mod kernel;
mod links;
mod lock;
mod seated;
mod shell;
mod spaces;
mod words;

use std::io::{self, Read};
use std::process::ExitCode;

/// Returns the error for a call that was refused twice, or made where it is not possible.
fn stop() -> io::Error {
    io::Error::from(io::ErrorKind::OutOfMemory)
}

/// Marks the point after which no call may allocate memory.
fn end_memory<R: Input>(rt: &R) -> io::Result<()> {
    let mut byte = [0u8];
    let _ = rt.reader().read(&mut byte)?;
    Ok(())
}

/// Makes all the calls.
fn tell<R: AllocGlobal + Input + Print>(rt: &R) -> io::Result<()> {
    spaces::tell(rt)?;
    links::tell(rt)?;
    forest::tell(rt)?;
    kernel::tell(rt)?;
    lock::tell(rt)?;
    seated::tell(rt)?;
    words::tell(rt)?;
    shell::tell(rt)
}

fn main(rt: HostRuntime) -> ExitCode {
    match tell(&rt) {
        Ok(()) => ExitCode::from(0),
        Err(_) => ExitCode::from(1),
    }
}
