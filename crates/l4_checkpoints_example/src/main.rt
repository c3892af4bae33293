//! Writes a kernel to a checkpoint while a thread sends, reads the kernel back, and does the next step on both.
#![tactic(auto)]

use l4_checkpoints::{CheckpointFault, read_checkpoint, write_checkpoint};
use l4_ipc::{ArrayVec, Call, Fpage, Kernel, PageSize, Refused, Rights, Step, ThreadId, Timeout};
use std::io;
use std::process::ExitCode;

/// The page frames of the machine.
const FRAMES: u32 = 16;

/// sigma0, which sends, and root, which receives.
const SIGMA0: ThreadId = ThreadId(0x4001);

const ROOT: ThreadId = ThreadId(0x8001);

/// The tag of a message of one word.
const TAG: u32 = 1;

/// Why the example ended early.
#[derive(Debug, Drop)]
enum Stop {
    Refused(Refused),
    NoMemory,
    NotRead(CheckpointFault),
    Output(io::Error),
}

/// Does one step.
fn step(kernel: &mut Kernel, step: &Step) -> Result<(), Stop> {
    match kernel.step(step) {
        Ok(_) => Ok(()),
        Err(refused) => Err(Stop::Refused(refused)),
    }
}

/// Returns a kernel in which root waits for a message, and sigma0 sends one to it.
fn waiting(kernel: Kernel) -> Result<Kernel, Stop> {
    let mut kernel = kernel;
    let window = Fpage::Complete(Rights::all());
    let receive = Call::receive(SIGMA0, window, Timeout::Never);
    step(&mut kernel, &Step::Start(ROOT.number(), receive))?;
    let mut words = ArrayVec::new();
    words.push(TAG);
    words.push(0x1234);
    let send = Call::send(ROOT, words, Timeout::Never);
    step(&mut kernel, &Step::Start(SIGMA0.number(), send))?;
    Ok(kernel)
}

/// Does the next step, and prints it and the reply of root.
fn go_on(rt: &impl Print, kernel: &mut Kernel) -> io::Result<()> {
    match kernel.next() {
        Some(done) => println!(rt; "{done:?}")?,
        None => println!(rt; "no step is enabled")?,
    }
    match kernel.reply(ROOT.number()) {
        Some(reply) => println!(rt; "{reply:?}"),
        None => println!(rt; "no reply"),
    }
}

/// Writes a kernel to a checkpoint, reads it back, and executes the next step on both.
fn tell<R: AllocGlobal + Print>(rt: &R) -> Result<(), Stop> {
    let booted = Kernel::boot(rt.alloc(), FRAMES, PageSize::Kib4).map_err(Stop::Refused)?;
    let mut kernel = waiting(booted)?;
    let Ok(file) = write_checkpoint(rt.alloc(), FRAMES, 2, &kernel) else {
        return Err(Stop::NoMemory);
    };
    println!(rt; "{} bytes", file.len()).map_err(Stop::Output)?;
    let mut read = read_checkpoint(rt.alloc(), file.as_slice()).map_err(Stop::NotRead)?;
    go_on(rt, &mut kernel).map_err(Stop::Output)?;
    go_on(rt, &mut read.kernel).map_err(Stop::Output)
}

fn main(rt: HostRuntime) -> ExitCode {
    match tell(&rt) {
        Ok(()) => ExitCode::from(0),
        Err(_) => ExitCode::from(1),
    }
}
