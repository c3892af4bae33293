//! Enters the same calls again and again, to measure what a call costs inside and compare it with a call from C (`bench/calls`).
//!
//! It makes other calls of the library too, as its users do. A function that is called from one place only is inlined there, and costs
//! less.
#![tactic(auto)]

use l4_ipc::{
    ArrayVec, Call, IpcCall, Kernel, MAX_THREADS, NextStep, Outcome, PageSize, Step, ThreadId,
};
use l4_msg::copied;
use l4_pager::brought;
use std::io;
use std::process::ExitCode;

/// How often a message is sent.
const MESSAGES: u32 = 100_000;

const FRAMES: u32 = 256;

const SENDER: u32 = 1;

const RECEIVER: u32 = 2;

const RECEIVER_ID: ThreadId = ThreadId(RECEIVER << 14 | 1);

const NOBODY: ThreadId = ThreadId(0);

const ANYBODY: ThreadId = ThreadId(0xffff_ffff);

/// Returns the call that waits for a message.
fn receiving() -> Call {
    Call::Ipc(IpcCall {
        to: NOBODY,
        from: ANYBODY,
        timeouts: 0,
        acceptor: 0,
        words: ArrayVec::new(),
    })
}

/// The call that sends four words.
fn sending(first: u32) -> Call {
    Call::Ipc(IpcCall {
        to: RECEIVER_ID,
        from: NOBODY,
        timeouts: 0,
        acceptor: 0,
        words: copied(&[4, first, 2, 3, 5]),
    })
}

/// Starts a call, and executes the next steps. Returns the number of delivered messages.
fn enter(kernel: &mut Kernel, thread: u32, call: Call) -> u32 {
    if kernel.step(&Step::Start(thread, call)).is_err() {
        return 0;
    }
    let mut delivered = 0;
    for step in 0..MAX_THREADS as u32 {
        let Some(next) = kernel.next() else {
            break;
        };
        if matches!(next, NextStep::Transfer(_, _, Outcome::Done, _)) {
            delivered = step + 1;
        }
    }
    delivered
}

/// Enters all calls, and returns the number of delivered messages.
fn enter_all(kernel: &mut Kernel) -> u32 {
    let mut delivered = 0u32;
    for message in 0..MESSAGES {
        enter(kernel, RECEIVER, receiving());
        delivered = delivered.saturating_add(enter(kernel, SENDER, sending(message)));
    }
    delivered
}

/// Returns the number of words of the message that was received last.
fn last_words(kernel: &Kernel) -> usize {
    let Some(reply) = kernel.reply(RECEIVER) else {
        return 0;
    };
    match brought(reply) {
        Some((_, message)) => message.untyped.len(),
        None => 0,
    }
}

fn main(rt: HostRuntime) -> io::Result<ExitCode> {
    let Ok(mut kernel) = Kernel::boot(rt.alloc(), FRAMES, PageSize::Kib4) else {
        return Ok(ExitCode::from(1));
    };
    let delivered = enter_all(&mut kernel);
    if kernel.enabled().is_some() {
        return Ok(ExitCode::from(1));
    }
    let words = last_words(&kernel);
    println!(rt; "{delivered} messages, the last with {words} words")?;
    Ok(ExitCode::from(0))
}
