//! Prints the results.

use crate::parties::{CLIENT, FIRST_PAGE};
use l4_ipc::{Call, Kernel, Reply};
use l4_lock::Seat;
use std::io;

/// Returns the name of a call.
fn call_name(call: &Call) -> &'static str {
    match call {
        Call::Ipc(_) => "ipc",
        Call::Fault(_) => "fault",
        Call::Unmap(_) => "unmap",
        Call::Control(_) => "control",
    }
}

/// How a call ended.
fn reply_name(reply: &Reply) -> &'static str {
    match reply {
        Reply::Ipc(ipc) => { if ipc.error == 0 { "done" } else { "failed" } }
        Reply::Hit => "hit",
        Reply::Answered => "answered",
        Reply::FaultFailed(_) => "failed",
        Reply::Unmapped => "done",
        Reply::Controlled => "done",
        Reply::Gone => "gone",
    }
}

/// Prints the receipts of a seat: the places of the entries that started and that ended each call, the call, and how it ended.
pub fn print_receipts(rt: &impl Print, seat: &Seat) -> io::Result<()> {
    println!(rt; "thread {}", seat.number())?;
    for receipt in seat.receipts().receipts_from(0) {
        let (call, reply) = (call_name(&receipt.call), reply_name(&receipt.reply));
        println!(rt;
            "  entries {} to {}: {call} {reply}",
            receipt.start, receipt.end
        )?;
    }
    Ok(())
}

/// Prints what the client's pages show.
pub fn print_client(rt: &impl Print, kernel: &Kernel) -> io::Result<()> {
    let Some(space) = kernel.space_of(CLIENT) else {
        return Ok(());
    };
    println!(rt; "pages of thread {CLIENT}")?;
    for page in FIRST_PAGE..FIRST_PAGE + 8 {
        if let Some(mapping) = kernel.mapping(space, page) {
            let rights = mapping.rights.bits();
            println!(rt; "  page {page} frame {} rights {rights}", mapping.frame)?;
        }
    }
    Ok(())
}
