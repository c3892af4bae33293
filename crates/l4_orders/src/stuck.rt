//! Writes which threads are left with lines.
ghost use Rattle.std.specs.Prelude.{◌≡◌, ◌++◌, OnOk, length};
ghost use Rattle.l4_orders.specs.Turns.{stuck_text, stuck_line, stuck_lines};

use crate::numbers::put_number;
use crate::plans::Block;
use std::alloc::{AllocError, Global};

/// Appends that a thread is stuck before the line of this number.
fn put_text(alloc: Global, out: &mut Vec<u8>, thread: u32, number: u64) -> Result<(), AllocError>
    ensures { OnOk result (out.new.items ≡ out.old.items ++ stuck_text thread number) }
{
    out.extend_from_slice(b"stuck ")?;
    put_number(alloc, u64::from(thread), out)?;
    out.extend_from_slice(b" ")?;
    put_number(alloc, number, out)?;
    out.extend_from_slice(b"\n")
}

/// Appends that a thread is stuck before its next line, if it has one. It never is before lines that end its waits.
fn put_stuck(alloc: Global, out: &mut Vec<u8>, block: &Block, gone: usize) -> Result<(), AllocError>
    ensures { OnOk result (out.new.items ≡ out.old.items ++ stuck_line block.now gone) }
{
    if block.cancels {
        return Ok(());
    }
    let Some(line) = block.line(gone) else {
        return Ok(());
    };
    put_text(alloc, out, block.thread, line.number)
}

/// Appends which threads are stuck, and before which line.
pub(crate) fn put_all_stuck(
    alloc: Global,
    out: &mut Vec<u8>,
    blocks: &[Block],
    gone: &[usize],
) -> Result<(), AllocError>
    requires { length gone.now ≡ length blocks.now }
    ensures { OnOk result (out.new.items ≡ out.old.items ++ stuck_lines blocks.now gone.now) }
{
    for place in 0..blocks.len() {
        put_stuck(alloc, out, &blocks[place], gone[place])?;
    }
    Ok(())
}
