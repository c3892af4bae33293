//! Reads checkpoints.
ghost use Rattle.std.specs.Prelude.{◌≡◌};
ghost use Rattle.l4_c_checkpoints.specs.Checkpoints.{refusal_result, no_checkpoint, fault_result, checkpoint_result, ReadsCheckpoint};

use l4_c_values::{HELD, KernelHandle, NO_MEMORY};
use l4_checkpoints::{Checkpoint, CheckpointFaultKind, read_checkpoint};
use std::alloc::Global;

/// B6: the bytes are not read as a checkpoint.
const NO_CHECKPOINT: u32 = 0x4236;

/// What a checkpoint says beside the kernel, or what is wrong with the bytes, and where.
#[repr(C)]
#[derive(Clone, Copy)]
pub struct CheckpointResult {
    pub refusal: u32,
    pub fault: u32,
    pub position: u64,
    pub entries: u64,
    pub frames: u32,
    pub reserved: u32,
}

/// Returns the result with this refusal.
fn refused(refusal: u32) -> CheckpointResult
    ensures { result ≡ refusal_result refusal }
{
    CheckpointResult {
        refusal,
        fault: 0,
        position: 0,
        entries: 0,
        frames: 0,
        reserved: 0,
    }
}

/// Returns the result for bytes that are not a checkpoint: what is wrong with them, and where.
fn no_checkpoint(fault: u32, position: u64) -> CheckpointResult
    ensures { result ≡ no_checkpoint fault position }
{
    CheckpointResult {
        refusal: NO_CHECKPOINT,
        fault,
        position,
        entries: 0,
        frames: 0,
        reserved: 0,
    }
}

/// Returns the result for a fault of this kind at a position.
fn fault_told(kind: CheckpointFaultKind, position: usize) -> CheckpointResult
    ensures { result ≡ fault_result kind position }
{
    let position = position as u64;
    match kind {
        CheckpointFaultKind::NoMemory => refused(NO_MEMORY),
        CheckpointFaultKind::Magic => no_checkpoint(1, position),
        CheckpointFaultKind::Version => no_checkpoint(2, position),
        CheckpointFaultKind::Frames => no_checkpoint(3, position),
        CheckpointFaultKind::Pages => no_checkpoint(4, position),
        CheckpointFaultKind::Numbers => no_checkpoint(5, position),
        CheckpointFaultKind::Cut => no_checkpoint(6, position),
        CheckpointFaultKind::Checksum => no_checkpoint(7, position),
        CheckpointFaultKind::Extra => no_checkpoint(8, position),
        CheckpointFaultKind::Machine => no_checkpoint(9, position),
    }
}

/// Returns the result for a checkpoint with these numbers.
fn checkpoint_told(frames: u32, entries: usize) -> CheckpointResult
    ensures { result ≡ checkpoint_result frames entries }
{
    CheckpointResult {
        refusal: 0,
        fault: 0,
        position: 0,
        entries: entries as u64,
        frames,
        reserved: 0,
    }
}

/// Reads a checkpoint, and fills an empty handle with its kernel. The refusals are B2, and then B6 or
/// NoMemory. After a refusal the handle is unchanged.
#[unsafe(no_mangle)]
pub extern "C" fn l4_checkpoint_read(
    alloc: Global,
    handle: &mut KernelHandle,
    bytes: &[u8],
) -> CheckpointResult
    ensures { ReadsCheckpoint handle.old.value bytes.now result handle.new.value }
{
    if let Some(held) = handle.take(alloc) {
        handle.put(held);
        return refused(HELD);
    }
    let read = match read_checkpoint(alloc, bytes) {
        Ok(read) => read,
        Err(fault) => return fault_told(fault.kind, fault.position),
    };
    let Checkpoint {
        frames,
        entries,
        kernel,
    } = read;
    match Box::new(alloc, kernel) {
        Ok(kernel) => {
            handle.put(kernel);
            checkpoint_told(frames, entries)
        }
        Err(_) => refused(NO_MEMORY),
    }
}
