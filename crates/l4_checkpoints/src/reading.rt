//! Reads a checkpoint.
ghost use Rattle.std.specs.Prelude.{◌≡◌, ◌+◌, ◌*◌, ◌≤◌, ◌⊎◌, ◌↔◌, length, IsTrue, IfOk, IfErr};
ghost use Rattle.l4_fpage.specs.Pages.{max_frames};
ghost use Rattle.l4_record.specs.Sizes.{max_handed_out};
ghost use Rattle.l4_checkpoints.specs.Checkpoints.{IsCheckpoint, IsNoCheckpoint, HasForm};
ghost use Rattle.l4_checkpoints.specs.declared.faults.CheckpointFaultKind.TheVariants.{NoMemory as LacksMemory, Machine as IsOfWords};

use crate::building::{Stop, build};
use crate::faults::{CheckpointFault, CheckpointFaultKind, fault};
use crate::files::write_checkpoint;
use crate::headings::{DIGEST_BYTES, HEADING_BYTES, Heading, check_end, read_heading};
use l4_ipc::Kernel;
use l4_segments::word_at;
use std::alloc::{AllocError, Global};

/// A state that was read from a file.
#[derive(Drop)]
pub struct Checkpoint {
    /// The page frames of the kernel at boot.
    pub frames: u32,
    /// The number of entries of the kernel's history since boot.
    pub entries: usize,
    /// The kernel in that state.
    pub kernel: Kernel,
}

/// Returns the words after the heading.
fn words_of(alloc: Global, bytes: &[u8], count: usize) -> Result<Vec<u32>, AllocError>
    requires { 32 + 4 * count ≤ length bytes.now }
{
    let mut words = Vec::new(alloc);
    for i in 0..count {
        words.push(word_at(bytes, HEADING_BYTES + 4 * i))?;
    }
    Ok(words)
}

/// Returns whether two lists of bytes are the same.
fn are_same(bytes: &[u8], others: &[u8]) -> bool
    ensures { IsTrue result ↔ (bytes.now ≡ others.now) }
{
    bytes == others
}

/// Returns the first position at which two lists of bytes differ, or where one of them ends.
fn first_difference(bytes: &[u8], others: &[u8]) -> usize {
    for i in 0..bytes.len() {
        if bytes.get(i) != others.get(i) {
            return i;
        }
    }
    bytes.len()
}

/// Returns a kernel that was built from the words of a file, if the file of that kernel is this one.
fn compared(
    alloc: Global,
    bytes: &[u8],
    heading: Heading,
    kernel: Kernel,
) -> Result<Checkpoint, CheckpointFault>
    requires some { 1 ≤ heading.frames }
    requires few { heading.frames ≤ max_frames }
    requires numbers { heading.entries ≤ max_handed_out }
    ensures ok { IfOk result (λ c. IsCheckpoint c.frames c.entries c.kernel bytes.now) }
    ensures err { IfErr result (λ f. (f.kind ≡ LacksMemory) ⊎ (f.kind ≡ IsOfWords)) }
{
    let Ok(again) = write_checkpoint(alloc, heading.frames, heading.entries, &kernel) else {
        return Err(fault(bytes.len(), CheckpointFaultKind::NoMemory));
    };
    if !are_same(bytes, again.as_slice()) {
        let position = first_difference(bytes, again.as_slice());
        return Err(fault(position, CheckpointFaultKind::Machine));
    }
    Ok(Checkpoint {
        frames: heading.frames,
        entries: heading.entries,
        kernel,
    })
}

/// Returns the fault of words from which no kernel was built, or for which memory ran out.
fn stopped(bytes: &[u8], stop: Stop) -> CheckpointFault
    ensures { (result.kind ≡ LacksMemory) ⊎ (result.kind ≡ IsOfWords) }
{
    match stop {
        Stop::NoMemory => fault(HEADING_BYTES, CheckpointFaultKind::NoMemory),
        Stop::Words(left) => {
            let end = bytes.len().saturating_sub(DIGEST_BYTES);
            let position = end.saturating_sub(left.saturating_mul(4));
            fault(position, CheckpointFaultKind::Machine)
        }
    }
}

/// Reads a checkpoint. The bytes are exactly the checkpoint of the kernel that is returned.
///
/// If an allocation fails, the fault is `NoMemory`. A fault of the kind `Machine` means that heading, length and checksum are right, but this
/// function built no kernel whose words are those of the file. It is tested, and not proved, that there is no such kernel. Any other fault
/// means that the bytes are no checkpoint.
pub fn read_checkpoint(alloc: Global, bytes: &[u8]) -> Result<Checkpoint, CheckpointFault>
    ensures ok { IfOk result (λ c. IsCheckpoint c.frames c.entries c.kernel bytes.now) }
    ensures none { IfErr result
        (λ f. (f.kind ≡ LacksMemory) ⊎ (f.kind ≡ IsOfWords) ⊎ IsNoCheckpoint bytes.now) }
    ensures form { IfErr result (λ f. f.kind ≡ IsOfWords → HasForm bytes.now) }
{
    let heading = match read_heading(bytes) {
        Ok(heading) => heading,
        Err(fault) => return Err(fault),
    };
    if let Some(fault) = check_end(bytes, heading.count) {
        return Err(fault);
    }
    let Ok(words) = words_of(alloc, bytes, heading.count) else {
        return Err(fault(HEADING_BYTES, CheckpointFaultKind::NoMemory));
    };
    match build(alloc, heading.frames, heading.size, words.as_slice()) {
        Ok(kernel) => compared(alloc, bytes, heading, kernel),
        Err(stop) => Err(stopped(bytes, stop)),
    }
}
