//! Executes the steps of a history from checkpoints.

use l4_checkpoints::{CheckpointFaultKind, read_checkpoint, write_checkpoint};
use l4_fpage::PageSize;
use l4_ipc::Kernel;
use l4_keys::put_kernel;
use l4_record::{Entry, History};
use std::alloc::{AllocError, Global};

/// How the steps went.
#[derive(Drop)]
pub struct Resumed {
    /// The number of checkpoints.
    pub count: u64,
    /// The number of checkpoints that were refused, or whose kernel answered otherwise.
    pub wrong: u64,
    /// The last checkpoint.
    pub last: Vec<u8>,
}

impl Resumed {
    /// Returns the word of the last checkpoint that begins this number of bytes before its end.
    fn word(&self, before: usize) -> u32 {
        let at = self.last.len().saturating_sub(before);
        match self.last.as_slice().get(at..at.saturating_add(4)) {
            Some([a, b, c, d]) => u32::from_le_bytes([*a, *b, *c, *d]),
            _ => 0,
        }
    }

    /// Returns the checksum of the last checkpoint.
    pub fn sum(&self) -> [u32; 8] {
        [
            self.word(32),
            self.word(28),
            self.word(24),
            self.word(20),
            self.word(16),
            self.word(12),
            self.word(8),
            self.word(4),
        ]
    }
}

/// Returns whether two kernels have the same words.
fn are_same(alloc: Global, kernel: &Kernel, other: &Kernel) -> Result<bool, AllocError> {
    let mut words = Vec::new(alloc);
    let mut others = Vec::new(alloc);
    put_kernel(kernel, &mut words)?;
    put_kernel(other, &mut others)?;
    Ok(words.as_slice() == others.as_slice())
}

/// Executes a step on a kernel. Returns whether it answers as the entry says.
fn answers(kernel: &mut Kernel, entry: &Entry) -> bool {
    match kernel.step(&entry.step) {
        Ok(answer) => answer == entry.answer,
        Err(_) => false,
    }
}

/// Writes a kernel and reads it back. Returns it, unless it is refused or another one.
fn read_back(
    alloc: Global,
    frames: u32,
    kernel: &Kernel,
    resumed: &mut Resumed,
) -> Result<Option<Kernel>, AllocError> {
    let file = write_checkpoint(alloc, frames, resumed.count as usize, kernel)?;
    resumed.count = resumed.count.saturating_add(1);
    let read = read_checkpoint(alloc, file.as_slice());
    resumed.last = file;
    match read {
        Ok(checkpoint) => {
            let same = are_same(alloc, kernel, &checkpoint.kernel)?;
            Ok(if same { Some(checkpoint.kernel) } else { None })
        }
        Err(fault) => match fault.kind {
            CheckpointFaultKind::NoMemory => Err(AllocError),
            _ => Ok(None),
        },
    }
}

/// Executes one entry on the kernel that was read back from the checkpoint of this one.
fn resume(
    alloc: Global,
    frames: u32,
    kernel: &mut Kernel,
    entry: &Entry,
    resumed: &mut Resumed,
) -> Result<(), AllocError> {
    let right = match read_back(alloc, frames, kernel, resumed)? {
        Some(read) => {
            *kernel = read;
            answers(kernel, entry)
        }
        None => {
            let _ = answers(kernel, entry);
            false
        }
    };
    if !right {
        resumed.wrong = resumed.wrong.saturating_add(1);
    }
    Ok(())
}

/// Executes all entries, each from a checkpoint of the state before it. Returns None if memory runs out.
pub fn resume_all(
    alloc: Global,
    frames: u32,
    size: PageSize,
    history: &History,
) -> Option<Resumed> {
    let Ok(mut kernel) = Kernel::boot(alloc, frames, size) else {
        return None;
    };
    let mut resumed = Resumed {
        count: 0,
        wrong: 0,
        last: Vec::new(alloc),
    };
    for place in 0..history.len() {
        let entry = history.get(place)?;
        if resume(alloc, frames, &mut kernel, &entry, &mut resumed).is_err() {
            return None;
        }
    }
    match read_back(alloc, frames, &kernel, &mut resumed) {
        Ok(Some(_)) => {}
        Ok(None) => resumed.wrong = resumed.wrong.saturating_add(1),
        Err(_) => return None,
    }
    Some(resumed)
}
