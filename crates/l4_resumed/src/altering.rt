//! Checkpoints with altered words, and the right checksum.

use l4_checkpoints::{CheckpointFaultKind, read_checkpoint, write_checkpoint};
use sha2::{Digest, Sha256};
use std::alloc::{AllocError, Global};

/// The bytes of a checksum.
const DIGEST_BYTES: usize = 32;

/// The greatest number of bytes that are altered.
const MOST: usize = 64;

/// What was read.
#[derive(Clone, Copy)]
pub struct Readings {
    /// The number of altered files.
    pub count: u64,
    /// The number of those that were read as another file.
    pub wrong: u64,
}

/// Returns the file with another byte at a position, and the checksum of that.
fn altered(alloc: Global, file: &[u8], at: usize, change: u8) -> Result<Vec<u8>, AllocError> {
    let end = file.len().saturating_sub(DIGEST_BYTES);
    let mut bytes = Vec::new(alloc);
    for i in 0..end {
        let byte = match file.get(i) {
            Some(byte) => *byte,
            None => 0,
        };
        bytes.push(if i == at { byte ^ change } else { byte })?;
    }
    let digest = Sha256::digest(bytes.as_slice());
    bytes.extend_from_slice(&digest)?;
    Ok(bytes)
}

/// Reads a file. If it is read, it must be the file of what is read.
fn read(alloc: Global, file: &[u8], readings: &mut Readings) -> Result<(), AllocError> {
    readings.count = readings.count.saturating_add(1);
    match read_checkpoint(alloc, file) {
        Ok(read) => {
            let again = write_checkpoint(alloc, read.frames, read.entries, &read.kernel)?;
            if again.as_slice() != file {
                readings.wrong = readings.wrong.saturating_add(1);
            }
            Ok(())
        }
        Err(fault) => match fault.kind {
            CheckpointFaultKind::NoMemory => Err(AllocError),
            _ => Ok(()),
        },
    }
}

/// Alters bytes of a file in two ways, up to 64 of them and none of its checksum, and reads each altered file. Returns None if memory runs out.
pub fn read_altered(alloc: Global, file: &[u8]) -> Option<Readings> {
    let mut readings = Readings { count: 0, wrong: 0 };
    let end = file.len().saturating_sub(DIGEST_BYTES);
    let stride = end / MOST + 1;
    for turn in 0..MOST {
        let i = turn * stride;
        if i >= end {
            break;
        }
        let Ok(lower) = altered(alloc, file, i, 1) else {
            return None;
        };
        if read(alloc, lower.as_slice(), &mut readings).is_err() {
            return None;
        }
        let Ok(upper) = altered(alloc, file, i, 6) else {
            return None;
        };
        if read(alloc, upper.as_slice(), &mut readings).is_err() {
            return None;
        }
    }
    Some(readings)
}
