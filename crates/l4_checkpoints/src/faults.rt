//! Why bytes are not read as a checkpoint.
ghost use Rattle.std.specs.Prelude.{◌≡◌};

/// What is wrong with the bytes at a position.
#[derive(Clone, Copy, Debug, PartialEq, Eq)]
pub enum CheckpointFaultKind {
    /// An allocation failed.
    NoMemory,
    /// The first word is not "LCP4".
    Magic,
    /// The version of the form is unknown.
    Version,
    /// The number of frames is not in 1..=4096.
    Frames,
    /// The bytes of a page are neither 4,096 nor 1,024.
    Pages,
    /// The number of entries exceeds 2^63.
    Numbers,
    /// The bytes end within the heading, the words or the checksum.
    Cut,
    /// The checksum is not that of the bytes before it.
    Checksum,
    /// Bytes follow the checksum.
    Extra,
    /// Heading, length and checksum are right, but no kernel was built from the words.
    Machine,
}

/// Why bytes are not read as a checkpoint.
#[derive(Clone, Copy, Debug, PartialEq, Eq)]
pub struct CheckpointFault {
    /// The position in bytes, from 0.
    pub position: usize,
    /// What is wrong there.
    pub kind: CheckpointFaultKind,
}

/// Returns a fault at a position.
pub(crate) fn fault(position: usize, kind: CheckpointFaultKind) -> CheckpointFault
    ensures { (result.position ≡ position) × (result.kind ≡ kind) }
{
    CheckpointFault { position, kind }
}
