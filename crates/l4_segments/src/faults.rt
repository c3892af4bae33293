//! Why bytes are not the file of a segment.

/// What is wrong with the bytes at a position.
#[derive(Clone, Copy, Debug, PartialEq, Eq)]
pub enum FaultKind {
    /// An allocation failed.
    NoMemory,
    /// The bytes do not begin with "LSG4", nor end within it.
    Magic,
    /// The version of the form is unknown.
    Version,
    /// The number of frames is not in 1..=4096.
    Frames,
    /// The bytes of a page are neither 4,096 nor 1,024.
    Pages,
    /// The number of an entry would exceed 2^63.
    Numbers,
    /// The entry is altered.
    Entry,
    /// The checksum is not that of the bytes before it.
    Checksum,
    /// The bytes end within the heading, the entry or the checksum. Bytes that end within a heading begin with "LSG4", or end within it.
    Cut,
    /// Bytes follow the checksum.
    Extra,
}

/// Why bytes are not the file of a segment. The bytes before the position are right. At the position begins the first word of the heading,
/// the first entry or the checksum that is wrong or cut off, or the first byte after the checksum.
#[derive(Clone, Copy, Debug, PartialEq, Eq)]
pub struct FileFault {
    /// The position in bytes, from 0.
    pub position: usize,
    /// What is wrong there.
    pub kind: FaultKind,
}
