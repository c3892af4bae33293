/// The reason why a run stopped before the end of its input, or before everything was written.
#[derive(Clone, Copy, Debug, PartialEq, Eq)]
pub enum RunFault {
    /// A read failed, or the input had not ended after 16,777,216 reads.
    Read,
    /// A write failed, or took no byte.
    Write,
    /// There was no memory at the start.
    Memory,
}
