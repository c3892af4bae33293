//! The outcomes of a test.
use l4_text::RunFault;

/// The size of a script whose answers are all as expected.
#[derive(Clone, Copy)]
pub struct Passed {
    /// The number of its lines: empty ones and comments too.
    pub lines: u64,
    /// The number of its lines that expect an answer. `..` is not counted.
    pub expectations: u64,
}

/// The first answer that is not the expected one.
#[derive(Drop)]
pub struct Difference {
    /// The number of the line that expects the answer. If no answer is expected, that of the line whose answers are more than expected.
    pub line: u64,
    /// The expected answer. Empty if no further answer is expected.
    pub expected: Vec<u8>,
    /// The actual answer. Empty if there is no further answer.
    pub found: Vec<u8>,
}

/// The first refusal that no expectation states.
#[derive(Drop)]
pub struct UnexpectedRefusal {
    /// The number of the line.
    pub line: u64,
    /// The answer that refuses the line, or a call of a served thread.
    pub answer: Vec<u8>,
}

/// Why a line cannot be part of a test.
#[derive(Clone, Copy)]
pub enum Fault {
    /// It does not end with a newline.
    Cut,
    /// It has more than 4,096 bytes.
    Long,
    /// It begins with `#=`, and no space and answer follow.
    NoAnswer,
    /// It expects an answer, and no line above it has answers.
    NoLine,
    /// It expects an answer, but `..` above it allows all further answers.
    AfterRest,
}

/// Why a script does not pass.
#[derive(Drop)]
pub enum Failure {
    /// An answer is not the expected one.
    Differs(Difference),
    /// A line, or a call of a served thread, is refused, and no expectation says so. A lenient test allows this.
    Refused(UnexpectedRefusal),
    /// The script expects no answers, apart from `..`. A lenient test allows this.
    NoExpectations,
    /// The line of this number cannot be part of a test.
    Malformed(u64, Fault),
    /// A read failed, or there was not enough memory.
    Stopped(RunFault),
}
