//! What the command lines of the programs request, and why one is invalid.
use arrayvec::ArrayVec;
use l4_decode::Reading;
use l4_fpage::PageSize;
use l4_msg::{MAX_WORDS, Region};
use l4_symbols::Reason;
use thiserror::Error;

/// A script to execute on a machine with this many frames, 1 to 4,096, of this size. It is in the file of this name, or comes from standard
/// input if there is no name, or if the name is `-`.
#[derive(Debug, Drop)]
pub struct ScriptOptions {
    pub frames: u32,
    pub size: PageSize,
    pub file: Option<String>,
}

/// A step list with another kernel's answers. It must have the steps and queries of the list in the file `against`, if one is named, and this
/// kernel's answer to each; if `partial`, they may be without answers. If `all`, every difference is reported; if `follow`, with the last calls of
/// the threads that its step names.
#[derive(Debug, Drop)]
pub struct JudgeOptions {
    pub list: ScriptOptions,
    pub against: Option<String>,
    pub partial: bool,
    pub all: bool,
    pub follow: bool,
}

/// A litmus test whose orders are searched, after visiting at most this many states. Prints every outcome that some order of the threads'
/// calls can have, without the orders if `brief`, and with the lines of orders if `explain`; or only the script that produces outcome `witness`, if there is one; or the graph of the
/// states if `dot`; then `witness` and `brief` are not set. If `lenient`, a line before `unordered` may be refused. `has_frames` and `has_size`
/// say whether the command line has the number of frames and their size.
#[derive(Debug, Drop)]
pub struct OrdersOptions {
    pub test: ScriptOptions,
    pub has_frames: bool,
    pub has_size: bool,
    pub most: u32,
    pub witness: Option<u32>,
    pub brief: bool,
    pub dot: bool,
    pub explain: bool,
    pub lenient: bool,
}

/// What the command line of `l4` requests.
#[derive(Debug, Drop)]
pub enum Options {
    /// Answers a script: up to its first refused line if `strict`, with an explanation of each answer if `explain`, with the number of its
    /// line before each answer if `number`, and with the pages that each transfer moved if `moves`. Writes the history to the file
    /// `history_to` while the script runs; then neither `number` nor `moves` is set.
    Run {
        script: ScriptOptions,
        strict: bool,
        explain: bool,
        number: bool,
        moves: bool,
        history_to: Option<String>,
    },
    /// Writes the history of a script as a step list, up to its first refused line if `strict`, with the answers to each step if `answers`.
    History {
        script: ScriptOptions,
        strict: bool,
        answers: bool,
    },
    /// Writes the history in these files of segments as a step list, with the answers to each step if `answers`.
    Segments {
        files: Vec<String>,
        answers: bool,
    },
    /// Judges a step list with another kernel's answers.
    Judge(JudgeOptions),
    /// Prints how a page got into the space of a thread, by a script. If `strict`, the script must have no refused line.
    Why {
        script: ScriptOptions,
        strict: bool,
        thread: u32,
        page: u32,
    },
    /// Prints how a page got into the space of a thread, by the history in these files of segments.
    WhySegments {
        files: Vec<String>,
        thread: u32,
        page: u32,
    },
    /// Prints the shortest plan of this region of pages of this size, or why there is none.
    Plan {
        region: Region,
        size: PageSize,
    },
    /// Checks the plan in this file, or on standard input if there is none, against this region of pages of this size.
    Check {
        region: Region,
        size: PageSize,
        file: Option<String>,
    },
    /// Explains these words, at most 64, by a reading and for pages of this size.
    Decode {
        words: ArrayVec<u32, MAX_WORDS>,
        reading: Reading,
        size: PageSize,
    },
    /// Compares the answers to the scripts in these files with those that they expect. If `lenient`, refusals need not be expected, and
    /// neither need anything else. Prints the results in TAP if `tap`. If `write`, writes copies that expect the actual answers instead; then
    /// neither `tap` nor `lenient` is set.
    Test {
        files: Vec<String>,
        tap: bool,
        write: bool,
        lenient: bool,
    },
    /// Searches all orders of a litmus test.
    Orders(OrdersOptions),
    /// Prints these words.
    Encode(ArrayVec<u32, MAX_WORDS>),
    /// Prints this text: the usage, or the version.
    Show(String),
}

/// What the command line of `l4_steps` requests.
#[derive(Debug, Drop)]
pub enum StepOptions {
    /// Answers a step list.
    Run(ScriptOptions),
    /// Prints this text: the usage, or the version.
    Show(String),
}

/// Why a command line is invalid.
#[derive(Debug, Drop, Error)]
pub enum OptionFault {
    /// There was not enough memory to read it.
    #[error("error: out of memory")]
    Memory,
    /// A word is unknown, or there are too many or too few.
    #[error("{0}")]
    Words(String),
    /// The number of frames is not a number from 1 to 4,096 in decimal digits.
    #[error("error: invalid value '{0}' for '--frames <N>': expected a decimal number from 1 to 4096")]
    Frames(String),
    /// The page size is neither 4096 nor 1024 in decimal digits.
    #[error("error: invalid value '{0}' for '--page-size <BYTES>': expected 4096 or 1024")]
    Pages(String),
    /// This argument, or the value of this option, is not a number below 2^32 in decimal digits.
    #[error("error: invalid value '{word}' for '{name}': expected a decimal number up to 4294967295")]
    Decimal { name: &'static str, word: String },
    /// The rights are not r, w and x in this order, each of them or `-` or `_` in its place.
    #[error("error: invalid value '{0}' for '<RIGHTS>': expected r, w and x in this order, with _ for each right that is left out")]
    Rights(String),
    /// Rights that begin with `-` were taken for an option. `instead` is what to write.
    #[error("error: '{word}' was read as an option: for '<RIGHTS>', write {instead}, with _ instead of -")]
    Hyphens { word: String, instead: &'static str },
    /// These two options exclude each other.
    #[error("error: the argument '{0}' cannot be used with '{1}'")]
    Exclude(&'static str, &'static str),
    /// A word is not a number.
    #[error("error: invalid value '{0}' for '<WORD>...': expected a number up to 4294967295, decimal or hexadecimal with a 0x prefix")]
    Word(String),
    /// There are more words than a message can have.
    #[error("error: unexpected value '{0}' for '<WORD>...': at most 64 words are decoded")]
    TooMany(String),
    /// A token of a message is refused, for this reason.
    #[error("error: invalid value '{token}' for '<TOKEN>...': {reason}")]
    Token { token: String, reason: Reason },
    /// There are more tokens than are read.
    #[error("error: unexpected value '{0}' for '<TOKEN>...': at most 64 tokens are encoded")]
    TooManyTokens(String),
    /// The kind of word to encode is unknown.
    #[error("error: invalid value '{0}' for '--as <KIND>': expected message, fpage, window, timeouts, control or id")]
    Kind(String),
    /// The reading is unknown.
    #[error("error: invalid value '{0}' for '--as <READING>': expected message, fpage, window, id or control")]
    Reading(String),
}
