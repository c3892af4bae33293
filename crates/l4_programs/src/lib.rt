//! What programs share: the words of a command line, standard streams that remember their last error, and exit statuses with the message
//! on standard error.
#![tactic(auto)]

mod endings;
mod streams;

pub use endings::{
    NO_MEMORY, NOT_UNDERSTOOD, STANDARD_INPUT, Source, command_words, not_created, opened, show,
    status_of, stopped, warn_of_cut_line,
};
pub use streams::{WatchedReader, WatchedWriter, cause};
