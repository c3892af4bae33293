//! Symbolic tokens, such as `tag:7` and `map:16+4>32:rwx`, and their words.
#![tactic(auto)]

mod items;
mod laws;
mod messages;
mod pages;
mod reasons;
mod rows;
mod spelling;
mod words;
mod writing;

pub use items::item;
pub use laws::read_as_named;
pub use messages::SymbolicMessage;
pub use reasons::Reason;
pub use rows::MessageTokens;
pub use words::{WordKind, word_of};
pub use writing::write_words;
