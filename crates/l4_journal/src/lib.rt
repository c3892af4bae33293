//! The journal: items as words, one after another, and the words of calls, answers and replies.
#![tactic(auto)]

mod answers;
mod calls;
mod journal;
mod laws;
mod lists;
mod places;
mod replies;
mod store;
mod words;

pub use answers::{ANSWER_WORDS, outcome_word, put_answer, read_answer, read_outcome};
pub use calls::{FAULT, FIELD_WORDS, IPC, call_tag, put_fields, read_call};
pub use journal::{FromWords, ItemsFrom, Journal};
pub use laws::written_words_read_back;
pub use places::{PLACE_WORDS, put_place, read_place};
pub use replies::{REPLY_WORDS, put_reply, read_reply};
pub use words::{RECORD_WORDS, Record, Words, read_word, read_words};
