//! The meaning of messages, fpages, receive windows and thread ids, as text.
#![tactic(auto)]

mod controls;
mod decoding;
mod fpages;
mod ids;
mod items;
mod laws;
mod meanings;
mod refusals;
mod spelling;
mod tags;

pub use decoding::{Reading, decode, put_message};
pub use laws::{decoded_is_unique, told_as_read};
pub use meanings::{Meaning, meaning_of};
