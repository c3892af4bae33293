//! The rules of a litmus test: which answers they name, and when an outcome breaks one.
#![tactic(auto)]

mod forms;
mod queries;
mod rules;
mod tokens;

pub use forms::{Query, can_answer, is_stuck};
pub use queries::{is_reply_of, query_of};
pub use rules::{is_allowance, is_broken, over_threads, rule_answer};
