//! Why a line can't be read, as text: which token is wrong, and what would be right in its place.
#![tactic(auto)]

mod hints;
mod quoted;
mod reasons;

pub use reasons::{Reason, line_reason, missing_reason, symbol_reason, token_reason};
