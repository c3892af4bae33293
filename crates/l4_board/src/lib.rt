//! The board: one word, from one publisher to all watches, whose number never falls.
//!
#![tactic(auto)]

mod board;

pub use board::{Board, BoardRule, Publisher, View, Watch};
