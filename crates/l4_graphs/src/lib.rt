//! The graph of the states of a litmus test as text in the DOT language.
#![tactic(auto)]

mod graphs;

pub use graphs::graph_text;
