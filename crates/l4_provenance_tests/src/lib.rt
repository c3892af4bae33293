//! Tests of provenance and of its checker.
#![tactic(auto)]

#[cfg(test)]
mod chains;
