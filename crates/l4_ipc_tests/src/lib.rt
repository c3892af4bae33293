//! Tests of the kernel.
#![tactic(auto)]

#[cfg(test)]
mod kernel;
