//! The help of the programs `l4` and `l4_steps`: what each prints for `--help`, below the lists of its commands and arguments.
#![tactic(auto)]

pub mod commands;
pub mod steps;
