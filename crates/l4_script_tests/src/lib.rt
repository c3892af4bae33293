//! Tests of the crates that stand between the kernel and the programs.
#![tactic(auto)]

#[cfg(test)]
mod handed_out;
#[cfg(test)]
mod journal;
#[cfg(test)]
mod options;
#[cfg(test)]
mod plan_lines;
#[cfg(test)]
mod recorder;
#[cfg(test)]
mod servers;
#[cfg(test)]
mod shell;
#[cfg(test)]
mod step_lines;
