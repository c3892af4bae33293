//! Tests of the crates below the kernel, and of those for plans, texts and sigma0.
#![tactic(auto)]

#[cfg(test)]
mod fpage;
#[cfg(test)]
mod links;
#[cfg(test)]
mod mapdb;
#[cfg(test)]
mod msg;
#[cfg(test)]
mod nodes;
#[cfg(test)]
mod plan;
#[cfg(test)]
mod plan_check;
#[cfg(test)]
mod sigma0;
#[cfg(test)]
mod spaces;
#[cfg(test)]
mod text;
#[cfg(test)]
mod threads;
#[cfg(test)]
mod unmap;
