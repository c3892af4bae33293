//! Tests of the locked kernel on running threads. Each ends by itself.
#![tactic(auto)]

#[cfg(test)]
mod calls;
#[cfg(test)]
mod canceling;
#[cfg(test)]
mod closing;
#[cfg(test)]
mod faults;
#[cfg(test)]
mod limits;
#[cfg(test)]
mod messages;
#[cfg(test)]
mod receipts;
#[cfg(test)]
mod sigma0;
#[cfg(test)]
mod storms;
#[cfg(test)]
mod waiting;
