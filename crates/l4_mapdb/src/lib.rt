//! Mappings, and the effect of a message on them, over the list of nodes (L4 X.2 manual, IPC: map and grant items). A
//! message is delivered as a whole, or refused, and then nothing changes. Each step touches only the nodes and pages
//! that it moves.
#![tactic(auto)]

mod clearing;
mod delivering;
mod moving;
mod room;
mod simple;
mod sources;
mod tangles;
mod unmarking;

pub use delivering::deliver;
use l4_fpage::Rights;
pub use l4_msg::ItemMove;

/// A page of a space.
#[derive(Clone, Copy, Debug, PartialEq, Eq)]
pub struct Place {
    /// The number of the space.
    pub space: u64,
    /// The page, below 2^22.
    pub page: u32,
}

/// The mapping at a place.
#[derive(Clone, Copy, Debug, PartialEq, Eq)]
pub struct Mapping {
    /// The number of the frame.
    pub frame: u32,
    /// The rights of the space to the page.
    pub rights: Rights,
    /// The place that it was mapped from. A granted page keeps the parent that it had. `None` at the root of its
    /// tree.
    pub parent: Option<Place>,
}

/// The reason why a message was not delivered. Nothing has changed.
#[derive(Clone, Copy, Debug, PartialEq, Eq)]
pub enum Cause {
    /// The used moves conflict: two have the same target, a granted page is moved twice, or a page that is replaced
    /// is itself a source or an ancestor of one.
    Entangled,
    /// The allocation for a target that was not present failed.
    NoMemory,
}
