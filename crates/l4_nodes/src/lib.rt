//! The nodes of all pages, each in a slot of a slab under a key: the content of a slot, its storage in 36 bytes, and the writes to a single
//! slot. Nodes name each other by keys. The crates above this one define their order and their trees.
#![tactic(auto)]

mod nodes;
mod packed;
mod slots;

pub use nodes::{
    Node, Slot, close, empty, give, is_wanted, node_of, place_of, see, set_next, set_place,
    set_plain, set_prev, set_rights, set_source, set_wanted, write,
};
pub use slots::Slots;

/// A page of a space.
#[derive(Clone, Copy, Debug, PartialEq, Eq)]
pub struct Place {
    /// The number of the space.
    pub space: u64,
    /// The page, below 2^22, in units of the size of the machine's pages.
    pub page: u32,
}
