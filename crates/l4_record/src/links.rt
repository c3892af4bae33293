//! The links of a chain.

use l4_ipc::{Place, Rights};

/// One transfer of the chain of moves that led to a page.
#[derive(Clone, Copy, Debug, PartialEq, Eq)]
pub struct ChainLink {
    /// The number of the transfer's entry in the history, from 0.
    pub entry: usize,
    /// The sender's page.
    pub source: Place,
    /// The receiver's page.
    pub target: Place,
    /// Whether the item granted the page. Otherwise it mapped it.
    ///
    pub grant: bool,
    /// The rights that the sender's page had just before.
    pub source_rights: Rights,
    /// The rights that the item named.
    pub item_rights: Rights,
}
