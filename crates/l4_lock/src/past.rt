//! The receipts of a seat as a list that only contracts see.
ghost use Rattle.std.specs.Prelude.{◌≡◌, List, []};
ghost use Rattle.std.specs.Borrow.{ftrue};
ghost use Rattle.std.specs.Coded.{coded_list};
ghost use Rattle.l4_lock.specs.declared.entries.Receipt.{Receipt as AReceipt};
ghost use Rattle.l4_lock.specs.contracts.entries.Receipt as receipt;

use crate::receipts::Receipts;
use std::marker::Model;

/// The receipts that were forgotten. It takes no memory, and compiles to nothing: the list exists in contracts only.
#[derive(Drop)]
pub(crate) struct Past {
    pub ghost receipts: { List AReceipt } by { coded_list receipt.the_row.coded },
}

impl Model for Past {
    ghost also_owns = { λ _. ftrue };
}

// It owns nothing.
unsafe impl Send for Past {}

unsafe impl Sync for Past {}

impl Past {
    /// Returns the empty list.
    pub fn new() -> Past
        ensures { result.receipts ≡ [] }
    {
        Past {}
    }

    /// Returns the list of all receipts that a seat got.
    pub fn of(_receipts: &Receipts) -> Past
        ensures { result.receipts ≡ _receipts.now.items }
    {
        Past {}
    }
}
