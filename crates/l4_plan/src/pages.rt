//! The first pages of a plan's items.
ghost use Rattle.std.specs.Prelude.{◌≡◌, ℕ, ◌+◌, ◌<◌, ◌≤◌, length};
ghost use Rattle.std.specs.Iterator.{YieldsFirst, item_count};

use crate::splitting::largest_allowed;
use l4_msg::Region;
use std::marker::Model;

/// An iterator over the source pages of a region at which the largest allowed blocks begin, one directly after
/// another. It needs no memory: each page is computed from the one before it.
#[derive(Debug, Drop)]
pub struct Pages {
    pub(crate) region: Region,
    pub(crate) page: u32,
    pub(crate) left: u32,
}

impl Model for Pages {
    ghost use Rattle.std.specs.Prelude.{ℕ, List};
    ghost use Rattle.l4_plan.specs.Inside.Split.{starts_from};
    ghost use Rattle.l4_plan.specs.Inside.Listings.{GoesOn};

    ghost Value = { List ℕ };

    ghost view = { λ pages. starts_from pages.region pages.page pages.left };

    ghost invariant = { λ pages. GoesOn pages.region pages.page pages.left };
}

impl Pages {
    /// Returns the number of pages that are left.
    pub fn len(&self) -> usize
        ensures { result ≡ length self.now }
    {
        self.left as usize
    }
}

impl Iterator for Pages {
    type Item = u32;

    ghost next_gives = { YieldsFirst (λ pages. pages) };

    ghost remaining = { item_count (λ pages. pages) };

    fn next(&mut self) -> Option<u32> {
        if self.left == 0 {
            return None;
        }
        let page = self.page;
        self.page = page + (1 << largest_allowed(&self.region, page));
        self.left -= 1;
        Some(page)
    }
}
