ghost use Rattle.std.specs.Prelude.{◌≡◌, ℕ, ◌+◌, ◌%◌, ◌^◌, ◌<◌, ◌≤◌, ◌↔◌, ◌⊎◌, IsTrue, IsSome, IfSome, MatchOption};
ghost use Rattle.l4_fpage.specs.Pages.{IsBlock, InBlock, LiesIn, most_pages};

use crate::{MOST_PAGES, MOST_SPACE_LOG, PageSize};

/// A block of 2^log pages, with `log` from 0 to 22. Its first page is a multiple of 2^log, and all its pages are
/// below 2^22. A space with pages of 4,096 bytes has only those below 2^20 (this profile's own).
#[derive(Clone, Copy, PartialEq, Eq, Debug)]
pub struct Block {
    pub first: u32,
    pub log: u8,
    pub ghost block: { IsBlock first log },
}

impl Block {
    /// Returns the block of 2^log pages that begins at page `first`. Returns `None` if `log` is above 22, if `first`
    /// is not a multiple of 2^log, or if a page of the block is not below 2^22.
    pub fn new(first: u32, log: u8) -> Option<Block>
        ensures valid { IsSome result ↔ IsBlock first log }
        ensures first { IfSome result (λ b. b.first ≡ first) }
        ensures log { IfSome result (λ b. b.log ≡ log) }
    {
        if log <= MOST_SPACE_LOG {
            let size = 1u32 << log;
            if first % size == 0 && first < MOST_PAGES {
                return Some(Block { first, log });
            }
        }
        None
    }

    /// Returns whether a space with pages of this size has all pages of the block.
    pub fn lies_in(&self, size: PageSize) -> bool
        ensures { IsTrue result ↔ LiesIn size self.now.first self.now.log }
    {
        self.first + (1 << self.log) <= size.space_pages()
    }

    /// Returns whether the block contains this page.
    pub fn contains(&self, page: u32) -> bool
        ensures { IsTrue result ↔ InBlock self.now.first self.now.log page }
    {
        page >= self.first && page - self.first < 1 << self.log
    }

    /// Returns the pages that are in both blocks. Two blocks are nested or disjoint, so the result is one of the two,
    /// or `None`.
    pub fn intersection(self, other: Block) -> Option<Block>
        ensures nested { IfSome result (λ b. (b ≡ self) ⊎ (b ≡ other)) }
        ensures both { IfSome result
            (λ b. (page : ℕ) → InBlock b.first b.log page
            ↔ (InBlock self.first self.log page × InBlock other.first other.log page)) }
        ensures disjoint { IsSome result
            ⊎
            ((page : ℕ) → InBlock self.first self.log page → ¬ InBlock other.first other.log page) }
    {
        if self.log > other.log {
            return if self.contains(other.first) {
                Some(other)
            } else {
                None
            };
        }
        if other.contains(self.first) {
            return Some(self);
        }
        None
    }

    /// Returns the smallest block that contains both pages.
    pub fn join(a: u32, b: u32) -> Block
        requires a { a < most_pages }
        requires b { b < most_pages }
        ensures holds_a { InBlock result.first result.log a }
        ensures holds_b { InBlock result.first result.log b }
        ensures smallest { (first log : ℕ) → IsBlock first log → InBlock first log a
            → InBlock first log b → result.log ≤ log }
    {
        let mut log = 0u8;
        while log < MOST_SPACE_LOG && a >> log != b >> log {
            log += 1;
        }
        Block {
            first: a >> log << log,
            log,
        }
    }
}
