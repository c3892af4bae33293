ghost use Rattle.std.specs.Prelude.{◌≡◌, ◌≤◌, List, ℕ, length, [], None, Some, MatchBool};

use crate::reading::{item_of_line, page_of_line, tag_of_line};
use arrayvec::ArrayVec;
use l4_msg::{Item, MAX_ITEMS};

/// The largest number of item lines, and of page lines, in a claim.
pub const CLAIM_LINES: usize = 2048;

/// The largest number of tag lines in a claim.
pub const CLAIM_TAGS: usize = 67;

/// The kind of claim that the first line makes.
#[derive(Clone, Copy, PartialEq, Eq, Debug)]
pub enum Head {
    /// The items are a plan. The first line is the tag line of the first message.
    Plan,
    /// Every plan is too long.
    TooLong,
}

/// The claim that the lines of an input have made so far.
#[derive(Drop)]
pub struct Claim {
    pub head: Option<Head>,
    /// The tags, one for each message.
    pub tags: ArrayVec<u32, CLAIM_TAGS>,
    pub items: ArrayVec<Item, CLAIM_LINES>,
    pub pages: ArrayVec<u32, CLAIM_LINES>,
}

impl Claim {
    ghost use Rattle.l4_plan_lines.specs.Claims.{IsClaimOf};
    ghost use Rattle.l4_plan_lines.specs.Inside.Claims.{SaysMore, SaysAll, HasEmptyGroup, HasItems, IsSecond, IsSingle, AwaitsTag, AwaitsItem};

    /// Returns the claim of no lines.
    pub fn new() -> Claim
        ensures { IsClaimOf [] result }
    {
        Claim {
            head: None,
            tags: ArrayVec::new(),
            items: ArrayVec::new(),
            pages: ArrayVec::new(),
        }
    }

    /// Returns the number of lines that make the claim.
    pub fn lines(&self) -> u32
        ensures few { result ≤ 2115 }
        ensures count { (lines : List (List ℕ)) → IsClaimOf lines self.now → result ≡ length lines }
    {
        let Some(head) = self.head else {
            return 0;
        };
        match head {
            Head::Plan => self.tags.len() as u32 + self.items.len() as u32,
            Head::TooLong => 1 + self.pages.len() as u32,
        }
    }

    /// Returns whether the last line is a tag line. Its message then has no item.
    pub fn has_empty_group(&self) -> bool
        ensures { MatchBool result (HasEmptyGroup self.now) (HasItems self.now) }
    {
        let Some(head) = self.head else {
            return false;
        };
        match head {
            Head::Plan => {
                if self.items.len() + MAX_ITEMS == MAX_ITEMS * self.tags.len() {
                    return true;
                }
                false
            }
            Head::TooLong => false,
        }
    }

    /// Returns whether the line is a tag line directly after a tag line.
    pub fn is_second_tag(&self, line: &[u8]) -> bool
        ensures { MatchBool result (IsSecond self.now line.now) (IsSingle self.now line.now) }
    {
        if self.has_empty_group() {
            return match tag_of_line(line) {
                Some(_) => true,
                None => false,
            };
        }
        false
    }

    /// Adds the content of a line. Returns `false` if the line is not allowed at this position.
    pub fn add(&mut self, line: &[u8]) -> bool
        ensures { MatchBool result (SaysMore self.old self.new line.now)
            (SaysAll self.old line.now) }
    {
        match self.head {
            None => self.add_head(line),
            Some(Head::Plan) => self.add_row(line),
            Some(Head::TooLong) => self.add_page(line),
        }
    }

    /// Adds the first line.
    fn add_head(&mut self, line: &[u8]) -> bool
        requires { self.old.head ≡ None }
        ensures { MatchBool result (SaysMore self.old self.new line.now)
            (SaysAll self.old line.now) }
    {
        let long = b"too-long".as_slice();
        if line == long {
            self.head = Some(Head::TooLong);
            return true;
        }
        self.add_tag(line)
    }

    /// Adds the line of a tag or an item.
    fn add_row(&mut self, line: &[u8]) -> bool
        requires { self.old.head ≡ Some Head.Plan }
        ensures { MatchBool result (SaysMore self.old self.new line.now)
            (SaysAll self.old line.now) }
    {
        if self.items.len() == MAX_ITEMS * self.tags.len() {
            return self.add_tag(line);
        }
        self.add_item(line)
    }

    /// Adds the line of a tag, if one is expected.
    fn add_tag(&mut self, line: &[u8]) -> bool
        requires { AwaitsTag self.old line.now }
        ensures { MatchBool result (SaysMore self.old self.new line.now)
            (SaysAll self.old line.now) }
    {
        if self.tags.is_full() {
            return false;
        }
        match tag_of_line(line) {
            Some(tag) => {
                self.head = Some(Head::Plan);
                self.tags.push(tag);
                true
            }
            None => false,
        }
    }

    /// Adds the line of an item, if one is expected.
    fn add_item(&mut self, line: &[u8]) -> bool
        requires { AwaitsItem self.old }
        ensures { MatchBool result (SaysMore self.old self.new line.now)
            (SaysAll self.old line.now) }
    {
        if self.items.is_full() {
            return false;
        }
        if self.pages.is_full() {
            return false;
        }
        match item_of_line(line) {
            Some((item, page)) => {
                self.items.push(item);
                self.pages.push(page);
                true
            }
            None => false,
        }
    }

    /// Adds the line of a page.
    fn add_page(&mut self, line: &[u8]) -> bool
        requires { self.old.head ≡ Some Head.TooLong }
        ensures { MatchBool result (SaysMore self.old self.new line.now)
            (SaysAll self.old line.now) }
    {
        if self.pages.is_full() {
            return false;
        }
        match page_of_line(line) {
            Some(page) => {
                self.pages.push(page);
                true
            }
            None => false,
        }
    }
}
