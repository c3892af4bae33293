//! Why tokens are refused.
ghost use Rattle.std.specs.Prelude.{◌≡◌, ◌≤◌, length};
ghost use Rattle.l4_symbols.specs.Reasons.{reason_text};

use std::fmt;
use std::fmt::{Display, Formatter};

/// The reason why a token is refused.
#[derive(Clone, Copy, PartialEq, Eq, Debug)]
pub enum Reason {
    /// The message does not begin with a tag.
    NoTag,
    /// The label of a tag is not a number below 65,536.
    Label,
    /// A token that is neither a number nor an item.
    Unknown,
    /// An item without a send base.
    NoBase,
    /// An item without rights.
    NoRights,
    /// A token that does not name a receive window.
    Window,
    /// A token that does not name an fpage.
    Fpage,
    /// A token that does not name timeouts.
    Timeouts,
    /// A page or a number of pages that is not a number.
    Number,
    /// Rights that are not r, w and x in this order.
    Rights,
    /// A number of pages that is not a power of two.
    Count,
    /// Pages beyond the end of the space.
    Beyond,
    /// A first page that is not a multiple of the number of pages.
    Unaligned,
    /// A send base beyond the end of the space.
    Base,
    /// A plain word after an item.
    Behind,
    /// A word or an item for which the message has no room.
    Full,
    /// A token that does not name the control of Unmap.
    Control,
    /// A number of fpages that is not from 1 to 64.
    FpageCount,
    /// A token that does not name a thread's id.
    Id,
    /// The number and the version of an id that no thread can have.
    BadId,
}

impl Reason {
    /// Returns what would be right, as text.
    #[tactic(auto, unfolding(crate::specs::Reasons::reason_text))]
    pub fn text(self) -> &'static [u8]
        ensures says { result.now ≡ reason_text self }
        ensures short { length result.now ≤ 160 }
    {
        match self {
            Reason::NoTag => b"the first token must be tag:LABEL",
            Reason::Label => b"a label is a number from 0 to 65535",
            Reason::Unknown => {
                b"expected a number up to 4294967295, map:FIRST+COUNT>BASE:RIGHTS or grant:FIRST+COUNT>BASE:RIGHTS"
            }
            Reason::NoBase => {
                b"an item needs > and the page of its send base after its pages, as in map:16+4>32:rwx"
            }
            Reason::NoRights => {
                b"an item needs : and its rights at its end, as in map:16+4>32:rwx"
            }
            Reason::Window => b"expected all, none or FIRST+COUNT, as in 32+4",
            Reason::Fpage => b"expected FIRST+COUNT:RIGHTS, as in 16+4:rwx",
            Reason::Timeouts => {
                b"expected never or zero for both phases, or SEND,RECEIVE, as in zero,never"
            }
            Reason::Number => {
                b"pages and their count are numbers up to 4294967295, decimal or hexadecimal with a 0x prefix"
            }
            Reason::Rights => {
                b"rights are r, w and x in this order, with - for each right that is left out"
            }
            Reason::Count => b"the number of pages must be a power of two",
            Reason::Beyond => {
                b"the pages must lie in the space, which ends at page 1048575, or at page 4194303 with pages of 1024 bytes"
            }
            Reason::Unaligned => b"the first page must be a multiple of the number of pages",
            Reason::Base => {
                b"the send base must be a page of the space, which ends at page 1048575, or at page 4194303 with pages of 1024 bytes"
            }
            Reason::Behind => b"untyped words must come before the items",
            Reason::Full => b"a message has at most 63 words after its tag; an item takes two",
            Reason::Control => b"expected unmap:COUNT or flush:COUNT, as in flush:1",
            Reason::FpageCount => b"the number of fpages must be from 1 to 64",
            Reason::Id => b"expected nil, any, THREAD or THREAD,VERSION, as in 3 or 3,1",
            Reason::BadId => {
                b"no thread can have this id: its number is from 1 to 262143, and its version from 1 to 16383 and no multiple of 64"
            }
        }
    }
}

impl Display for Reason {
    fn fmt<W: fmt::Write>(&self, f: &mut Formatter<W>) -> fmt::Result {
        match str::from_utf8(self.text()) {
            Ok(text) => f.write_str(text),
            Err(_) => Err(fmt::Error),
        }
    }
}
