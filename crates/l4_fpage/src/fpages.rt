ghost use Rattle.std.specs.Prelude.{◌≡◌, ℕ, ◌+◌, ◌-◌, ◌*◌, ◌/◌, ◌%◌, ◌^◌, ◌<◌, ◌≤◌, ◌↔◌, IsTrue, IsSome, IfSome, MatchOption, IfOk, IsErr};
ghost use Rattle.l4_fpage.specs.Pages.{InBlock, LiesIn, page_bytes, page_log, space_log};

use crate::{Block, PageSize, Rights};

/// The word is not a valid fpage: its size field is 1 with a base other than 0, or 2 to 9, or 33 to 63.
#[derive(Clone, Copy, PartialEq, Eq, Debug)]
pub struct BadFpage;

/// 2^log bytes at `base`, with rights: `log` is 10 to 31, and `base`, in bytes, a multiple of
/// 2^log (L4 X.2 manual, Fpages).
#[derive(Clone, Copy, PartialEq, Eq, Debug)]
pub struct Extent {
    pub base: u32,
    pub log: u8,
    pub rights: Rights,
    pub ghost large: { 10 ≤ log },
    pub ghost small: { log ≤ 31 },
    pub ghost aligned: { base % 2 ^ log ≡ 0 },
}

/// A flexpage: no bytes, all bytes of the space, or 2^log bytes (L4 X.2 manual, Fpages).
#[derive(Clone, Copy, PartialEq, Eq, Debug)]
pub enum Fpage {
    Nil,
    Complete(Rights),
    Sized(Extent),
}

impl Fpage {
    ghost use Rattle.l4_fpage.specs.Fpages.{bytes_of, rights_of, HasPage, HoldsPage, ReadsAs, IsMalformed, fpage_word};

    /// Returns the fpage of a block, for pages of this size. For the block of the whole space, it is the complete
    /// fpage.
    pub fn of_block(block: Block, size: PageSize, rights: Rights) -> Fpage
        requires { LiesIn size block.first block.log }
        ensures bytes { bytes_of result
            ≡ Some
            (record { base = block.first * page_bytes size; log = block.log + page_log size }) }
        ensures rights { rights_of result ≡ rights }
    {
        if block.log == size.space_log() {
            return Fpage::Complete(rights);
        }
        let page_log = size.log();
        Fpage::Sized(Extent {
            base: block.first << page_log,
            log: block.log + page_log,
            rights,
        })
    }

    /// Reads the fpage that a word names (L4 X.2 manual, Fpages). This profile's own rules: a base that is not a
    /// multiple of the size is rounded down; bit 3 is ignored; a size field of 0 is nil, and one of 32 is complete,
    /// with any base.
    ///
    /// Returns `BadFpage` for any other size field below 10 or above 32, except 1 with base 0, which is complete.
    pub fn read(word: u32) -> Result<Fpage, BadFpage>
        ensures ok { IfOk result (ReadsAs word) }
        ensures err { IsErr result ↔ IsMalformed word }
        ensures only { (fpage : Fpage) → ReadsAs word fpage → result ≡ Ok fpage }
    {
        let log = (word >> 4 & 0x3f) as u8;
        let base = word >> 10 << 10;
        let rights = Rights::of_bits((word & 7) as u8);
        match log {
            0 => Ok(Fpage::Nil),
            1 if base == 0 => Ok(Fpage::Complete(rights)),
            10..=31 => Ok(Fpage::Sized(Extent {
                base: base >> log << log,
                log,
                rights,
            })),
            32 => Ok(Fpage::Complete(rights)),
            _ => Err(BadFpage),
        }
    }

    /// Returns the word of the fpage. `read` reads it as this fpage. The complete fpage has a size field of 1, and
    /// bit 3 is zero.
    pub fn word(&self) -> u32
        ensures value { result ≡ fpage_word self.now }
        ensures reads { ReadsAs result self.now }
        ensures well_formed { ¬ IsMalformed result }
        ensures only { (other : Fpage) → ReadsAs result other → other ≡ self.now }
    {
        match self {
            Fpage::Nil => 0,
            Fpage::Complete(rights) => 16 + u32::from(rights.bits()),
            Fpage::Sized(extent) => extent.base
                + u32::from(extent.log) * 16
                + u32::from(extent.rights.bits()),
        }
    }

    /// Returns the rights that the fpage names. The nil fpage names none.
    pub fn rights(&self) -> Rights
        ensures { result ≡ rights_of self.now }
    {
        match self {
            Fpage::Nil => Rights::of_bits(0),
            Fpage::Complete(rights) => *rights,
            Fpage::Sized(extent) => extent.rights,
        }
    }

    /// Returns the block of pages of this size that the fpage covers. Returns `None` if it covers no whole page: for
    /// the nil fpage, and for an fpage smaller than a page.
    pub fn pages(&self, size: PageSize) -> Option<Block>
        ensures none { IsSome result
            ↔ MatchOption (bytes_of self.now) ⊥ (λ b. page_log size ≤ b.log) }
        ensures exact { IfSome result
            (λ block. MatchOption (bytes_of self.now) ⊥
            (λ b. (block.first ≡ b.base / page_bytes size) × (block.log ≡ b.log - page_log size))) }
        ensures inside { IfSome result (λ block. LiesIn size block.first block.log) }
        ensures pages { (page : ℕ)
            → MatchOption result ⊥ (λ block. InBlock block.first block.log page)
            ↔ HoldsPage size self.now page }
    {
        match self {
            Fpage::Nil => None,
            Fpage::Complete(_) => Some(Block {
                first: 0,
                log: size.space_log(),
            }),
            Fpage::Sized(extent) => {
                let page_log = size.log();
                if extent.log < page_log {
                    return None;
                }
                Some(Block {
                    first: extent.base >> page_log,
                    log: extent.log - page_log,
                })
            }
        }
    }
}
