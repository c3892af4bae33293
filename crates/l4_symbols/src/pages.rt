//! The fpages of pages in tokens.
ghost use Rattle.std.specs.Prelude.{◌≡◌, ◌≢◌, ℕ, ◌^◌, ◌<◌, IfSome, IsNone, IfOk, IfErr};
ghost use Rattle.std.specs.Result.{result_map_both};
ghost use Rattle.l4_fpage.specs.Fpages.{fpage_word};
ghost use Rattle.l4_symbols.specs.Computed.{log_below, block_log, pages_word};
ghost use Rattle.l4_symbols.specs.Items.{IsRun, IsFpageOf, PagesFail};

use crate::reasons::Reason;
use crate::spelling::Pages;
use l4_fpage::{Block, Fpage, PageSize, Rights};

/// Returns the binary logarithm of a number of pages, if it is a power of two.
fn log_of(count: u32) -> Option<u8>
    ensures some { IfSome result (λ log. (log < 32) × (count ≡ 2 ^ log)) }
    ensures none { IsNone result → (log : ℕ) → count ≢ 2 ^ log }
    ensures value { result ≡ log_below 32 count }
{
    for log in 0..32u8 {
        if count == 1 << log {
            return Some(log);
        }
    }
    None
}

/// Returns the block of pages.
fn block_of(pages: &Pages, size: PageSize) -> Result<Block, Reason>
    ensures run { IfOk result
        (λ block. (block.first ≡ pages.now.first) × IsRun size pages.now block.log) }
    ensures err { IfErr result (PagesFail size pages.now) }
    ensures value { result_map_both (λ block. block.log) (λ reason. reason) result
        ≡ block_log size pages.now }
{
    let Some(log) = log_of(pages.count) else {
        return Err(Reason::Count);
    };
    if pages.first >= size.space_pages() || pages.count > size.space_pages() - pages.first {
        return Err(Reason::Beyond);
    }
    match Block::new(pages.first, log) {
        Some(block) => Ok(block),
        None => Err(Reason::Unaligned),
    }
}

/// Returns the fpage of pages, with these rights.
pub(crate) fn fpage_of(pages: &Pages, size: PageSize, rights: Rights) -> Result<Fpage, Reason>
    ensures ok { IfOk result (IsFpageOf size pages.now rights) }
    ensures err { IfErr result (PagesFail size pages.now) }
    ensures value { result_map_both fpage_word (λ reason. reason) result
        ≡ pages_word size pages.now rights }
{
    match block_of(pages, size) {
        Ok(block) => Ok(Fpage::of_block(block, size, rights)),
        Err(reason) => Err(reason),
    }
}
