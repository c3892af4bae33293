//! Machines and regions as the page passes them.
ghost use Rattle.std.specs.Prelude.{◌≡◌, ◌≤◌, true, false, IfSome, IfNone, MatchOption, MatchResult};
ghost use Rattle.l4_fpage.specs.Pages.{page_bytes, max_frames};
ghost use Rattle.l4_fpage.specs.Rights.{set_of_bits};
ghost use Rattle.l4_page.specs.Given.{region_of, IsNoSize, HasFrames, HasNoFrames, IsNoMachine};

use l4_fpage::{PageSize, Rights};
use l4_msg::Region;

/// B4: a page has 4,096 or 1,024 bytes.
pub const NO_SUCH_SIZE: u32 = 0x4234;

/// K6: a machine has 1 to 4,096 frames.
pub const BAD_FRAMES: u32 = 0x4b36;

/// A region of pages. Only the low three bits of `rights` are read.
#[repr(C)]
#[derive(Clone, Copy)]
pub struct RegionGiven {
    pub source: u32,
    pub target: u32,
    pub count: u32,
    pub rights: u32,
}

/// A page of a thread's space.
#[repr(C)]
#[derive(Clone, Copy)]
pub struct PageGiven {
    pub thread: u32,
    pub page: u32,
}

/// Returns the rights of a word's low three bits.
#[tactic(auto, using(l4_fpage::proofs::Eight::set_of_low))]
fn rights(word: u32) -> Rights
    ensures { result ≡ set_of_bits word }
{
    Rights::of_bits((word & 7) as u8)
}

/// Returns the region.
pub fn region_of(given: &RegionGiven) -> Region
    ensures { result ≡ region_of given.now }
{
    Region {
        source: given.source,
        target: given.target,
        count: given.count,
        rights: rights(given.rights),
    }
}

/// Returns the page size with this number of bytes, if there is one.
pub fn size_of(bytes: u32) -> Option<PageSize>
    ensures { MatchOption result (IsNoSize bytes) (λ size. bytes ≡ page_bytes size) }
{
    if bytes == 4096 {
        return Some(PageSize::Kib4);
    }
    if bytes == 1024 {
        return Some(PageSize::Kib1);
    }
    None
}

/// Returns whether a machine can have this number of frames.
fn has_frames(frames: u32) -> bool
    ensures yes { result ≡ true → HasFrames frames }
    ensures no { result ≡ false → HasNoFrames frames }
{
    frames >= 1 && frames <= 4096
}

/// Returns the page size of a machine with this number of page bytes and frames. Refuses a number of bytes that no page has (B4), and then a
/// number of frames that no machine has (K6).
pub fn machine_of(bytes: u32, frames: u32) -> Result<PageSize, u32>
    ensures { MatchResult result (λ size. (bytes ≡ page_bytes size) × HasFrames frames)
        (λ refusal. IsNoMachine bytes frames refusal) }
{
    let Some(size) = size_of(bytes) else {
        return Err(NO_SUCH_SIZE);
    };
    if !has_frames(frames) {
        return Err(BAD_FRAMES);
    }
    Ok(size)
}
