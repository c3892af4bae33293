//! Pages, blocks, rights and fpages of a 32-bit machine, whose pages have 4,096 or 1,024 bytes.
#![tactic(auto)]

mod bits;
mod blocks;
mod fpages;
mod sizes;

pub use bits::{RightBits, Rights};
pub use blocks::Block;
pub use fpages::{BadFpage, Extent, Fpage};
pub use sizes::{MAX_FRAMES, MOST_PAGES, MOST_SPACE_LOG, PageSize};
