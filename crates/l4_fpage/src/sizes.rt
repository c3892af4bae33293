/// The size of a machine's pages and frames, chosen at boot (this profile's own).
#[derive(Clone, Copy, PartialEq, Eq, Debug)]
pub enum PageSize {
    /// 4,096 bytes: a space has 2^20 pages.
    Kib4,
    /// 1,024 bytes, the smallest size of an fpage: a space has 2^22 pages.
    Kib1,
}

/// The binary logarithm of the greatest number of pages in a space, which is reached with pages of 1,024 bytes.
pub const MOST_SPACE_LOG: u8 = 22;

/// The greatest number of pages in a space: 4,194,304.
pub const MOST_PAGES: u32 = 1 << MOST_SPACE_LOG;

/// The greatest number of frames in a machine, for either page size (this profile's own).
pub const MAX_FRAMES: u32 = 4096;

impl PageSize {
    ghost use Rattle.std.specs.Prelude.{◌≡◌, ◌*◌, ◌/◌, ◌≤◌, ◌<◌, IsSome, IfSome, MatchOption};
    ghost use Rattle.l4_fpage.specs.Pages.{page_log, page_bytes, space_log, space_pages, most_pages};

    /// Returns the binary logarithm of the page size in bytes: 12 or 10.
    #[inline]
    pub fn log(self) -> u8
        ensures value { result ≡ page_log self }
        ensures large { 10 ≤ result }
        ensures small { result ≤ 12 }
    {
        match self {
            PageSize::Kib4 => 12,
            PageSize::Kib1 => 10,
        }
    }

    /// Returns the binary logarithm of the number of pages in a space: 20 or 22.
    #[inline]
    pub fn space_log(self) -> u8
        ensures value { result ≡ space_log self }
        ensures small { result ≤ 22 }
    {
        match self {
            PageSize::Kib4 => 20,
            PageSize::Kib1 => 22,
        }
    }

    /// Returns the number of pages in a space: 1,048,576 or 4,194,304. Pages are numbered from 0.
    #[inline]
    pub fn space_pages(self) -> u32
        ensures value { result ≡ space_pages self }
        ensures small { result ≤ most_pages }
    {
        1 << self.space_log()
    }

    /// Returns the page that contains an address, given in bytes.
    #[inline]
    pub fn page_of(self, address: u32) -> u32
        ensures value { result ≡ address / page_bytes self }
        ensures fits { result < space_pages self }
    {
        address >> self.log()
    }

    /// Returns the address of a page's first byte.
    ///
    #[inline]
    pub fn address_of(self, page: u32) -> u32
        requires { page < space_pages self }
        ensures { result ≡ page * page_bytes self }
    {
        page << self.log()
    }
}
