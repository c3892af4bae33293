ghost use Rattle.std.specs.Prelude.{◌≡◌, ℕ, ◌<◌};

/// The first word of a message (L4 X.2 manual, IPC: message tag): the label, four flags, and the numbers of untyped
/// and typed words that follow.
#[derive(Clone, Copy, PartialEq, Eq, Debug)]
pub struct Tag {
    /// Bits 31 to 16.
    pub label: u16,
    /// Bits 15 to 12, below 16.
    pub flags: u8,
    /// Bits 11 to 6, below 64: the words of the items, in words.
    pub typed: u8,
    /// Bits 5 to 0, below 64, in words.
    pub untyped: u8,
    pub ghost flags_small: { flags < 16 },
    pub ghost typed_small: { typed < 64 },
    pub ghost untyped_small: { untyped < 64 },
}

impl Tag {
    ghost use Rattle.l4_msg.specs.Tags.{TagReads, tag_word};

    /// Reads a tag. Every word is a tag.
    pub fn read(word: u32) -> Tag
        ensures reads { TagReads word result }
        ensures back { tag_word result ≡ word }
    {
        Tag {
            label: (word >> 16) as u16,
            flags: (word >> 12 & 0xf) as u8,
            typed: (word >> 6 & 0x3f) as u8,
            untyped: (word & 0x3f) as u8,
        }
    }

    /// Returns the word of the tag. `read` reads it as this tag.
    pub fn word(&self) -> u32
        ensures value { result ≡ tag_word self.now }
        ensures reads { TagReads result self.now }
    {
        u32::from(self.label) * 0x10000
            + u32::from(self.flags) * 0x1000
            + u32::from(self.typed) * 0x40
            + u32::from(self.untyped)
    }
}
