ghost use Rattle.std.specs.Prelude.{◌≡◌, ℕ, ◌+◌, ◌*◌, ◌/◌, ◌%◌, ◌<◌, ◌≤◌, [], ◌∷◌, nat_lt, if◌then◌else◌, length, IfOk, IfErr};
ghost use Rattle.std.specs.List.{All};
ghost use Rattle.arrayvec.specs.ArrayVec.{array_vec_len};
ghost use Rattle.l4_msg.specs.Moves.{base_of};
ghost use Rattle.l4_msg.specs.Sizes.{max_untyped, base_unit};

use crate::items::{Item, ItemFault};
use crate::tags::Tag;
use crate::words::{MAX_ITEMS, read_items, write_items};
use arrayvec::ArrayVec;

/// The message registers, MR0 to MR63 (L4 X.2 manual, IPC: message registers).
pub const MAX_WORDS: usize = 64;

/// The greatest number of words after the tag, untyped and typed together.
pub const MAX_UNTYPED: usize = MAX_WORDS - 1;

/// A message: its label, its untyped words, and its items (L4 X.2 manual, IPC: messages).
#[derive(PartialEq, Eq, Debug, Drop)]
pub struct Message {
    pub label: u16,
    pub untyped: ArrayVec<u32, MAX_UNTYPED>,
    pub items: ArrayVec<Item, MAX_ITEMS>,
}

/// The reason why words are not a valid message, or not a valid receive window. Items are counted from 0.
#[derive(Clone, Copy, PartialEq, Eq, Debug)]
pub enum MsgFault {
    /// M1: the tag counts more than 63 words.
    TooManyWords,
    /// M2: the tag counts an odd number of typed words.
    OddTyped,
    /// M3: the first invalid item has an unknown kind, or is a map or grant item whose second word is not a valid
    /// fpage.
    BadItem(u32),
    /// M4: the first invalid item is a string or CtrlXfer item, which this profile does not support.
    Unsupported(u32),
    /// M5: a flag of the tag is set.
    Flags,
    /// M6: the acceptor word is not a valid fpage.
    BadWindow,
    /// M7: there is no word, or there are fewer words than the tag counts.
    Short,
}

/// Returns a copy of a few words.
pub fn copied<const N: usize>(words: &[u32]) -> ArrayVec<u32, N>
    requires { length words.now ≤ N }
    ensures { result.items ≡ words.now }
{
    let mut copy = ArrayVec::new();
    let _ = copy.try_extend_from_slice(words);
    copy
}

impl Message {
    ghost use Rattle.l4_msg.specs.Messages.{MessageReads, MessageFails, HasGoodTag, CanBeWritten, tag_of, typed_words, message_words, item_word};
    ghost use Rattle.l4_msg.specs.Tags.{TagReads};
    ghost use Rattle.l4_msg.specs.Words.{ItemsRead, unused_of};
    ghost use Rattle.l4_msg.specs.declared.messages.Message.{Message as AMessage};
    ghost use Rattle.l4_msg.specs.declared.messages.MsgFault.{MsgFault as AMsgFault};

    /// Reads the message that these words begin with. Words after the message are ignored.
    ///
    /// The errors are tested in this order: `Short` (no words, or fewer than the tag counts, if it counts at most
    /// 63), `TooManyWords`, `Flags`, `OddTyped`, and then, for the first invalid item, `Unsupported` or `BadItem`.
    pub fn read(words: &[u32]) -> Result<Message, MsgFault>
        ensures ok { IfOk result (MessageReads words.now) }
        ensures err { IfErr result (MessageFails words.now) }
        ensures only { (message : AMessage) → MessageReads words.now message → result ≡ Ok message }
        ensures refused { (fault : AMsgFault) → MessageFails words.now fault → result ≡ Err fault }
        ensures writable { IfOk result CanBeWritten }
    {
        let tag = match Message::read_tag(words) {
            Ok(tag) => tag,
            Err(fault) => return Err(fault),
        };
        match Message::read_typed(words, &tag) {
            Ok(items) => Ok(Message {
                label: tag.label,
                untyped: copied(&words[1..1 + usize::from(tag.untyped)]),
                items,
            }),
            Err(fault) => Err(fault),
        }
    }

    /// Reads the tag of the message that these words begin with. It succeeds if the words that the tag counts are
    /// present and at most 63, no flag is set, and the number of typed words is even. The errors are those of `read`,
    /// in the same order.
    pub fn read_tag(words: &[u32]) -> Result<Tag, MsgFault>
        ensures good { IfOk result (λ _. HasGoodTag words.now) }
        ensures ok { IfOk result (TagReads (tag_of words.now)) }
        ensures err { IfErr result (MessageFails words.now) }
    {
        if words.is_empty() {
            return Err(MsgFault::Short);
        }
        let tag = Tag::read(words[0]);
        let untyped = usize::from(tag.untyped);
        let typed = usize::from(tag.typed);
        if untyped + typed > MAX_UNTYPED {
            return Err(MsgFault::TooManyWords);
        }
        if words.len() < 1 + untyped + typed {
            return Err(MsgFault::Short);
        }
        if tag.flags != 0 {
            return Err(MsgFault::Flags);
        }
        if typed % 2 != 0 {
            return Err(MsgFault::OddTyped);
        }
        Ok(tag)
    }

    /// Reads the items of the message that these words begin with, after its tag. Returns the error of the first
    /// invalid item.
    pub fn read_typed(words: &[u32], tag: &Tag) -> Result<ArrayVec<Item, MAX_ITEMS>, MsgFault>
        requires good { HasGoodTag words.now }
        requires tag { TagReads (tag_of words.now) tag.now }
        ensures ok { IfOk result (λ items. ItemsRead (typed_words words.now) items.items) }
        ensures err { IfErr result (MessageFails words.now) }
    {
        let first = 1 + usize::from(tag.untyped);
        match read_items(&words[first..first + usize::from(tag.typed)]) {
            Ok(items) => Ok(items),
            Err((i, ItemFault::Bad)) => Err(MsgFault::BadItem(i)),
            Err((i, ItemFault::Unsupported)) => Err(MsgFault::Unsupported(i)),
        }
    }

    /// Reads the item of a message that has exactly one, without a list. Returns its error if it is invalid.
    pub fn read_only_item(words: &[u32], tag: &Tag) -> Result<Item, MsgFault>
        requires good { HasGoodTag words.now }
        requires tag { TagReads (tag_of words.now) tag.now }
        requires one { tag.now.typed ≡ 2 }
        ensures ok { IfOk result (λ item. ItemsRead (typed_words words.now) (item ∷ [])) }
        ensures err { IfErr result (MessageFails words.now) }
    {
        let first = 1 + usize::from(tag.untyped);
        match Item::read(words[first], words[first + 1]) {
            Ok(item) => Ok(item),
            Err(ItemFault::Bad) => Err(MsgFault::BadItem(0)),
            Err(ItemFault::Unsupported) => Err(MsgFault::Unsupported(0)),
        }
    }

    /// Returns the words of the message: the tag, the untyped words, and two words per item. `read` reads them as
    /// this message. In an item's first word, the lowest bit is 1 except in the last item, and bits 9 to 4 are zero.
    ///
    /// Condition: there are at most 63 words after the tag, and each send base is a multiple of 1,024 bytes.
    pub fn write(&self) -> ArrayVec<u32, MAX_WORDS>
        requires fits { array_vec_len self.now.untyped + 2 * array_vec_len self.now.items
            ≤ max_untyped }
        requires whole { All (λ item. base_of item % base_unit ≡ 0) self.now.items.items }
        ensures value { result.items ≡ message_words self.now }
        ensures reads { MessageReads result.items self.now }
        ensures only { (other : AMessage) → MessageReads result.items other → other ≡ self.now }
        ensures follows { (k : ℕ) → k < array_vec_len self.now.items
            → item_word self.now result.items k % 2
            ≡ (if nat_lt (k + 1) (array_vec_len self.now.items) then 1 else 0) }
        ensures middle { (k : ℕ) → k < array_vec_len self.now.items
            → unused_of (item_word self.now result.items k) ≡ 0 }
        ensures len { array_vec_len result
            ≡ 1 + array_vec_len self.now.untyped + 2 * array_vec_len self.now.items }
    {
        let typed = write_items(self.items.as_slice());
        let tag = Tag {
            label: self.label,
            flags: 0,
            typed: typed.len() as u8,
            untyped: self.untyped.len() as u8,
        }
        .word();
        let mut words = ArrayVec::new();
        words.push(tag);
        for word in self.untyped.as_slice() {
            words.push(*word);
        }
        for typed_word in typed.as_slice() {
            words.push(*typed_word);
        }
        words
    }
}
