//! Messages in symbolic tokens.
ghost use Rattle.std.specs.Prelude.{◌≡◌, ◌+◌, ◌*◌, ◌%◌, ◌≤◌, ◌<◌, false, [], ◌∷◌, ◌++◌, IfOk, IfErr, OnOk, OnErr};
ghost use Rattle.std.specs.List.{All};
ghost use Rattle.arrayvec.specs.ArrayVec.{array_vec_len};
ghost use Rattle.l4_msg.specs.Moves.{base_of};
ghost use Rattle.l4_msg.specs.Sizes.{max_untyped, base_unit};
ghost use Rattle.l4_msg.specs.Words.{item_words};

use crate::items::item;
use crate::reasons::Reason;
use crate::spelling::label_in;
use arrayvec::ArrayVec;
use l4_fpage::PageSize;
use l4_msg::{Item, MAX_UNTYPED, MAX_WORDS, Message};
use l4_text::number;

/// A message that is read token by token, in pages of one size.
#[derive(Drop)]
pub struct SymbolicMessage {
    pub size: PageSize,
    pub message: Message,
    pub ghost fits: { array_vec_len message.untyped + 2 * array_vec_len message.items ≤ max_untyped },
    pub ghost whole: { All (λ item. base_of item % base_unit ≡ 0) message.items.items },
}

/// Adds an element at the end.
fn push_to<T: Copy, const COUNT: usize>(list: &mut ArrayVec<T, COUNT>, element: T)
    requires { array_vec_len list.old < COUNT }
    ensures { list.new.items ≡ list.old.items ++ element ∷ [] }
{
    list.push(element);
}

impl SymbolicMessage {
    ghost use Rattle.l4_msg.specs.Messages.{MessageReads, message_words};
    ghost use Rattle.l4_symbols.specs.Messages.{Begins, Adds, AddsWord, AddsItem, AddRefused, WordRefused, ItemFull};
    ghost use Rattle.l4_symbols.specs.Rows.{RowTag, Leaves, row_added, row_of, item_added, word_added};
    ghost use Rattle.l4_symbols.specs.Spelling.{label_in};

    /// Begins a message with this label, after whose tag nothing follows yet.
    pub(crate) fn labelled(label: u16, size: PageSize) -> SymbolicMessage
        ensures size { result.size ≡ size }
        ensures label { result.message.label ≡ label }
        ensures empty { (result.message.untyped.items ≡ []) × (result.message.items.items ≡ []) }
    {
        SymbolicMessage {
            size,
            message: Message {
                label,
                untyped: ArrayVec::new(),
                items: ArrayVec::new(),
            },
        }
    }

    /// Begins a message with its tag, `tag:LABEL`. LABEL is a number below 65,536.
    ///
    /// Returns `NoTag` for any other token, and `Label` if the label is no such number.
    pub fn begin(token: &[u8], size: PageSize) -> Result<SymbolicMessage, Reason>
        ensures ok { IfOk result (λ begun. (begun.size ≡ size) × Begins token.now begun.message) }
        ensures err { IfErr result (λ reason. label_in token.now ≡ Err reason) }
    {
        match label_in(token) {
            Ok(label) => Ok(SymbolicMessage::labelled(label, size)),
            Err(reason) => Err(reason),
        }
    }

    /// Adds an untyped word. A refused word changes nothing.
    fn add_word(&mut self, word: u32) -> Result<(), Reason>
        ensures ok { OnOk result
            ((self.new.size ≡ self.old.size) × AddsWord word self.old.message self.new.message) }
        ensures err { IfErr result (WordRefused self.old.message) }
        ensures row { (tag : RowTag)
            → Leaves result (word_added word (row_of tag self.old.message))
            (row_of tag self.new.message) }
        ensures same { OnErr result (self.new ≡ self.old) }
        ensures label { self.new.message.label ≡ self.old.message.label }
    {
        if !self.message.items.is_empty() {
            return Err(Reason::Behind);
        }
        if self.message.untyped.len() >= MAX_UNTYPED {
            return Err(Reason::Full);
        }
        self.message.untyped.push(word);
        Ok(())
    }

    /// Adds an item. A refused item changes nothing.
    fn add_item(&mut self, item: Item) -> Result<(), Reason>
        requires { base_of item % base_unit ≡ 0 }
        ensures ok { OnOk result
            ((self.new.size ≡ self.old.size) × AddsItem item self.old.message self.new.message) }
        ensures err { IfErr result (ItemFull self.old.message) }
        ensures row { (tag : RowTag)
            → Leaves result (item_added (item_words item false) (row_of tag self.old.message))
            (row_of tag self.new.message) }
        ensures same { OnErr result (self.new ≡ self.old) }
        ensures label { self.new.message.label ≡ self.old.message.label }
    {
        if self.message.untyped.len() + 2 * self.message.items.len() + 2 > MAX_UNTYPED {
            return Err(Reason::Full);
        }
        push_to(&mut self.message.items, item);
        Ok(())
    }

    /// Adds a token at the end: a number, which is an untyped word, or an item. The words must stand before the items. A refused
    /// token changes nothing.
    ///
    /// Returns `Behind` for a number after an item, `Full` if there is no room, and otherwise the reason why the token is no item.
    pub fn add(&mut self, token: &[u8]) -> Result<(), Reason>
        ensures ok { OnOk result
            ((self.new.size ≡ self.old.size)
            × Adds self.old.size token.now self.old.message self.new.message) }
        ensures err { IfErr result (AddRefused self.old.size token.now self.old.message) }
        ensures row { (tag : RowTag)
            → Leaves result (row_added self.old.size token.now (row_of tag self.old.message))
            (row_of tag self.new.message) }
        ensures same { OnErr result (self.new ≡ self.old) }
        ensures label { self.new.message.label ≡ self.old.message.label }
    {
        if let Some(word) = number(token) {
            return self.add_word(word);
        }
        match item(token, self.size) {
            Ok(item) => self.add_item(item),
            Err(reason) => Err(reason),
        }
    }

    /// Returns the words of the message: the tag, whose counts are those of the words and items that were added, the untyped words, and two
    /// words per item.
    pub fn words(&self) -> ArrayVec<u32, MAX_WORDS>
        ensures value { result.items ≡ message_words self.now.message }
        ensures reads { MessageReads result.items self.now.message }
    {
        self.message.write()
    }
}
