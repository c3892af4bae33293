//! Messages in symbolic tokens or in words. The tag may be a word.
ghost use Rattle.std.specs.Prelude.{◌≡◌, ◌<◌, ◌∷◌, drop, length, IfErr, IfOk, OnErr};

use crate::messages::SymbolicMessage;
use crate::reasons::Reason;
use arrayvec::ArrayVec;
use l4_fpage::PageSize;
use l4_msg::MAX_WORDS;
use l4_text::number;

/// A message of which every token may be a number: its tag `tag:LABEL` or the tag's word, then untyped words, and then items. It is read
/// token by token, in pages of one size.
#[derive(Drop)]
pub struct MessageTokens {
    pub tag: Option<u32>,
    pub message: SymbolicMessage,
}

/// Returns words with this tag in place of their first word.
fn with_tag(tag: u32, words: ArrayVec<u32, MAX_WORDS>) -> ArrayVec<u32, MAX_WORDS>
    requires { 0 < length words.items }
    ensures { result.items ≡ tag ∷ drop 1 words.items }
{
    let mut tagged = words;
    tagged.as_mut_slice()[0] = tag;
    tagged
}

impl MessageTokens {
    ghost use Rattle.l4_symbols.specs.Rows.{Leaves, row_added, row_begun, row_in, row_words};

    /// Begins a message with its tag: a number, which is the tag's word, or `tag:LABEL`.
    ///
    /// Returns `NoTag` for any other token, and `Label` if the label is not a number below 65,536.
    pub fn begin(token: &[u8], size: PageSize) -> Result<MessageTokens, Reason>
        ensures ok { IfOk result
            (λ begun. (begun.message.size ≡ size) × (row_begun token.now ≡ Ok (row_in begun))) }
        ensures err { IfErr result (λ reason. row_begun token.now ≡ Err reason) }
    {
        if let Some(word) = number(token) {
            return Ok(MessageTokens {
                tag: Some(word),
                message: SymbolicMessage::labelled(0, size),
            });
        }
        match SymbolicMessage::begin(token, size) {
            Ok(message) => Ok(MessageTokens { tag: None, message }),
            Err(reason) => Err(reason),
        }
    }

    /// Adds a token at the end, as `SymbolicMessage::add` does. A refused token changes nothing.
    pub fn add(&mut self, token: &[u8]) -> Result<(), Reason>
        ensures row { Leaves result (row_added self.old.message.size token.now (row_in self.old))
            (row_in self.new) }
        ensures size { self.new.message.size ≡ self.old.message.size }
        ensures same { OnErr result (self.new ≡ self.old) }
    {
        match self.message.add(token) {
            Ok(()) => Ok(()),
            Err(reason) => Err(reason),
        }
    }

    /// Returns the words of the message: the tag, the untyped words, and two words per item. If the tag was given as a word, it is that word.
    /// Otherwise its counts are those of the words and items that were added.
    pub fn words(&self) -> ArrayVec<u32, MAX_WORDS>
        ensures { result.items ≡ row_words (row_in self.now) }
    {
        match self.tag {
            None => self.message.words(),
            Some(tag) => with_tag(tag, self.message.words()),
        }
    }
}
