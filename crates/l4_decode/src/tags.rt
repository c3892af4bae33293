//! The text of a message tag.
ghost use Rattle.std.specs.Prelude.{◌≡◌, ◌≤◌, ◌+◌, ◌++◌, length};
ghost use Rattle.l4_msg.specs.Tags.{TagReads};
ghost use Rattle.l4_decode.specs.Tags.{access_text, protocol_text, tag_text, tag_line};
ghost use Rattle.l4_text.specs.Sizes.{text_bytes};

use crate::spelling::{add_label, begin_line};
use l4_answers::add_rights;
use l4_fpage::Rights;
use l4_msg::{FAULT_LABEL, REQUEST_LABEL, Tag};
use l4_text::Text;

/// Adds that a label is that of a page fault with this access.
#[tactic(auto, unfolding(crate::specs::Tags::access_text))]
fn add_access(text: &mut Text, access: Rights)
    requires { length text.old + 18 ≤ text_bytes }
    ensures value { text.new ≡ text.old ++ access_text access }
    ensures len { length text.new ≡ length text.old + 18 }
{
    text.add(b" (page fault, ");
    add_rights(text, access);
    text.add(b")");
}

/// Adds the protocol that a label belongs to, if any.
#[tactic(auto, unfolding(crate::specs::Tags::protocol_text))]
fn add_protocol(text: &mut Text, label: u16)
    requires { length text.old + 24 ≤ text_bytes }
    ensures value { text.new ≡ text.old ++ protocol_text label }
    ensures len { length text.new ≤ length text.old + 24 }
{
    if label >= FAULT_LABEL && label <= FAULT_LABEL + 7 {
        return add_access(text, Rights::of_bits((label - FAULT_LABEL) as u8));
    }
    if label == REQUEST_LABEL {
        text.add(b" (request to sigma0)");
    }
}

/// Adds the fields of the tag that a word is.
#[tactic(auto, unfolding(crate::specs::Tags::tag_text))]
fn add_tag(text: &mut Text, word: u32)
    requires { length text.old + 130 ≤ text_bytes }
    ensures value { text.new ≡ text.old ++ tag_text word }
    ensures len { length text.new ≤ length text.old + 130 }
{
    let tag = Tag::read(word);
    text.add(b"label ");
    add_label(text, tag.label);
    add_protocol(text, tag.label);
    text.add(b", flags ");
    text.add_number(u64::from(tag.flags));
    text.add(b", untyped ");
    text.add_number(u64::from(tag.untyped));
    text.add(b", typed ");
    text.add_number(u64::from(tag.typed));
}

/// Returns the line of a word as a message tag.
#[tactic(auto, unfolding(crate::specs::Tags::tag_line, crate::specs::Spelling::meaning_line))]
pub(crate) fn tag_line(word: u32) -> Text
    ensures { result ≡ tag_line word }
{
    let mut text = begin_line(b"tag ", word);
    add_tag(&mut text, word);
    text.push(b'\n');
    text
}
