//! The meaning of a message as a whole.
ghost use Rattle.std.specs.Prelude.{◌≡◌, ◌≤◌, ◌+◌, ◌++◌, ◌∷◌, [], length};
ghost use Rattle.l4_decode.specs.Meanings.{Means, fault_text, request_text, whole_text};
ghost use Rattle.l4_text.specs.Sizes.{text_bytes};

use crate::fpages::add_place;
use crate::refusals::add_refusal;
use crate::spelling::{add_count, add_hex, add_length};
use l4_answers::add_rights;
use l4_fpage::PageSize;
use l4_msg::{FrameRequest, Message, MsgFault, PageFault};
use l4_text::Text;

/// The meaning of words as a message.
#[derive(Clone, Copy, PartialEq, Eq, Debug)]
pub enum Meaning {
    /// They are refused.
    Refused(MsgFault),
    /// A page fault, as the kernel reports it to a pager.
    Fault(PageFault),
    /// A request to sigma0 for the frames of pages.
    Request(FrameRequest),
    /// Any other message, by the numbers of its untyped words and of its items.
    Plain { untyped: usize, items: usize },
}

/// Returns the meaning of these words as a message: the reason of their refusal, or what the message is with which they begin.
pub fn meaning_of(words: &[u32]) -> Meaning
    ensures { Means words.now result }
{
    let message = match Message::read(words) {
        Ok(message) => message,
        Err(fault) => return Meaning::Refused(fault),
    };
    if let Some(fault) = PageFault::read(&message) {
        return Meaning::Fault(fault);
    }
    if let Some(request) = FrameRequest::read(&message) {
        return Meaning::Request(request);
    }
    Meaning::Plain {
        untyped: message.untyped.len(),
        items: message.items.len(),
    }
}

/// Adds what a page fault is.
#[tactic(auto, unfolding(crate::specs::Meanings::fault_text))]
fn add_fault(text: &mut Text, fault: &PageFault, size: PageSize)
    requires { length text.old + 90 ≤ text_bytes }
    ensures value { text.new ≡ text.old ++ fault_text size fault.now }
    ensures len { length text.new ≤ length text.old + 90 }
{
    text.add(b"page fault: address ");
    add_hex(text, fault.address);
    text.add(b" (page ");
    add_count(text, size.page_of(fault.address));
    text.add(b"), ip ");
    add_hex(text, fault.ip);
    text.add(b", access ");
    add_rights(text, fault.access);
}

/// Adds what a request is.
#[tactic(auto, unfolding(crate::specs::Meanings::request_text))]
fn add_request(text: &mut Text, request: &FrameRequest, size: PageSize)
    requires { length text.old + 140 ≤ text_bytes }
    ensures value { text.new ≡ text.old ++ request_text size request.now }
    ensures len { length text.new ≤ length text.old + 140 }
{
    text.add(b"request to sigma0: ");
    add_place(text, &request.fpage, size);
    text.add(b", attributes ");
    add_hex(text, request.attributes);
}

/// Adds what words mean as a whole.
#[tactic(auto, unfolding(crate::specs::Meanings::whole_text))]
fn add_meaning(text: &mut Text, meaning: &Meaning, size: PageSize)
    requires { length text.old + 140 ≤ text_bytes }
    ensures value { text.new ≡ text.old ++ whole_text size meaning.now }
    ensures len { length text.new ≤ length text.old + 140 }
{
    match meaning {
        Meaning::Refused(fault) => add_refusal(text, *fault),
        Meaning::Fault(fault) => add_fault(text, fault, size),
        Meaning::Request(request) => add_request(text, request, size),
        Meaning::Plain { untyped, items } => {
            text.add(b"message: untyped ");
            add_length(text, *untyped);
            text.add(b", items ");
            add_length(text, *items);
        }
    }
}

/// Returns the line of the meaning of words as a whole.
pub(crate) fn meaning_line(meaning: &Meaning, size: PageSize) -> Text
    ensures { result ≡ whole_text size meaning.now ++ 10 ∷ [] }
{
    let mut text = Text::new();
    add_meaning(&mut text, meaning, size);
    text.push(b'\n');
    text
}
