//! The text of a thread's id.
ghost use Rattle.std.specs.Prelude.{◌≡◌, ◌≤◌, ◌+◌, ◌++◌, length};
ghost use Rattle.l4_decode.specs.Ids.{bad_text, id_text, id_line};
ghost use Rattle.l4_text.specs.Sizes.{text_bytes};

use crate::spelling::begin_line;
use l4_text::Text;
use l4_threads::ThreadId;

/// Adds that no thread can have the id, where that is so.
#[tactic(auto, unfolding(crate::specs::Ids::bad_text))]
fn add_bad(text: &mut Text, id: ThreadId)
    requires { length text.old + 30 ≤ text_bytes }
    ensures value { text.new ≡ text.old ++ bad_text id }
    ensures len { length text.new ≤ length text.old + 30 }
{
    if id.is_bad() {
        text.add(b", not a valid thread id");
    }
}

/// Adds what an id means.
#[tactic(auto, unfolding(crate::specs::Ids::id_text))]
fn add_id(text: &mut Text, id: ThreadId)
    requires { length text.old + 90 ≤ text_bytes }
    ensures value { text.new ≡ text.old ++ id_text id }
    ensures len { length text.new ≤ length text.old + 90 }
{
    if id.0 == 0 {
        return text.add(b"nilthread");
    }
    if id.0 == 0xffff_ffff {
        return text.add(b"anythread");
    }
    if id.0 == 0xffff_ffc0 {
        return text.add(b"anylocalthread, not supported");
    }
    if id.0 % 64 == 0 {
        return text.add(b"local thread id, not supported");
    }
    text.add(b"thread ");
    text.add_number(u64::from(id.number()));
    text.add(b", version ");
    text.add_number(u64::from(id.version()));
    add_bad(text, id);
}

/// Returns the line of a word as a thread's id.
#[tactic(auto, unfolding(crate::specs::Ids::id_line, crate::specs::Spelling::meaning_line))]
pub(crate) fn id_line(word: u32) -> Text
    ensures { result ≡ id_line word }
{
    let mut text = begin_line(b"id ", word);
    add_id(&mut text, ThreadId(word));
    text.push(b'\n');
    text
}
