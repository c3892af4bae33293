//! The text of the control of an Unmap.
ghost use Rattle.std.specs.Prelude.{◌≡◌, ◌≤◌, ◌+◌, ◌++◌, length};
ghost use Rattle.l4_decode.specs.Controls.{control_text, control_line};
ghost use Rattle.l4_text.specs.Sizes.{text_bytes};

use crate::spelling::begin_line;
use l4_text::Text;

/// Adds what a control word means.
#[tactic(auto, unfolding(crate::specs::Controls::control_text))]
fn add_control(text: &mut Text, control: u32)
    requires { length text.old + 40 ≤ text_bytes }
    ensures value { text.new ≡ text.old ++ control_text control }
    ensures len { length text.new ≤ length text.old + 40 }
{
    if control / 64 % 2 == 1 {
        text.add(b"flush");
    } else {
        text.add(b"unmap");
    }
    text.add(b", fpages ");
    text.add_number(u64::from(control % 64 + 1));
}

/// Returns the line of a word as the control of an Unmap.
#[tactic(auto, unfolding(crate::specs::Controls::control_line, crate::specs::Spelling::meaning_line))]
pub(crate) fn control_line(word: u32) -> Text
    ensures { result ≡ control_line word }
{
    let mut text = begin_line(b"control ", word);
    add_control(&mut text, word);
    text.push(b'\n');
    text
}
