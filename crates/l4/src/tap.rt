//! Texts in the lines of TAP, the Test Anything Protocol.
ghost use Rattle.std.specs.Prelude.{◌≡◌, option_map};
ghost use Rattle.l4.specs.Tap.{escape_of};

use std::fmt;
use std::fmt::{Display, Formatter};

/// Returns the escaped form of a character in the description of a test, or None if it needs none.
fn escape_of(character: char) -> Option<&'static str>
    ensures { option_map (λ s. s.now) result ≡ escape_of character }
{
    match character {
        '\\' => Some("\\\\"),
        '#' => Some("\\#"),
        '\n' => Some("\\n"),
        _ => None,
    }
}

/// A text in the description of a test, where `#` would begin a directive, and a newline would end the description.
#[derive(Drop)]
pub(crate) struct Escaped<'a>(pub(crate) &'a str);

impl Display for Escaped<'_> {
    fn fmt<W: fmt::Write>(&self, f: &mut Formatter<W>) -> fmt::Result {
        for character in self.0.chars() {
            match escape_of(character) {
                Some(text) => f.write_str(text)?,
                None => f.write_char(character)?,
            }
        }
        Ok(())
    }
}
