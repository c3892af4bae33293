//! The lines of an answer that were not compared yet.
ghost use Rattle.std.specs.Prelude.{◌≡◌, ◌≤◌, ◌==◌, length};
ghost use Rattle.std.specs.List.{position, position_or_len};
ghost use Rattle.l4_answers.specs.Lines.{first_line, later_lines, is_next};

use std::marker::Model;

/// The lines of an answer that were not compared yet.
#[derive(Drop)]
pub struct AnswerLines {
    text: Vec<u8>,
    at: usize,
}

impl Model for AnswerLines {
    ghost use Rattle.std.specs.Prelude.{ℕ, List, ◌≤◌, length, drop};

    ghost Value = { List ℕ };

    ghost view = { λ a. drop a.at a.text.items };

    ghost invariant = { λ a. a.at ≤ length a.text.items };
}

/// The position of the first newline.
fn first_newline(bytes: &[u8]) -> Option<usize>
    ensures { result ≡ position (λ byte. byte == 10) bytes.now }
{
    bytes.iter().position(|byte| *byte == b'\n')
}

/// Returns the number of bytes before the first newline: the length of the first line of a text.
pub fn line_len(bytes: &[u8]) -> usize
    ensures value { result ≡ position_or_len (λ byte. byte == 10) bytes.now }
    ensures within { result ≤ length bytes.now }
{
    first_newline(bytes).unwrap_or(bytes.len())
}

/// Returns the first line of a text, without its newline.
pub fn first_line(text: &[u8]) -> &[u8]
    ensures { result.now ≡ first_line text.now }
{
    &text[..line_len(text)]
}

/// Returns the lines after the first one.
pub fn later_lines(text: &[u8]) -> &[u8]
    ensures { result.now ≡ later_lines text.now }
{
    let len = line_len(text);
    if len < text.len() {
        &text[len + 1..]
    } else {
        &[]
    }
}

impl AnswerLines {
    /// Returns the list of all lines of a text.
    pub fn new(text: Vec<u8>) -> AnswerLines
        ensures { result ≡ text.items }
    {
        AnswerLines { text, at: 0 }
    }

    /// Returns whether no line is left.
    pub fn is_empty(&self) -> bool
        ensures { result ≡ (length self.now == 0) }
    {
        self.at >= self.text.len()
    }

    fn rest(&self) -> &[u8]
        ensures { result.now ≡ self.now }
    {
        &self.text.as_slice()[self.at..]
    }

    /// Returns the first line, without its newline. It is empty if no line is left.
    pub fn first(&self) -> &[u8]
        ensures { result.now ≡ first_line self.now }
    {
        first_line(self.rest())
    }

    /// Returns whether the first line is this one, and ends with a newline.
    pub fn is_next(&self, line: &[u8]) -> bool
        ensures { result ≡ is_next line.now self.now }
    {
        let first = self.first();
        first.len() != self.rest().len() && line == first
    }

    /// Removes the first line, if one is left.
    pub fn go_on(&mut self)
        ensures { self.new ≡ later_lines self.old }
    {
        let len = line_len(self.rest());
        let left = self.text.len() - self.at;
        if len < left {
            self.at += len + 1;
        } else {
            self.at += left;
        }
    }
}
