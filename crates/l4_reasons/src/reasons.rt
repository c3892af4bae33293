//! The text of why a line can't be read.
ghost use Rattle.std.specs.Prelude.{◌≡◌, ◌≤◌, ◌+◌, ◌++◌, ◌∷◌, [], length, decimal};
ghost use Rattle.l4_reasons.specs.Reasons.{token_says, symbol_says, missing_says, line_says};
ghost use Rattle.l4_reasons.specs.Sizes.{reason_bytes};

use crate::hints::add_hints;
use crate::quoted::add_quoted;
use arrayvec::ArrayVec;
use l4_text::Text;
use std::fmt;
use std::fmt::{Display, Formatter};
use std::marker::Model;

/// The most bytes of a reason.
const MAX_REASON: usize = 640;

/// Why a line is refused: a text of at most 640 bytes.
#[derive(Debug, Drop)]
pub struct Reason {
    bytes: ArrayVec<u8, MAX_REASON>,
}

impl Model for Reason {
    ghost use Rattle.std.specs.Prelude.{ℕ, List};

    ghost Value = { List ℕ };

    ghost view = { λ a. a.bytes.items };
}

impl Display for Reason {
    fn fmt<W: fmt::Write>(&self, f: &mut Formatter<W>) -> fmt::Result {
        match str::from_utf8(self.bytes.as_slice()) {
            Ok(text) => f.write_str(text),
            Err(_) => Err(fmt::Error),
        }
    }
}

impl Reason {
    /// Returns an empty text.
    pub fn new() -> Reason
        ensures { result ≡ [] }
    {
        Reason {
            bytes: ArrayVec::new(),
        }
    }

    /// Returns the bytes.
    pub fn as_slice(&self) -> &[u8]
        ensures value { result.now ≡ self.now }
        ensures fits { length result.now ≤ reason_bytes }
    {
        self.bytes.as_slice()
    }

    /// Adds a byte.
    pub fn push(&mut self, byte: u8)
        requires { length self.old + 1 ≤ reason_bytes }
        ensures value { self.new ≡ self.old ++ byte ∷ [] }
        ensures len { length self.new ≡ length self.old + 1 }
    {
        self.bytes.push(byte);
    }

    /// Adds these bytes.
    pub fn add(&mut self, bytes: &[u8])
        requires { length self.old + length bytes.now ≤ reason_bytes }
        ensures value { self.new ≡ self.old ++ bytes.now }
        ensures len { length self.new ≡ length self.old + length bytes.now }
    {
        let _ = self.bytes.try_extend_from_slice(bytes);
    }

    /// Adds a number in decimal, without leading zeros.
    pub fn add_number(&mut self, number: u64)
        requires { length self.old + 20 ≤ reason_bytes }
        ensures value { self.new ≡ self.old ++ decimal number }
        ensures len { length self.new ≤ length self.old + 20 }
    {
        let mut digits = Text::new();
        digits.add_number(number);
        self.add(digits.as_slice());
    }
}

/// Returns `line LINE: `, to be followed by what is wrong with the line.
#[tactic(auto, unfolding(crate::specs::Reasons::line_says))]
pub fn line_reason(line: u64) -> Reason
    ensures value { result ≡ line_says line }
    ensures len { length result ≤ 27 }
{
    let mut reason = Reason::new();
    reason.add(b"line ");
    reason.add_number(line);
    reason.add(b": ");
    reason
}

/// Returns why a line can't be read whose token of this number, from 1, is wrong: `line LINE: token NUMBER "TOKEN": expected EXPECTED`, what an
/// editor may not show of the token, and where comments are allowed if it has a number sign.
#[tactic(auto, unfolding(crate::specs::Reasons::token_says))]
pub fn token_reason(line: u64, number: u64, token: &[u8], expected: &[u8]) -> Reason
    requires { length expected.now ≤ 160 }
    ensures { result ≡ token_says line number token.now expected.now }
{
    let mut reason = line_reason(line);
    reason.add(b"token ");
    reason.add_number(number);
    reason.add(b" ");
    add_quoted(&mut reason, token);
    reason.add(b": expected ");
    reason.add(expected);
    add_hints(&mut reason, token);
    reason
}

/// Returns why a line can't be read whose token of this number, from 1, is almost right: `line LINE: token NUMBER "TOKEN": WHY`, what an
/// editor may not show of the token, and where comments are allowed if it has a number sign.
#[tactic(auto, unfolding(crate::specs::Reasons::symbol_says))]
pub fn symbol_reason(line: u64, number: u64, token: &[u8], why: &[u8]) -> Reason
    requires { length why.now ≤ 160 }
    ensures { result ≡ symbol_says line number token.now why.now }
{
    let mut reason = line_reason(line);
    reason.add(b"token ");
    reason.add_number(number);
    reason.add(b" ");
    add_quoted(&mut reason, token);
    reason.add(b": ");
    reason.add(why);
    add_hints(&mut reason, token);
    reason
}

/// Returns why a line can't be read that ends before its token of this number, from 1: `line LINE: token NUMBER is missing: expected EXPECTED`.
#[tactic(auto, unfolding(crate::specs::Reasons::missing_says))]
pub fn missing_reason(line: u64, number: u64, expected: &[u8]) -> Reason
    requires { length expected.now ≤ 160 }
    ensures { result ≡ missing_says line number expected.now }
{
    let mut reason = line_reason(line);
    reason.add(b"token ");
    reason.add_number(number);
    reason.add(b" is missing: expected ");
    reason.add(expected);
    reason
}
