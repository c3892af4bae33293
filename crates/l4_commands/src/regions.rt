//! Reads tokens that describe regions.
ghost use Rattle.std.specs.Prelude.{◌≡◌};
ghost use Rattle.l4_text.specs.Tokens.{tokens_of};
ghost use Rattle.l4_commands.specs.Commands.{right_of, rights_of, last_rights_of, region_of};

use crate::partners::next_word;
use l4_fpage::Rights;
use l4_msg::Region;
use l4_text::{last_three, next_token};

/// Returns whether the byte is the letter of this right. Returns None if it is neither the letter nor a hyphen.
fn right(letter: u8, byte: u8) -> Option<bool>
    ensures { result ≡ right_of letter byte }
{
    if byte == letter {
        return Some(true);
    }
    if byte == b'-' { Some(false) } else { None }
}

/// Returns the rights with these of read, write and execute.
fn rights_with(read: bool, write: bool, execute: bool) -> Rights
    ensures { result ≡ record { r = read; w = write; x = execute } }
{
    Rights::of_bits(4 * u8::from(read) + 2 * u8::from(write) + u8::from(execute))
}

/// Reads r, w and x in this order, each of them or a hyphen.
#[tactic(auto, unfolding(crate::specs::Commands::rights_of))]
pub(crate) fn rights(token: &[u8]) -> Option<Rights>
    ensures { result ≡ rights_of token.now }
{
    if token.len() != 3 {
        return None;
    }
    let read = right(b'r', token[0])?;
    let write = right(b'w', token[1])?;
    let execute = right(b'x', token[2])?;
    Some(rights_with(read, write, execute))
}

/// Reads the rights in a line's only token.
#[inline(always)]
pub(crate) fn last_rights(line: &[u8]) -> Option<Rights>
    ensures { result ≡ last_rights_of (tokens_of line.now) }
{
    if let Some(token) = last_three(line) {
        return rights(token);
    }
    let (token, rest) = next_token(line)?;
    let access = rights(token)?;
    match next_token(rest) {
        None => Some(access),
        Some(_) => None,
    }
}

/// `SOURCE TARGET COUNT RIGHTS`
#[tactic(auto, unfolding(crate::specs::Commands::region_of))]
pub(crate) fn region(line: &[u8]) -> Option<Region>
    ensures { result ≡ region_of (tokens_of line.now) }
{
    let (source, rest) = next_word(line)?;
    let (target, rest) = next_word(rest)?;
    let (count, rest) = next_word(rest)?;
    let rights = last_rights(rest)?;
    Some(Region {
        source,
        target,
        count,
        rights,
    })
}
