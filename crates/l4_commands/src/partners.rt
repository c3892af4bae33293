//! Reads the tokens that name threads, and the words `nil`, `any` and `new`.
ghost use Rattle.std.specs.Prelude.{◌≡◌, option_map};
ghost use Rattle.l4_text.specs.Numbers.{below, number_of};
ghost use Rattle.l4_threads.specs.Sizes.{numbers};
ghost use Rattle.l4_text.specs.Tokens.{tokens_of};
ghost use Rattle.l4_commands.specs.Commands.{first_by, thread_of, nil_or_thread_of, partner_of, new_space_of};

use l4_names::Names;
use l4_text::{after_spaced_name, next_token, number, quick_number};

/// The space of a new thread.
#[derive(Clone, Copy, Debug, PartialEq, Eq)]
pub enum NewSpace {
    /// A new space.
    New,
    /// The space of the thread of this number.
    Of(u32),
}

/// A thread, all threads or none.
#[derive(Clone, Copy, Debug, PartialEq, Eq)]
pub enum Partner {
    Nil,
    Any,
    Thread(u32),
}

const NIL: &[u8] = b"nil";

const ANY: &[u8] = b"any";

const NEW: &[u8] = b"new";

/// Returns the number, if a thread can have it: one below 2^18.
fn small(value: u32) -> Option<u32>
    ensures { result ≡ below numbers (Some value) }
{
    if value < 0x4_0000 { Some(value) } else { None }
}

/// Reads the number of a thread, or its name.
#[tactic(auto, unfolding(crate::specs::Commands::thread_of))]
pub(crate) fn thread_number(token: &[u8], names: &Names) -> Option<u32>
    ensures { result ≡ thread_of names.now token.now }
{
    match number(token) {
        Some(value) => small(value),
        None => names.thread_named(token),
    }
}

/// Reads a thread, or the word `nil`.
#[tactic(auto, unfolding(crate::specs::Commands::nil_or_thread_of))]
pub(crate) fn nil_or_thread(token: &[u8], names: &Names) -> Option<Partner>
    ensures { result ≡ nil_or_thread_of names.now token.now }
{
    if token == NIL {
        return Some(Partner::Nil);
    }
    Some(Partner::Thread(thread_number(token, names)?))
}

/// Reads a thread, or one of the words `nil` and `any`.
#[tactic(auto, unfolding(crate::specs::Commands::partner_of))]
pub(crate) fn any_or_thread(token: &[u8], names: &Names) -> Option<Partner>
    ensures { result ≡ partner_of names.now token.now }
{
    if token == ANY {
        return Some(Partner::Any);
    }
    nil_or_thread(token, names)
}

/// Reads the word `new`, or a thread.
#[tactic(auto, unfolding(crate::specs::Commands::new_space_of))]
pub(crate) fn new_space(token: &[u8], names: &Names) -> Option<NewSpace>
    ensures { result ≡ new_space_of names.now token.now }
{
    if token == NEW {
        return Some(NewSpace::New);
    }
    Some(NewSpace::Of(thread_number(token, names)?))
}

/// Reads the thread in a line's first token. Returns it with what follows the token.
#[inline(always)]
pub(crate) fn next_thread<'a>(line: &'a [u8], names: &Names) -> Option<(u32, &'a [u8])>
    ensures { option_map (λ p. (p.0, tokens_of p.1.now)) result
        ≡ first_by (thread_of names.now) (tokens_of line.now) }
{
    if let Some((value, rest)) = quick_number(line) {
        if value >= 0x4_0000 {
            return None;
        }
        return Some((value, rest));
    }
    let (token, rest) = next_token(line)?;
    Some((thread_number(token, names)?, rest))
}

/// Reads the partner in a line's first token. Returns it with what follows the token. `any` after one space is recognized at once.
#[inline(always)]
pub(crate) fn next_partner<'a>(line: &'a [u8], names: &Names) -> Option<(Partner, &'a [u8])>
    ensures { option_map (λ p. (p.0, tokens_of p.1.now)) result
        ≡ first_by (partner_of names.now) (tokens_of line.now) }
{
    match after_spaced_name(line, *b"any") {
        Some(rest) => Some((Partner::Any, rest)),
        None => partner_in_front(line, names),
    }
}

/// Reads the partner in a line's first token, in any form. Returns it with what follows the token.
#[inline(always)]
fn partner_in_front<'a>(line: &'a [u8], names: &Names) -> Option<(Partner, &'a [u8])>
    ensures { option_map (λ p. (p.0, tokens_of p.1.now)) result
        ≡ first_by (partner_of names.now) (tokens_of line.now) }
{
    if let Some((value, rest)) = quick_number(line) {
        if value >= 0x4_0000 {
            return None;
        }
        return Some((Partner::Thread(value), rest));
    }
    let (token, rest) = next_token(line)?;
    Some((any_or_thread(token, names)?, rest))
}

/// Reads the number in a line's first token. Returns it with what follows the token.
#[inline(always)]
pub(crate) fn next_word(line: &[u8]) -> Option<(u32, &[u8])>
    ensures { option_map (λ p. (p.0, tokens_of p.1.now)) result
        ≡ first_by number_of (tokens_of line.now) }
{
    if let Some((value, rest)) = quick_number(line) {
        return Some((value, rest));
    }
    let (token, rest) = next_token(line)?;
    Some((number(token)?, rest))
}

/// Reads the space of a new thread in a line's first token. Returns it with what follows the token.
pub(crate) fn next_space<'a>(line: &'a [u8], names: &Names) -> Option<(NewSpace, &'a [u8])>
    ensures { option_map (λ p. (p.0, tokens_of p.1.now)) result
        ≡ first_by (new_space_of names.now) (tokens_of line.now) }
{
    let (token, rest) = next_token(line)?;
    Some((new_space(token, names)?, rest))
}

/// Reads the pager in a line's first token. Returns it with what follows the token.
pub(crate) fn next_pager<'a>(line: &'a [u8], names: &Names) -> Option<(Partner, &'a [u8])>
    ensures { option_map (λ p. (p.0, tokens_of p.1.now)) result
        ≡ first_by (nil_or_thread_of names.now) (tokens_of line.now) }
{
    let (token, rest) = next_token(line)?;
    Some((nil_or_thread(token, names)?, rest))
}
