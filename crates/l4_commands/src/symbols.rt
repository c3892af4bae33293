//! Reads words that may be symbolic tokens. A number is tried first.
ghost use Rattle.std.specs.Prelude.{◌≡◌, [], MatchOption, option_map};
ghost use Rattle.std.specs.List.{list_all};
ghost use Rattle.l4_commands.specs.Commands.{first_by, is_number, symbol_of, fpages_of, unmap_of, words_of};
ghost use Rattle.l4_commands.specs.Inside.Symbols.{FirstFpage};
ghost use Rattle.l4_symbols.specs.declared.words.WordKind.TheVariants.{Fpage};
ghost use Rattle.l4_text.specs.Tokens.{tokens_of};
ghost use Rattle.l4_unmap.specs.Unmap.{fpage_count};

use arrayvec::ArrayVec;
use l4_fpage::PageSize;
use l4_msg::MAX_WORDS;
use l4_symbols::{MessageTokens, WordKind, word_of};
use l4_text::{next_number, next_token, number, quick_number};

/// Reads a number, or the word that a symbolic token of this kind names.
#[tactic(auto, unfolding(crate::specs::Commands::symbol_of))]
pub fn symbol(kind: WordKind, token: &[u8], size: PageSize) -> Option<u32>
    ensures { result ≡ symbol_of kind size token.now }
{
    if let Some(word) = number(token) {
        return Some(word);
    }
    word_of(kind, token, size).ok()
}

/// Reads the word in a line's first token, in any form. Returns it with what follows the token.
#[cold]
#[inline(never)]
fn symbol_in_front(kind: WordKind, line: &[u8], size: PageSize) -> Option<(u32, &[u8])>
    ensures { option_map (λ p. (p.0, tokens_of p.1.now)) result
        ≡ first_by (symbol_of kind size) (tokens_of line.now) }
{
    let (token, rest) = next_token(line)?;
    Some((symbol(kind, token, size)?, rest))
}

/// Reads the word in a line's first token. Returns it with what follows the token. Most numbers are recognized at once.
#[inline(always)]
pub(crate) fn next_symbol(kind: WordKind, line: &[u8], size: PageSize) -> Option<(u32, &[u8])>
    ensures { option_map (λ p. (p.0, tokens_of p.1.now)) result
        ≡ first_by (symbol_of kind size) (tokens_of line.now) }
{
    match quick_number(line) {
        Some((value, rest)) => Some((value, rest)),
        None => symbol_in_front(kind, line, size),
    }
}

/// Reads the message of a line's tokens.
fn message_of(line: &[u8], size: PageSize) -> Option<ArrayVec<u32, MAX_WORDS>>
    ensures { option_map (λ words. words.items) result ≡ words_of size (tokens_of line.now) }
{
    let Some((token, after)) = next_token(line) else {
        return Some(ArrayVec::new());
    };
    let Ok(mut message) = MessageTokens::begin(token, size) else {
        return None;
    };
    let mut rest = after;
    while let Some((token, after)) = next_token(rest) {
        let Ok(()) = message.add(token) else {
            return None;
        };
        rest = after;
    }
    Some(message.words())
}

/// Reads the message of a line's tokens into `words`.
#[cold]
#[inline(never)]
fn read_message(line: &[u8], size: PageSize, words: &mut ArrayVec<u32, MAX_WORDS>) -> Option<()>
    ensures { option_map (λ _. words.new.items) result ≡ words_of size (tokens_of line.now) }
{
    *words = message_of(line, size)?;
    Some(())
}

/// Reads the words of a message up to the end of the line into `words`: numbers, or symbolic tokens. Returns None if a token cannot be read, or
/// there are more words than message registers.
pub(crate) fn read_words(
    line: &[u8],
    size: PageSize,
    words: &mut ArrayVec<u32, MAX_WORDS>,
) -> Option<()>
    ensures { option_map (λ _. words.new.items) result ≡ words_of size (tokens_of line.now) }
{
    words.clear();
    let mut rest = line;
    for count in 0..MAX_WORDS {
        match next_number(rest) {
            None => {
                return Some(());
            }
            Some((value, after)) => {
                let Some(word) = value else {
                    return read_message(line, size, words);
                };
                words.push(word);
                rest = after;
            }
        }
    }
    match next_token(rest) {
        None => Some(()),
        Some(_) => None,
    }
}

/// Reads the fpage in a line's first token, in any form.
#[cold]
#[inline(never)]
fn fpage_in_front(line: &[u8], size: PageSize) -> Option<u32>
    ensures { result
        ≡ option_map (λ p. p.0) (first_by (symbol_of Fpage size) (tokens_of line.now)) }
{
    let (token, _) = next_token(line)?;
    symbol(WordKind::Fpage, token, size)
}

/// Reads the fpage in a line's first token, None if it is none. Returns it with what follows the token. Returns None if the line has no token.
#[inline(always)]
fn next_fpage(line: &[u8], size: PageSize) -> Option<(Option<u32>, &[u8])>
    ensures { MatchOption result (tokens_of line.now ≡ [])
        (λ p. FirstFpage size line.now p.0 p.1.now) }
{
    let (number, after) = next_number(line)?;
    match number {
        Some(word) => Some((Some(word), after)),
        None => Some((fpage_in_front(line, size), after)),
    }
}

/// Reads fpages up to the end of the line into `fpages`, at most as many as there are message registers. Returns None if one cannot be read, or
/// there are more.
fn read_fpages(line: &[u8], size: PageSize, fpages: &mut ArrayVec<u32, MAX_WORDS>) -> Option<()>
    ensures { option_map (λ _. fpages.new.items) result ≡ fpages_of size (tokens_of line.now) }
{
    fpages.clear();
    let mut rest = line;
    for place in 0..MAX_WORDS {
        match next_fpage(rest, size) {
            None => {
                return Some(());
            }
            Some((word, after)) => {
                fpages.push(word?);
                rest = after;
            }
        }
    }
    match next_token(rest) {
        None => Some(()),
        Some(_) => None,
    }
}

/// Returns whether each token of a line is a number.
fn all_numbers(line: &[u8]) -> bool
    ensures { result ≡ list_all is_number (tokens_of line.now) }
{
    let mut rest = line;
    while let Some((token, after)) = next_token(rest) {
        if number(token).is_none() {
            return false;
        }
        rest = after;
    }
    true
}

/// Returns the number of fpages that the control word of an Unmap counts.
pub fn fpage_count(control: u32) -> usize
    ensures { result ≡ fpage_count control }
{
    (control % 64) as usize + 1
}

/// Reads the control word and the fpages of an Unmap up to the end of the line, the fpages into `fpages`. Returns None if a token cannot be
/// read, if there are more fpages than message registers, or if a token is symbolic and there are not as many fpages as the control word counts.
#[tactic(auto, unfolding(crate::specs::Commands::unmap_of))]
pub(crate) fn read_unmap(
    line: &[u8],
    size: PageSize,
    fpages: &mut ArrayVec<u32, MAX_WORDS>,
) -> Option<u32>
    ensures { option_map (λ control. (control, fpages.new.items)) result
        ≡ unmap_of size (tokens_of line.now) }
{
    let (control, rest) = next_symbol(WordKind::Control, line, size)?;
    read_fpages(rest, size, fpages)?;
    if fpages.len() == fpage_count(control) || all_numbers(line) {
        return Some(control);
    }
    None
}
