//! Reads names that may be given to threads.
ghost use Rattle.std.specs.Prelude.{◌≡◌, option_map};
ghost use Rattle.std.specs.List.{list_any};
ghost use Rattle.l4_text.specs.Tokens.{tokens_of};
ghost use Rattle.l4_commands.specs.Commands.{first_by, is_word, is_language_word, new_name_of};

use crate::commands::COMMAND_NAMES;
use l4_names::Name;
use l4_text::next_token;

/// The words that have the form of a name, and that a command accepts as keywords or that begin a symbolic token.
const TOKEN_WORDS: &[&[u8]] = &[
    b"nil", b"any", b"new", b"all", b"none", b"never", b"zero", b"tag", b"map", b"grant", b"rwx",
    b"rw-", b"r-x", b"r--",
];

/// Returns whether a token is one of these words.
fn is_one_of(words: &[&[u8]], token: &[u8]) -> bool
    ensures { result ≡ list_any (λ word. is_word word.now token.now) words.now }
{
    words.iter().any(|word| token == *word)
}

/// Returns whether a token is a word of the language.
#[tactic(auto, unfolding(crate::specs::Commands::is_language_word))]
fn is_language_word(token: &[u8]) -> bool
    ensures { result ≡ is_language_word token.now }
{
    is_one_of(COMMAND_NAMES, token) || is_one_of(TOKEN_WORDS, token)
}

/// Reads a name that may be given to a thread. It is no word of the language.
#[tactic(auto, unfolding(crate::specs::Commands::new_name_of))]
pub(crate) fn new_name(token: &[u8]) -> Option<Name>
    ensures { result ≡ new_name_of token.now }
{
    if is_language_word(token) {
        return None;
    }
    Name::of(token)
}

/// Reads such a name in a line's first token. Returns it with what follows the token.
pub(crate) fn next_new_name(line: &[u8]) -> Option<(Name, &[u8])>
    ensures { option_map (λ p. (p.0, tokens_of p.1.now)) result
        ≡ first_by new_name_of (tokens_of line.now) }
{
    let (token, rest) = next_token(line)?;
    Some((new_name(token)?, rest))
}
