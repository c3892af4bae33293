//! The command line of `l4 encode`.
ghost use Rattle.std.specs.Prelude.{◌≡◌, IfOk, codes, map};
ghost use Rattle.l4_options.specs.Commands.{encode_command, option, Asks};
ghost use Rattle.l4_options.specs.Inside.Lines.{IsCommand, IsRule, found_in};
ghost use Rattle.l4_options.specs.Spelled.{AreWords, Encodes, IsKindIn, kind_of};
ghost use Rattle.l4_symbols.specs.Messages.{AddsEach, IsMessageOf};

use crate::requests::{OptionFault, Options};
use crate::values::{is_word, size_of, size_option, text_of, texts_of, words_argument};
use arrayvec::ArrayVec;
use clap::{Arg, ArgAction, ArgMatches, Command};
use l4_fpage::PageSize;
use l4_help::commands::ENCODE;
use l4_msg::MAX_WORDS;
use l4_symbols::{Reason, SymbolicMessage, WordKind, word_of};
use std::alloc::{AllocError, Global};

/// The option `--as`.
fn kind_option<'a>(alloc: Global) -> Arg<'a>
    ensures { IsRule (option (codes "as")) result }
{
    Arg::new(alloc, "as")
        .long("as")
        .value_name("KIND")
        .help("What the tokens are: message, fpage, window, timeouts, control or id")
        .action(ArgAction::Set)
}

/// The command `encode`.
pub(crate) fn of_tokens<'a>(alloc: Global) -> Result<Command<'a>, AllocError>
    ensures { IfOk result (IsCommand encode_command) }
{
    Command::new(alloc, "encode")
        .about("Prints the words that symbolic tokens stand for")
        .after_help(ENCODE)
        .arg(words_argument(
            alloc,
            "tokens",
            "TOKEN",
            "tag:LABEL, then numbers, and then items such as map:16+4>32:rwx",
        ))?
        .arg(kind_option(alloc))?
        .arg(size_option(alloc))
}

/// The fault of a token that is refused for this reason.
fn refused(alloc: Global, token: &str, reason: Reason) -> OptionFault {
    match String::from_str(alloc, token) {
        Ok(token) => OptionFault::Token { token, reason },
        Err(_) => OptionFault::Memory,
    }
}

/// The message with these tokens after its own.
fn with_tokens(
    alloc: Global,
    begun: SymbolicMessage,
    tokens: &[&str],
) -> Result<SymbolicMessage, OptionFault>
    ensures { IfOk result (λ named.
        AddsEach begun.size (map (λ s. s.now) tokens.now) begun.message named.message) }
{
    let mut message = begun;
    for token in tokens {
        if let Err(reason) = message.add(token.as_bytes()) {
            return Err(refused(alloc, token, reason));
        }
    }
    Ok(message)
}

/// The message that tokens name.
fn message_of(
    alloc: Global,
    tokens: &[&str],
    size: PageSize,
) -> Result<SymbolicMessage, OptionFault>
    ensures { IfOk result (λ named. IsMessageOf size (map (λ s. s.now) tokens.now) named.message) }
{
    let Some((tag, others)) = tokens.split_first() else {
        return Err(OptionFault::Memory);
    };
    match SymbolicMessage::begin(tag.as_bytes(), size) {
        Ok(begun) => with_tokens(alloc, begun, others),
        Err(reason) => Err(refused(alloc, tag, reason)),
    }
}

/// The fault of a token after as many as are read.
fn one_too_many(alloc: Global, token: &str) -> OptionFault {
    match String::from_str(alloc, token) {
        Ok(token) => OptionFault::TooManyTokens(token),
        Err(_) => OptionFault::Memory,
    }
}

/// The words that these tokens name, each by itself.
fn each_word(
    alloc: Global,
    kind: WordKind,
    tokens: &[&str],
    size: PageSize,
) -> Result<ArrayVec<u32, MAX_WORDS>, OptionFault>
    ensures { IfOk result (λ words. AreWords kind size (map (λ s. s.now) tokens.now) words.items) }
{
    let mut words = ArrayVec::new();
    for token in tokens {
        let word = match word_of(kind, token.as_bytes(), size) {
            Ok(word) => word,
            Err(reason) => return Err(refused(alloc, token, reason)),
        };
        if let Err(_) = words.try_push(word) {
            return Err(one_too_many(alloc, token));
        }
    }
    Ok(words)
}

/// The kind of this name; none for a message.
fn kind_in(name: &str) -> Option<Option<WordKind>>
    ensures { result ≡ kind_of name.now }
{
    if is_word(name, "message") {
        return Some(None);
    }
    if is_word(name, "fpage") {
        return Some(Some(WordKind::Fpage));
    }
    if is_word(name, "window") {
        return Some(Some(WordKind::Window));
    }
    if is_word(name, "timeouts") {
        return Some(Some(WordKind::Timeouts));
    }
    if is_word(name, "control") {
        return Some(Some(WordKind::Control));
    }
    if is_word(name, "id") {
        return Some(Some(WordKind::Id));
    }
    None
}

/// The kind that the matches name; none for a message, also where the option is left out.
fn kind_asked(alloc: Global, matches: &ArgMatches<'_>) -> Result<Option<WordKind>, OptionFault>
    ensures { IfOk result (IsKindIn (found_in matches.now)) }
{
    let Some(name) = text_of(matches, "as") else {
        return Ok(None);
    };
    if let Some(kind) = kind_in(name) {
        return Ok(kind);
    }
    match String::from_str(alloc, name) {
        Ok(text) => Err(OptionFault::Kind(text)),
        Err(_) => Err(OptionFault::Memory),
    }
}

/// The words that these tokens name, of this kind or of a message.
fn words_in(
    alloc: Global,
    kind: Option<WordKind>,
    tokens: &[&str],
    size: PageSize,
) -> Result<ArrayVec<u32, MAX_WORDS>, OptionFault>
    ensures { IfOk result (λ words. Encodes kind size (map (λ s. s.now) tokens.now) words.items) }
{
    if let Some(kind) = kind {
        return each_word(alloc, kind, tokens, size);
    }
    match message_of(alloc, tokens, size) {
        Ok(message) => Ok(message.words()),
        Err(fault) => Err(fault),
    }
}

/// What the matches of `encode` ask for.
pub(crate) fn encode_options(
    alloc: Global,
    matches: &ArgMatches<'_>,
) -> Result<Options, OptionFault>
    ensures { IfOk result (Asks (codes "encode") (found_in matches.now)) }
{
    let size = size_of(alloc, matches)?;
    let kind = kind_asked(alloc, matches)?;
    let Some(tokens) = texts_of(matches, "tokens") else {
        return Err(OptionFault::Memory);
    };
    match words_in(alloc, kind, tokens, size) {
        Ok(words) => Ok(Options::Encode(words)),
        Err(fault) => Err(fault),
    }
}
