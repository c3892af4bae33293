//! Values on a command line: numbers, rights, regions, words, and the options `--frames`, `--page-size` and `--as`.
ghost use Rattle.std.specs.Prelude.{◌≡◌, ◌+◌, ◌*◌, ◌^◌, IfOk, codes, option_map, map, Some};
ghost use Rattle.std.specs.Str.{bytes_eq};
ghost use Rattle.std.specs.String.{string_bytes};
ghost use Rattle.clap.specs.Walk.{all_of, first_of};
ghost use Rattle.clap.specs.Values.{kind_of};
ghost use Rattle.l4_text.specs.Numbers.{below, digit_of, value_from};
ghost use Rattle.l4_options.specs.Spelled.{word_at, is_on, right_of, rights_of, decimal_of, frame_count_of, page_size_of, reading_of, Spell, IsDecimalAt, AreRightsIn, IsRegionIn, AreFramesIn, IsSizeIn, IsScriptIn, AreNumbersIn, IsReadingIn};
ghost use Rattle.l4_options.specs.Commands.{word, needed_words, option, switch};
ghost use Rattle.l4_options.specs.Inside.Lines.{IsRule, IsTextKind, found_in};
ghost use Rattle.l4_options.specs.Inside.Words.{underscored, spelled_anew};

use crate::advice::without_advice;
use crate::requests::{OptionFault, ScriptOptions};
use arrayvec::ArrayVec;
use clap::error::ErrorKind;
use clap::{Arg, ArgAction, ArgMatches, Error};
use l4_decode::Reading;
use l4_fpage::{PageSize, Rights};
use l4_ipc::MAX_FRAMES;
use l4_msg::{MAX_WORDS, Region};
use l4_text::number;
use std::alloc::Global;

/// The frames of a machine where none are asked for.
const DEFAULT_FRAMES: u32 = 256;

/// The option `--frames`.
pub(crate) fn frames_option<'a>(alloc: Global) -> Arg<'a>
    ensures { IsRule (option (codes "frames")) result }
{
    Arg::new(alloc, "frames")
        .long("frames")
        .value_name("N")
        .help("The number of page frames, from 1 to 4096 [default: 256]")
        .action(ArgAction::Set)
}

/// The option `--page-size`.
pub(crate) fn size_option<'a>(alloc: Global) -> Arg<'a>
    ensures { IsRule (option (codes "page-size")) result }
{
    Arg::new(alloc, "page-size")
        .long("page-size")
        .value_name("BYTES")
        .help("The size of pages and frames in bytes, 4096 or 1024 [default: 4096]")
        .action(ArgAction::Set)
}

/// The file of a script or list, with this help.
pub(crate) fn file_argument<'a>(alloc: Global, help: &'a str) -> Arg<'a>
    ensures { IsRule (word (codes "file")) result }
{
    Arg::new(alloc, "file")
        .value_name("FILE")
        .help(help)
        .action(ArgAction::Set)
}

/// The option `--strict`.
pub(crate) fn strict_option<'a>(alloc: Global) -> Arg<'a>
    ensures { IsRule (switch (codes "strict")) result }
{
    Arg::new(alloc, "strict")
        .long("strict")
        .help("Stop at the first refused line, with exit status 1")
        .action(ArgAction::SetTrue)
}

/// The option `--explain`.
pub(crate) fn explain_option<'a>(alloc: Global) -> Arg<'a>
    ensures { IsRule (switch (codes "explain")) result }
{
    Arg::new(alloc, "explain")
        .long("explain")
        .help("Explain each answer in lines that begin with #")
        .action(ArgAction::SetTrue)
}

/// The option `--number`.
pub(crate) fn number_option<'a>(alloc: Global) -> Arg<'a>
    ensures { IsRule (switch (codes "number")) result }
{
    Arg::new(alloc, "number")
        .long("number")
        .help("Print the number of its line before each answer")
        .action(ArgAction::SetTrue)
}

/// The option `--moves`.
pub(crate) fn moves_option<'a>(alloc: Global) -> Arg<'a>
    ensures { IsRule (switch (codes "moves")) result }
{
    Arg::new(alloc, "moves")
        .long("moves")
        .help("Print each page that a transfer moved in a line that begins with #")
        .action(ArgAction::SetTrue)
}

/// The option `--history-to`.
pub(crate) fn history_option<'a>(alloc: Global) -> Arg<'a>
    ensures { IsRule (option (codes "history-to")) result }
{
    Arg::new(alloc, "history-to")
        .long("history-to")
        .value_name("SEGMENTS")
        .help("Write the history to this new file while the script runs")
        .action(ArgAction::Set)
}

/// The option `--answers`.
pub(crate) fn answers_option<'a>(alloc: Global) -> Arg<'a>
    ensures { IsRule (switch (codes "answers")) result }
{
    Arg::new(alloc, "answers")
        .long("answers")
        .help("Print the answers to each step in lines that begin with #")
        .action(ArgAction::SetTrue)
}

/// The option `--against`.
pub(crate) fn against_option<'a>(alloc: Global) -> Arg<'a>
    ensures { IsRule (option (codes "against")) result }
{
    Arg::new(alloc, "against")
        .long("against")
        .value_name("LIST")
        .help("The steps and queries that the list must have, each with its answers")
        .action(ArgAction::Set)
}

/// The option `--partial`.
pub(crate) fn partial_option<'a>(alloc: Global) -> Arg<'a>
    ensures { IsRule (switch (codes "partial")) result }
{
    Arg::new(alloc, "partial")
        .long("partial")
        .help("Accept steps and queries without answers")
        .action(ArgAction::SetTrue)
}

/// The option `--all`.
pub(crate) fn all_option<'a>(alloc: Global) -> Arg<'a>
    ensures { IsRule (switch (codes "all")) result }
{
    Arg::new(alloc, "all")
        .long("all")
        .help("Report every difference, not only the first")
        .action(ArgAction::SetTrue)
}

/// The option `--follow`.
pub(crate) fn follow_option<'a>(alloc: Global) -> Arg<'a>
    ensures { IsRule (switch (codes "follow")) result }
{
    Arg::new(alloc, "follow")
        .long("follow")
        .help("Report the last calls of a step's threads with each difference")
        .action(ArgAction::SetTrue)
}

/// One or more words.
pub(crate) fn words_argument<'a>(
    alloc: Global,
    id: &'a str,
    name: &'a str,
    help: &'a str,
) -> Arg<'a>
    ensures { IsRule (needed_words id.now) result }
{
    Arg::new(alloc, id)
        .value_name(name)
        .help(help)
        .required(true)
        .num_args(1..)
        .action(ArgAction::Append)
}

/// The option `--as`.
pub(crate) fn reading_option<'a>(alloc: Global) -> Arg<'a>
    ensures { IsRule (option (codes "as")) result }
{
    Arg::new(alloc, "as")
        .long("as")
        .value_name("READING")
        .help("How to read the words: message, fpage, window, id or control")
        .action(ArgAction::Set)
}

/// The value of a decimal digit.
fn digit(byte: u8) -> Option<u8>
    ensures { result ≡ digit_of byte }
{
    match byte {
        b'0'..=b'9' => Some(byte - b'0'),
        _ => None,
    }
}

/// The number, if it is below 2^32.
fn small(number: u64) -> Option<u32>
    ensures { result ≡ below (2 ^ 32) (Some number) }
{
    if number < 0x1_0000_0000 {
        Some(number as u32)
    } else {
        None
    }
}

/// The number with one more digit at its end, below 2^32.
fn with_digit(number: u32, byte: u8) -> Option<u32>
    ensures { result ≡ below (2 ^ 32) (option_map (λ d. number * 10 + d) (digit_of byte)) }
{
    match digit(byte) {
        Some(next) => small(u64::from(number) * 10 + u64::from(next)),
        None => None,
    }
}

/// The number below 2^32 that decimal digits spell.
fn digits_in(text: &[u8]) -> Option<u32>
    ensures { result ≡ below (2 ^ 32) (value_from 10 digit_of 0 text.now) }
{
    let mut value = 0u32;
    for byte in text {
        let Some(next) = with_digit(value, *byte) else {
            return None;
        };
        value = next;
    }
    Some(value)
}

/// A number below 2^32 in one or more decimal digits.
#[tactic(auto, unfolding(crate::specs::Spelled::decimal_of))]
fn number_in(text: &[u8]) -> Option<u32>
    ensures { result ≡ decimal_of text.now }
{
    if text.is_empty() {
        return None;
    }
    digits_in(text)
}

/// A number of frames: decimal digits, from 1 to 4,096.
fn frames_in(text: &[u8]) -> Option<u32>
    ensures { result ≡ frame_count_of text.now }
{
    let value = number_in(text)?;
    if value >= 1 && value <= MAX_FRAMES {
        Some(value)
    } else {
        None
    }
}

/// The bytes of a page: decimal digits, 4,096 or 1,024.
fn size_in(text: &[u8]) -> Option<PageSize>
    ensures { result ≡ page_size_of text.now }
{
    match number_in(text)? {
        4096 => Some(PageSize::Kib4),
        1024 => Some(PageSize::Kib1),
        _ => None,
    }
}

/// Whether the byte gives a right or leaves it out.
fn right(letter: u8, byte: u8) -> Option<bool>
    ensures { result ≡ right_of letter byte }
{
    if byte == letter {
        return Some(true);
    }
    if byte == b'-' || byte == b'_' {
        Some(false)
    } else {
        None
    }
}

/// The rights among read, write and execute.
fn rights_with(read: bool, write: bool, execute: bool) -> Rights
    ensures { result ≡ record { r = read; w = write; x = execute } }
{
    Rights::of_bits(4 * u8::from(read) + 2 * u8::from(write) + u8::from(execute))
}

/// Rights: r, w and x in turn, each of them or `-` or `_` in its place.
#[tactic(auto, unfolding(crate::specs::Spelled::rights_of))]
fn rights_in(text: &[u8]) -> Option<Rights>
    ensures { result ≡ rights_of text.now }
{
    if text.len() != 3 {
        return None;
    }
    let read = right(b'r', text[0])?;
    let write = right(b'w', text[1])?;
    let execute = right(b'x', text[2])?;
    Some(rights_with(read, write, execute))
}

/// Rights without that to read in letters, with an underscore for each that is left out.
fn underscored(bits: u8) -> &'static str
    ensures { result.now ≡ underscored bits }
{
    if bits == 0 {
        return "___";
    }
    if bits == 1 {
        return "__x";
    }
    if bits == 2 {
        return "_w_";
    }
    "_wx"
}

/// What to write on a command line for rights whose word begins with `-`, which is taken for an option.
pub(crate) fn without_hyphens(word: &str) -> Option<&'static str>
    ensures { option_map (λ s. s.now) result ≡ spelled_anew word.now }
{
    let bytes = word.as_bytes();
    if bytes.is_empty() {
        return None;
    }
    if bytes[0] != b'-' {
        return None;
    }
    let rights = rights_in(bytes)?;
    Some(underscored(rights.bits()))
}

/// The usage or the version, where a parse gave it in place of matches.
pub(crate) fn help_text(alloc: Global, error: &Error) -> Result<String, OptionFault>
    ensures { IfOk result (λ _. IsTextKind (kind_of error.now)) }
{
    let Ok(text) = error.to_string(alloc) else {
        return Err(OptionFault::Memory);
    };
    match error.kind() {
        ErrorKind::DisplayHelp | ErrorKind::DisplayVersion => Ok(text),
        ErrorKind::OutOfMemory => Err(OptionFault::Memory),
        _ => match without_advice(alloc, text.as_str()) {
            Ok(text) => Err(OptionFault::Words(text)),
            Err(_) => Err(OptionFault::Memory),
        },
    }
}

/// Whether a word is this one.
pub(crate) fn is_word(word: &str, other: &str) -> bool
    ensures { result ≡ bytes_eq word.now other.now }
{
    word == other
}

/// The word of an argument, if there is one.
pub(crate) fn text_of<'a>(matches: &ArgMatches<'a>, id: &str) -> Option<&'a str>
    ensures { option_map (λ s. s.now) result ≡ first_of id.now (found_in matches.now) }
{
    matches.get_str(id)
}

/// The word of an argument, an empty one where there is none.
fn word_at<'a>(matches: &ArgMatches<'a>, id: &str) -> &'a str
    ensures { result.now ≡ word_at (found_in matches.now) id.now }
{
    match text_of(matches, id) {
        Some(word) => word,
        None => "",
    }
}

/// The words of an argument, if there is one.
pub(crate) fn texts_of<'m, 'a>(matches: &'m ArgMatches<'a>, id: &str) -> Option<&'m [&'a str]>
    ensures { option_map (λ s. map (λ v. v.now) s.now) result
        ≡ all_of id.now (found_in matches.now) }
{
    matches.get_strs(id)
}

/// A copy of the word of an argument, if there is one.
pub(crate) fn name_of(
    alloc: Global,
    matches: &ArgMatches<'_>,
    id: &str,
) -> Result<Option<String>, OptionFault>
    ensures { IfOk result
        (λ name. option_map string_bytes name ≡ first_of id.now (found_in matches.now)) }
{
    let Some(word) = text_of(matches, id) else {
        return Ok(None);
    };
    match String::from_str(alloc, word) {
        Ok(name) => Ok(Some(name)),
        Err(_) => Err(OptionFault::Memory),
    }
}

/// Whether a switch is on.
pub(crate) fn is_on(matches: &ArgMatches<'_>, id: &str) -> bool
    ensures { result ≡ is_on (found_in matches.now) id.now }
{
    is_word(word_at(matches, id), "true")
}

/// Whether a script ends at its first refused line.
pub(crate) fn is_strict(matches: &ArgMatches<'_>) -> bool
    ensures { result ≡ is_on (found_in matches.now) (codes "strict") }
{
    is_on(matches, "strict")
}

/// The decimal number of a thread, of a page, or of a part of a region, by the argument and its name on the command line.
pub(crate) fn number_of(
    alloc: Global,
    matches: &ArgMatches<'_>,
    id: &str,
    name: &'static str,
) -> Result<u32, OptionFault>
    ensures { IfOk result (IsDecimalAt (found_in matches.now) id.now) }
{
    decimal_of(alloc, word_at(matches, id), name)
}

/// The decimal number of an argument or of an option, by its name on the command line.
pub(crate) fn decimal_of(alloc: Global, word: &str, name: &'static str) -> Result<u32, OptionFault>
    ensures { IfOk result (λ n. decimal_of word.now ≡ Some n) }
{
    match number_in(word.as_bytes()) {
        Some(number) => Ok(number),
        None => match String::from_str(alloc, word) {
            Ok(word) => Err(OptionFault::Decimal { name, word }),
            Err(_) => Err(OptionFault::Memory),
        },
    }
}

/// The rights of a region.
fn rights_of(alloc: Global, matches: &ArgMatches<'_>) -> Result<Rights, OptionFault>
    ensures { IfOk result (AreRightsIn (found_in matches.now)) }
{
    let word = word_at(matches, "rights");
    match rights_in(word.as_bytes()) {
        Some(rights) => Ok(rights),
        None => match String::from_str(alloc, word) {
            Ok(text) => Err(OptionFault::Rights(text)),
            Err(_) => Err(OptionFault::Memory),
        },
    }
}

/// The region that the matches name.
pub(crate) fn region_of(alloc: Global, matches: &ArgMatches<'_>) -> Result<Region, OptionFault>
    ensures { IfOk result (IsRegionIn (found_in matches.now)) }
{
    Ok(Region {
        source: number_of(alloc, matches, "source", "<SOURCE>")?,
        target: number_of(alloc, matches, "target", "<TARGET>")?,
        count: number_of(alloc, matches, "count", "<COUNT>")?,
        rights: rights_of(alloc, matches)?,
    })
}

/// The number of frames that the matches name: 256 where the option is left out.
pub(crate) fn frames_of(alloc: Global, matches: &ArgMatches<'_>) -> Result<u32, OptionFault>
    ensures { IfOk result (AreFramesIn (found_in matches.now)) }
{
    let Some(word) = text_of(matches, "frames") else {
        return Ok(DEFAULT_FRAMES);
    };
    if let Some(frames) = frames_in(word.as_bytes()) {
        return Ok(frames);
    }
    match String::from_str(alloc, word) {
        Ok(text) => Err(OptionFault::Frames(text)),
        Err(_) => Err(OptionFault::Memory),
    }
}

/// The size of pages that the matches name: 4 KiB where the option is left out.
pub(crate) fn size_of(alloc: Global, matches: &ArgMatches<'_>) -> Result<PageSize, OptionFault>
    ensures { IfOk result (IsSizeIn (found_in matches.now)) }
{
    let Some(word) = text_of(matches, "page-size") else {
        return Ok(PageSize::Kib4);
    };
    if let Some(size) = size_in(word.as_bytes()) {
        return Ok(size);
    }
    match String::from_str(alloc, word) {
        Ok(text) => Err(OptionFault::Pages(text)),
        Err(_) => Err(OptionFault::Memory),
    }
}

/// The script that the matches name.
pub(crate) fn script_of(
    alloc: Global,
    matches: &ArgMatches<'_>,
) -> Result<ScriptOptions, OptionFault>
    ensures { IfOk result (IsScriptIn (found_in matches.now)) }
{
    let frames = frames_of(alloc, matches)?;
    let size = size_of(alloc, matches)?;
    let file = name_of(alloc, matches, "file")?;
    Ok(ScriptOptions { frames, size, file })
}

/// The fault of a word to explain that is not a number.
fn not_a_word(alloc: Global, text: &str) -> OptionFault {
    match String::from_str(alloc, text) {
        Ok(text) => OptionFault::Word(text),
        Err(_) => OptionFault::Memory,
    }
}

/// The fault of a word to explain after as many as a message can have.
fn one_too_many(alloc: Global, text: &str) -> OptionFault {
    match String::from_str(alloc, text) {
        Ok(text) => OptionFault::TooMany(text),
        Err(_) => OptionFault::Memory,
    }
}

/// The numbers that these texts spell.
fn numbers_in(alloc: Global, texts: &[&str]) -> Result<ArrayVec<u32, MAX_WORDS>, OptionFault>
    ensures { IfOk result (λ words. Spell (map (λ s. s.now) texts.now) words.items) }
{
    let mut words = ArrayVec::new();
    for text in texts {
        let Some(word) = number(text.as_bytes()) else {
            return Err(not_a_word(alloc, text));
        };
        if let Err(_) = words.try_push(word) {
            return Err(one_too_many(alloc, text));
        }
    }
    Ok(words)
}

/// The words that the matches name.
pub(crate) fn words_of(
    alloc: Global,
    matches: &ArgMatches<'_>,
) -> Result<ArrayVec<u32, MAX_WORDS>, OptionFault>
    ensures { IfOk result (λ words. AreNumbersIn (found_in matches.now) words.items) }
{
    let Some(texts) = texts_of(matches, "words") else {
        return Err(OptionFault::Memory);
    };
    numbers_in(alloc, texts)
}

/// The reading of this name.
fn reading_in(name: &str) -> Option<Reading>
    ensures { result ≡ reading_of name.now }
{
    if is_word(name, "message") {
        return Some(Reading::Message);
    }
    if is_word(name, "fpage") {
        return Some(Reading::Fpage);
    }
    if is_word(name, "window") {
        return Some(Reading::Window);
    }
    if is_word(name, "id") {
        return Some(Reading::Id);
    }
    if is_word(name, "control") {
        return Some(Reading::Control);
    }
    None
}

/// The reading that the matches name; where the option is left out a word alone is read in each way, and several are a message.
pub(crate) fn reading_of(
    alloc: Global,
    matches: &ArgMatches<'_>,
    words: usize,
) -> Result<Reading, OptionFault>
    ensures { IfOk result (IsReadingIn (found_in matches.now) words) }
{
    let Some(name) = text_of(matches, "as") else {
        return Ok(if words == 1 {
            Reading::Each
        } else {
            Reading::Message
        });
    };
    if let Some(reading) = reading_in(name) {
        return Ok(reading);
    }
    match String::from_str(alloc, name) {
        Ok(text) => Err(OptionFault::Reading(text)),
        Err(_) => Err(OptionFault::Memory),
    }
}
