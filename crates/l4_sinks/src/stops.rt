//! The token at which a line stops being a command.
ghost use Rattle.std.specs.Prelude.{◌≡◌, ◌≤◌, ◌+◌, length, option_map, IfSome};
ghost use Rattle.l4_msg.specs.Sizes.{max_words};
ghost use Rattle.l4_symbols.specs.Computed.{word_in};
ghost use Rattle.l4_symbols.specs.Rows.{row_in};
ghost use Rattle.l4_text.specs.Tokens.{tokens_of};
ghost use Rattle.l4_sinks.specs.Stops.{with_rest, pager_shape_of, shape_of, shape_in, expected_for, expected_at, symbol_expected, expected_name, end_stop, fpage_wrong, short_stop, is_symbolic, fpages_stop, unmap_stop, row_stop, message_stop, answer_stop, rest_stop, kinds_stop, stop_of, place_in, IsStop};

use crate::sentences::is;
use l4_commands::{TokenKind, fpage_count, is_of_kind, symbol};
use l4_fpage::PageSize;
use l4_msg::MAX_WORDS;
use l4_names::{Names, is_name};
use l4_symbols::{MessageTokens, Reason, WordKind, word_of};
use l4_text::{next_token, number};

/// What is right at a place of a line.
#[derive(Clone, Copy)]
pub enum Expected {
    /// The name of a command.
    CommandName,
    /// A token of this kind.
    Token(TokenKind),
    /// What this reason says: the token is almost right.
    Because(Reason),
    /// A name that is not a word of the language.
    OtherName,
    /// A number, a tag, or the end of the line.
    TagOrEnd,
    /// A number, an item, or the end of the line.
    WordOrEnd,
    /// A number, an fpage, or the end of the line.
    FpageOrEnd,
    /// One more fpage: the control word counts more of them.
    CountedFpage,
    /// The end of the line: the control word counts fewer fpages.
    CountedEnd,
    /// The end of the line.
    LineEnd,
    /// An answer: one token or more, of any kind.
    AnyAnswer,
}

/// What may follow the tokens that a command always has.
#[derive(Clone, Copy)]
pub(crate) enum Rest {
    /// Nothing.
    Nothing,
    /// The tokens of a message.
    Message,
    /// The control word and the fpages of an Unmap.
    Unmap,
    /// An answer: one token or more, of any kind.
    Answer,
}

/// The tokens behind a command's name: these in turn, and then the rest.
#[derive(Clone, Copy)]
pub(crate) struct Form {
    kinds: &'static [TokenKind],
    rest: Rest,
}

const THREAD_KINDS: &[TokenKind] = &[
    TokenKind::ThreadNumber,
    TokenKind::ThreadOrNew,
    TokenKind::ThreadOrNil,
];

const SETPAGER_KINDS: &[TokenKind] = &[TokenKind::ThreadNumber, TokenKind::ThreadOrNil];

const ONE_THREAD: &[TokenKind] = &[TokenKind::ThreadNumber];

const RECV_KINDS: &[TokenKind] = &[
    TokenKind::ThreadNumber,
    TokenKind::ThreadNilOrAny,
    TokenKind::Symbol(WordKind::Window),
];

const SEND_KINDS: &[TokenKind] = &[TokenKind::ThreadNumber, TokenKind::ThreadNilOrAny];

const IPC_KINDS: &[TokenKind] = &[
    TokenKind::ThreadNumber,
    TokenKind::ThreadNilOrAny,
    TokenKind::ThreadNilOrAny,
    TokenKind::Symbol(WordKind::Timeouts),
    TokenKind::Symbol(WordKind::Window),
];

const DELEGATE_KINDS: &[TokenKind] = &[
    TokenKind::ThreadNumber,
    TokenKind::ThreadNilOrAny,
    TokenKind::Number,
    TokenKind::Number,
    TokenKind::Number,
    TokenKind::Rights,
];

const PART_KINDS: &[TokenKind] = &[
    TokenKind::ThreadNumber,
    TokenKind::ThreadNilOrAny,
    TokenKind::Number,
    TokenKind::Number,
    TokenKind::Number,
    TokenKind::Number,
    TokenKind::Rights,
];

const PARENT_KINDS: &[TokenKind] = &[TokenKind::ThreadNumber, TokenKind::Number];

const SHOW_KINDS: &[TokenKind] = &[
    TokenKind::ThreadNumber,
    TokenKind::Number,
    TokenKind::Number,
];

const FAULT_KINDS: &[TokenKind] = &[
    TokenKind::ThreadNumber,
    TokenKind::Number,
    TokenKind::Number,
    TokenKind::Rights,
];

const REGION_KINDS: &[TokenKind] = &[
    TokenKind::ThreadNumber,
    TokenKind::Number,
    TokenKind::Number,
    TokenKind::Number,
    TokenKind::Rights,
];

const NAME_KINDS: &[TokenKind] = &[TokenKind::NewName, TokenKind::ThreadNumber];

/// Where a line stops being a command.
#[derive(Clone, Copy)]
pub struct Stop<'a> {
    /// The number of the token, from 1.
    pub number: u64,
    /// The token, if the line does not end before it.
    pub token: Option<&'a [u8]>,
    /// What would be right there.
    pub expected: Expected,
}

/// The tokens of a command: these, and then the rest.
fn of_kinds(kinds: &'static [TokenKind], rest: Rest) -> Option<Form>
    requires { length kinds.now ≤ 10 }
    ensures form { option_map shape_in result ≡ with_rest kinds.now rest }
    ensures few { IfSome result (λ f. length f.kinds.now ≤ 10) }
{
    Some(Form { kinds, rest })
}

/// The tokens of a command of pagers, of names, of replies, of the history or of plans.
fn pager_form(name: &[u8]) -> Option<Form>
    ensures form { option_map shape_in result ≡ pager_shape_of name.now }
    ensures few { IfSome result (λ f. length f.kinds.now ≤ 10) }
{
    if is(name, b"fault") {
        return of_kinds(FAULT_KINDS, Rest::Nothing);
    }
    if is(name, b"region") {
        return of_kinds(REGION_KINDS, Rest::Nothing);
    }
    if is(name, b"serve") {
        return of_kinds(ONE_THREAD, Rest::Nothing);
    }
    if is(name, b"name") {
        return of_kinds(NAME_KINDS, Rest::Nothing);
    }
    if is(name, b"reply") {
        return of_kinds(ONE_THREAD, Rest::Nothing);
    }
    if is(name, b"timeout") {
        return of_kinds(ONE_THREAD, Rest::Nothing);
    }
    if is(name, b"cancel") {
        return of_kinds(ONE_THREAD, Rest::Nothing);
    }
    if is(name, b"steps") {
        return of_kinds(&[], Rest::Nothing);
    }
    if is(name, b"unordered") {
        return of_kinds(&[], Rest::Nothing);
    }
    if is(name, b"finally") {
        return of_kinds(&[], Rest::Nothing);
    }
    if is(name, b"never") {
        return of_kinds(&[], Rest::Answer);
    }
    if is(name, b"always") {
        return of_kinds(&[], Rest::Answer);
    }
    None
}

/// The tokens of the command of this name, if there is such a command.
fn form_of(name: &[u8]) -> Option<Form>
    ensures form { option_map shape_in result ≡ shape_of name.now }
    ensures few { IfSome result (λ f. length f.kinds.now ≤ 10) }
{
    if is(name, b"thread") {
        return of_kinds(THREAD_KINDS, Rest::Nothing);
    }
    if is(name, b"setpager") {
        return of_kinds(SETPAGER_KINDS, Rest::Nothing);
    }
    if is(name, b"delete") {
        return of_kinds(ONE_THREAD, Rest::Nothing);
    }
    if is(name, b"recv") {
        return of_kinds(RECV_KINDS, Rest::Nothing);
    }
    if is(name, b"send") {
        return of_kinds(SEND_KINDS, Rest::Message);
    }
    if is(name, b"ipc") {
        return of_kinds(IPC_KINDS, Rest::Message);
    }
    if is(name, b"delegate") {
        return of_kinds(DELEGATE_KINDS, Rest::Nothing);
    }
    if is(name, b"part") {
        return of_kinds(PART_KINDS, Rest::Nothing);
    }
    if is(name, b"unmap") {
        return of_kinds(ONE_THREAD, Rest::Unmap);
    }
    if is(name, b"show") {
        return of_kinds(SHOW_KINDS, Rest::Nothing);
    }
    if is(name, b"parent") {
        return of_kinds(PARENT_KINDS, Rest::Nothing);
    }
    pager_form(name)
}

/// What would be right in place of a token that is refused for this reason. If the token has another form, that is `otherwise`.
fn expected_for(otherwise: Expected, reason: Reason) -> Expected
    ensures { result ≡ expected_for otherwise reason }
{
    match reason {
        Reason::NoTag => otherwise,
        Reason::Unknown => otherwise,
        Reason::Window => otherwise,
        Reason::Fpage => otherwise,
        Reason::Timeouts => otherwise,
        Reason::Control => otherwise,
        _ => Expected::Because(reason),
    }
}

/// What would be right in place of a token that names no word of this kind.
fn symbol_expected(otherwise: Expected, kind: WordKind, token: &[u8], size: PageSize) -> Expected
    ensures { result ≡ symbol_expected otherwise (word_in kind size token.now) }
{
    match word_of(kind, token, size) {
        Ok(_) => otherwise,
        Err(reason) => expected_for(otherwise, reason),
    }
}

/// What would be right in place of a token that may not become a name.
fn name_expected(token: &[u8]) -> Expected
    ensures { result ≡ expected_name token.now }
{
    if is_name(token) {
        Expected::OtherName
    } else {
        Expected::Token(TokenKind::NewName)
    }
}

/// What would be right in place of a token that is not of this kind.
fn expected_at(kind: TokenKind, token: &[u8], size: PageSize) -> Expected
    ensures { result ≡ expected_at size kind token.now }
{
    match kind {
        TokenKind::Symbol(word) => symbol_expected(Expected::Token(kind), word, token, size),
        TokenKind::NewName => name_expected(token),
        _ => Expected::Token(kind),
    }
}

/// Where a text stops that has no more tokens. Its first token has this number.
fn end_stop(number: u64, line: &[u8]) -> Option<Stop<'_>>
    ensures { option_map place_in result ≡ end_stop number (tokens_of line.now) }
{
    let Some((token, _)) = next_token(line) else {
        return None;
    };
    Some(Stop {
        number,
        token: Some(token),
        expected: Expected::LineEnd,
    })
}

/// What would be right in place of a token that is not the next fpage of an Unmap. The control word counts `left` more fpages, and `symbolic`
/// says whether the token or one before it is symbolic.
fn fpage_wrong(
    token: &[u8],
    size: PageSize,
    names: &Names,
    left: usize,
    symbolic: bool,
) -> Option<Expected>
    ensures { result ≡ fpage_wrong size names.now symbolic left token.now }
{
    if !is_of_kind(TokenKind::Symbol(WordKind::Fpage), token, size, names) {
        return Some(symbol_expected(Expected::FpageOrEnd, WordKind::Fpage, token, size));
    }
    if symbolic && left == 0 {
        return Some(Expected::CountedEnd);
    }
    None
}

/// Where a line stops that ends behind fpages of an Unmap, if it ends too early.
fn short_stop(number: u64, left: usize, symbolic: bool) -> Option<Stop<'static>>
    ensures { option_map place_in result ≡ short_stop symbolic left number }
{
    if symbolic && left > 0 {
        return Some(Stop {
            number,
            token: None,
            expected: Expected::CountedFpage,
        });
    }
    None
}

/// Returns whether this token or one before it is symbolic.
fn is_symbolic(symbolic: bool, token: &[u8]) -> bool
    ensures { result ≡ is_symbolic symbolic token.now }
{
    symbolic || number(token).is_none()
}

/// Where a text stops that has fpages, at most as many as there are message registers, and no more. Its first token has this number. The
/// control word counts `counted` fpages, and `symbolic` says whether it is symbolic.
fn fpages_stop<'a>(
    first: u64,
    line: &'a [u8],
    size: PageSize,
    names: &Names,
    counted: usize,
    symbolic: bool,
) -> Option<Stop<'a>>
    requires few { first ≤ 100 }
    requires fit { counted ≤ max_words }
    ensures { option_map place_in result
        ≡ fpages_stop size names.now symbolic counted first max_words (tokens_of line.now) }
{
    let mut rest = line;
    let mut left = counted;
    let mut is_any = symbolic;
    for count in 0..MAX_WORDS {
        let number = first + count as u64;
        let Some((token, after)) = next_token(rest) else {
            return short_stop(number, left, is_any);
        };
        is_any = is_symbolic(is_any, token);
        if let Some(expected) = fpage_wrong(token, size, names, left, is_any) {
            return Some(Stop {
                number,
                token: Some(token),
                expected,
            });
        }
        rest = after;
        left = left.saturating_sub(1);
    }
    end_stop(first + MAX_WORDS as u64, rest)
}

/// Where a text stops that has the control word and the fpages of an Unmap, and no more. Its first token has this number.
fn unmap_stop<'a>(first: u64, line: &'a [u8], size: PageSize, names: &Names) -> Option<Stop<'a>>
    requires { first ≤ 50 }
    ensures { option_map place_in result ≡ unmap_stop size names.now first (tokens_of line.now) }
{
    let kind = TokenKind::Symbol(WordKind::Control);
    let Some((token, rest)) = next_token(line) else {
        return Some(Stop {
            number: first,
            token: None,
            expected: Expected::Token(kind),
        });
    };
    let Some(control) = symbol(WordKind::Control, token, size) else {
        return Some(Stop {
            number: first,
            token: Some(token),
            expected: expected_at(kind, token, size),
        });
    };
    let counted = fpage_count(control);
    fpages_stop(
        first + 1,
        rest,
        size,
        names,
        counted,
        is_symbolic(false, token),
    )
}

/// Where a text stops that has the tokens of a message behind those that were read, and no more. Its first token has this number.
fn row_stop<'a>(first: u64, begun: MessageTokens, line: &'a [u8]) -> Option<Stop<'a>>
    requires { first ≤ 100 }
    ensures { option_map place_in result
        ≡ row_stop begun.message.size first (tokens_of line.now) (row_in begun) }
{
    let mut message = begun;
    let mut rest = line;
    let mut place = first;
    while let Some((token, after)) = next_token(rest) {
        if let Err(reason) = message.add(token) {
            return Some(Stop {
                number: place,
                token: Some(token),
                expected: expected_for(Expected::WordOrEnd, reason),
            });
        }
        rest = after;
        place += 1;
    }
    None
}

/// Where a text stops that has the tokens of a message and no more. Its first token has this number.
fn message_stop(first: u64, line: &[u8], size: PageSize) -> Option<Stop<'_>>
    requires { first ≤ 50 }
    ensures { option_map place_in result ≡ message_stop size first (tokens_of line.now) }
{
    let Some((token, rest)) = next_token(line) else {
        return None;
    };
    match MessageTokens::begin(token, size) {
        Ok(message) => row_stop(first + 1, message, rest),
        Err(reason) => Some(Stop {
            number: first,
            token: Some(token),
            expected: expected_for(Expected::TagOrEnd, reason),
        }),
    }
}

/// Where a text stops that has an answer: one token or more. Its first token has this number.
fn answer_stop(number: u64, line: &[u8]) -> Option<Stop<'_>>
    ensures { option_map place_in result ≡ answer_stop number (tokens_of line.now) }
{
    match next_token(line) {
        Some(_) => None,
        None => Some(Stop {
            number,
            token: None,
            expected: Expected::AnyAnswer,
        }),
    }
}

/// Where a text stops that is the rest of a command. Its first token has this number.
fn rest_stop<'a>(
    number: u64,
    rest: Rest,
    line: &'a [u8],
    size: PageSize,
    names: &Names,
) -> Option<Stop<'a>>
    requires { number ≤ 50 }
    ensures { option_map place_in result ≡ rest_stop size names.now number rest (tokens_of line.now) }
{
    match rest {
        Rest::Nothing => end_stop(number, line),
        Rest::Message => message_stop(number, line, size),
        Rest::Unmap => unmap_stop(number, line, size, names),
        Rest::Answer => answer_stop(number, line),
    }
}

/// Where a text stops that has tokens of these kinds and then the rest. Its first token is the line's second.
fn kinds_stop<'a>(
    kinds: &[TokenKind],
    last: Rest,
    line: &'a [u8],
    size: PageSize,
    names: &Names,
) -> Option<Stop<'a>>
    requires { length kinds.now ≤ 10 }
    ensures { option_map place_in result ≡ kinds_stop size names.now 2 kinds.now last (tokens_of line.now) }
{
    let mut rest = line;
    let mut number = 2u64;
    for kind in kinds {
        let Some((token, after)) = next_token(rest) else {
            return Some(Stop {
                number,
                token: None,
                expected: Expected::Token(*kind),
            });
        };
        if !is_of_kind(*kind, token, size, names) {
            return Some(Stop {
                number,
                token: Some(token),
                expected: expected_at(*kind, token, size),
            });
        }
        rest = after;
        number += 1;
    }
    rest_stop(number, last, rest, size, names)
}

/// Where a line stops, by one token after another.
fn first_stop<'a>(line: &'a [u8], size: PageSize, names: &Names) -> Option<Stop<'a>>
    ensures { option_map place_in result ≡ stop_of size names.now (tokens_of line.now) }
{
    let Some((name, rest)) = next_token(line) else {
        return Some(Stop {
            number: 1,
            token: None,
            expected: Expected::CommandName,
        });
    };
    match form_of(name) {
        None => Some(Stop {
            number: 1,
            token: Some(name),
            expected: Expected::CommandName,
        }),
        Some(form) => kinds_stop(form.kinds, form.rest, rest, size, names),
    }
}

/// Returns the token at which a line stops being a command, where pages have this size and threads these names: those before it begin a command, and with it they begin
/// none. Returns None for a command.
pub fn stop_of<'a>(line: &'a [u8], size: PageSize, names: &Names) -> Option<Stop<'a>>
    ensures value { option_map place_in result ≡ stop_of size names.now (tokens_of line.now) }
    ensures right { IsStop size names.now (tokens_of line.now) (option_map place_in result) }
{
    first_stop(line, size, names)
}
