//! The token at which a line stops being a step or a query. The readers that refuse the line test one token after another.
ghost use Rattle.std.specs.Prelude.{◌≡◌, ◌≤◌, ◌+◌, length, Some, option_map, is_some, IfSome};
ghost use Rattle.std.specs.Option.{option_and_then};
ghost use Rattle.l4_text.specs.Numbers.{number_of};
ghost use Rattle.l4_text.specs.Tokens.{tokens_of};
ghost use Rattle.l4_step_lines.specs.Requests.{access_of};
ghost use Rattle.l4_step_lines.specs.Stops.{just, with_words, call_shape_of, shape_of, shape_in, fits, words_stop, kinds_stop, named_stop, call_stop, start_stop, stop_of, expected_says, place_says, unread_says, place_in};
ghost use Rattle.l4_step_lines.specs.declared.stops.Expected.TheVariants.{StepName};

use crate::requests::{
    CANCEL, CREATE, DELETE, ENABLED, EXPIRE, FAULT, IPC, PAGES, REPLY, SETPAGER, SPACE, START,
    TIMEOUT, TRANSFER, UNMAP, access,
};
use l4_ipc::MAX_WORDS;
use l4_reasons::{Reason, line_reason, missing_reason, token_reason};
use l4_text::{next_token, number};

/// What is right at a place of a line.
#[derive(Clone, Copy)]
pub(crate) enum Expected {
    /// The name of a step or a query.
    StepName,
    /// The name of a call.
    CallName,
    /// A number.
    Number,
    /// Rights as a number.
    Access,
    /// A number, or the end of the line.
    NumberOrEnd,
    /// The end of the line.
    LineEnd,
}

/// The tokens after a name: these in turn, and then at most this many numbers.
#[derive(Clone, Copy)]
pub(crate) struct Form {
    kinds: &'static [Expected],
    words: usize,
}

/// The place where a line stops being a step or a query.
#[derive(Clone, Copy)]
pub(crate) struct Stop<'a> {
    number: u64,
    token: Option<&'a [u8]>,
    expected: Expected,
}

const ONE: &[Expected] = &[Expected::Number];

const TWO: &[Expected] = &[Expected::Number, Expected::Number];

const THREE: &[Expected] = &[Expected::Number, Expected::Number, Expected::Number];

const FOUR: &[Expected] = &[
    Expected::Number,
    Expected::Number,
    Expected::Number,
    Expected::Number,
];

const FAULT_KINDS: &[Expected] = &[Expected::Number, Expected::Number, Expected::Access];

/// Tokens of these kinds alone.
fn just(kinds: &'static [Expected]) -> Option<Form>
    requires { length kinds.now ≤ 10 }
    ensures form { option_map shape_in result ≡ just kinds.now }
    ensures few { IfSome result (λ f. length f.kinds.now + f.words ≤ 100) }
{
    Some(Form { kinds, words: 0 })
}

/// Tokens of these kinds, and then message words.
fn with_words(kinds: &'static [Expected]) -> Option<Form>
    requires { length kinds.now ≤ 10 }
    ensures form { option_map shape_in result ≡ with_words kinds.now }
    ensures few { IfSome result (λ f. length f.kinds.now + f.words ≤ 100) }
{
    Some(Form {
        kinds,
        words: MAX_WORDS,
    })
}

/// The tokens of the call with this name, if there is such a call.
fn call_form(name: &[u8]) -> Option<Form>
    ensures form { option_map shape_in result ≡ call_shape_of name.now }
    ensures few { IfSome result (λ f. length f.kinds.now + f.words ≤ 100) }
{
    if name == IPC {
        return with_words(FOUR);
    }
    if name == FAULT {
        return just(FAULT_KINDS);
    }
    if name == UNMAP {
        return with_words(ONE);
    }
    if name == CREATE {
        return just(THREE);
    }
    if name == SETPAGER {
        return just(TWO);
    }
    if name == DELETE {
        return just(ONE);
    }
    None
}

/// The tokens of the query with this name, or of the step if it is not `start`.
fn form_of(name: &[u8]) -> Option<Form>
    ensures form { option_map shape_in result ≡ shape_of name.now }
    ensures few { IfSome result (λ f. length f.kinds.now + f.words ≤ 100) }
{
    if name == TRANSFER {
        return just(TWO);
    }
    if name == EXPIRE {
        return just(ONE);
    }
    if name == TIMEOUT {
        return just(ONE);
    }
    if name == CANCEL {
        return just(ONE);
    }
    if name == REPLY {
        return just(ONE);
    }
    if name == SPACE {
        return just(ONE);
    }
    if name == PAGES {
        return just(ONE);
    }
    if name == ENABLED {
        return just(&[]);
    }
    None
}

/// What is right at a place, in words.
#[tactic(auto, unfolding(crate::specs::Stops::expected_says))]
fn expected_says(expected: Expected) -> &'static [u8]
    ensures says { result.now ≡ expected_says expected }
    ensures short { length result.now ≤ 160 }
{
    match expected {
        Expected::StepName => {
            b"\"start\", \"transfer\", \"expire\", \"timeout\", \"cancel\", \"enabled\", \"reply\", \"space\" or \"pages\""
        }
        Expected::CallName => {
            b"\"ipc\", \"fault\", \"unmap\", \"create\", \"setpager\" or \"delete\""
        }
        Expected::Number => b"a number from 0 to 0xffffffff",
        Expected::Access => b"a number from 0 to 7, the sum of r (4), w (2) and x (1)",
        Expected::NumberOrEnd => b"a number from 0 to 0xffffffff or the end of the line",
        Expected::LineEnd => b"the end of the line",
    }
}

/// Whether a token is a number that is the sum of rights.
fn is_access(token: &[u8]) -> bool
    ensures { result ≡ is_some (option_and_then access_of (number_of token.now)) }
{
    match number(token) {
        Some(sum) => access(sum).is_some(),
        None => false,
    }
}

/// Whether a token is right.
#[tactic(auto, unfolding(crate::specs::Stops::fits))]
fn fits(expected: Expected, token: &[u8]) -> bool
    ensures { result ≡ fits expected token.now }
{
    match expected {
        Expected::StepName => token == START || form_of(token).is_some(),
        Expected::CallName => call_form(token).is_some(),
        Expected::Number => number(token).is_some(),
        Expected::Access => is_access(token),
        Expected::NumberOrEnd => number(token).is_some(),
        Expected::LineEnd => false,
    }
}

/// Where a text stops that has at most this many numbers and nothing else. Its first token has this number.
fn words_stop(first: u64, words: usize, line: &[u8]) -> Option<Stop<'_>>
    requires { first + words ≤ 200 }
    ensures { option_map place_in result ≡ words_stop first words (tokens_of line.now) }
{
    let mut rest = line;
    for count in 0..words {
        let Some((token, after)) = next_token(rest) else {
            return None;
        };
        if !fits(Expected::NumberOrEnd, token) {
            return Some(Stop {
                number: first + count as u64,
                token: Some(token),
                expected: Expected::NumberOrEnd,
            });
        }
        rest = after;
    }
    let Some((token, _)) = next_token(rest) else {
        return None;
    };
    Some(Stop {
        number: first + words as u64,
        token: Some(token),
        expected: Expected::LineEnd,
    })
}

/// Where a text stops that has tokens of these kinds and then at most this many numbers. Its first token has this number.
fn kinds_stop<'a>(first: u64, kinds: &[Expected], words: usize, line: &'a [u8]) -> Option<Stop<'a>>
    requires start { first ≤ 10 }
    requires few { length kinds.now + words ≤ 100 }
    ensures { option_map place_in result ≡ kinds_stop first kinds.now words (tokens_of line.now) }
{
    let mut rest = line;
    let mut number = first;
    for kind in kinds {
        let Some((token, after)) = next_token(rest) else {
            return Some(Stop {
                number,
                token: None,
                expected: *kind,
            });
        };
        if !fits(*kind, token) {
            return Some(Stop {
                number,
                token: Some(token),
                expected: *kind,
            });
        }
        rest = after;
        number += 1;
    }
    words_stop(number, words, rest)
}

/// Where a text stops that has the name of a call and the tokens after it.
fn call_stop(line: &[u8]) -> Option<Stop<'_>>
    ensures { option_map place_in result ≡ call_stop (tokens_of line.now) }
{
    let Some((name, rest)) = next_token(line) else {
        return Some(Stop {
            number: 3,
            token: None,
            expected: Expected::CallName,
        });
    };
    match call_form(name) {
        None => Some(Stop {
            number: 3,
            token: Some(name),
            expected: Expected::CallName,
        }),
        Some(form) => kinds_stop(4, form.kinds, form.words, rest),
    }
}

/// Where the text after `start` stops.
fn start_stop(line: &[u8]) -> Option<Stop<'_>>
    ensures { option_map place_in result ≡ start_stop (tokens_of line.now) }
{
    let Some((caller, rest)) = next_token(line) else {
        return Some(Stop {
            number: 2,
            token: None,
            expected: Expected::Number,
        });
    };
    if !fits(Expected::Number, caller) {
        return Some(Stop {
            number: 2,
            token: Some(caller),
            expected: Expected::Number,
        });
    }
    call_stop(rest)
}

/// Where a text stops that has this name, which is not `start`, and then the rest.
fn named_stop<'a>(name: &'a [u8], rest: &'a [u8]) -> Option<Stop<'a>>
    ensures { option_map place_in result
        ≡ named_stop 1 StepName (shape_of name.now) name.now (tokens_of rest.now) }
{
    match form_of(name) {
        None => Some(Stop {
            number: 1,
            token: Some(name),
            expected: Expected::StepName,
        }),
        Some(form) => kinds_stop(2, form.kinds, form.words, rest),
    }
}

/// Where a line stops being a step or a query.
fn stop_of(line: &[u8]) -> Option<Stop<'_>>
    ensures { option_map place_in result ≡ stop_of (tokens_of line.now) }
{
    let Some((name, rest)) = next_token(line) else {
        return Some(Stop {
            number: 1,
            token: None,
            expected: Expected::StepName,
        });
    };
    if name == START {
        return start_stop(rest);
    }
    named_stop(name, rest)
}

/// Why the line of this number stops there.
fn stop_reason(line: u64, stop: Stop<'_>) -> Reason
    ensures { result ≡ place_says line (place_in stop.entry) }
{
    let expected = expected_says(stop.expected);
    match stop.token {
        None => missing_reason(line, stop.number, expected),
        Some(token) => token_reason(line, stop.number, token, expected),
    }
}

/// Why the line of this number cannot be read.
#[tactic(auto, unfolding(crate::specs::Stops::unread_says))]
#[cold]
#[inline(never)]
pub fn unread_reason(line: u64, text: &[u8]) -> Reason
    ensures { result ≡ unread_says line (tokens_of text.now) }
{
    match stop_of(text) {
        Some(stop) => stop_reason(line, stop),
        None => line_reason(line),
    }
}
