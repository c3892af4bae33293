//! Why a rule of a litmus test names no line of an outcome.
ghost use Rattle.std.specs.Prelude.{◌≤◌, length};

use l4_answers::{first_line, later_lines};
use l4_commands::read_kind;
use l4_fpage::PageSize;
use l4_names::Names;
use l4_reasons::{Reason, missing_reason, token_reason};
use l4_rules::over_threads;
use l4_text::{Ending, next_token, number as number_in};

/// Words that begin lines of outcomes about pages, refused queries and threads with lines left, and rules about all threads.
const FIRST: &[&[u8]] = &[
    b"page",
    b"shown",
    b"parent",
    b"absent",
    b"line",
    b"stuck",
    b"*",
    b"deadlock",
];

/// What follows a thread's number.
const ENDS: &[&[u8]] = &[b"waits", b"none", b"ipc", b"fault", b"unmap", b"control"];

const START: &[u8] =
    b"a thread whose reply is queried, page, shown, parent, absent, line, stuck, * or deadlock";

const END: &[u8] = b"waits, none, ipc, fault, unmap or control";

const REST: &[u8] = b"the rest of a line that an outcome can have";

/// Returns whether a token is one of these words.
fn is_one_of(token: &[u8], words: &[&[u8]]) -> bool {
    words.iter().any(|word| *word == token)
}

/// Returns the line of this number.
fn line_of(text: &[u8], number: u64) -> &[u8] {
    let mut rest = text;
    for _ in 1..number {
        rest = later_lines(rest);
    }
    first_line(rest)
}

/// Returns the names that the lines of a test give.
fn names_in(size: PageSize, text: &[u8]) -> Names {
    let mut names = Names::new();
    let mut rest = text;
    for _ in 0..text.len() {
        if rest.is_empty() {
            return names;
        }
        let _ = read_kind(size, &mut names, Ending::Whole, first_line(rest));
        rest = later_lines(rest);
    }
    names
}

/// Returns the thread that a token names.
fn thread_in(names: &Names, token: &[u8]) -> Option<u32> {
    match names.thread_named(token) {
        Some(thread) => Some(thread),
        None => number_in(token),
    }
}

/// Returns whether a token is a number with zeros in front of it.
fn has_zeros(token: &[u8]) -> bool {
    match token {
        [b'0', _, ..] => true,
        _ => false,
    }
}

/// Returns whether a line queries the reply of this thread, or states a rule that queries all replies.
fn queries(names: &Names, line: &[u8], thread: u32) -> bool {
    if over_threads(line).is_some() {
        return true;
    }
    match next_token(line) {
        Some((b"reply", rest)) => match next_token(rest) {
            Some((token, _)) => thread_in(names, token) == Some(thread),
            None => false,
        },
        _ => false,
    }
}

/// Returns whether a token of a rule is a thread whose reply is queried.
fn is_replied(names: &Names, text: &[u8], token: &[u8]) -> bool {
    let Some(thread) = thread_in(names, token) else {
        return false;
    };
    if has_zeros(token) {
        return false;
    }
    let mut rest = text;
    for _ in 0..text.len() {
        if rest.is_empty() {
            return false;
        }
        if queries(names, first_line(rest), thread) {
            return true;
        }
        rest = later_lines(rest);
    }
    false
}

/// Returns why the token of this number, which begins these bytes of a line, is wrong.
fn wrong(line: u64, number: u64, rest: &[u8], expected: &[u8]) -> Reason
    requires { length expected.now ≤ 160 }
{
    match next_token(rest) {
        Some((token, _)) => token_reason(line, number, token, expected),
        None => missing_reason(line, number, expected),
    }
}

/// Returns which token of the rule in this line is wrong, by its answer.
fn wrong_token(names: &Names, text: &[u8], line: u64, answer: &[u8]) -> Reason {
    let Some((first, rest)) = next_token(answer) else {
        return wrong(line, 2, answer, START);
    };
    if is_one_of(first, FIRST) {
        return wrong(line, 3, rest, REST);
    }
    if !is_replied(names, text, first) {
        return wrong(line, 2, answer, START);
    }
    let Some((second, more)) = next_token(rest) else {
        return wrong(line, 3, rest, END);
    };
    if is_one_of(second, ENDS) {
        return wrong(line, 4, more, REST);
    }
    wrong(line, 3, rest, END)
}

/// Returns why no outcome can have the line that the rule in the line of this number names: the token that is wrong, and what is expected.
pub(crate) fn rule_reason(size: PageSize, text: &[u8], number: u64) -> Reason {
    let answer = match next_token(line_of(text, number)) {
        Some((_, answer)) => answer,
        None => b"",
    };
    wrong_token(&names_in(size, text), text, number, answer)
}
