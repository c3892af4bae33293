//! The answers that a query can have, by the form of their tokens.
ghost use Rattle.std.specs.Prelude.{◌≡◌, true, false};
ghost use Rattle.l4_text.specs.Tokens.{tokens_of};
ghost use Rattle.l4_rules.specs.Forms.{fits_plain, fits, are_words, has_form, is_end, is_reply, answers, can_answer, is_stuck};

use crate::tokens::{are_rights, has_same_tokens, is_number, is_same, is_word};
use l4_names::Names;
use l4_text::{Text, next_token};

/// A query whose answer depends on the state only.
#[derive(Clone, Copy, Debug, PartialEq, Eq)]
pub enum Query {
    /// `show`: pages, and how many there are.
    Pages,
    /// `parent`: the parent of a page.
    Parent,
    /// `reply`: how the last call of this thread ended.
    Reply(u32),
}

const NUMBER: &[u8] = b"N";

const WORD: &[u8] = b"W";

const RIGHTS: &[u8] = b"R";

const THREAD: &[u8] = b"T";

const NIL: &[u8] = b"nil";

/// Returns whether a token that is no name fits this token of a form: `N` is a number, `W` a word, `R` rights, and every other token itself.
fn fits_plain(form: &[u8], token: &[u8]) -> bool
    ensures { result ≡ fits_plain form.now token.now }
{
    if form == NUMBER {
        return is_number(token);
    }
    if form == WORD {
        return is_word(token);
    }
    if form == RIGHTS {
        return are_rights(token);
    }
    token == form
}

/// Returns whether a token fits this token of a form. `T` is a thread: its name, its number, or `nil`. A name fits nowhere else.
fn fits(names: &Names, form: &[u8], token: &[u8]) -> bool
    ensures { result ≡ fits names.now form.now token.now }
{
    if names.thread_named(token).is_some() {
        return form == THREAD;
    }
    if form == THREAD {
        return token == NIL || is_number(token);
    }
    fits_plain(form, token)
}

/// Returns whether all tokens are words.
fn are_words(names: &Names, tokens: &[u8]) -> bool
    ensures { result ≡ are_words names.now (tokens_of tokens.now) }
{
    let mut rest = tokens;
    while let Some((token, later)) = next_token(rest) {
        if !fits(names, WORD, token) {
            return false;
        }
        rest = later;
    }
    true
}

/// Returns whether an answer has this form. With `words`, any number of words follow the form.
fn has_form(names: &Names, words: bool, form: &[u8], answer: &[u8]) -> bool
    ensures { result ≡ has_form names.now words (tokens_of form.now) (tokens_of answer.now) }
{
    let mut left = form;
    let mut right = answer;
    while let Some((token, later)) = next_token(left) {
        let Some((next, after)) = next_token(right) else {
            return false;
        };
        if !fits(names, token, next) {
            return false;
        }
        left = later;
        right = after;
    }
    if words {
        return are_words(names, right);
    }
    next_token(right).is_none()
}

/// Returns whether tokens behind a thread's number say how a call of it ended.
fn is_end(names: &Names, answer: &[u8]) -> bool
    ensures { result ≡ is_end names.now (tokens_of answer.now) }
{
    has_form(names, false, b"waits", answer)
        || has_form(names, false, b"none", answer)
        || has_form(names, true, b"ipc W N T", answer)
        || has_form(names, false, b"fault hit", answer)
        || has_form(names, false, b"fault answered", answer)
        || has_form(names, false, b"fault failed N", answer)
        || has_form(names, false, b"unmap ok", answer)
        || has_form(names, false, b"control ok", answer)
}

/// Returns whether a query for the reply of this thread can have the answer.
fn is_reply(names: &Names, number: u32, answer: &[u8]) -> bool
    ensures { result ≡ is_reply names.now number (tokens_of answer.now) }
{
    let Some((thread, rest)) = next_token(answer) else {
        return false;
    };
    let mut text = Text::new();
    text.add_number(u64::from(number));
    is_same(names, thread, text.as_slice()) && is_end(names, rest)
}

/// Returns whether a query about a thread that exists can have the answer.
fn answers(names: &Names, query: Query, answer: &[u8]) -> bool
    ensures { result ≡ answers names.now query (tokens_of answer.now) }
{
    match query {
        Query::Pages => {
            has_form(names, false, b"page N frame N R", answer)
                || has_form(names, false, b"shown N", answer)
        }
        Query::Parent => {
            has_form(names, false, b"absent", answer)
                || has_form(names, false, b"parent none", answer)
                || has_form(names, false, b"parent N N", answer)
        }
        Query::Reply(number) => is_reply(names, number, answer),
    }
}

/// Returns whether a query can have the answer. A query about a thread that does not exist is refused.
pub fn can_answer(names: &Names, query: Query, answer: &[u8]) -> bool
    ensures { result ≡ can_answer names.now query (tokens_of answer.now) }
{
    answers(names, query, answer) || has_form(names, false, b"line N refused K2", answer)
}

/// Returns whether an answer says that this thread is stuck before this line.
pub fn is_stuck(names: &Names, thread: u32, line: u64, answer: &[u8]) -> bool
    ensures { result ≡ is_stuck names.now thread line (tokens_of answer.now) }
{
    let mut text = Text::new();
    text.add(b"stuck ");
    text.add_number(u64::from(thread));
    text.add(b" ");
    text.add_number(line);
    has_same_tokens(names, answer, text.as_slice())
}
