//! What a rule names, and when an outcome breaks it.
ghost use Rattle.std.specs.Prelude.{◌≡◌, bytes_eq, decimal, option_map};
ghost use Rattle.std.specs.List.{list_any};
ghost use Rattle.l4_text.specs.Tokens.{tokens_of};
ghost use Rattle.l4_rules.specs.Tokens.{resolved};
ghost use Rattle.l4_rules.specs.Rules.{rule_answer, over_waits, over_all, over_threads, is_thread, are_threads, has_threads, is_allowance, allowed_in, has_answer, is_waiting, is_left, is_stopped, has_stopped, breaks_answer, is_broken};

use crate::tokens::{has_same_tokens, has_token, is_same};
use l4_answers::{first_line, later_lines};
use l4_names::Names;
use l4_text::{Text, next_token};

const NEVER: &[u8] = b"never";

const ALWAYS: &[u8] = b"always";

const DEADLOCK: &[u8] = b"deadlock";

const ANY: &[u8] = b"*";

const WAITS: &[u8] = b"waits";

const STUCK: &[u8] = b"stuck";

const MAY_WAIT: &[u8] = b"may-wait";

/// Returns the answer of a rule `never ANSWER` or `always ANSWER`.
pub fn rule_answer(line: &[u8]) -> Option<&[u8]>
    ensures { option_map (λ a. tokens_of a.now) result ≡ rule_answer (tokens_of line.now) }
{
    let (name, answer) = next_token(line)?;
    if name == NEVER {
        return Some(answer);
    }
    if name == ALWAYS {
        return Some(answer);
    }
    None
}

/// Returns what follows `waits`, and that a thread with lines left does not break the rule.
fn over_waits(line: &[u8]) -> Option<(bool, &[u8])>
    ensures { option_map (λ r. (r.0, tokens_of r.1.now)) result ≡ over_waits (tokens_of line.now) }
{
    let (word, rest) = next_token(line)?;
    if word == WAITS {
        return Some((false, rest));
    }
    None
}

/// Returns whether a thread with lines left breaks a rule behind `never` that is about all threads, and what follows.
fn over_all(line: &[u8]) -> Option<(bool, &[u8])>
    ensures { option_map (λ r. (r.0, tokens_of r.1.now)) result ≡ over_all (tokens_of line.now) }
{
    let (word, rest) = next_token(line)?;
    if word == DEADLOCK {
        return Some((true, rest));
    }
    if word == ANY {
        return over_waits(rest);
    }
    None
}

/// Returns whether a thread with lines left breaks a rule that is about all threads, `never * waits` or `never deadlock`, and what follows.
pub fn over_threads(line: &[u8]) -> Option<(bool, &[u8])>
    ensures { option_map (λ r. (r.0, tokens_of r.1.now)) result ≡ over_threads (tokens_of line.now) }
{
    let (name, answer) = next_token(line)?;
    if name == NEVER {
        return over_all(answer);
    }
    None
}

/// Returns whether a token is this thread's name or number.
fn is_one(names: &Names, token: &[u8], thread: u32) -> bool
    ensures { result ≡ bytes_eq (resolved names.now token.now) (decimal thread) }
{
    let mut text = Text::new();
    text.add_number(u64::from(thread));
    is_same(names, token, text.as_slice())
}

/// Returns whether a token is one of these threads.
fn is_thread(names: &Names, threads: &[u32], token: &[u8]) -> bool
    ensures { result ≡ is_thread names.now threads.now token.now }
{
    threads.iter().any(|thread| is_one(names, token, *thread))
}

/// Returns whether each token is one of these threads.
fn are_threads(names: &Names, threads: &[u32], tokens: &[u8]) -> bool
    ensures { result ≡ are_threads names.now threads.now (tokens_of tokens.now) }
{
    let mut rest = tokens;
    while let Some((token, later)) = next_token(rest) {
        if !is_thread(names, threads, token) {
            return false;
        }
        rest = later;
    }
    true
}

/// Returns whether there are tokens, and each is one of these threads.
fn has_threads(names: &Names, threads: &[u32], tokens: &[u8]) -> bool
    ensures { result ≡ has_threads names.now threads.now (tokens_of tokens.now) }
{
    if next_token(tokens).is_none() {
        return false;
    }
    are_threads(names, threads, tokens)
}

/// Returns whether the end of a rule about all threads is empty, or `may-wait` and some of these threads.
pub fn is_allowance(names: &Names, threads: &[u32], rest: &[u8]) -> bool
    ensures { result ≡ is_allowance names.now threads.now (tokens_of rest.now) }
{
    let Some((word, tokens)) = next_token(rest) else {
        return true;
    };
    word == MAY_WAIT && has_threads(names, threads, tokens)
}

/// Returns what follows `may-wait`: the threads that may wait.
fn allowed_in(rest: &[u8]) -> &[u8]
    ensures { tokens_of result.now ≡ allowed_in (tokens_of rest.now) }
{
    match next_token(rest) {
        Some((_, threads)) => threads,
        None => rest,
    }
}

/// Returns whether a line of an outcome is the answer.
fn has_answer(names: &Names, answer: &[u8], outcome: &[u8]) -> bool
    ensures { result ≡ has_answer names.now (tokens_of answer.now) outcome.now }
{
    let mut rest = outcome;
    while !rest.is_empty() {
        if has_same_tokens(names, answer, first_line(rest)) {
            return true;
        }
        rest = later_lines(rest);
    }
    false
}

/// Returns whether a line says that a thread waits that may not wait.
fn is_waiting(names: &Names, allowed: &[u8], line: &[u8]) -> bool
    ensures { result ≡ is_waiting names.now (tokens_of allowed.now) (tokens_of line.now) }
{
    let Some((thread, rest)) = next_token(line) else {
        return false;
    };
    let Some((word, after)) = next_token(rest) else {
        return false;
    };
    if next_token(after).is_some() {
        return false;
    }
    word == WAITS && !has_token(names, allowed, thread)
}

/// Returns whether a line says that a thread is stuck that may not wait.
fn is_left(names: &Names, allowed: &[u8], line: &[u8]) -> bool
    ensures { result ≡ is_left names.now (tokens_of allowed.now) (tokens_of line.now) }
{
    let Some((word, rest)) = next_token(line) else {
        return false;
    };
    let Some((thread, _)) = next_token(rest) else {
        return false;
    };
    word == STUCK && !has_token(names, allowed, thread)
}

/// Returns whether a line says that a thread waits that may not wait, or with `left` that it is stuck.
fn is_stopped(names: &Names, left: bool, allowed: &[u8], line: &[u8]) -> bool
    ensures { result ≡ is_stopped names.now left (tokens_of allowed.now) (tokens_of line.now) }
{
    is_waiting(names, allowed, line) || (left && is_left(names, allowed, line))
}

/// Returns whether a line of an outcome says so.
fn has_stopped(names: &Names, left: bool, allowed: &[u8], outcome: &[u8]) -> bool
    ensures { result ≡ has_stopped names.now left (tokens_of allowed.now) outcome.now }
{
    let mut rest = outcome;
    while !rest.is_empty() {
        if is_stopped(names, left, allowed, first_line(rest)) {
            return true;
        }
        rest = later_lines(rest);
    }
    false
}

/// Returns whether an outcome breaks the rule `never ANSWER` or `always ANSWER` in a line.
fn breaks_answer(names: &Names, line: &[u8], outcome: &[u8]) -> bool
    ensures { result ≡ breaks_answer names.now (tokens_of line.now) outcome.now }
{
    let Some((name, answer)) = next_token(line) else {
        return false;
    };
    if name == NEVER {
        return has_answer(names, answer, outcome);
    }
    if name == ALWAYS {
        return !has_answer(names, answer, outcome);
    }
    false
}

/// Returns whether an outcome breaks the rule in a line. A line without a rule is never broken.
pub fn is_broken(names: &Names, line: &[u8], outcome: &[u8]) -> bool
    ensures { result ≡ is_broken names.now (tokens_of line.now) outcome.now }
{
    match over_threads(line) {
        Some((left, rest)) => has_stopped(names, left, allowed_in(rest), outcome),
        None => breaks_answer(names, line, outcome),
    }
}
