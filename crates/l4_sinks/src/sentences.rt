//! What answers mean, each in a sentence.
ghost use Rattle.std.specs.Prelude.{◌≡◌, ◌≤◌, length, bytes_eq};
ghost use Rattle.l4_sinks.specs.Words.{transfer_says, origin_says, parent_says, failed_says, canceled_says, ipc_says, gone_says, reply_says, code_says, number_name, kind_says, expected_says, expired_says, waits_says, none_says, page_says, shown_says, region_says, named_says, steps_says};

use crate::stops::Expected;
use l4_commands::TokenKind;
use l4_ipc::{CancelCause, Outcome};
use l4_mapdb::{Mapping, Place};
use l4_refusals::{number_of, text_of};
use l4_symbols::WordKind;
use l4_threads::Reply;

/// What happened to a transfer.
#[tactic(auto, unfolding(crate::specs::Words::transfer_says))]
pub(crate) fn transfer_says(outcome: Outcome) -> &'static [u8]
    ensures says { result.now ≡ transfer_says outcome }
    ensures short { length result.now ≤ 160 }
{
    match outcome {
        Outcome::Started => b"the call started",
        Outcome::Done => b"the message of the first thread was delivered to the second",
        Outcome::NoWindow => {
            b"the message was not delivered: it has map or grant items, but the receive window is nil"
        }
        Outcome::Entangled => {
            b"the message was not delivered: its items fill one page twice, move a granted page twice, or replace a page that they move or an ancestor of it"
        }
        Outcome::NoMemory => {
            b"the message was not delivered: there was not enough memory to map its pages"
        }
        Outcome::Expired => b"the timeout expired",
        Outcome::Canceled => b"the wait was canceled",
    }
}

/// Where a present page was mapped from.
#[tactic(auto, unfolding(crate::specs::Words::origin_says))]
fn origin_says(parent: Option<Place>) -> &'static [u8]
    ensures says { result.now ≡ origin_says parent }
    ensures short { length result.now ≤ 160 }
{
    match parent {
        None => b"the page has no parent",
        Some(_) => b"the parent of the page: the number of its space, then its page number there",
    }
}

/// Where a page was mapped from.
#[tactic(auto, unfolding(crate::specs::Words::parent_says))]
pub(crate) fn parent_says(mapping: &Option<Mapping>) -> &'static [u8]
    ensures says { result.now ≡ parent_says mapping.now }
    ensures short { length result.now ≤ 160 }
{
    match mapping {
        None => b"the page is not present",
        Some(mapping) => origin_says(mapping.parent),
    }
}

/// Why a fault failed.
#[tactic(auto, unfolding(crate::specs::Words::failed_says))]
fn failed_says(code: u32) -> &'static [u8]
    ensures says { result.now ≡ failed_says code }
    ensures short { length result.now ≤ 160 }
{
    if code == 2 {
        return b"a timeout ended the send of the fault before the pager received it";
    }
    if code == 3 {
        return b"a timeout ended the wait for the pager's answer";
    }
    if code == 6 {
        return b"the send of the fault was canceled before the pager received it";
    }
    if code == 7 {
        return b"the wait for the pager's answer was canceled";
    }
    if code == 4 {
        return b"the pager does not exist, is the thread itself, or was deleted before it received the fault";
    }
    if code == 5 {
        return b"the pager received the fault, but was deleted before it answered";
    }
    if code == 9 {
        return b"the pages in the pager's answer could not be delivered";
    }
    b"the fault failed"
}

/// How an Ipc ended that received no message.
#[tactic(auto, unfolding(crate::specs::Words::ipc_says))]
fn ipc_says(code: u32) -> &'static [u8]
    ensures says { result.now ≡ ipc_says code }
    ensures short { length result.now ≤ 160 }
{
    if code == 0 {
        return b"the call ended without an error and received no message";
    }
    if code == 2 {
        return b"the send timeout expired";
    }
    if code == 3 {
        return b"the receive timeout expired";
    }
    if code == 4 {
        return b"the thread to send to does not exist, is the caller itself, or was deleted";
    }
    if code == 5 {
        return b"the thread to receive from does not exist, or was deleted";
    }
    if code == 6 {
        return b"the send phase was canceled";
    }
    if code == 7 {
        return b"the receive phase was canceled";
    }
    if code == 8 {
        return b"the pages in the message could not be delivered to the receiver";
    }
    if code == 9 {
        return b"the pages in a message to this thread could not be delivered";
    }
    b"the call failed"
}

/// How a call ended whose thread was deleted.
#[tactic(auto, unfolding(crate::specs::Words::gone_says))]
pub(crate) fn gone_says() -> &'static [u8]
    ensures says { result.now ≡ gone_says }
    ensures short { length result.now ≤ 160 }
{
    b"the thread was deleted before its call ended"
}

/// How a call ended that received no message.
#[tactic(auto, unfolding(crate::specs::Words::reply_says))]
pub(crate) fn known_says(reply: &Reply) -> &'static [u8]
    ensures says { result.now ≡ reply_says (Some reply.now) }
    ensures short { length result.now ≤ 160 }
{
    match reply {
        Reply::Ipc(reply) => ipc_says(reply.error),
        Reply::Hit => b"the page is present with the requested rights",
        Reply::Answered => b"the pager answered the fault",
        Reply::FaultFailed(code) => failed_says(*code),
        Reply::Unmapped => b"the Unmap completed",
        Reply::Controlled => b"root's call ended",
        Reply::Gone => gone_says(),
    }
}

/// The meaning of an `expire` line.
#[tactic(auto, unfolding(crate::specs::Words::expired_says))]
pub(crate) fn expired_says() -> &'static [u8]
    ensures says { result.now ≡ expired_says }
    ensures short { length result.now ≤ 160 }
{
    b"the thread's zero timeout expired"
}

/// The meaning of a `timeout` or `cancel` line.
#[tactic(auto, unfolding(crate::specs::Words::canceled_says))]
pub(crate) fn canceled_says(cause: CancelCause) -> &'static [u8]
    ensures says { result.now ≡ canceled_says cause }
    ensures short { length result.now ≤ 160 }
{
    match cause {
        CancelCause::Timeout => b"a clock outside the kernel ended the thread's wait",
        CancelCause::Canceled => b"the thread's wait was canceled",
    }
}

/// The meaning of a `waits` line.
#[tactic(auto, unfolding(crate::specs::Words::waits_says))]
pub(crate) fn waits_says() -> &'static [u8]
    ensures says { result.now ≡ waits_says }
    ensures short { length result.now ≤ 160 }
{
    b"the call blocks until a later line ends it"
}

/// The meaning of a `none` line.
#[tactic(auto, unfolding(crate::specs::Words::none_says))]
pub(crate) fn none_says() -> &'static [u8]
    ensures says { result.now ≡ none_says }
    ensures short { length result.now ≤ 160 }
{
    b"no call of this thread has ended yet"
}

/// The meaning of a `page` line.
#[tactic(auto, unfolding(crate::specs::Words::page_says))]
pub(crate) fn page_says() -> &'static [u8]
    ensures says { result.now ≡ page_says }
    ensures short { length result.now ≤ 160 }
{
    b"a present page, its frame and its rights: r to read, w to write, x to execute"
}

/// The meaning of a `shown` line.
#[tactic(auto, unfolding(crate::specs::Words::shown_says))]
pub(crate) fn shown_says() -> &'static [u8]
    ensures says { result.now ≡ shown_says }
    ensures short { length result.now ≤ 160 }
{
    b"the number of requested pages that are present"
}

/// The meaning of a `region` line.
#[tactic(auto, unfolding(crate::specs::Words::region_says))]
pub(crate) fn region_says() -> &'static [u8]
    ensures says { result.now ≡ region_says }
    ensures short { length result.now ≤ 160 }
{
    b"the region was added to the table"
}

/// The meaning of a `named` line.
#[tactic(auto, unfolding(crate::specs::Words::named_says))]
pub(crate) fn named_says() -> &'static [u8]
    ensures says { result.now ≡ named_says }
    ensures short { length result.now ≤ 160 }
{
    b"from the next line on, the name stands for this thread"
}

/// The meaning of a `steps` line.
#[tactic(auto, unfolding(crate::specs::Words::steps_says))]
pub(crate) fn steps_says() -> &'static [u8]
    ensures says { result.now ≡ steps_says }
    ensures short { length result.now ≤ 160 }
{
    b"the number of steps so far: calls that started, transfers, expiries and canceled waits"
}

/// What a token of this kind is.
#[tactic(auto, unfolding(crate::specs::Words::kind_says))]
fn kind_says(kind: TokenKind) -> &'static [u8]
    ensures says { result.now ≡ kind_says kind }
    ensures short { length result.now ≤ 160 }
{
    match kind {
        TokenKind::ThreadNumber => b"a thread number or a name",
        TokenKind::ThreadOrNew => b"a thread number, a name or \"new\"",
        TokenKind::ThreadOrNil => b"a thread number, a name or \"nil\"",
        TokenKind::ThreadNilOrAny => b"a thread number, a name, \"nil\" or \"any\"",
        TokenKind::Number => b"a number from 0 to 0xffffffff",
        TokenKind::Symbol(WordKind::Window) => {
            b"a number, \"all\", \"none\" or pages, as \"32+4\""
        }
        TokenKind::Symbol(WordKind::Timeouts) => {
            b"a number, \"never\", \"zero\" or two of these, as \"zero,never\""
        }
        TokenKind::Symbol(WordKind::Fpage) => b"a number or an fpage, as \"16+4:rwx\"",
        TokenKind::Symbol(WordKind::Control) => {
            b"a number, or a count of fpages, as \"unmap:2\" or \"flush:2\""
        }
        TokenKind::Symbol(WordKind::Id) => b"a number or a thread id, as \"3,1\"",
        TokenKind::Rights => b"rights, as \"rwx\" or \"r--\"",
        TokenKind::NewName => {
            b"a name: a letter, then letters, digits or hyphens, at most 24 in all"
        }
    }
}

/// What is right at a place of a line.
#[tactic(auto, unfolding(crate::specs::Words::expected_says))]
pub(crate) fn expected_says(expected: Expected) -> &'static [u8]
    ensures says { result.now ≡ expected_says expected }
    ensures short { length result.now ≤ 160 }
{
    match expected {
        Expected::CommandName => b"a command",
        Expected::Token(kind) => kind_says(kind),
        Expected::Because(reason) => reason.text(),
        Expected::OtherName => b"a name that is not a word of the language",
        Expected::TagOrEnd => {
            b"a number from 0 to 0xffffffff, a tag, as \"tag:7\", or the end of the line"
        }
        Expected::WordOrEnd => {
            b"a number from 0 to 0xffffffff, an item, as \"map:16+4>32:rwx\", or the end of the line"
        }
        Expected::FpageOrEnd => {
            b"a number from 0 to 0xffffffff, an fpage, as \"16+4:rwx\", or the end of the line"
        }
        Expected::CountedFpage => b"an fpage, because CONTROL counts more of them",
        Expected::CountedEnd => b"the end of the line, because CONTROL counts fewer fpages",
        Expected::LineEnd => b"the end of the line",
        Expected::AnyAnswer => b"an answer, as \"3 waits\" or \"stuck 4 9\"",
    }
}

/// Whether a word is this one.
pub(crate) fn is(word: &[u8], name: &[u8]) -> bool
    ensures { result ≡ bytes_eq word.now name.now }
{
    word == name
}

/// What a code means.
#[tactic(auto, unfolding(crate::specs::Words::code_says))]
pub(crate) fn code_says(code: &[u8]) -> &'static [u8]
    ensures says { result.now ≡ code_says code.now }
    ensures short { length result.now ≤ 160 }
{
    if is(code, b"S1") {
        return b"the command is unknown";
    }
    if is(code, b"S2") {
        return b"the line has too few tokens, too many, or an invalid one";
    }
    if is(code, b"S3") {
        return b"the line is longer than 4,096 bytes";
    }
    if is(code, b"S4") {
        return b"the line does not end with a newline";
    }
    if is(code, b"S5") {
        return b"the script already has 64 names";
    }
    text_of(number_of(code)).line
}

/// What the number that a code carries is.
#[tactic(auto, unfolding(crate::specs::Words::number_name))]
pub(crate) fn number_name(code: &[u8]) -> &'static [u8]
    ensures says { result.now ≡ number_name code.now }
    ensures short { length result.now ≤ 160 }
{
    if is(code, b"U1") {
        return b"word ";
    }
    if is(code, b"N5") {
        return b"messages ";
    }
    if is(code, b"N6") {
        return b"messages ";
    }
    b"item "
}
