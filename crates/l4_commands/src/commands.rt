//! Reads the tokens of script lines.
ghost use Rattle.std.specs.Prelude.{◌≡◌, ◌∷◌, [], codes, bytes_eq, MatchOption};
ghost use Rattle.l4_fpage.specs.declared.sizes.PageSize.{PageSize as APageSize};
ghost use Rattle.l4_names.specs.Names.{Names as AllNames};
ghost use Rattle.l4_text.specs.Tokens.{tokens_of};
ghost use Rattle.l4_commands.specs.Commands.{asked, rule_of, command_in, command_of};
ghost use Rattle.l4_commands.specs.Inside.Asking.{pager_commands, part_commands};

use crate::calls::{read_fault, read_ipc, read_receive, read_send};
use crate::naming::next_new_name;
use crate::partners::{next_pager, next_partner, next_space, next_thread, next_word};
use crate::regions::{last_rights, region};
use crate::requests::{LentCall, ROOT, Request, Which, put_create, put_pager, put_unmap};
use crate::symbols::read_unmap;
use arrayvec::ArrayVec;
use l4_fpage::PageSize;
use l4_ipc::{Call, CancelCause};
use l4_names::Names;
use l4_pager::Entry;
use l4_text::{after_name, next_token};

/// The reason why a line cannot be read.
#[derive(Clone, Copy, Debug, PartialEq, Eq)]
pub enum ScriptFault {
    /// No such command (S1).
    UnknownCommand,
    /// The wrong number of tokens, or a token that cannot be read (S2).
    BadTokens,
    /// More than 4,096 bytes before the newline (S3).
    LineTooLong,
    /// The input ends before the line's newline (S4).
    CutLine,
}

const RECV: &[u8] = b"recv";

const SEND: &[u8] = b"send";

const IPC: &[u8] = b"ipc";

const FAULT: &[u8] = b"fault";

const THREAD: &[u8] = b"thread";

const SETPAGER: &[u8] = b"setpager";

const DELETE: &[u8] = b"delete";

const DELEGATE: &[u8] = b"delegate";

const PART: &[u8] = b"part";

const UNMAP: &[u8] = b"unmap";

const SHOW: &[u8] = b"show";

const PARENT: &[u8] = b"parent";

const REGION: &[u8] = b"region";

const SERVE: &[u8] = b"serve";

const NAME: &[u8] = b"name";

const REPLY: &[u8] = b"reply";

const TIMEOUT: &[u8] = b"timeout";

const CANCEL: &[u8] = b"cancel";

const STEPS: &[u8] = b"steps";

const UNORDERED: &[u8] = b"unordered";

const FINALLY: &[u8] = b"finally";

const NEVER: &[u8] = b"never";

const ALWAYS: &[u8] = b"always";

/// The names of all commands.
pub(crate) const COMMAND_NAMES: &[&[u8]] = &[
    THREAD, SETPAGER, DELETE, RECV, SEND, IPC, DELEGATE, PART, UNMAP, SHOW, PARENT, FAULT, REGION,
    SERVE, NAME, REPLY, TIMEOUT, CANCEL, STEPS, UNORDERED, FINALLY, NEVER, ALWAYS,
];

/// `N SPACE PAGER`
#[inline(never)]
fn thread<'a>(line: &[u8], names: &Names, call: &'a mut Call) -> Option<Request<'a>>
    ensures { (size : APageSize)
        → result ≡ asked size names.now (codes "thread") (tokens_of line.now) }
{
    let (number, rest) = next_thread(line, names)?;
    let (space, rest) = next_space(rest, names)?;
    let (pager, rest) = next_pager(rest, names)?;
    match next_token(rest) {
        None => Some(Request::CreateThread(number, put_create(call, number, space, pager))),
        Some(_) => None,
    }
}

/// `N PAGER`
#[inline(never)]
fn set_pager<'a>(line: &[u8], names: &Names, call: &'a mut Call) -> Option<Request<'a>>
    ensures { (size : APageSize)
        → result ≡ asked size names.now (codes "setpager") (tokens_of line.now) }
{
    let (number, rest) = next_thread(line, names)?;
    let (pager, rest) = next_pager(rest, names)?;
    match next_token(rest) {
        None => Some(Request::Enter(ROOT, put_pager(call, number, pager))),
        Some(_) => None,
    }
}

/// `N`
#[inline(never)]
fn delete(line: &[u8], names: &Names) -> Option<Request<'static>>
    ensures { (size : APageSize)
        → result ≡ asked size names.now (codes "delete") (tokens_of line.now) }
{
    let (number, rest) = next_thread(line, names)?;
    match next_token(rest) {
        None => Some(Request::EndThread(number)),
        Some(_) => None,
    }
}

/// `N FROM WINDOW`
#[inline(never)]
fn receive<'a>(
    line: &[u8],
    size: PageSize,
    names: &Names,
    call: &'a mut Call,
) -> Option<Request<'a>>
    ensures { result ≡ asked size names.now (codes "recv") (tokens_of line.now) }
{
    let number = read_receive(line, size, names, call)?;
    Some(Request::Enter(number, LentCall { call }))
}

/// `N TO WORD..`
#[inline(never)]
fn send<'a>(line: &[u8], size: PageSize, names: &Names, call: &'a mut Call) -> Option<Request<'a>>
    ensures { result ≡ asked size names.now (codes "send") (tokens_of line.now) }
{
    let number = read_send(line, size, names, call)?;
    Some(Request::Enter(number, LentCall { call }))
}

/// `N TO FROM TIMEOUTS WINDOW WORD..`
#[inline(never)]
fn ipc<'a>(line: &[u8], size: PageSize, names: &Names, call: &'a mut Call) -> Option<Request<'a>>
    ensures { result ≡ asked size names.now (codes "ipc") (tokens_of line.now) }
{
    let number = read_ipc(line, size, names, call)?;
    Some(Request::Enter(number, LentCall { call }))
}

/// `N FIRST COUNT`
#[inline(never)]
fn show(line: &[u8], names: &Names) -> Option<Request<'static>>
    ensures { (size : APageSize)
        → result ≡ asked size names.now (codes "show") (tokens_of line.now) }
{
    let (number, rest) = next_thread(line, names)?;
    let (first, rest) = next_word(rest)?;
    let (count, rest) = next_word(rest)?;
    match next_token(rest) {
        None => Some(Request::ListPages(number, first, count)),
        Some(_) => None,
    }
}

/// `N PAGE`
#[inline(never)]
fn parent(line: &[u8], names: &Names) -> Option<Request<'static>>
    ensures { (size : APageSize)
        → result ≡ asked size names.now (codes "parent") (tokens_of line.now) }
{
    let (number, rest) = next_thread(line, names)?;
    let (page, rest) = next_word(rest)?;
    match next_token(rest) {
        None => Some(Request::TellParent(number, page)),
        Some(_) => None,
    }
}

/// `N TO SOURCE TARGET COUNT RIGHTS`
#[inline(never)]
fn delegate(line: &[u8], names: &Names) -> Option<Request<'static>>
    ensures { (size : APageSize)
        → result ≡ asked size names.now (codes "delegate") (tokens_of line.now) }
{
    let (number, rest) = next_thread(line, names)?;
    let (to, rest) = next_partner(rest, names)?;
    Some(Request::SendPlan(number, to, Which::Only, region(rest)?))
}

/// `N TO K SOURCE TARGET COUNT RIGHTS`
#[inline(never)]
fn part(line: &[u8], names: &Names) -> Option<Request<'static>>
    ensures { (size : APageSize)
        → result ≡ asked size names.now (codes "part") (tokens_of line.now) }
{
    let (number, rest) = next_thread(line, names)?;
    let (to, rest) = next_partner(rest, names)?;
    let (message, rest) = next_word(rest)?;
    Some(Request::SendPlan(number, to, Which::Message(message), region(rest)?))
}

/// `N CONTROL FPAGE..`
fn unmap<'a>(line: &[u8], size: PageSize, names: &Names, call: &'a mut Call) -> Option<Request<'a>>
    ensures { result ≡ asked size names.now (codes "unmap") (tokens_of line.now) }
{
    let (number, rest) = next_thread(line, names)?;
    let mut words = ArrayVec::new();
    let control = read_unmap(rest, size, &mut words)?;
    Some(Request::Enter(number, put_unmap(call, control, words)))
}

/// `N ADDRESS IP RIGHTS`
#[inline(never)]
fn fault<'a>(line: &[u8], names: &Names, call: &'a mut Call) -> Option<Request<'a>>
    ensures { (size : APageSize)
        → result ≡ asked size names.now (codes "fault") (tokens_of line.now) }
{
    let number = read_fault(line, names, call)?;
    Some(Request::Enter(number, LentCall { call }))
}

/// `P FIRST SOURCE COUNT RIGHTS`
#[inline(never)]
fn add_region(line: &[u8], names: &Names) -> Option<Request<'static>>
    ensures { (size : APageSize)
        → result ≡ asked size names.now (codes "region") (tokens_of line.now) }
{
    let (number, rest) = next_thread(line, names)?;
    let (first, rest) = next_word(rest)?;
    let (source, rest) = next_word(rest)?;
    let (count, rest) = next_word(rest)?;
    let rights = last_rights(rest)?;
    let entry = Entry {
        first,
        source,
        count,
        rights,
    };
    Some(Request::AddRegion(number, entry))
}

/// `P`
#[inline(never)]
fn serve(line: &[u8], names: &Names) -> Option<Request<'static>>
    ensures { (size : APageSize)
        → result ≡ asked size names.now (codes "serve") (tokens_of line.now) }
{
    let (number, rest) = next_thread(line, names)?;
    match next_token(rest) {
        None => Some(Request::ServeThread(number)),
        Some(_) => None,
    }
}

/// `NAME N`
#[inline(never)]
fn give_name(line: &[u8], names: &Names) -> Option<Request<'static>>
    ensures { (size : APageSize) → result
        ≡ asked size names.now (codes "name") (tokens_of line.now) }
{
    let (name, rest) = next_new_name(line)?;
    let (number, rest) = next_thread(rest, names)?;
    match next_token(rest) {
        None => Some(Request::GiveName(name, number)),
        Some(_) => None,
    }
}

/// `N`
#[inline(never)]
fn reply(line: &[u8], names: &Names) -> Option<Request<'static>>
    ensures { (size : APageSize)
        → result ≡ asked size names.now (codes "reply") (tokens_of line.now) }
{
    let (number, rest) = next_thread(line, names)?;
    match next_token(rest) {
        None => Some(Request::TellReply(number)),
        Some(_) => None,
    }
}

/// `N`, after `timeout`
#[inline(never)]
fn timeout(line: &[u8], names: &Names) -> Option<Request<'static>>
    ensures { (size : APageSize)
        → result ≡ asked size names.now (codes "timeout") (tokens_of line.now) }
{
    let (number, rest) = next_thread(line, names)?;
    match next_token(rest) {
        None => Some(Request::CancelWait(number, CancelCause::Timeout)),
        Some(_) => None,
    }
}

/// `N`, after `cancel`
#[inline(never)]
fn cancel(line: &[u8], names: &Names) -> Option<Request<'static>>
    ensures { (size : APageSize)
        → result ≡ asked size names.now (codes "cancel") (tokens_of line.now) }
{
    let (number, rest) = next_thread(line, names)?;
    match next_token(rest) {
        None => Some(Request::CancelWait(number, CancelCause::Canceled)),
        Some(_) => None,
    }
}

/// No tokens.
#[inline(never)]
fn steps(line: &[u8]) -> Option<Request<'static>>
    ensures { (size : APageSize) (names : AllNames)
        → result ≡ asked size names (codes "steps") (tokens_of line.now) }
{
    match next_token(line) {
        None => Some(Request::TellSteps),
        Some(_) => None,
    }
}

/// No tokens.
#[inline(never)]
fn unordered(line: &[u8]) -> Option<Request<'static>>
    ensures { (size : APageSize) (names : AllNames) → result
        ≡ asked size names (codes "unordered") (tokens_of line.now) }
{
    match next_token(line) {
        None => Some(Request::BeginUnordered),
        Some(_) => None,
    }
}

/// No tokens.
#[inline(never)]
fn begin_finally(line: &[u8]) -> Option<Request<'static>>
    ensures { (size : APageSize) (names : AllNames) → result
        ≡ asked size names (codes "finally") (tokens_of line.now) }
{
    match next_token(line) {
        None => Some(Request::BeginFinally),
        Some(_) => None,
    }
}

/// `ANSWER`
#[inline(never)]
fn rule(line: &[u8]) -> Option<Request<'static>>
    ensures { result ≡ rule_of (tokens_of line.now) }
{
    match next_token(line) {
        None => None,
        Some(_) => Some(Request::StateRule),
    }
}

/// Reads a command that begins a part of a plan, or states a rule over its outcomes, from its name and its tokens.
fn part_command(name: &[u8], rest: &[u8]) -> Result<Request<'static>, ScriptFault>
    ensures { (size : APageSize) (names : AllNames) → result
        ≡ command_in (part_commands size names) name.now (tokens_of rest.now) }
{
    if name == UNORDERED {
        return unordered(rest).ok_or(ScriptFault::BadTokens);
    }
    if name == FINALLY {
        return begin_finally(rest).ok_or(ScriptFault::BadTokens);
    }
    if name == NEVER {
        return rule(rest).ok_or(ScriptFault::BadTokens);
    }
    if name == ALWAYS {
        return rule(rest).ok_or(ScriptFault::BadTokens);
    }
    Err(ScriptFault::UnknownCommand)
}

/// Reads a command of page faults, pagers, names, replies or the history, from its name and its tokens. If it enters a call, writes the
/// call into the buffer.
fn pager_command<'a>(
    name: &[u8],
    rest: &[u8],
    names: &Names,
    call: &'a mut Call,
) -> Result<Request<'a>, ScriptFault>
    ensures { (size : APageSize) → result
        ≡ command_in (pager_commands size names.now) name.now (tokens_of rest.now) }
{
    if is_fault(name) {
        return fault(rest, names, call).ok_or(ScriptFault::BadTokens);
    }
    if name == REGION {
        return add_region(rest, names).ok_or(ScriptFault::BadTokens);
    }
    if name == SERVE {
        return serve(rest, names).ok_or(ScriptFault::BadTokens);
    }
    if is_name(name) {
        return give_name(rest, names).ok_or(ScriptFault::BadTokens);
    }
    if name == REPLY {
        return reply(rest, names).ok_or(ScriptFault::BadTokens);
    }
    if is_timeout(name) {
        return timeout(rest, names).ok_or(ScriptFault::BadTokens);
    }
    if is_cancel(name) {
        return cancel(rest, names).ok_or(ScriptFault::BadTokens);
    }
    if name == STEPS {
        return steps(rest).ok_or(ScriptFault::BadTokens);
    }
    part_command(name, rest)
}

/// Reads the request of a line from its first token and the rest. If the line enters a call, writes the call into the buffer.
#[tactic(auto, unfolding(crate::specs::Commands::command_of))]
#[inline(never)]
pub fn request<'a>(
    name: &[u8],
    rest: &[u8],
    size: PageSize,
    names: &Names,
    call: &'a mut Call,
) -> Result<Request<'a>, ScriptFault>
    ensures { result ≡ command_of size names.now (name.now ∷ tokens_of rest.now) }
{
    if name == THREAD {
        return thread(rest, names, call).ok_or(ScriptFault::BadTokens);
    }
    if name == SETPAGER {
        return set_pager(rest, names, call).ok_or(ScriptFault::BadTokens);
    }
    if name == DELETE {
        return delete(rest, names).ok_or(ScriptFault::BadTokens);
    }
    if is_recv(name) {
        return receive(rest, size, names, call).ok_or(ScriptFault::BadTokens);
    }
    if is_send(name) {
        return send(rest, size, names, call).ok_or(ScriptFault::BadTokens);
    }
    if is_ipc(name) {
        return ipc(rest, size, names, call).ok_or(ScriptFault::BadTokens);
    }
    if name == DELEGATE {
        return delegate(rest, names).ok_or(ScriptFault::BadTokens);
    }
    if name == PART {
        return part(rest, names).ok_or(ScriptFault::BadTokens);
    }
    if name == UNMAP {
        return unmap(rest, size, names, call).ok_or(ScriptFault::BadTokens);
    }
    if name == SHOW {
        return show(rest, names).ok_or(ScriptFault::BadTokens);
    }
    if name == PARENT {
        return parent(rest, names).ok_or(ScriptFault::BadTokens);
    }
    pager_command(name, rest, names, call)
}

/// Returns the name of a line's command, and what follows it. Frequent commands are recognized at once.
#[inline(always)]
pub fn command_name(line: &[u8]) -> Option<(&[u8], &[u8])>
    ensures { MatchOption result (tokens_of line.now ≡ [])
        (λ p. tokens_of line.now ≡ p.0.now ∷ tokens_of p.1.now) }
{
    if let Some(rest) = after_name(line, *b"recv") {
        return Some((RECV, rest));
    }
    if let Some(rest) = after_name(line, *b"send") {
        return Some((SEND, rest));
    }
    if let Some(rest) = after_name(line, *b"ipc") {
        return Some((IPC, rest));
    }
    if let Some(rest) = after_name(line, *b"fault") {
        return Some((FAULT, rest));
    }
    next_token(line)
}

/// Returns whether the name is `recv`. Compares its bytes at once.
#[inline(always)]
pub fn is_recv(name: &[u8]) -> bool
    ensures { result ≡ bytes_eq name.now (codes "recv") }
{
    match name {
        [b'r', b'e', b'c', b'v'] => true,
        _ => false,
    }
}

/// Returns whether the name is `send`. Compares its bytes at once.
#[inline(always)]
pub fn is_send(name: &[u8]) -> bool
    ensures { result ≡ bytes_eq name.now (codes "send") }
{
    match name {
        [b's', b'e', b'n', b'd'] => true,
        _ => false,
    }
}

/// Returns whether the name is `ipc`. Compares its bytes at once.
#[inline(always)]
pub fn is_ipc(name: &[u8]) -> bool
    ensures { result ≡ bytes_eq name.now (codes "ipc") }
{
    match name {
        [b'i', b'p', b'c'] => true,
        _ => false,
    }
}

/// Returns whether the name is `fault`. Compares its bytes at once.
#[inline(always)]
pub fn is_fault(name: &[u8]) -> bool
    ensures { result ≡ bytes_eq name.now (codes "fault") }
{
    match name {
        [b'f', b'a', b'u', b'l', b't'] => true,
        _ => false,
    }
}

/// Returns whether the name is `name`. Compares its bytes at once.
#[inline(always)]
fn is_name(name: &[u8]) -> bool
    ensures { result ≡ bytes_eq name.now (codes "name") }
{
    match name {
        [b'n', b'a', b'm', b'e'] => true,
        _ => false,
    }
}

/// Returns whether the name is `timeout`. Compares its first byte before the others.
#[inline(always)]
fn is_timeout(name: &[u8]) -> bool
    ensures { result ≡ bytes_eq name.now (codes "timeout") }
{
    match name {
        [b't', ..] => name == TIMEOUT,
        _ => false,
    }
}

/// Returns whether the name is `cancel`. Compares its first byte before the others.
#[inline(always)]
fn is_cancel(name: &[u8]) -> bool
    ensures { result ≡ bytes_eq name.now (codes "cancel") }
{
    match name {
        [b'c', ..] => name == CANCEL,
        _ => false,
    }
}
