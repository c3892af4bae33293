//! The kinds of tokens that commands take.
ghost use Rattle.std.specs.Prelude.{◌≡◌};
ghost use Rattle.l4_commands.specs.Kinds.{is_of};

use crate::naming::new_name;
use crate::partners::{any_or_thread, new_space, nil_or_thread, thread_number};
use crate::regions::rights;
use crate::symbols::symbol;
use l4_fpage::PageSize;
use l4_names::Names;
use l4_symbols::WordKind;
use l4_text::number;

/// A kind of token.
#[derive(Clone, Copy)]
pub enum TokenKind {
    /// A thread: its number or its name.
    ThreadNumber,
    /// A thread, or `new`.
    ThreadOrNew,
    /// A thread, or `nil`.
    ThreadOrNil,
    /// A thread, `nil` or `any`.
    ThreadNilOrAny,
    /// A number.
    Number,
    /// A number, or a symbolic token of this kind.
    Symbol(WordKind),
    /// Rights.
    Rights,
    /// A name that may be given to a thread.
    NewName,
}

/// Returns whether a token is of this kind, where pages have this size and threads these names.
#[tactic(auto, unfolding(crate::specs::Kinds::is_of))]
pub fn is_of_kind(kind: TokenKind, token: &[u8], size: PageSize, names: &Names) -> bool
    ensures { result ≡ is_of size names.now kind token.now }
{
    match kind {
        TokenKind::ThreadNumber => thread_number(token, names).is_some(),
        TokenKind::ThreadOrNew => new_space(token, names).is_some(),
        TokenKind::ThreadOrNil => nil_or_thread(token, names).is_some(),
        TokenKind::ThreadNilOrAny => any_or_thread(token, names).is_some(),
        TokenKind::Number => number(token).is_some(),
        TokenKind::Symbol(kind) => symbol(kind, token, size).is_some(),
        TokenKind::Rights => rights(token).is_some(),
        TokenKind::NewName => new_name(token).is_some(),
    }
}
