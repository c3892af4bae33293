//! The accounts of the seats that were given.
ghost use Rattle.std.specs.Prelude.{◌≡◌, ◌≢◌, ◌<◌, ℕ, List, Some, None, [], ◌∷◌, ◌++◌, length, map, IfSome, IfNone, MatchOption, MatchResult, is_some, true, false, slice_get, slice_set};
ghost use Rattle.std.specs.List.{All};
ghost use Rattle.l4_lock.specs.Books.{Book, book, book_at, forgotten_book, reply_waits, numbers, IsOnce};
ghost use Rattle.l4_lock.specs.Inside.Accounts.{has_reply, Awaits, HasFewReceipts, SettlesAt, IsUnsettled};
ghost use Rattle.l4_lock.specs.Inside.Noting.{noted};

use crate::entries::Awaited;
use crate::seats::{Account, Seat, settle};
use l4_ipc::{Call, Kernel, Reply};
use std::alloc::{AllocError, Global};
use std::marker::Model;

/// The accounts of the numbers whose seats were given, and the number of calls that have ended and were not taken yet. If there are no such
/// calls, no account is searched.
#[derive(Drop)]
pub(crate) struct Accounts {
    items: Vec<Account>,
    replies: usize,
}

impl Model for Accounts {
    ghost use Rattle.std.specs.Prelude.{◌≡◌};
    ghost use Rattle.l4_lock.specs.Inside.Accounts.{BookList, book_list, replies_in};

    ghost Value = { BookList };

    ghost view = { λ a. book_list a.items.items };

    ghost invariant = { λ a. a.replies ≡ replies_in a.items.items };
}

impl Accounts {
    /// Creates an empty list of accounts.
    pub fn new(alloc: Global) -> Accounts
        ensures { result.items ≡ [] }
    {
        Accounts {
            items: Vec::new(alloc),
            replies: 0,
        }
    }

    /// Returns all accounts, in the order in which their seats were given.
    pub fn as_slice(&self) -> &[Account]
        ensures { result.now ≡ self.now.items }
    {
        self.items.as_slice()
    }

    /// Returns the index of the account of a number, or None.
    pub fn position(&self, number: u32) -> Option<usize>
        requires { IsOnce (numbers self.now.items) }
        ensures { MatchOption result (book_at self.now.items number ≡ None)
            (λ at. (at < length self.now.items) × (book_at self.now.items number ≡ slice_get self.now.items at)) }
    {
        position(self.items.as_slice(), number)
    }

    /// Returns whether a call of this number has ended, but its reply has not been taken.
    pub fn reply_waits(&self, number: u32) -> bool
        requires { IsOnce (numbers self.now.items) }
        ensures { result ≡ reply_waits self.now.items number }
    {
        if self.replies == 0 {
            return false;
        }
        reply_waits(self.items.as_slice(), number)
    }

    /// Appends the account of a number whose seat is given.
    ///
    /// Returns `AllocError` if an allocation fails; then nothing has changed.
    pub fn add(&mut self, alloc: Global, number: u32) -> Result<(), AllocError>
        ensures { MatchResult result
            (λ _. self.new.items ≡ self.old.items ++ book number None [] ∷ [])
            (λ _. self.new ≡ self.old) }
    {
        self.items.reserve(1)?;
        self.items.push_reserved(Account::new(alloc, number));
        Ok(())
    }

    /// Returns whether the account at this index has a call that was not taken yet.
    pub fn is_pending(&self, at: usize) -> bool
        requires { at < length self.now.items }
        ensures { (b : Book) → slice_get self.now.items at ≡ Some b → result ≡ is_some b.pending }
    {
        self.items[at].is_pending()
    }

    /// Returns whether the call of the account at this index that was not taken yet is this one.
    pub fn awaits(&self, at: usize, own: &Awaited) -> bool
        requires { at < length self.now.items }
        ensures same { (b : Book) → slice_get self.now.items at ≡ Some b → result ≡ true → Awaits b.pending own.now }
        ensures other { (b : Book) → slice_get self.now.items at ≡ Some b → result ≡ false → ¬ (Awaits b.pending own.now) }
    {
        self.items[at].awaits(own)
    }

    /// Begins a call of the account at this index, and allocates room for its receipt.
    ///
    /// Returns `AllocError` if an allocation fails; then nothing has changed.
    pub fn begin(&mut self, at: usize, call: &Call, start: usize) -> Result<(), AllocError>
        requires at { at < length self.old.items }
        requires none { (b : Book) → slice_get self.old.items at ≡ Some b → b.pending ≡ None }
        ensures { MatchResult result
            (λ _. (b : Book) → slice_get self.old.items at ≡ Some b
            → self.new.items ≡ slice_set self.old.items at (record b { pending = Some (record { call = call.now; start = start; ended = None }) }))
            (λ _. self.new ≡ self.old) }
    {
        self.items[at].begin(call, start)
    }

    /// Cancels a call that was begun at this index and has not ended.
    pub fn cancel(&mut self, at: usize)
        requires at { at < length self.old.items }
        requires goes_on { (b : Book) → slice_get self.old.items at ≡ Some b → has_reply b ≡ false }
        ensures { (b : Book) → slice_get self.old.items at ≡ Some b → self.new.items
            ≡ slice_set self.old.items at (record b { pending = None }) }
    {
        self.items[at].cancel();
    }

    /// Records that the pending call of the account at this index, if there is one, ended in the entry at `place`.
    pub fn end(&mut self, at: usize, kernel: &Kernel, place: usize)
        requires { at < length self.old.items }
        ensures { (b : Book) → slice_get self.old.items at ≡ Some b
            → self.new.items ≡ slice_set self.old.items at (noted kernel.now (b.number ∷ []) place b) }
    {
        if self.items[at].end(kernel, place) {
            self.replies += 1;
        }
    }

    /// Forgets the receipts that the accounts keep.
    pub fn forget(&mut self)
        requires { All HasFewReceipts self.old.items }
        ensures { self.new.items ≡ map forgotten_book self.old.items }
    {
        forget_all(&mut self.items);
    }

    /// Takes the call of the account at this index, if it has ended, and returns its reply. The account and the seat gain its receipt.
    pub fn finish(&mut self, at: usize, seat: &mut Seat) -> Option<Reply>
        requires waiting { seat.old.waiting ≢ 0 }
        requires at { at < length self.old.items }
        ensures some { IfSome result
            (λ reply. SettlesAt self.old.items self.new.items at seat.old seat.new reply) }
        ensures none { IfNone result
            (IsUnsettled self.old.items self.new.items at seat.old seat.new) }
    {
        let Some(reply) = settle(&mut self.items[at], seat) else {
            return None;
        };
        self.replies -= 1;
        Some(reply)
    }
}

/// Forgets the receipts that these accounts keep.
fn forget_all(accounts: &mut Vec<Account>)
    requires { All HasFewReceipts accounts.old.items }
    ensures { accounts.new.items ≡ map forgotten_book accounts.old.items }
{
    for i in 0..accounts.len() {
        accounts[i].forget();
    }
}

/// Returns the index of the account of a number, by a search. It is rarely needed, because seats are mostly given in the order of their
/// numbers.
#[cold]
fn position_among(accounts: &[Account], number: u32) -> Option<usize>
    requires { IsOnce (numbers accounts.now) }
    ensures { MatchOption result (book_at accounts.now number ≡ None)
        (λ at. (at < length accounts.now) × (book_at accounts.now number ≡ slice_get accounts.now at)) }
{
    for (i, account) in accounts.iter().enumerate() {
        if account.number() == number {
            return Some(i);
        }
    }
    None
}

/// Returns the index of the account of a number, without a search if the seats were given in the order of their numbers, from 1 on.
fn position(accounts: &[Account], number: u32) -> Option<usize>
    requires { IsOnce (numbers accounts.now) }
    ensures { MatchOption result (book_at accounts.now number ≡ None)
        (λ at. (at < length accounts.now) × (book_at accounts.now number ≡ slice_get accounts.now at)) }
{
    let guess = (number as usize).wrapping_sub(1);
    if guess < accounts.len() && accounts[guess].number() == number {
        return Some(guess);
    }
    position_among(accounts, number)
}

/// Returns whether an ended call of this number has not been taken.
fn reply_waits(accounts: &[Account], number: u32) -> bool
    requires { IsOnce (numbers accounts.now) }
    ensures { result ≡ reply_waits accounts.now number }
{
    match position(accounts, number) {
        Some(at) => accounts[at].has_reply(),
        None => false,
    }
}
