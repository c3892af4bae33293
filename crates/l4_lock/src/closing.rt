//! Compares the seats that come back with those that were given.
ghost use Rattle.std.specs.Prelude.{◌≡◌, ◌≢◌, ◌⊎◌, ◌≤◌, ◌+◌, ◌<◌, ℕ, List, true, false, length, MatchOption, slice_get, Some, None};
ghost use Rattle.l4_lock.specs.Books.{SeatState, Book};
ghost use Rattle.l4_lock.specs.Inside.Noting.{started_by};
ghost use Rattle.l4_lock.specs.Closing.{HasBook, HasSeat, IsGiven, IsBack, Agrees, AllAgree, AreBack, Mismatches};
ghost use Rattle.l4_lock.specs.Inside.Closing.{keep, SoFarMissing, SoFarForeign, SoFarWrong};

use crate::locked::Locked;
use crate::seats::{Account, Seat};

/// A difference between the seats that came back and those that were given.
#[derive(Clone, Copy, Debug, PartialEq, Eq)]
pub enum Mismatch {
    /// X1: the seat of this number was given, but did not come back.
    Missing(u32),
    /// X2: the seat of this number was not given, or came back twice.
    Foreign(u32),
    /// X3: the count of this number's seat differs from the number of its starts in the history, or its receipts differ from the lock's
    /// copies.
    Receipt(u32),
}

/// Everything that was passed to a `close` that failed, unchanged.
#[derive(Drop)]
pub struct Unclosed {
    pub mismatch: Mismatch,
    pub locked: Locked,
    pub seats: Vec<Seat>,
}

/// Returns whether an account has this number.
fn has_account(accounts: &[Account], number: u32) -> bool
    ensures has { result ≡ true → IsGiven accounts.now number }
    ensures lacks { result ≡ false → ¬ (IsGiven accounts.now number) }
{
    for i in 0..accounts.len() {
        if accounts[i].number() == number {
            return true;
        }
    }
    false
}

/// Returns whether one of the first `before` seats has this number.
fn has_seat(seats: &[Seat], before: usize, number: u32) -> bool
    requires { before ≤ length seats.now }
    ensures has { result ≡ true → HasSeat seats.now before number }
    ensures lacks { result ≡ false → ¬ (HasSeat seats.now before number) }
{
    for i in 0..before {
        if seats[i].number() == number {
            return true;
        }
    }
    false
}

/// Returns the lesser of the number found so far and this one, if this one is bad; otherwise the number found so far.
fn keep(found: Option<u32>, number: u32, bad: bool) -> Option<u32>
    ensures { result ≡ keep found number bad }
{
    if !bad {
        return found;
    }
    match found {
        Some(least) => {
            if least <= number {
                Some(least)
            } else {
                Some(number)
            }
        }
        None => Some(number),
    }
}

/// Returns the least number whose seat is missing.
fn first_missing(accounts: &[Account], seats: &[Seat]) -> Option<u32>
    ensures { SoFarMissing accounts.now seats.now (length accounts.now) result }
{
    let mut found = None;
    for i in 0..accounts.len() {
        let number = accounts[i].number();
        let back = has_seat(seats, seats.len(), number);
        found = keep(found, number, !back);
    }
    found
}

/// Returns whether the seat at this place was not given, or an earlier seat has its number.
fn is_foreign(accounts: &[Account], seats: &[Seat], at: usize, number: u32) -> bool
    requires { at ≤ length seats.now }
    ensures foreign { result ≡ true → ¬ (IsGiven accounts.now number)
        ⊎ HasSeat seats.now at number }
    ensures fine { result ≡ false → IsGiven accounts.now number × ¬ (HasSeat seats.now at number) }
{
    if !has_account(accounts, number) {
        return true;
    }
    has_seat(seats, at, number)
}

/// Returns the least number of a foreign seat.
fn first_foreign(accounts: &[Account], seats: &[Seat]) -> Option<u32>
    ensures { SoFarForeign accounts.now seats.now (length seats.now) result }
{
    let mut found = None;
    for i in 0..seats.len() {
        let number = seats[i].number();
        let foreign = is_foreign(accounts, seats, i, number);
        found = keep(found, number, foreign);
    }
    found
}

/// Returns whether the seat has the count and the receipts that the account has.
fn agrees(account: &Account, seat: &Seat) -> bool
    ensures agree { result ≡ true → Agrees started_by account.now seat.now }
    ensures differ { result ≡ false → ¬ (Agrees started_by account.now seat.now) }
{
    if account.starts() != seat.starts() {
        return false;
    }
    account.receipts().same(seat.receipts())
}

/// Returns whether the account has the seat's number, but does not agree with the seat.
fn disagrees(account: &Account, seat: &Seat) -> bool
    ensures disagree { result ≡ true → (account.now.number ≡ seat.now.number)
        × ¬ (Agrees started_by account.now seat.now) }
    ensures agree { result ≡ false → account.now.number ≡ seat.now.number
        → Agrees started_by account.now seat.now }
{
    if account.number() != seat.number() {
        return false;
    }
    !agrees(account, seat)
}

/// Returns the index of the account of the seat's number, if that account does not agree with the seat.
fn disagreeing(accounts: &[Account], seat: &Seat) -> Option<usize>
    ensures { MatchOption result (AllAgree started_by accounts.now seat.now)
        (λ at. (b : Book) × (slice_get accounts.now at ≡ Some b) × (b.number ≡ seat.now.number) × ¬ (Agrees started_by b seat.now)) }
{
    for i in 0..accounts.len() {
        if disagrees(&accounts[i], seat) {
            return Some(i);
        }
    }
    None
}

/// Returns the least number of a seat that does not agree with its account.
fn first_wrong(accounts: &[Account], seats: &[Seat]) -> Option<u32>
    ensures { SoFarWrong started_by accounts.now seats.now (length seats.now) result }
{
    let mut found = None;
    for i in 0..seats.len() {
        let number = seats[i].number();
        let wrong = disagreeing(accounts, &seats[i]).is_some();
        found = keep(found, number, wrong);
    }
    found
}

/// Returns the first mismatch.
pub(crate) fn first_mismatch(accounts: &[Account], seats: &[Seat]) -> Option<Mismatch>
    ensures { MatchOption result (AreBack started_by accounts.now seats.now)
        (Mismatches started_by accounts.now seats.now) }
{
    if let Some(number) = first_missing(accounts, seats) {
        return Some(Mismatch::Missing(number));
    }
    if let Some(number) = first_foreign(accounts, seats) {
        return Some(Mismatch::Foreign(number));
    }
    if let Some(number) = first_wrong(accounts, seats) {
        return Some(Mismatch::Receipt(number));
    }
    None
}
