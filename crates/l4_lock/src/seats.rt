//! Seats, and the account that the lock keeps for each.
ghost use Rattle.std.specs.Prelude.{◌≡◌, ◌≢◌, ◌+◌, ◌<◌, ◌≤◌, Some, None, [], ◌∷◌, ◌++◌, length, IfSome, IfNone, MatchResult, is_some, true, false};
ghost use Rattle.std.specs.Option.{option_map_or};
ghost use Rattle.l4_record.specs.Sizes.{max_handed_out};
ghost use Rattle.l4_lock.specs.Books.{SeatState, seat_state, forgotten_seat, starts, Book, book, forgotten_book, pending_count, receipt, has_ended, Settles};
ghost use Rattle.l4_lock.specs.Inside.Accounts.{has_reply, Awaits};
ghost use Rattle.l4_lock.specs.Inside.Noting.{started_by, noted, noted_call, reply_in};

use crate::entries::{Awaited, Ended, Pending, copy_call, copy_reply};
use crate::receipts::{Receipts, same_call};
use l4_ipc::{Call, Kernel, Reply};
use l4_record::MAX_HANDED_OUT;
use std::alloc::{AllocError, Global};
use std::marker::Model;

/// The right to enter calls of one thread. It keeps a receipt of each call that has ended.
#[derive(Drop)]
pub struct Seat {
    number: u32,
    waiting: usize,
    receipts: Receipts,
}

impl Model for Seat {
    ghost use Rattle.std.specs.Prelude.{◌+◌, ◌<◌, ◌≤◌, ◌^◌};
    ghost use Rattle.l4_lock.specs.Books.{SeatState, seat_state};
    ghost use Rattle.l4_lock.specs.Lists.{kept_receipt_count};

    ghost Value = { SeatState };

    ghost view = { λ s. record (seat_state s.number s.waiting s.receipts.items) { kept_from = s.receipts.kept_from } };

    ghost invariant = { λ s. (kept_receipt_count s.receipts + s.waiting ≤ s.receipts.room) × (s.receipts.room < 2 ^ 63) };
}

impl Seat {
    /// Returns a seat that has entered nothing.
    pub(crate) fn new(alloc: Global, number: u32) -> Seat
        ensures { result ≡ seat_state number 0 [] }
    {
        Seat {
            number,
            waiting: 0,
            receipts: Receipts::new(alloc),
        }
    }

    /// Returns the number of its thread.
    pub fn number(&self) -> u32
        ensures { result ≡ self.now.number }
    {
        self.number
    }

    /// Returns the number of calls that it has started.
    pub fn starts(&self) -> usize
        ensures { result ≡ starts self.now }
    {
        self.receipts.len() + self.waiting
    }

    /// Returns the number of its calls that were left waiting and have not been taken yet.
    pub fn waiting(&self) -> usize
        ensures { result ≡ self.now.waiting }
    {
        self.waiting
    }

    /// Returns the receipts of its ended calls.
    pub fn receipts(&self) -> &Receipts
        ensures receipts { result.now.items ≡ self.now.receipts }
        ensures kept_from { result.now.kept_from ≡ self.now.kept_from }
    {
        &self.receipts
    }

    /// Forgets the receipts that the seat keeps. Later receipts continue their numbers. A seat with more than 2^63 receipts keeps them.
    pub fn forget(&mut self)
        ensures { self.new ≡ forgotten_seat self.old }
    {
        if self.receipts.len() <= MAX_HANDED_OUT {
            self.receipts.forget();
        }
    }

    /// Counts one more call that is left waiting, and allocates room for its receipt. Returns false if the allocation fails; then nothing
    /// has changed.
    pub(crate) fn wait_more(&mut self) -> bool
        ensures more { result ≡ true → self.new
            ≡ record self.old { waiting = self.old.waiting + 1 } }
        ensures same { result ≡ false → self.new ≡ self.old }
    {
        let room = self.waiting + 1;
        if self.receipts.reserve(room).is_err() {
            return false;
        }
        self.waiting = room;
        true
    }

    /// Counts one call fewer that is left waiting.
    pub(crate) fn wait_less(&mut self)
        requires { self.old.waiting ≢ 0 }
        ensures { self.old ≡ record self.new { waiting = self.new.waiting + 1 } }
    {
        self.waiting -= 1;
    }

    /// Adds the receipt of a call that was left waiting.
    fn receive(&mut self, call: &Call, start: usize, ended: &Ended)
        requires { self.old.waiting ≢ 0 }
        ensures receipts { self.new.receipts ≡ self.old.receipts
            ++ receipt call.now start ended.now ∷ [] }
        ensures kept_from { self.new.kept_from ≡ self.old.kept_from }
        ensures waiting { (self.old.waiting ≡ self.new.waiting + 1)
            × (self.new.number ≡ self.old.number) }
    {
        self.waiting -= 1;
        self.receipts.push(call, start, ended);
    }
}

/// Returns the reply of a thread's last ended call, or `Gone` if the thread no longer exists.
fn last_reply(kernel: &Kernel, number: u32) -> Reply
    ensures { result ≡ reply_in kernel.now number }
{
    match kernel.reply(number) {
        Some(reply) => copy_reply(reply),
        None => Reply::Gone,
    }
}

/// Records that the number's call, if it has not ended, ended in the entry at this place. Returns whether it has ended.
fn end_call(pending: &mut Pending, kernel: &Kernel, number: u32, place: usize) -> bool
    ensures noted { pending.new ≡ noted_call kernel.now (number ∷ []) place number pending.old }
    ensures more { result ≡ true → (has_ended pending.old ≡ false)
        × (has_ended pending.new ≡ true) }
    ensures same { result ≡ false → has_ended pending.new ≡ has_ended pending.old }
{
    if pending.ended.is_some() {
        return false;
    }
    pending.ended = Some(Ended {
        entry: place,
        reply: last_reply(kernel, number),
    });
    true
}

/// The account of a number whose seat was given.
#[derive(Drop)]
pub(crate) struct Account {
    number: u32,
    pending: Option<Pending>,
    receipts: Receipts,
}

impl Model for Account {
    ghost use Rattle.std.specs.Prelude.{◌+◌, ◌<◌, ◌≤◌, ◌^◌};
    ghost use Rattle.l4_lock.specs.Books.{Book, book, pending_count};
    ghost use Rattle.l4_lock.specs.Lists.{kept_receipt_count};

    ghost Value = { Book };

    ghost view = { λ a. record (book a.number a.pending a.receipts.items) { kept_from = a.receipts.kept_from } };

    ghost invariant = { λ a. (kept_receipt_count a.receipts + pending_count a.pending ≤ a.receipts.room) × (a.receipts.room < 2 ^ 63) };
}

impl Account {
    /// Creates the account of a number whose seat was just given.
    pub fn new(alloc: Global, number: u32) -> Account
        ensures { result ≡ book number None [] }
    {
        Account {
            number,
            pending: None,
            receipts: Receipts::new(alloc),
        }
    }

    /// Returns the number.
    pub fn number(&self) -> u32
        ensures { result ≡ self.now.number }
    {
        self.number
    }

    /// Returns the number of calls that were begun.
    pub fn starts(&self) -> usize
        ensures { result ≡ started_by self.now }
    {
        if self.pending.is_some() {
            self.receipts.len() + 1
        } else {
            self.receipts.len()
        }
    }

    /// Returns the receipts that were given.
    pub fn receipts(&self) -> &Receipts
        ensures receipts { result.now.items ≡ self.now.receipts }
        ensures kept_from { result.now.kept_from ≡ self.now.kept_from }
    {
        &self.receipts
    }

    /// Forgets the receipts that the account keeps.
    pub fn forget(&mut self)
        requires { length self.old.receipts ≤ max_handed_out }
        ensures { self.new ≡ forgotten_book self.old }
    {
        self.receipts.forget();
    }

    /// Returns whether a call has not been taken yet.
    pub fn is_pending(&self) -> bool
        ensures { result ≡ is_some self.now.pending }
    {
        self.pending.is_some()
    }

    /// Returns whether a call has ended and has not been taken yet.
    pub fn has_reply(&self) -> bool
        ensures { result ≡ option_map_or has_ended self.now.pending false }
    {
        match &self.pending {
            Some(pending) => pending.ended.is_some(),
            None => false,
        }
    }

    /// Returns whether the call that has not been taken yet is this one.
    pub fn awaits(&self, own: &Awaited) -> bool
        ensures same { result ≡ true → Awaits self.now.pending own.now }
        ensures other { result ≡ false → ¬ (Awaits self.now.pending own.now) }
    {
        let Some(pending) = &self.pending else {
            return false;
        };
        if pending.start != own.start {
            return false;
        }
        same_call(&pending.call, &own.call)
    }

    /// Begins a call, and allocates room for its receipt.
    pub fn begin(&mut self, call: &Call, start: usize) -> Result<(), AllocError>
        requires { self.old.pending ≡ None }
        ensures { MatchResult result
            (λ _. self.new ≡ record self.old { pending = Some (record { call = call.now; start = start; ended = None }) })
            (λ _. self.new ≡ self.old) }
    {
        self.receipts.reserve(1)?;
        self.pending = Some(Pending {
            call: copy_call(call),
            start,
            ended: None,
        });
        Ok(())
    }

    /// Cancels the call that was begun.
    pub fn cancel(&mut self)
        ensures { self.new ≡ record self.old { pending = None } }
    {
        self.pending = None;
    }

    /// Records that its pending call, if there is one, ended in the entry at this place. Returns whether the call's reply is new.
    pub fn end(&mut self, kernel: &Kernel, place: usize) -> bool
        ensures noted { self.new ≡ noted kernel.now (self.old.number ∷ []) place self.old }
        ensures more { result ≡ true → (has_reply self.old ≡ false) × (has_reply self.new ≡ true) }
        ensures same { result ≡ false → has_reply self.new ≡ has_reply self.old }
    {
        match &mut self.pending {
            Some(pending) => end_call(pending, kernel, self.number, place),
            None => false,
        }
    }
}

/// Takes the account's call, if it has ended, and returns its reply. The account and the seat gain its receipt.
pub(crate) fn settle(account: &mut Account, seat: &mut Seat) -> Option<Reply>
    requires { seat.old.waiting ≢ 0 }
    ensures some { IfSome result
        (λ reply. Settles account.old account.new seat.old seat.new reply) }
    ensures none { IfNone result
        ((account.new ≡ account.old) × (seat.new ≡ seat.old)
        × (option_map_or has_ended account.old.pending false ≡ false)) }
{
    let Account {
        number: _,
        pending,
        receipts,
    } = account;
    let Some(open) = &*pending else {
        return None;
    };
    let Some(ended) = &open.ended else {
        return None;
    };
    receipts.push(&open.call, open.start, ended);
    seat.receive(&open.call, open.start, ended);
    let reply = copy_reply(&ended.reply);
    *pending = None;
    Some(reply)
}
