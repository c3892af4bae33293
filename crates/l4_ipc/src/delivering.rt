//! Transfers: the effect of a message's items, and what the sender and the receiver do next.
ghost use Rattle.std.specs.Prelude.{◌≡◌, ◌≢◌, ◌≤◌, ◌↔◌, List, [], length, drop, slice_index, IsTrue, IsSome, MatchOption, Some};
ghost use Rattle.std.specs.List.{AllZip};
ghost use Rattle.l4_fpage.specs.declared.fpages.Fpage.TheVariants.{Nil as NilFpage};
ghost use Rattle.l4_msg.specs.Sizes.{max_items};
ghost use Rattle.l4_threads.specs.Enabled.{IsFirstSender};
ghost use Rattle.l4_ipc.specs.Moving.{Moves};
ghost use Rattle.l4_ipc.specs.SpacePages.{FitIn};
ghost use Rattle.l4_msg.specs.Moves.{StaysIn};
ghost use Rattle.l4_ipc.specs.Inside.Delivering.{AreThere, IsListed, outcome_of};
ghost use Rattle.l4_phases.specs.Turns.{next_of};
ghost use Rattle.l4_ipc.specs.Inside.Turns.{reply_or, message_reply};
ghost use Rattle.l4_ipc.specs.Steps.{Meets, receiver_reply, sender_next, is_done};
ghost use Rattle.l4_threads.specs.Threads.{state_of, end_call, message_of};
ghost use Rattle.l4_threads.specs.declared.Reply.TheVariants.{Ipc};
ghost use Rattle.l4_threads.specs.declared.State.TheVariants.{Sending as Sends};
ghost use Rattle.l4_fpage.specs.declared.fpages.Fpage.{Fpage as AnFpage};
ghost use Rattle.l4_fpage.specs.declared.sizes.PageSize.{PageSize as APageSize};
ghost use Rattle.l4_msg.specs.declared.items.Item.{Item as AnItem};
ghost use Rattle.l4_threads.specs.declared.Sending.{Sending as ASending};
ghost use Rattle.l4_threads.specs.declared.Thread.{Thread as AThread};

use crate::steps::Outcome;
use arrayvec::ArrayVec;
use l4_forest::{Cause, Forest, ItemMove};
use l4_fpage::{Block, Fpage, PageSize, Rights};
use l4_msg::{Item, MAX_ITEMS, Move, item_moves};
use l4_phases::{Ending, Turn, end, going_on};
use l4_threads::{Envelope, Receiving, Sending, Thread, Threads};

/// The two threads of an enabled transfer, and the state of each.
#[derive(Clone, Copy)]
pub struct Meeting<'a> {
    pub from: &'a Thread,
    pub to: &'a Thread,
    pub sends: &'a Sending,
    pub takes: &'a Receiving,
}

/// Returns the two threads of a transfer, and their states, if the first is sending and the second is receiving. This
/// is the case if the transfer is enabled.
pub fn meet(threads: &Threads, sender: u32, receiver: u32) -> Option<Meeting<'_>>
    ensures { MatchOption result (¬ (IsFirstSender threads.now receiver sender))
        (λ m. IsFirstSender threads.now receiver sender → Meets threads.now sender receiver m.from.now m.to.now m.sends.now m.takes.now) }
{
    let from = threads.thread(sender)?;
    let to = threads.thread(receiver)?;
    let sends = from.state.sending()?;
    let takes = to.state.receiving()?;
    Some(Meeting {
        from,
        to,
        sends,
        takes,
    })
}

/// Returns whether the message was delivered.
pub fn is_done(outcome: Outcome) -> bool
    ensures { result ≡ is_done outcome }
{
    outcome == Outcome::Done
}

/// Returns the tag of a message's words.
pub fn tag_of(words: &[u32]) -> u32
    ensures { result ≡ slice_index words.now 0 }
{
    match words {
        [] => 0,
        [tag, ..] => *tag,
    }
}

/// Returns how the receiver's call ends, or `None` if its reply is the message.
pub fn receiver_ending(done: bool, takes: &Receiving) -> Option<Ending>
    ensures { (from : AThread) (sends : ASending) → reply_or result (message_reply from sends)
        ≡ receiver_reply done from sends takes.now }
{
    if !done {
        return Some(Ending::Failed(takes.fault, 9));
    }
    if takes.fault {
        return Some(Ending::Answered);
    }
    None
}

/// Ends the receiver's call, by default with the message of the sender.
#[inline(always)]
pub fn end_receiver(
    threads: &mut Threads,
    sender: u32,
    receiver: u32,
    ending: Option<Ending>,
    envelope: Envelope,
)
    requires there { IsSome (state_of threads.old receiver) }
    requires enabled { IsFirstSender threads.old receiver sender }
    ensures { (sends : ASending) → state_of threads.old sender ≡ Some (Sends sends)
        → threads.new ≡ end_call threads.old receiver (reply_or ending (Ipc (message_of envelope (drop 1 sends.words.items)))) }
{
    match ending {
        Some(ending) => end(threads, receiver, ending),
        None => threads.pass_message(sender, receiver, envelope),
    }
}

/// Returns what the sender does next.
pub fn sender_turn(done: bool, threads: &Threads, sends: &Sending) -> Turn
    ensures { next_of result ≡ sender_next done threads.now sends.now }
{
    if done {
        going_on(threads, sends.then, sends.fault)
    } else {
        Turn::Ends(Ending::Failed(sends.fault, 8))
    }
}

/// Returns the move of an item that moves no page.
fn no_move() -> Move
    ensures { (size : APageSize) → StaysIn size result }
{
    let page = Block { first: 0, log: 0 };
    Move {
        source: page,
        target: page,
    }
}

/// Returns what an item moves in a window. An item that moves no page gets no rights here, so that none of its moves is used.
#[inline(always)]
fn item_move(item: &Item, window: &Fpage, size: PageSize) -> ItemMove
    ensures { IsListed size window.now item.now result }
{
    let grant = item.is_grant();
    match item_moves(item, window, size) {
        Some(mv) => ItemMove {
            mv,
            rights: item.fpage().rights(),
            grant,
        },
        None => ItemMove {
            mv: no_move(),
            rights: Rights::of_bits(0),
            grant,
        },
    }
}

/// Returns what the items of a message move in a window. Each item keeps its number.
fn listed(items: &[Item], window: &Fpage, size: PageSize) -> ArrayVec<ItemMove, MAX_ITEMS>
    requires { length items.now ≤ max_items }
    ensures { AllZip (IsListed size window.now) items.now result.items }
{
    let mut moves = ArrayVec::new();
    for item in items {
        moves.push(item_move(item, window, size));
    }
    moves
}

/// Returns whether the message has items and the window is nil.
fn lacks_window(items: &[Item], window: &Fpage) -> bool
    ensures { IsTrue result ↔ ((items.now ≢ []) × (window.now ≡ NilFpage)) }
{
    match window {
        Fpage::Nil => !items.is_empty(),
        _ => false,
    }
}

/// Returns the outcome of a message that was not delivered.
fn outcome_of(cause: Cause) -> Outcome
    ensures { result ≡ outcome_of cause }
{
    match cause {
        Cause::Entangled => Outcome::Entangled,
        Cause::NoMemory => Outcome::NoMemory,
    }
}

/// Moves the pages of a message between two spaces that exist, by these moves of its items.
fn move_pages(forest: &mut Forest, from: u64, to: u64, moves: &[ItemMove]) -> Outcome
    requires there { AreThere forest.old from to }
    ensures moves { (size : APageSize) (items : List AnItem) (window : AnFpage) → AllZip (IsListed size window) items moves.now → ¬ ((items ≢ []) × (window ≡ NilFpage))
        → Moves size forest.old from to items window result forest.new }
    ensures fits { (size : APageSize) (items : List AnItem) (window : AnFpage)
        → AllZip (IsListed size window) items moves.now → FitIn size forest.old
        → FitIn size forest.new }
{
    match forest.map_all(from, to, moves) {
        Ok(()) => Outcome::Done,
        Err(cause) => outcome_of(cause),
    }
}

/// Moves the pages of a message by a list of the moves of its items. It is a function of its own because the list has room for the moves of
/// all items of a message, and no message with fewer than two items should clear that room.
#[inline(never)]
fn move_listed(
    forest: &mut Forest,
    from: u64,
    to: u64,
    size: PageSize,
    items: &[Item],
    window: &Fpage,
) -> Outcome
    requires there { AreThere forest.old from to }
    requires few { length items.now ≤ max_items }
    ensures moves { ¬ ((items.now ≢ []) × (window.now ≡ NilFpage))
        → Moves size forest.old from to items.now window.now result forest.new }
    ensures fits { FitIn size forest.old → FitIn size forest.new }
{
    let moves = listed(items, window, size);
    move_pages(forest, from, to, moves.as_slice())
}

/// Moves the pages of a message from one space to the other. Both spaces exist.
#[inline(always)]
pub fn deliver(
    forest: &mut Forest,
    from: u64,
    to: u64,
    size: PageSize,
    items: &[Item],
    window: &Fpage,
) -> Outcome
    requires there { AreThere forest.old from to }
    requires few { length items.now ≤ max_items }
    ensures moves { Moves size forest.old from to items.now window.now result forest.new }
    ensures fits { FitIn size forest.old → FitIn size forest.new }
{
    if items.is_empty() {
        forest.law_forest();
        return Outcome::Done;
    }
    if lacks_window(items, window) {
        return Outcome::NoWindow;
    }
    if items.len() == 1 {
        return move_pages(forest, from, to, &[item_move(&items[0], window, size)]);
    }
    move_listed(forest, from, to, size, items, window)
}
