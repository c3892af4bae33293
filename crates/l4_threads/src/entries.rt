//! Lists of threads with their numbers, and of numbers.
ghost use Rattle.std.specs.Prelude.{◌≡◌, ◌≢◌, nat_lt, if◌then◌else◌, length, insert, ◌+◌, ◌<◌, ◌≤◌, []};
ghost use Rattle.arrayvec.specs.ArrayVec.{array_vec_len};
ghost use Rattle.std.specs.Option.{option_map_or};
ghost use Rattle.l4_threads.specs.Inside.Entries.{freed_in, ends_with, ended_in, rising_with, has_space, is_receiving, any_state};
ghost use Rattle.l4_threads.specs.Inside.Transfers.{sender_to, with_transfer, expires_beside};
ghost use Rattle.l4_threads.specs.Enabled.{expires};
ghost use Rattle.l4_threads.specs.Sizes.{max_threads};
ghost use Rattle.l4_threads.specs.Inside.Passing.{HandsOver};

use crate::{Envelope, MAX_THREADS, Thread};
use arrayvec::ArrayVec;

/// Returns the lesser of this number and the one given before, if any.
pub fn lesser(least: Option<u32>, number: u32) -> u32
    ensures { result
        ≡ option_map_or (λ other. if nat_lt other number then other else number) least number }
{
    match least {
        Some(other) => { if other < number { other } else { number } }
        None => number,
    }
}

/// Returns the sender of the transfer to this receiver, if there is one.
fn sender_to(transfers: &[(u32, u32)], receiver: u32) -> Option<u32>
    ensures { result ≡ sender_to transfers.now receiver }
{
    let transfer = transfers.iter().find(|transfer| transfer.1 == receiver)?;
    Some(transfer.0)
}

/// Adds a transfer, unless there is one to this receiver.
pub fn add_transfer(transfers: &mut ArrayVec<(u32, u32), MAX_THREADS>, sender: u32, receiver: u32)
    requires { array_vec_len transfers.old < max_threads }
    ensures items { transfers.new.items ≡ with_transfer transfers.old.items sender receiver }
    ensures len { array_vec_len transfers.new ≤ array_vec_len transfers.old + 1 }
{
    if sender_to(transfers.as_slice(), receiver).is_none() {
        transfers.push((sender, receiver));
    }
}

/// Returns whether the thread waits with a zero timeout, and takes part in none of these transfers.
pub fn expires_beside(transfers: &[(u32, u32)], entry: &(u32, Thread)) -> bool
    ensures { result ≡ expires_beside transfers.now entry.now.0 entry.now.1.state }
{
    if let Some(sending) = entry.1.state.sending() {
        return sending.expires && sender_to(transfers, sending.to) != Some(entry.0);
    }
    let Some(receiving) = entry.1.state.receiving() else {
        return false;
    };
    receiving.expires && sender_to(transfers, entry.0).is_none()
}

/// Returns the index of the number in a rising list.
fn place_in_order(list: &[u32], number: u32) -> usize
    ensures within { result ≤ length list.now }
    ensures place { insert list.now result number ≡ rising_with list.now number }
{
    for i in 0..list.len() {
        if number < list[i] {
            return i;
        }
    }
    list.len()
}

/// Inserts the number into a rising list.
fn insert_rising(list: &mut ArrayVec<u32, MAX_THREADS>, number: u32)
    requires { array_vec_len list.old < max_threads }
    ensures items { list.new.items ≡ rising_with list.old.items number }
    ensures len { array_vec_len list.new ≡ array_vec_len list.old + 1 }
{
    let at = place_in_order(list.as_slice(), number);
    list.insert(at, number);
}

/// Returns whether the thread's call ends with the victim.
fn ends_with(entry: &(u32, Thread), victim: u32) -> bool
    ensures { result ≡ ends_with victim entry.now }
{
    !entry.1.state.is_running() && (entry.0 == victim || entry.1.state.is_freed_by(victim))
}

/// Returns the numbers of the threads whose calls end with the victim, in rising order.
pub fn ended_by(entries: &[(u32, Thread)], victim: u32) -> ArrayVec<u32, MAX_THREADS>
    requires { length entries.now ≤ max_threads }
    ensures { result.items ≡ ended_in entries.now victim [] }
{
    let mut ended = ArrayVec::new();
    for entry in entries {
        if ends_with(entry, victim) {
            insert_rising(&mut ended, entry.0);
        }
    }
    ended
}

/// Ends each wait for the victim.
pub fn free_all(entries: &mut [(u32, Thread)], victim: u32)
    ensures { entries.new ≡ freed_in entries.old victim }
{
    for i in 0..entries.len() {
        if entries[i].1.state.is_freed_by(victim) {
            let reply = entries[i].1.state.reply_without_partner();
            entries[i].1.state.run(reply);
        }
    }
}

/// Ends the Ipc of the thread at one index with the message of the thread at the other.
#[inline(always)]
pub fn hand_over(entries: &mut [(u32, Thread)], from: usize, at: usize, envelope: Envelope)
    requires from { from < length entries.old }
    requires at { at < length entries.old }
    requires other { from ≢ at }
    ensures { HandsOver entries.old from at envelope entries.new }
{
    if from < at {
        let (low, high) = entries.split_at_mut(at);
        high[0].1.state.take(&low[from].1.state, envelope);
    } else {
        let (low, high) = entries.split_at_mut(from);
        low[at].1.state.take(&high[0].1.state, envelope);
    }
}

/// Returns whether a thread is in this space.
pub fn is_inhabited(entries: &[(u32, Thread)], space: u64) -> bool
    ensures { result ≡ has_space entries.now space }
{
    entries.iter().any(|entry| entry.1.space == space)
}

/// Returns whether a thread is receiving.
pub fn any_receives(entries: &[(u32, Thread)]) -> bool
    ensures { result ≡ any_state is_receiving entries.now }
{
    entries.iter().any(|entry| entry.1.state.is_receiving())
}

/// Returns whether a thread waits with a zero timeout.
pub fn any_expires(entries: &[(u32, Thread)]) -> bool
    ensures { result ≡ any_state expires entries.now }
{
    entries.iter().any(|entry| entry.1.state.expires())
}
