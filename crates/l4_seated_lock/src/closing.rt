//! Compares the seats that are returned with those that were given.
ghost use Rattle.std.specs.Prelude.{◌≡◌, ◌≤◌, ◌⊎◌, true, false, length, MatchOption};
ghost use Rattle.l4_lock.specs.Closing.{HasSeat, Least};
ghost use Rattle.l4_lock.specs.Inside.Closing.{keep};
ghost use Rattle.l4_seated_lock.specs.Inside.Numbers.{HasNumber, IsUnnamed, IsStrange, AreNamed, Misnames};

use crate::places::position;
use l4_lock::{Mismatch, Seat};

/// Returns whether one of the first numbers is this one.
fn has_number(numbers: &[u32], before: usize, number: u32) -> bool
    requires { before ≤ length numbers.now }
    ensures has { result ≡ true → HasNumber numbers.now before number }
    ensures lacks { result ≡ false → ¬ (HasNumber numbers.now before number) }
{
    for i in 0..before {
        if numbers[i] == number {
            return true;
        }
    }
    false
}

/// Returns the less of the number that is kept and this one, if this one is bad.
fn keep(found: Option<u32>, number: u32, bad: bool) -> Option<u32>
    ensures { result ≡ keep found number bad }
{
    if !bad {
        return found;
    }
    match found {
        Some(least) => {
            if least <= number {
                Some(least)
            } else {
                Some(number)
            }
        }
        None => Some(number),
    }
}

/// Returns the least number of a seat that is not among these.
fn first_missing(seats: &[Seat], numbers: &[u32]) -> Option<u32>
    ensures { Least (IsUnnamed seats.now numbers.now) result }
{
    let mut found = None;
    for i in 0..seats.len() {
        let number = seats[i].number();
        let back = has_number(numbers, numbers.len(), number);
        found = keep(found, number, !back);
    }
    found
}

/// Returns whether no seat has the number at this place, or an earlier place has it.
fn is_foreign(seats: &[Seat], numbers: &[u32], at: usize, number: u32) -> bool
    requires { at ≤ length numbers.now }
    ensures foreign { result ≡ true → ¬ (HasSeat seats.now (length seats.now) number)
        ⊎ HasNumber numbers.now at number }
    ensures fine { result ≡ false → HasSeat seats.now (length seats.now) number
        × ¬ (HasNumber numbers.now at number) }
{
    let Some(_) = position(seats, number) else {
        return true;
    };
    has_number(numbers, at, number)
}

/// Returns the least of these numbers that no seat has, or that is here twice.
fn first_foreign(seats: &[Seat], numbers: &[u32]) -> Option<u32>
    ensures { Least (IsStrange seats.now numbers.now) result }
{
    let mut found = None;
    for i in 0..numbers.len() {
        let number = numbers[i];
        let foreign = is_foreign(seats, numbers, i, number);
        found = keep(found, number, foreign);
    }
    found
}

/// Returns how the seats of these numbers differ from the given seats.
pub(crate) fn mismatch(seats: &[Seat], numbers: &[u32]) -> Option<Mismatch>
    ensures { MatchOption result (AreNamed seats.now numbers.now) (Misnames seats.now numbers.now) }
{
    if let Some(number) = first_missing(seats, numbers) {
        return Some(Mismatch::Missing(number));
    }
    if let Some(number) = first_foreign(seats, numbers) {
        return Some(Mismatch::Foreign(number));
    }
    None
}
