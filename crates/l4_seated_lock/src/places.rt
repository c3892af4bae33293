//! Finds the seat of a number.
ghost use Rattle.std.specs.Prelude.{◌≡◌, length, MatchOption};
ghost use Rattle.l4_lock.specs.Closing.{HasSeat};
ghost use Rattle.l4_seated_lock.specs.Inside.Places.{IsFirst};

use l4_lock::Seat;

/// Returns the index of the seat of a number.
pub(crate) fn position(seats: &[Seat], number: u32) -> Option<usize>
    ensures { MatchOption result (¬ (HasSeat seats.now (length seats.now) number))
        (IsFirst seats.now number) }
{
    for i in 0..seats.len() {
        if seats[i].number() == number {
            return Some(i);
        }
    }
    None
}
