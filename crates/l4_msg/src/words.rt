ghost use Rattle.std.specs.Prelude.{◌≡◌, ℕ, ◌+◌, ◌*◌, ◌%◌, ◌<◌, ◌≤◌, length, IfOk, IfErr};
ghost use Rattle.std.specs.List.{All};
ghost use Rattle.l4_msg.specs.Words.{ItemsRead, FirstFails, items_words};
ghost use Rattle.l4_msg.specs.Moves.{base_of};
ghost use Rattle.l4_msg.specs.Sizes.{max_items, max_typed, base_unit};

use crate::items::{Item, ItemFault};
use arrayvec::ArrayVec;

/// The greatest number of items in a message: each takes two of the registers after the tag.
pub const MAX_ITEMS: usize = 31;

/// The greatest number of messages in a plan (this profile's own).
pub const MAX_PLAN_MESSAGES: usize = 64;

/// The greatest number of items in a plan: those of 64 full messages (this profile's own).
pub const MAX_PLAN_ITEMS: usize = MAX_PLAN_MESSAGES * MAX_ITEMS;

/// The number of pages, no two of them in one allowed block, that prove that a region needs more items than a plan
/// can have (this profile's own).
pub const TOO_MANY: usize = MAX_PLAN_ITEMS + 1;

/// The greatest number of words that the items of a message take.
pub const MAX_TYPED: usize = 2 * MAX_ITEMS;

/// Reads the items in these words. Returns the first invalid one, by its position from 0, with the reason.
pub fn read_items(words: &[u32]) -> Result<ArrayVec<Item, MAX_ITEMS>, (u32, ItemFault)>
    requires even { length words.now % 2 ≡ 0 }
    requires few { length words.now ≤ max_typed }
    ensures ok { IfOk result (λ items. ItemsRead words.now items.items) }
    ensures err { IfErr result (λ e. FirstFails words.now e.0 e.1) }
{
    let mut items = ArrayVec::new();
    for i in 0..words.len() / 2 {
        match Item::read(words[2 * i], words[2 * i + 1]) {
            Ok(item) => items.push(item),
            Err(fault) => return Err((i as u32, fault)),
        }
    }
    Ok(items)
}

/// Returns the words of these items.
///
pub fn write_items(items: &[Item]) -> ArrayVec<u32, MAX_TYPED>
    requires few { length items.now ≤ max_items }
    requires whole { All (λ item. base_of item % base_unit ≡ 0) items.now }
    ensures value { result.items ≡ items_words items.now }
{
    let mut words = ArrayVec::new();
    for i in 0..items.len() {
        let (first, second) = items[i].words(i + 1 < items.len());
        words.push(first);
        words.push(second);
    }
    words
}
