ghost use Rattle.std.specs.Prelude.{◌≡◌, ℕ, ◌^◌, ◌<◌, IfSome, Some, MatchOption};
ghost use Rattle.std.specs.Fmt.{decimal};
ghost use Rattle.l4_text.specs.Texts.{word_text};
ghost use Rattle.l4_msg.specs.declared.items.Item.{Item as AnItem};
ghost use Rattle.l4_plan_lines.specs.Lines.{tag_line, page_line, item_line};
ghost use Rattle.l4_plan_lines.specs.Claims.{IsItemLine};

use crate::lines::{item_text, page_text, tag_text};
use l4_msg::Item;
use l4_text::{decimal_number, word};

/// Returns the word that eight digits spell. If they spell none, the result is unspecified.
fn word_of(digits: &[u8]) -> u32
    ensures { (w : ℕ) → w < 2 ^ 32 → digits.now ≡ word_text w → result ≡ w }
{
    word(digits).unwrap_or(0)
}

/// Returns the number that the digits spell.
fn number_of(digits: &[u8]) -> Option<u32>
    ensures { (n : ℕ) → n < 2 ^ 32 → digits.now ≡ decimal n → result ≡ Some n }
{
    decimal_number(digits)
}

/// Reads the word of a tag line. Returns `None` for any other line.
pub fn tag_of_line(line: &[u8]) -> Option<u32>
    ensures found { IfSome result (λ tag. line.now ≡ tag_line tag) }
    ensures only { (tag : ℕ) → tag < 2 ^ 32 → line.now ≡ tag_line tag → result ≡ Some tag }
{
    if line.len() != 12 {
        return None;
    }
    let tag = word_of(&line[4..]);
    let spelled = tag_text(tag);
    if spelled.as_slice() == line {
        return Some(tag);
    }
    None
}

/// Reads the page of a page line. Returns `None` for any other line.
pub fn page_of_line(line: &[u8]) -> Option<u32>
    ensures found { IfSome result (λ page. line.now ≡ page_line page) }
    ensures only { (page : ℕ) → page < 2 ^ 32 → line.now ≡ page_line page → result ≡ Some page }
{
    if line.len() < 5 {
        return None;
    }
    let Some(page) = number_of(&line[5..]) else {
        return None;
    };
    let spelled = page_text(page);
    if spelled.as_slice() == line {
        return Some(page);
    }
    None
}

/// Reads the two words and the page of an item line. Returns `None` for any other line.
fn words_of_line(line: &[u8]) -> Option<(u32, u32, u32)>
    ensures found { IfSome result (λ words. line.now ≡ item_line words.0 words.1 words.2) }
    ensures only { (first second page : ℕ) → first < 2 ^ 32 → second < 2 ^ 32 → page < 2 ^ 32
        → line.now ≡ item_line first second page → result ≡ Some (first, second, page) }
{
    if line.len() < 28 {
        return None;
    }
    let first = word_of(&line[5..13]);
    let second = word_of(&line[14..22]);
    let Some(page) = number_of(&line[28..]) else {
        return None;
    };
    let spelled = item_text(first, second, page);
    if spelled.as_slice() == line {
        return Some((first, second, page));
    }
    None
}

/// Reads the map item and the page of an item line. Returns `None` for any other line.
pub fn item_of_line(line: &[u8]) -> Option<(Item, u32)>
    ensures { MatchOption result ((item : AnItem) (page : ℕ) → IsItemLine line.now item page → ⊥)
        (λ found. IsItemLine line.now found.0 found.1) }
{
    let Some((first, second, page)) = words_of_line(line) else {
        return None;
    };
    let Ok(item) = Item::read(first, second) else {
        return None;
    };
    if item.is_grant() {
        return None;
    }
    Some((item, page))
}
