//! Items in symbolic tokens.
ghost use Rattle.std.specs.Prelude.{◌≡◌, ◌%◌, false, IfOk, IfErr};
ghost use Rattle.std.specs.Result.{result_map_both};
ghost use Rattle.l4_msg.specs.Moves.{base_of};
ghost use Rattle.l4_msg.specs.Sizes.{base_unit};
ghost use Rattle.l4_msg.specs.Words.{item_words};
ghost use Rattle.l4_msg.specs.declared.items.Item.{Item as AnItem};
ghost use Rattle.l4_symbols.specs.Computed.{parts_words, item_words_in};
ghost use Rattle.l4_symbols.specs.Items.{IsItemOf, NamesItem, PartsFail, ItemRefused};

use crate::pages::fpage_of;
use crate::reasons::Reason;
use crate::spelling::{ItemParts, item_in};
use l4_fpage::PageSize;
use l4_msg::Item;

/// Returns the item that the parts of a token spell.
fn item_of(parts: &ItemParts, size: PageSize) -> Result<Item, Reason>
    ensures ok { IfOk result (IsItemOf size parts.now) }
    ensures whole { IfOk result (λ item. base_of item % base_unit ≡ 0) }
    ensures err { IfErr result (PartsFail size parts.now) }
    ensures value { result_map_both (λ item. item_words item false) (λ reason. reason) result
        ≡ parts_words size parts.now }
{
    let fpage = match fpage_of(&parts.pages, size, parts.rights) {
        Ok(fpage) => fpage,
        Err(reason) => return Err(reason),
    };
    if parts.base >= size.space_pages() {
        return Err(Reason::Base);
    }
    let base = size.address_of(parts.base);
    Ok(if parts.grant {
        Item::Grant { base, fpage }
    } else {
        Item::Map { base, fpage }
    })
}

/// Reads the item in a token: `map:FIRST+COUNT>BASE:RIGHTS` or `grant:FIRST+COUNT>BASE:RIGHTS`, in pages of this size. COUNT pages from page
/// FIRST on are sent, with the send base at page BASE. COUNT is a power of two, and FIRST a multiple of it. `+COUNT` may be omitted for one
/// page. RIGHTS are r, w and x in this order, with a hyphen for each missing right.
///
/// Returns the first reason why the token does not name an item.
pub fn item(token: &[u8], size: PageSize) -> Result<Item, Reason>
    ensures ok { IfOk result (NamesItem size token.now) }
    ensures whole { IfOk result (λ item. base_of item % base_unit ≡ 0) }
    ensures err { IfErr result (ItemRefused size token.now) }
    ensures value { result_map_both (λ item. item_words item false) (λ reason. reason) result
        ≡ item_words_in size token.now }
    ensures only { (item : AnItem) → NamesItem size token.now item → result ≡ Ok item }
{
    let parts = match item_in(token) {
        Ok(parts) => parts,
        Err(reason) => return Err(reason),
    };
    match item_of(&parts, size) {
        Ok(item) => Ok(item),
        Err(reason) => Err(reason),
    }
}
