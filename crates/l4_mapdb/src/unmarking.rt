//! Removes marks and blanks, once they have served their purpose or the message is given up. What descends from granted pages keeps only the
//! rights that their items name.

ghost use Rattle.std.specs.Prelude.{◌≡◌, ◌≢◌, ◌<◌, ◌≤◌, ◌+◌, ◌^◌, ◌⊎◌, length, None};
ghost use Rattle.l4_fpage.specs.Pages.{InBlock};
ghost use Rattle.l4_links.specs.Entries.{IsKeyOf, entry_at};
ghost use Rattle.l4_nodes.specs.declared.Place.{Place as ALinkPlace};
ghost use Rattle.l4_mapdb.specs.Inside.Cutting.{Capped, Tidies};
ghost use Rattle.l4_mapdb.specs.Inside.Messages.{InPages, OfItem, OfItems};

use crate::ItemMove;
use l4_fpage::Block;
use l4_links::{Links, end_of};

/// If an item granted the node under the key, reduces the rights of the node, and of what descends from it, to those of the item.
fn cut_key(links: &mut Links, key: usize)
    ensures capped { Capped (λ other. other ≡ key) links.old.entries links.new.entries }
    ensures spaces { links.new.spaces ≡ links.old.spaces }
{
    links.law_trees();
    let Some(standing) = links.standing(key) else {
        return;
    };
    let Some(granted) = standing.granted else {
        return;
    };
    links.cap_tree(key, granted);
}

/// Cuts what was granted to the page of the key, and removes the marks from the page, and the key if there is no node.
fn tidy_key(links: &mut Links, key: usize)
    requires { entry_at links.old.entries key ≢ None }
    ensures tidies { (place : ALinkPlace) → IsKeyOf links.old.entries place key
        → Tidies (λ p. p ≡ place) links.old.entries links.new.entries }
    ensures spaces { links.new.spaces ≡ links.old.spaces }
{
    cut_key(links, key);
    let Some(_) = links.standing(key) else {
        links.take_blank(key);
        return;
    };
    links.set_plain(key);
    links.set_wanted(key, false);
}

/// Cuts what was granted to the pages of the block in the space, and removes their marks, and the keys of those without a node.
fn tidy_block(links: &mut Links, space: u64, block: Block)
    ensures tidies { Tidies (InPages space block.first (block.first + 2 ^ block.log))
        links.old.entries links.new.entries }
    ensures spaces { links.new.spaces ≡ links.old.spaces }
{
    let end = end_of(block);
    let mut start = block.first;
    loop {
        let Some((page, key)) = links.next_key_in(space, start, end) else {
            return;
        };
        tidy_key(links, key);
        start = page + 1;
    }
}

/// Cuts what was granted to the pages that the items name, and removes their marks, and the keys of those without a node.
pub(crate) fn unmark(links: &mut Links, from: u64, to: u64, items: &[ItemMove])
    ensures tidies { Tidies (OfItems from to items.now (length items.now)) links.old.entries
        links.new.entries }
    ensures spaces { links.new.spaces ≡ links.old.spaces }
{
    for item in 0..items.len() {
        let by = &items[item];
        tidy_block(links, from, by.mv.source);
        tidy_block(links, to, by.mv.target);
    }
}
