//! What a transfer would move, computed from the kernel before it.
ghost use Rattle.std.specs.Prelude.{◌≡◌, ◌↔◌, ℕ, List, Contains, IsTrue, MatchOption, Some};
ghost use Rattle.l4_fpage.specs.declared.fpages.Fpage.{Fpage as AnFpage};
ghost use Rattle.l4_msg.specs.Moves.{MovePairs};
ghost use Rattle.l4_msg.specs.declared.items.Item.{Item as AnItem};
ghost use Rattle.l4_record.specs.Inside.Carrying.{AreParties, AreRights, IsCarriedBy, AnyCarries, IsCarried, IsWrittenBy, AnyWrites, IsWritten};

use l4_ipc::{Fpage, Item, Kernel, Place, Rights, Step};
use l4_msg::{Move, item_moves};
use l4_record::ChainLink;

/// The two sides of a transfer.
#[derive(Clone, Copy)]
struct Sides<'a> {
    from: u64,
    to: u64,
    items: &'a [Item],
    window: Fpage,
}

/// Returns whether the move takes the source page to the target page.
fn is_pair(pages: &Move, source: u32, target: u32) -> bool
    ensures { IsTrue result ↔ MovePairs (Some pages.now) source target }
{
    if !pages.source.contains(source) {
        return false;
    }
    pages.target.first + (source - pages.source.first) == target
}

/// Returns the two sides of the step, if it is a transfer from a thread that sends to one that receives.
fn parties<'a>(kernel: &'a Kernel, step: &Step) -> Option<Sides<'a>>
    ensures { MatchOption result
        ((«from» to : ℕ) (items : List AnItem) (window : AnFpage)
        → ¬ (AreParties kernel.now step.now «from» to items window))
        (λ p. AreParties kernel.now step.now p.«from» p.to p.items.now p.window) }
{
    let Step::Transfer(sender, receiver) = step else {
        return None;
    };
    let giver = kernel.thread(*sender)?;
    let taker = kernel.thread(*receiver)?;
    let sends = giver.state.sending()?;
    let takes = taker.state.receiving()?;
    Some(Sides {
        from: giver.space,
        to: taker.space,
        items: sends.items.as_slice(),
        window: takes.window,
    })
}

/// Returns whether the link has these rights of its source, and the rights and the kind (map or grant) of this item, and
/// whether the rights have one in common.
fn has_rights(item: &Item, shows: Rights, link: &ChainLink) -> bool
    ensures { IsTrue result ↔ AreRights item.now shows link.now }
{
    let rights = item.fpage().rights();
    if shows.intersection(rights).is_empty() {
        return false;
    }
    if link.grant != item.is_grant() {
        return false;
    }
    if link.source_rights.bits() != shows.bits() {
        return false;
    }
    link.item_rights.bits() == rights.bits()
}

/// Returns whether this item moves the link's page, with the link's rights.
fn is_carried_by(kernel: &Kernel, sides: &Sides<'_>, item: &Item, link: &ChainLink) -> bool
    ensures { IsTrue result
        ↔ IsCarriedBy kernel.now.size kernel.now.mappings sides.now.«from» sides.now.to
        sides.now.window item.now link.now }
{
    if link.source.space != sides.from {
        return false;
    }
    if link.target.space != sides.to {
        return false;
    }
    let Some(pages) = item_moves(item, &sides.window, kernel.page_size()) else {
        return false;
    };
    if !is_pair(&pages, link.source.page, link.target.page) {
        return false;
    }
    let Some(shows) = kernel.mapping(sides.from, link.source.page) else {
        return false;
    };
    has_rights(item, shows.rights, link)
}

/// Returns whether one of the items moves the link's page.
fn any_carries(kernel: &Kernel, sides: &Sides<'_>, link: &ChainLink) -> bool
    ensures { IsTrue result
        ↔ AnyCarries kernel.now.size kernel.now.mappings sides.now.«from» sides.now.to
        sides.now.items.now sides.now.window link.now }
{
    for item in sides.items {
        if is_carried_by(kernel, sides, item, link) {
            return true;
        }
    }
    false
}

/// Returns whether the step's message has an item that moves the link's page with the link's rights.
pub fn is_carried(kernel: &Kernel, step: &Step, link: &ChainLink) -> bool
    ensures { IsTrue result ↔ IsCarried kernel.now step.now link.now }
{
    match parties(kernel, step) {
        Some(sides) => any_carries(kernel, &sides, link),
        None => false,
    }
}

/// Returns whether this item moves a page to the place.
fn is_written_by(kernel: &Kernel, sides: &Sides<'_>, item: &Item, place: Place) -> bool
    ensures { IsTrue result
        ↔ IsWrittenBy kernel.now.size kernel.now.mappings sides.now.«from» sides.now.to
        sides.now.window item.now place }
{
    let Some(pages) = item_moves(item, &sides.window, kernel.page_size()) else {
        return false;
    };
    if place.space != sides.to {
        return false;
    }
    if !pages.target.contains(place.page) {
        return false;
    }
    let source = pages.source.first + (place.page - pages.target.first);
    let Some(shows) = kernel.mapping(sides.from, source) else {
        return false;
    };
    !shows.rights.intersection(item.fpage().rights()).is_empty()
}

/// Returns whether one of the items moves a page to the place.
fn any_writes(kernel: &Kernel, sides: &Sides<'_>, place: Place) -> bool
    ensures { IsTrue result
        ↔ AnyWrites kernel.now.size kernel.now.mappings sides.now.«from» sides.now.to
        sides.now.items.now sides.now.window place }
{
    for item in sides.items {
        if is_written_by(kernel, sides, item, place) {
            return true;
        }
    }
    false
}

/// Returns whether the step's message has an item that moves a page to the place.
pub fn is_written(kernel: &Kernel, step: &Step, place: Place) -> bool
    ensures { IsTrue result ↔ IsWritten kernel.now step.now place }
{
    match parties(kernel, step) {
        Some(sides) => any_writes(kernel, &sides, place),
        None => false,
    }
}
