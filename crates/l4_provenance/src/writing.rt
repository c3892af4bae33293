//! What a transfer would move to a place, computed from the kernel before it.
ghost use Rattle.std.specs.Prelude.{◌≡◌, ℕ, List, MatchOption};
ghost use Rattle.l4_fpage.specs.declared.fpages.Fpage.{Fpage as AnFpage};
ghost use Rattle.l4_msg.specs.declared.items.Item.{Item as AnItem};
ghost use Rattle.l4_record.specs.Inside.Carrying.{AreParties, IsCarriedBy, AnyCarries, IsCarried, IsWrittenBy, AnyWrites, IsWritten};

use l4_ipc::{Fpage, Item, Kernel, Place, Step};
use l4_msg::item_moves;
use l4_record::ChainLink;

/// The items of a transfer, the spaces of its sender and receiver, and the receive window.
#[derive(Clone, Copy)]
pub(crate) struct Letter<'a> {
    pub(crate) from: u64,
    pub(crate) to: u64,
    pub(crate) items: &'a [Item],
    pub(crate) window: Fpage,
}

/// Returns the letter of the step, if it is a transfer from a thread that sends to one that receives.
pub(crate) fn letter_of<'a>(kernel: &'a Kernel, step: &Step) -> Option<Letter<'a>>
    ensures { MatchOption result
        ((«from» to : ℕ) (items : List AnItem) (window : AnFpage)
        → ¬ (AreParties kernel.now step.now «from» to items window))
        (λ l. AreParties kernel.now step.now l.«from» l.to l.items.now l.window) }
{
    match step {
        Step::Transfer(sender, receiver) => {
            let from = kernel.thread(*sender)?;
            let to = kernel.thread(*receiver)?;
            let sends = from.state.sending()?;
            let takes = to.state.receiving()?;
            Some(Letter {
                from: from.space,
                to: to.space,
                items: sends.items.as_slice(),
                window: takes.window,
            })
        }
        _ => None,
    }
}

/// Returns the link of this item to the place, for the entry with this number, if the item moves a page there.
fn link_by(
    kernel: &Kernel,
    letter: &Letter<'_>,
    number: usize,
    item: &Item,
    place: Place,
) -> Option<ChainLink>
    ensures { MatchOption result
        (¬ (IsWrittenBy kernel.now.size kernel.now.mappings letter.now.«from» letter.now.to
        letter.now.window item.now place))
        (λ l. IsCarriedBy kernel.now.size kernel.now.mappings letter.now.«from» letter.now.to
        letter.now.window item.now l × (l.target ≡ place) × (l.entry ≡ number)) }
{
    if place.space != letter.to {
        return None;
    }
    let Some(pages) = item_moves(item, &letter.window, kernel.page_size()) else {
        return None;
    };
    if !pages.target.contains(place.page) {
        return None;
    }
    let page = pages.source.first + (place.page - pages.target.first);
    let Some(shows) = kernel.mapping(letter.from, page) else {
        return None;
    };
    let rights = item.fpage().rights();
    if shows.rights.intersection(rights).is_empty() {
        return None;
    }
    Some(ChainLink {
        entry: number,
        source: Place {
            space: letter.from,
            page,
        },
        target: place,
        grant: item.is_grant(),
        source_rights: shows.rights,
        item_rights: rights,
    })
}

/// Returns the link of the first item that moves a page to the place.
fn first_link(
    kernel: &Kernel,
    letter: &Letter<'_>,
    number: usize,
    place: Place,
) -> Option<ChainLink>
    ensures { MatchOption result
        (¬ (AnyWrites kernel.now.size kernel.now.mappings letter.now.«from» letter.now.to
        letter.now.items.now letter.now.window place))
        (λ l. AnyCarries kernel.now.size kernel.now.mappings letter.now.«from» letter.now.to
        letter.now.items.now letter.now.window l × (l.target ≡ place) × (l.entry ≡ number)) }
{
    for item in letter.items {
        if let Some(link) = link_by(kernel, letter, number, item, place) {
            return Some(link);
        }
    }
    None
}

/// Returns the link of the step to the place, if its message has an item that moves a page there.
pub fn link_to(kernel: &Kernel, number: usize, step: &Step, place: Place) -> Option<ChainLink>
    ensures { MatchOption result (¬ (IsWritten kernel.now step.now place))
        (λ l. IsCarried kernel.now step.now l × (l.target ≡ place) × (l.entry ≡ number)) }
{
    let Some(letter) = letter_of(kernel, step) else {
        return None;
    };
    first_link(kernel, &letter, number, place)
}
