//! The lines of a chain of moves.
ghost use Rattle.std.specs.Prelude.{◌≡◌, ◌≤◌, ◌+◌, ◌++◌, length, slice_get};
ghost use Rattle.l4_record.specs.Chains.{origin_of};
ghost use Rattle.l4_text.specs.Streams.{Tells};
ghost use Rattle.l4_text.specs.Sizes.{text_bytes};
ghost use Rattle.l4_history.specs.Chains.{sigma0_line, step_parties, entry_parties, kind_text, moved_text, link_line, link_lines, chain_text};

use l4_answers::{add_rights, put_page};
use l4_ipc::{Mapping, Place, Step};
use l4_provenance::{ChainLink, Replayable};
use l4_record::Entry;
use l4_text::{Output, Text};
use std::io::Write;

/// Returns the page of sigma0 at which the chain begins.
fn first_page(links: &[ChainLink], place: Place) -> u32
    ensures { result ≡ (origin_of links.now place).page }
{
    match links {
        [] => place.page,
        [link, ..] => link.source.page,
    }
}

/// `sigma0 page P`
#[tactic(auto, unfolding(crate::specs::Chains::sigma0_line))]
fn sigma0_text(links: &[ChainLink], place: Place) -> Text
    ensures { result ≡ sigma0_line links.now place }
{
    let mut text = Text::new();
    text.add(b"sigma0 page ");
    text.add_number(u64::from(first_page(links, place)));
    text.push(b'\n');
    text
}

/// Adds ` transfer S R` of a transfer.
#[tactic(auto, unfolding(crate::specs::Chains::step_parties))]
fn add_step(text: &mut Text, step: &Step)
    requires { length text.old + 60 ≤ text_bytes }
    ensures value { text.new ≡ text.old ++ step_parties step.now }
    ensures len { length text.new ≤ length text.old + 60 }
{
    match step {
        Step::Transfer(sender, receiver) => {
            text.add(b" transfer ");
            text.add_number(u64::from(*sender));
            text.push(b' ');
            text.add_number(u64::from(*receiver));
        }
        Step::Start(_, _) => text.add(b" start"),
        Step::Expire(_) => text.add(b" expire"),
        Step::Cancel(_, _) => text.add(b" cancel"),
    }
}

/// Adds the sender and the receiver of an entry.
#[tactic(auto, unfolding(crate::specs::Chains::entry_parties))]
fn add_entry(text: &mut Text, entry: Option<Entry>)
    requires { length text.old + 60 ≤ text_bytes }
    ensures value { text.new ≡ text.old ++ entry_parties entry }
    ensures len { length text.new ≤ length text.old + 60 }
{
    match entry {
        Some(entry) => add_step(text, &entry.step),
        None => text.add(b" none"),
    }
}

/// Adds ` grant ` or ` map `.
#[tactic(auto, unfolding(crate::specs::Chains::kind_text))]
fn add_kind(text: &mut Text, grant: bool)
    requires { length text.old + 8 ≤ text_bytes }
    ensures value { text.new ≡ text.old ++ kind_text grant }
    ensures len { length text.new ≤ length text.old + 8 }
{
    if grant {
        text.add(b" grant ");
    } else {
        text.add(b" map ");
    }
}

/// Adds ` map SOURCE TARGET RIGHTS RIGHTS`, or `grant` in its place, and ends the line.
#[tactic(auto, unfolding(crate::specs::Chains::moved_text))]
fn add_moved(text: &mut Text, link: &ChainLink)
    requires { length text.old + 58 ≤ text_bytes }
    ensures { text.new ≡ text.old ++ moved_text link.now }
{
    add_kind(text, link.grant);
    text.add_number(u64::from(link.source.page));
    text.push(b' ');
    text.add_number(u64::from(link.target.page));
    text.push(b' ');
    add_rights(text, link.source_rights);
    text.push(b' ');
    add_rights(text, link.item_rights);
    text.push(b'\n');
}

/// `entry E transfer S R map SOURCE TARGET RIGHTS RIGHTS`, or `grant` in the place of `map`
#[tactic(auto, unfolding(crate::specs::Chains::link_line))]
fn link_text<H: Replayable>(history: &H, link: &ChainLink) -> Text
    ensures { result ≡ link_line (H.entries history.now) link.now }
{
    let mut text = Text::new();
    text.add(b"entry ");
    text.add_number(link.entry as u64);
    add_entry(&mut text, history.get(link.entry));
    add_moved(&mut text, link);
    text
}

/// Writes the links in their order.
fn put_links<H: Replayable, W: Write>(
    history: &H,
    links: &[ChainLink],
    out: &mut Output,
    writer: &mut W,
)
    ensures { Tells (W.contents writer.old) (W.contents writer.new) out.old out.new
        (link_lines (H.entries history.now) links.now) }
{
    for link in links {
        out.put(writer, &link_text(history, link));
    }
}

/// Writes the chain of links to a place, and the mapping of the place.
pub(crate) fn put_chain<H: Replayable, W: Write>(
    history: &H,
    links: &[ChainLink],
    place: Place,
    shows: &Mapping,
    out: &mut Output,
    writer: &mut W,
)
    ensures { Tells (W.contents writer.old) (W.contents writer.new) out.old out.new
        (chain_text (H.entries history.now) links.now place shows.now) }
{
    out.put(writer, &sigma0_text(links, place));
    put_links(history, links, out, writer);
    put_page(place.page, shows, out, writer);
}
