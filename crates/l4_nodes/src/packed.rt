//! A slot in 36 bytes, or 40 with the slab's own word. A number of eight bytes is stored as two halves, because eight bytes at once would
//! have to be aligned to eight bytes. A page takes 22 bits. The other ten bits of its four bytes have what else is small: three bits for
//! the rights, three for flags, and four for the rights of an item. The records of walks are stored elsewhere.

ghost use Rattle.std.specs.Prelude.{◌≡◌, ◌<◌, ℕ, false, Some, None, IfSome, if◌then◌else◌};
ghost use Rattle.std.specs.Option.{option_map};
ghost use Rattle.l4_spaces.specs.Tables.{IsPage};
ghost use Rattle.l4_spaces.specs.Keys.{IsKey};
ghost use Rattle.l4_nodes.specs.Inside.Packed.{rights_shown, notes_shown, no_note, slot_shown, with_node, Turns};
ghost use Rattle.l4_nodes.specs.Slots.{unnoted};
ghost use Rattle.l4_nodes.specs.declared.nodes.Slot.{Slot as ASlot};
ghost use Rattle.l4_nodes.specs.declared.nodes.Node.{Node as ANode};
ghost use Rattle.l4_nodes.specs.declared.slots.Note.{Note as ANote};

use crate::Place;
use crate::nodes::{Node, Slot};
use crate::slots::Note;
use l4_fpage::Rights;
use l4_spaces::Link;
use std::marker::Model;
use std::mem::size_of;

/// The number of values of four bytes.
const HALF: u64 = 1 << 32;

/// A number of eight bytes.
#[derive(Clone, Drop)]
struct Halves {
    low: u32,
    high: u32,
}

impl Model for Halves {
    ghost use Rattle.std.specs.Prelude.{ℕ};
    ghost use Rattle.std.specs.Coded.{coded_ℕ};

    ghost Value = { ℕ };

    ghost coded = { coded_ℕ };

    ghost use Rattle.l4_nodes.specs.Inside.Packed.{number_shown};

    ghost view = { number_shown };
}

impl Halves {
    /// Returns the number in halves.
    #[inline]
    fn of(number: u64) -> Halves
        ensures { result ≡ number }
    {
        Halves {
            low: (number % HALF) as u32,
            high: (number / HALF) as u32,
        }
    }

    /// Returns the number.
    #[inline]
    fn number(&self) -> u64
        ensures { result ≡ self.now }
    {
        self.high as u64 * HALF + self.low as u64
    }
}

/// The factors of the parts above the page in a word: the rights, the flags, and the rights of an item. Each is the number of values of all
/// lower parts.
const RIGHTS_PLACE: u32 = 1 << 22;

const NOTES_PLACE: u32 = 1 << 25;

const GRANTED_PLACE: u32 = 1 << 28;

/// The small numbers of a slot: its page, and the digits of its rights, of its flags, and of the rights of an item.
#[derive(Clone, Copy)]
struct Parts {
    page: u32,
    rights: u8,
    notes: u8,
    granted: u8,
}

/// These numbers in four bytes.
#[derive(Clone, Drop)]
struct Word {
    bits: u32,
}

impl Model for Word {
    ghost use Rattle.l4_nodes.specs.declared.packed.Parts.{Parts};

    ghost Value = { Parts };

    ghost use Rattle.l4_nodes.specs.Inside.Packed.{parts_shown};

    ghost view = { parts_shown };
}

impl Word {
    /// Returns the word of these numbers.
    #[inline]
    fn of(parts: Parts) -> Word
        requires page { IsPage parts.page }
        requires rights { parts.rights < 8 }
        requires notes { parts.notes < 8 }
        requires granted { parts.granted < 16 }
        ensures { result ≡ parts }
    {
        let above = parts.rights as u32 * RIGHTS_PLACE
            + parts.notes as u32 * NOTES_PLACE
            + parts.granted as u32 * GRANTED_PLACE;
        Word {
            bits: above + parts.page,
        }
    }

    /// Returns the page.
    #[inline]
    fn page(&self) -> u32
        ensures same { result ≡ self.now.page }
        ensures fits { IsPage result }
    {
        self.bits % RIGHTS_PLACE
    }

    /// Returns the digit of the rights.
    #[inline]
    fn rights(&self) -> u8
        ensures same { result ≡ self.now.rights }
        ensures small { result < 8 }
    {
        (self.bits / RIGHTS_PLACE % 8) as u8
    }

    /// Returns the digit of the flags.
    #[inline]
    fn notes(&self) -> u8
        ensures same { result ≡ self.now.notes }
        ensures small { result < 8 }
    {
        (self.bits / NOTES_PLACE % 8) as u8
    }

    /// Returns the digit of the rights of an item.
    #[inline]
    fn granted(&self) -> u8
        ensures same { result ≡ self.now.granted }
        ensures small { result < 16 }
    {
        (self.bits / GRANTED_PLACE) as u8
    }

    /// Returns all numbers.
    #[inline]
    fn parts(&self) -> Parts
        ensures same { result ≡ self.now }
        ensures page { IsPage result.page }
        ensures rights { result.rights < 8 }
        ensures notes { result.notes < 8 }
        ensures granted { result.granted < 16 }
    {
        Parts {
            page: self.page(),
            rights: self.rights(),
            notes: self.notes(),
            granted: self.granted(),
        }
    }

    /// Sets the page.
    #[inline]
    fn set_page(&mut self, page: u32)
        requires { IsPage page }
        ensures { self.new ≡ record self.old { page = page } }
    {
        self.bits = self.bits / RIGHTS_PLACE * RIGHTS_PLACE + page;
    }

    /// Sets the digit of the rights.
    #[inline]
    fn set_rights(&mut self, rights: u8)
        requires { rights < 8 }
        ensures { self.new ≡ record self.old { rights = rights } }
    {
        let mut parts = self.parts();
        parts.rights = rights;
        *self = Word::of(parts);
    }

    /// Sets the digit of the flags.
    #[inline]
    fn set_notes(&mut self, notes: u8)
        requires { notes < 8 }
        ensures { self.new ≡ record self.old { notes = notes } }
    {
        let mut parts = self.parts();
        parts.notes = notes;
        *self = Word::of(parts);
    }

    /// Sets the digit of the rights of an item.
    #[inline]
    fn set_granted(&mut self, granted: u8)
        requires { granted < 16 }
        ensures { self.new ≡ record self.old { granted = granted } }
    {
        let mut parts = self.parts();
        parts.granted = granted;
        *self = Word::of(parts);
    }
}

/// The digit that represents no item. The digits of rights are below it.
const NO_ITEM: u8 = 8;

/// Returns the digit of the rights of an item, or of no item.
#[inline]
fn granted_digit(granted: Option<Rights>) -> u8
    ensures small { result < 16 }
    ensures same { rights_shown result ≡ granted }
{
    let Some(rights) = granted else {
        return NO_ITEM;
    };
    rights.bits()
}

/// Returns the rights of an item that the digit represents, if it represents any.
#[inline]
fn granted_of(digit: u8) -> Option<Rights>
    ensures { result ≡ rights_shown digit }
{
    if digit == NO_ITEM {
        return None;
    }
    Some(Rights::of_bits(digit))
}

/// The flags of a slot's page and of its node.
#[derive(Clone, Copy)]
struct Notes {
    /// Whether a message fills the page.
    wanted: bool,
    /// Whether a message moves the page.
    source: bool,
    /// Whether the last walk that visited the node has also visited all its descendants.
    closed: bool,
}

impl Notes {
    /// Returns the digit of these flags.
    #[inline]
    fn digit(self) -> u8
        ensures small { result < 8 }
        ensures same { notes_shown result ≡ self }
    {
        u8::from(self.wanted) + 2 * u8::from(self.source) + 4 * u8::from(self.closed)
    }

    /// Returns the flags that the digit represents.
    #[inline]
    fn of(digit: u8) -> Notes
        ensures { result ≡ notes_shown digit }
    {
        Notes {
            wanted: digit % 2 == 1,
            source: digit / 2 % 2 == 1,
            closed: digit / 4 % 2 == 1,
        }
    }
}

/// A slot without the record of walks for its key.
#[derive(Clone, Drop)]
pub(crate) struct Packed {
    space: Halves,
    /// The page, the rights, the flags, and the rights of the item that granted it.
    word: Word,
    frame: u32,
    /// None in a blank. What else there is of a node means nothing then.
    depth: Link,
    parent: Link,
    prev: Link,
    next: Link,
    doomed: Link,
}

const _: () = prove!(size_of::<Packed>() == 36);

impl Packed {
    /// Returns a blank of the page.
    #[inline]
    pub(crate) fn blank(place: Place) -> Packed
        requires { IsPage place.page }
        ensures { slot_shown result no_note
            ≡ record { place = place; wanted = false; node = None } }
    {
        Packed {
            space: Halves::of(place.space),
            word: Word::of(Parts {
                page: place.page,
                rights: 0,
                notes: 0,
                granted: NO_ITEM,
            }),
            frame: 0,
            depth: Link::none(),
            parent: Link::none(),
            prev: Link::none(),
            next: Link::none(),
            doomed: Link::none(),
        }
    }

    /// Returns a slot of the page with this node, without any record of a walk.
    #[inline]
    pub(crate) fn of(place: Place, node: Node) -> Packed
        requires fits { IsPage place.page }
        requires depth { IsKey node.depth }
        ensures { slot_shown result no_note
            ≡ record { place = place; wanted = false; node = Some (unnoted node) } }
    {
        let notes = Notes {
            wanted: false,
            source: node.source,
            closed: false,
        };
        Packed {
            space: Halves::of(place.space),
            word: Word::of(Parts {
                page: place.page,
                rights: node.rights.bits(),
                notes: notes.digit(),
                granted: granted_digit(node.granted),
            }),
            frame: node.frame,
            depth: Link::to(node.depth),
            parent: node.parent,
            prev: node.prev,
            next: node.next,
            doomed: node.doomed,
        }
    }

    /// Returns the content of the slot, with the record of walks for its key.
    #[inline]
    pub(crate) fn slot(&self, note: Note) -> Slot
        ensures { result ≡ slot_shown self.now note }
    {
        Slot {
            place: Place {
                space: self.space.number(),
                page: self.word.page(),
            },
            wanted: Notes::of(self.word.notes()).wanted,
            node: self.node(note),
        }
    }

    /// Returns the node, with the record of walks for its key, or None for a blank.
    #[inline]
    fn node(&self, note: Note) -> Option<Node>
        ensures { result ≡ (slot_shown self.now note).node }
    {
        let Some(depth) = self.depth.key() else {
            return None;
        };
        let notes = Notes::of(self.word.notes());
        Some(Node {
            frame: self.frame,
            rights: Rights::of_bits(self.word.rights()),
            source: notes.source,
            granted: granted_of(self.word.granted()),
            depth,
            seen: note.stamp,
            mark: if notes.closed { note.stamp } else { 0 },
            end: note.end,
            parent: self.parent,
            prev: self.prev,
            next: self.next,
            doomed: self.doomed,
        })
    }

    /// Puts this node into the slot, without any record of a walk.
    #[inline]
    pub(crate) fn put(&mut self, node: Node)
        requires { IsKey node.depth }
        ensures { (note : ANote) → note ≡ no_note → slot_shown self.new note
            ≡ record (slot_shown self.old note) { node = Some (unnoted node) } }
    {
        let notes = Notes {
            wanted: Notes::of(self.word.notes()).wanted,
            source: node.source,
            closed: false,
        };
        self.word = Word::of(Parts {
            page: self.word.page(),
            rights: node.rights.bits(),
            notes: notes.digit(),
            granted: granted_digit(node.granted),
        });
        self.frame = node.frame;
        self.depth = Link::to(node.depth);
        self.parent = node.parent;
        self.prev = node.prev;
        self.next = node.next;
        self.doomed = node.doomed;
    }

    /// Makes the slot a blank.
    #[inline]
    pub(crate) fn empty(&mut self)
        ensures { Turns (λ (s : ASlot). record s { node = None }) self.old self.new }
    {
        self.depth = Link::none();
    }

    /// Notes whether a message fills the page.
    #[inline]
    pub(crate) fn set_wanted(&mut self, wanted: bool)
        ensures { Turns (λ (s : ASlot). record s { wanted = wanted }) self.old self.new }
    {
        let mut notes = Notes::of(self.word.notes());
        notes.wanted = wanted;
        self.word.set_notes(notes.digit());
    }

    /// Gives the slot this page.
    #[inline]
    pub(crate) fn set_place(&mut self, place: Place)
        requires { IsPage place.page }
        ensures { Turns (λ (s : ASlot). record s { place = place }) self.old self.new }
    {
        self.space = Halves::of(place.space);
        self.word.set_page(place.page);
    }

    /// Gives the slot this page, and records that an item with these rights grants it.
    #[inline]
    pub(crate) fn give(&mut self, place: Place, rights: Rights)
        requires { IsPage place.page }
        ensures { Turns
            (λ (s : ASlot). record s {
              place = place;
              node = option_map (λ (n : ANode). record n { granted = Some rights })
                  s.node;
            }) self.old self.new }
    {
        self.space = Halves::of(place.space);
        self.word.set_page(place.page);
        self.word.set_granted(granted_digit(Some(rights)));
    }

    /// Sets the next key of a node.
    #[inline]
    pub(crate) fn set_next(&mut self, next: Link)
        ensures { Turns (with_node (λ (n : ANode). record n { next = next })) self.old self.new }
    {
        self.next = next;
    }

    /// Sets the previous key of a node.
    #[inline]
    pub(crate) fn set_prev(&mut self, prev: Link)
        ensures { Turns (with_node (λ (n : ANode). record n { prev = prev })) self.old self.new }
    {
        self.prev = prev;
    }

    /// Sets the rights of a node, and the key after it on the stack of nodes without rights.
    #[inline]
    pub(crate) fn set_rights(&mut self, rights: Rights, doomed: Link)
        ensures { Turns (with_node (λ (n : ANode). record n { rights = rights; doomed = doomed }))
            self.old self.new }
    {
        self.word.set_rights(rights.bits());
        self.doomed = doomed;
    }

    /// Records whether the last walk that visited the node has also visited all its descendants.
    #[inline]
    pub(crate) fn set_closed(&mut self, closed: bool)
        ensures { (note : ANote) → slot_shown self.new note
            ≡ with_node (λ (n : ANode). record n { mark = if closed then note.stamp else 0 })
            (slot_shown self.old note) }
    {
        let mut notes = Notes::of(self.word.notes());
        notes.closed = closed;
        self.word.set_notes(notes.digit());
    }

    /// Marks a node as a source, or takes the mark away.
    #[inline]
    pub(crate) fn set_source(&mut self, source: bool)
        ensures { Turns (with_node (λ (n : ANode). record n { source = source })) self.old
            self.new }
    {
        let mut notes = Notes::of(self.word.notes());
        notes.source = source;
        self.word.set_notes(notes.digit());
    }

    /// Takes the marks of a source and of a grant from a node.
    #[inline]
    pub(crate) fn set_plain(&mut self)
        ensures { Turns (with_node (λ (n : ANode). record n { source = false; granted = None }))
            self.old self.new }
    {
        self.set_source(false);
        self.word.set_granted(NO_ITEM);
    }
}
