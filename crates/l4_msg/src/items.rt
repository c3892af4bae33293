ghost use Rattle.std.specs.Prelude.{◌≡◌, ℕ, ◌+◌, ◌*◌, ◌/◌, ◌%◌, ◌^◌, ◌<◌, ◌≤◌, ◌↔◌, IsTrue, if◌then◌else◌, IfOk, IfErr};

use l4_fpage::{Block, Fpage, Rights};

/// An item of a message: the pages of an fpage, which are shared (map) or given away (grant). The send base, in
/// bytes, states where they land in a larger receive window (L4 X.2 manual, IPC: map item, grant item).
#[derive(Clone, Copy, PartialEq, Eq, Debug)]
pub enum Item {
    Map { base: u32, fpage: Fpage },
    Grant { base: u32, fpage: Fpage },
}

/// The reason why two words are not a valid item.
#[derive(Clone, Copy, PartialEq, Eq, Debug)]
pub enum ItemFault {
    /// A string or CtrlXfer item, which this profile does not support.
    Unsupported,
    /// An unknown kind, or a map or grant item whose second word is not a valid fpage.
    Bad,
}

impl Default for Item {
    ghost use Rattle.l4_msg.specs.declared.items.Item.TheVariants.{Map as AMap};
    ghost use Rattle.l4_fpage.specs.declared.fpages.Fpage.TheVariants.{Nil};

    ghost is_default = { λ item. item ≡ AMap 0 Nil };

    /// Returns a map item that moves no page.
    fn default() -> Item {
        Item::Map {
            base: 0,
            fpage: Fpage::Nil,
        }
    }
}

impl Item {
    ghost use Rattle.l4_msg.specs.Moves.{base_of, fpage_of, is_grant};
    ghost use Rattle.l4_msg.specs.Sizes.{base_unit};
    ghost use Rattle.l4_msg.specs.Words.{ItemReads, ItemFails, item_words};
    ghost use Rattle.l4_msg.specs.declared.items.Item.{Item as AnItem};
    ghost use Rattle.l4_msg.specs.declared.items.ItemFault.{ItemFault as AnItemFault};

    /// Returns the send base, in bytes.
    pub fn base(&self) -> u32
        ensures { result ≡ base_of self.now }
    {
        match self {
            Item::Map { base, .. } => *base,
            Item::Grant { base, .. } => *base,
        }
    }

    /// Returns the send fpage, with the rights that the item names.
    pub fn fpage(&self) -> Fpage
        ensures { result ≡ fpage_of self.now }
    {
        match self {
            Item::Map { fpage, .. } => *fpage,
            Item::Grant { fpage, .. } => *fpage,
        }
    }

    /// Returns whether the item gives its pages away.
    pub fn is_grant(&self) -> bool
        ensures { result ≡ is_grant self.now }
    {
        match self {
            Item::Map { .. } => false,
            Item::Grant { .. } => true,
        }
    }

    /// Reads the item in two words. In the first word, bits 9 to 4 and the lowest bit (which states whether another
    /// item follows) are ignored (this profile's own).
    ///
    /// Returns `Unsupported` for a string or CtrlXfer item, and `Bad` for kind 7 or a second word that is not a valid
    /// fpage.
    #[inline(always)]
    pub fn read(first: u32, second: u32) -> Result<Item, ItemFault>
        ensures ok { IfOk result (ItemReads first second) }
        ensures err { IfErr result (ItemFails first second) }
        ensures only { (item : AnItem) → ItemReads first second item → result ≡ Ok item }
        ensures refused { (fault : AnItemFault) → ItemFails first second fault → result
            ≡ Err fault }
    {
        let base = first >> 10 << 10;
        match first >> 1 & 7 {
            4 => match Fpage::read(second) {
                Ok(fpage) => Ok(Item::Map { base, fpage }),
                Err(_) => Err(ItemFault::Bad),
            },
            5 => match Fpage::read(second) {
                Ok(fpage) => Ok(Item::Grant { base, fpage }),
                Err(_) => Err(ItemFault::Bad),
            },
            7 => Err(ItemFault::Bad),
            _ => Err(ItemFault::Unsupported),
        }
    }

    /// Returns the two words of the item; `more`, its lowest bit, says that another item follows. The send base is a multiple of 1,024
    /// bytes.
    pub(crate) fn words(&self, more: bool) -> (u32, u32)
        requires { base_of self.now % base_unit ≡ 0 }
        ensures value { result ≡ item_words self.now more }
        ensures reads { ItemReads result.0 result.1 self.now }
    {
        let kind = match self {
            Item::Map { .. } => 8,
            Item::Grant { .. } => 10,
        };
        (self.base() + kind + u32::from(more), self.fpage().word())
    }
}

/// A move of the pages of one block to the pages of another block of the same size, in order.
#[derive(Clone, Copy, PartialEq, Eq, Debug)]
pub struct Move {
    pub source: Block,
    pub target: Block,
    pub ghost same_size: { source.log ≡ target.log },
}

/// The move of one item of a message.
#[derive(Clone, Copy, Debug, PartialEq, Eq)]
pub struct ItemMove {
    /// The pages of the sender and those of the receiver.
    pub mv: Move,
    /// The rights that the item names.
    pub rights: Rights,
    /// Whether the item grants its pages instead of mapping them.
    pub grant: bool,
}

impl Default for ItemMove {
    ghost use Rattle.std.specs.Prelude.{◌≡◌, false};
    ghost use Rattle.l4_fpage.specs.Rights.{no_rights};

    ghost is_default = { λ item. (item.rights ≡ no_rights) × (item.grant ≡ false) };

    /// Returns a map item without a right, of which no move is ever used.
    fn default() -> ItemMove {
        let page = Block { first: 0, log: 0 };
        let mv = Move {
            source: page,
            target: page,
        };
        ItemMove {
            mv,
            rights: Rights::of_bits(0),
            grant: false,
        }
    }
}
