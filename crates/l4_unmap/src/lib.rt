//! Unmap: reads its registers, and takes the rights that they name (L4 X.2 manual, Unmap).
#![tactic(auto)]

ghost use Rattle.std.specs.Prelude.{◌≡◌, ◌<◌, ◌≤◌, ◌∷◌, [], List, length, IsTrue, IsOk, OnOk, OnErr, IfErr};
ghost use Rattle.l4_mapdb.specs.Mappings.{IsForest};
ghost use Rattle.l4_fpage.specs.Fpages.{ReadsAs};
ghost use Rattle.l4_unmap.specs.Unmap.{fpage_count, with_own, UnmapReads, UnmapFails, Unmaps};

use l4_forest::Forest;
use l4_fpage::{Fpage, PageSize};

/// The reason why an Unmap is refused.
#[derive(Clone, Copy, Debug, PartialEq, Eq)]
pub enum UnmapFault {
    /// U1: the message register with this number is the first that is not a valid fpage.
    BadFpage(u32),
    /// U2: there are fewer message registers than the control word counts.
    TooFew,
}

/// Executes an Unmap by a thread of the space, with pages of this size (L4 X.2 manual, Unmap). Bits 5 to 0 of the
/// control word are k: registers 0 to k hold fpages, and further ones are ignored. Everything that descends from an
/// fpage's pages in the space loses the rights that the fpage names; if bit 6 of the control word (f) is set, so do
/// these pages. A place without rights is removed.
///
/// Errors, in this order: `TooFew` if there are fewer than k + 1 registers; `BadFpage` with the first register that
/// is not a valid fpage. After either error, every mapping is as before. Needs no memory.
///
pub fn unmap(
    forest: &mut Forest,
    space: u64,
    size: PageSize,
    control: u32,
    words: &[u32],
) -> Result<(), UnmapFault>
    ensures ok { OnOk result
        ((fpages : List Fpage) × UnmapReads control words.now fpages
        × Unmaps size space (with_own control) fpages forest.old forest.new) }
    ensures err { OnErr result (forest.new ≡ forest.old) }
    ensures fault { IfErr result (UnmapFails control words.now) }
    ensures only { (fpages : List Fpage) → UnmapReads control words.now fpages → IsOk result }
    ensures refused { (fault : UnmapFault) → UnmapFails control words.now fault → result
        ≡ Err fault }
{
    match test_words(control, words) {
        Ok(()) => {
            forest.law_forest();
            unmap_words(forest, space, size, control, words);
            Ok(())
        }
        Err(fault) => Err(fault),
    }
}

/// Returns the number of registers that hold fpages.
fn register_count(control: u32) -> usize
    ensures { result ≡ fpage_count control }
{
    (control & 0x3f) as usize + 1
}

/// Returns whether the caller's own pages lose the rights too.
fn means_own(control: u32) -> bool
    ensures { result ≡ with_own control }
{
    control >> 6 & 1 == 1
}

/// Why the registers are refused, if they are.
fn test_words(control: u32, words: &[u32]) -> Result<(), UnmapFault>
    ensures ok { OnOk result ((fpages : List Fpage) × UnmapReads control words.now fpages) }
    ensures fault { IfErr result (UnmapFails control words.now) }
{
    let count = register_count(control);
    if words.len() < count {
        return Err(UnmapFault::TooFew);
    }
    for i in 0..count {
        match Fpage::read(words[i]) {
            Ok(_) => {}
            Err(_) => return Err(UnmapFault::BadFpage(i as u32)),
        }
    }
    Ok(())
}

/// Takes away what the registers' fpages name.
fn unmap_words(forest: &mut Forest, space: u64, size: PageSize, control: u32, words: &[u32])
    requires forest { IsForest forest.old }
    requires read { (fpages : List Fpage) × UnmapReads control words.now fpages }
    ensures { (fpages : List Fpage) → UnmapReads control words.now fpages
        → Unmaps size space (with_own control) fpages forest.old forest.new }
{
    let own = means_own(control);
    for i in 0..register_count(control) {
        unmap_word(forest, space, size, own, words[i]);
    }
}

/// Takes away what the fpage of the word names.
fn unmap_word(forest: &mut Forest, space: u64, size: PageSize, own: bool, word: u32)
    requires { IsForest forest.old }
    ensures { (fpage : Fpage) → ReadsAs word fpage
        → Unmaps size space own (fpage ∷ []) forest.old forest.new }
{
    let Ok(fpage) = Fpage::read(word) else {
        return;
    };
    if let Some(block) = fpage.pages(size) {
        forest.revoke_block(space, block, fpage.rights(), own);
    }
}
