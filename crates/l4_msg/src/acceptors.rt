ghost use Rattle.std.specs.Prelude.{◌≡◌, IfOk, IfErr, IsErr, ◌↔◌};

use crate::messages::MsgFault;
use l4_fpage::Fpage;

/// The word that states where a receiver accepts pages (L4 X.2 manual, IPC: acceptor).
#[derive(Clone, Copy, PartialEq, Eq, Debug)]
pub struct Acceptor;

impl Acceptor {
    ghost use Rattle.l4_msg.specs.Words.{WindowReads, IsBadWindow};
    ghost use Rattle.l4_fpage.specs.declared.fpages.Fpage.{Fpage as AnFpage};

    /// Reads the receive window that an acceptor word names. Bits 31 to 4 are read as an fpage without rights, and
    /// the low four bits are ignored (this profile's own). 0 is the nil window, and 0x10 is the complete one.
    ///
    /// Returns `BadWindow` if these bits are not a valid fpage.
    pub fn read(word: u32) -> Result<Fpage, MsgFault>
        ensures ok { IfOk result (WindowReads word) }
        ensures err { IfErr result (λ fault. fault ≡ MsgFault.BadWindow) }
        ensures bad { IsErr result ↔ IsBadWindow word }
        ensures only { (window : AnFpage) → WindowReads word window → result ≡ Ok window }
    {
        match Fpage::read(word >> 4 << 4) {
            Ok(window) => Ok(window),
            Err(_) => Err(MsgFault::BadWindow),
        }
    }
}
