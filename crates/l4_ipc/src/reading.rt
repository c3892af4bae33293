//! Reads the words of an Ipc, and refuses them.
ghost use Rattle.std.specs.Prelude.{◌≡◌, ◌==◌, ◌≤◌, true, length, IfOk, IfErr, IsOk};
ghost use Rattle.l4_msg.specs.Messages.{IsWhole, tag_of};
ghost use Rattle.l4_msg.specs.Sizes.{max_words};
ghost use Rattle.l4_msg.specs.Tags.{TagReads};
ghost use Rattle.l4_ipc.specs.Start.{is_timeout};

use crate::calls::IpcCall;
use crate::constructors::ZERO_TIMEOUT;
use l4_fpage::Fpage;
use l4_msg::{Acceptor, MsgFault, Tag};
use l4_threads::Later;

/// Returns whether a timeout is never or zero.
fn is_timeout(timeout: u32) -> bool
    ensures { result ≡ is_timeout timeout }
{
    timeout == 0 || timeout == ZERO_TIMEOUT
}

impl IpcCall {
    ghost use Rattle.l4_ipc.specs.Start.{has_send, has_receive, send_timeout, receive_timeout, has_bad_timeout, counted_words, later_of, IsWindow};
    ghost use Rattle.l4_msg.specs.Words.{IsBadWindow};
    ghost use Rattle.l4_fpage.specs.declared.fpages.Fpage.{Fpage as AnFpage};

    /// Returns whether there is a send phase.
    pub(crate) fn has_send(&self) -> bool
        ensures { result ≡ has_send self.now }
    {
        self.to.0 != 0
    }

    /// Returns whether there is a receive phase.
    pub(crate) fn has_receive(&self) -> bool
        ensures { result ≡ has_receive self.now }
    {
        self.from.0 != 0
    }

    /// Returns the send timeout.
    fn send_timeout(&self) -> u32
        ensures { result ≡ send_timeout self.now }
    {
        self.timeouts >> 16
    }

    /// Returns the receive timeout.
    fn receive_timeout(&self) -> u32
        ensures { result ≡ receive_timeout self.now }
    {
        self.timeouts & 0xffff
    }

    /// Returns whether the send timeout is zero.
    pub(crate) fn sends_at_once(&self) -> bool
        ensures { result ≡ (send_timeout self.now == 0x400) }
    {
        self.send_timeout() == ZERO_TIMEOUT
    }

    /// Returns whether the timeout of a phase that the call has is neither never nor zero.
    pub(crate) fn has_bad_timeout(&self) -> bool
        ensures { result ≡ has_bad_timeout self.now }
    {
        (self.has_send() && !is_timeout(self.send_timeout()))
            || (self.has_receive() && !is_timeout(self.receive_timeout()))
    }

    /// Returns the registers of the message at the beginning of the words.
    pub(crate) fn counted_words(&self, tag: &Tag) -> &[u32]
        requires whole { IsWhole self.now.words.items }
        requires tag { TagReads (tag_of self.now.words.items) tag.now }
        ensures value { result.now ≡ counted_words self.now.words.items }
        ensures fits { length result.now ≤ max_words }
    {
        let words = self.words.as_slice();
        &words[..1 + usize::from(tag.untyped) + usize::from(tag.typed)]
    }

    /// Returns the receive window, which is nil without a receive phase.
    pub(crate) fn window(&self) -> Result<Fpage, MsgFault>
        ensures ok { IfOk result (IsWindow (has_receive self.now) self.now.acceptor) }
        ensures err { IfErr result
            (λ fault. (has_receive self.now ≡ true) × IsBadWindow self.now.acceptor
            × (fault ≡ MsgFault.BadWindow)) }
        ensures only { (window : AnFpage) → IsWindow (has_receive self.now) self.now.acceptor window
            → IsOk result }
    {
        if !self.has_receive() {
            return Ok(Fpage::Nil);
        }
        Acceptor::read(self.acceptor)
    }

    /// Returns the receive phase that is still to begin.
    pub(crate) fn later(&self, window: Fpage) -> Option<Later>
        ensures { result ≡ later_of self.now window }
    {
        if !self.has_receive() {
            return None;
        }
        Some(Later {
            from: self.from,
            window,
            expires: self.receive_timeout() == ZERO_TIMEOUT,
        })
    }
}
