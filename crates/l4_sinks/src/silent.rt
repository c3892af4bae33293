//! A sink that writes nothing.
ghost use Rattle.std.specs.Prelude.{◌≡◌, None, Some, is_some, if◌then◌else◌};
ghost use Rattle.l4_sinks.specs.Inside.Silents.{HasHeard, is_stopped};
ghost use Rattle.l4_sinks.specs.Texts.{is_lack};
ghost use Rattle.l4_sinks.specs.Words.{line_refusal_says, unread_says};

use crate::reasons::{LineRefusal, is_lack, refusal_reason, unread_reason};
use l4_answers::{Code, Sink};
use l4_fpage::PageSize;
use l4_ipc::{CancelCause, Outcome};
use l4_mapdb::Mapping;
use l4_names::Names;
use l4_text::{LineReader, RunFault};
use l4_threads::Reply;

/// Ignores all answers, for a script of which the history alone is needed. A strict one takes no answer after the first refused line, and
/// keeps why that line is refused.
#[derive(Drop)]
pub(crate) struct Silent {
    strict: bool,
    refused: Option<LineRefusal>,
}

impl Silent {
    /// Returns a sink to which nothing was reported.
    pub(crate) fn new(strict: bool) -> Silent
        ensures strict { result.strict ≡ strict }
        ensures refused { result.refused ≡ None }
    {
        Silent {
            strict,
            refused: None,
        }
    }

    /// Returns why the line was refused that ended a strict run.
    pub(crate) fn into_refused(self) -> Option<LineRefusal>
        ensures { result ≡ self.refused }
    {
        let Silent { strict: _, refused } = self;
        refused
    }

    /// Keeps why a line cannot be read. It is a function of its own, so that its reason is built only in a strict run.
    #[cold]
    #[inline(never)]
    fn keep_unread(&mut self, line: u64, code: &Code, bytes: &[u8], size: PageSize, names: &Names)
        ensures strict { self.new.strict ≡ self.old.strict }
        ensures refused { self.new.refused
            ≡ Some (record { reason = unread_says size names.now line code.now bytes.now; lacks_memory = is_lack code.now }) }
    {
        self.refused = Some(LineRefusal {
            reason: unread_reason(line, code, bytes, size, names),
            lacks_memory: is_lack(code),
        });
    }

    /// Keeps why a line is refused.
    #[cold]
    #[inline(never)]
    fn keep_refused(&mut self, line: u64, code: &Code)
        ensures strict { self.new.strict ≡ self.old.strict }
        ensures refused { self.new.refused
            ≡ Some (record { reason = line_refusal_says line code.now; lacks_memory = is_lack code.now }) }
    {
        self.refused = Some(LineRefusal {
            reason: refusal_reason(line, code),
            lacks_memory: is_lack(code),
        });
    }
}

impl Sink for Silent {
    ghost has_told = { HasHeard };

    ghost is_out = { HasHeard };

    ghost closed = { is_stopped };

    fn refused_line(&mut self, line: u64, code: &Code) {
        if self.strict {
            self.keep_refused(line, code);
        }
    }

    fn unread_line(&mut self, line: u64, code: &Code, bytes: &[u8], size: PageSize, names: &Names) {
        if self.strict {
            self.keep_unread(line, code, bytes, size, names);
        }
    }

    fn refused_act(&mut self, thread: u32, code: &Code) {}

    fn transfer(&mut self, sender: u32, receiver: u32, outcome: Outcome) {}

    fn expire(&mut self, number: u32) {}

    fn cancel(&mut self, number: u32, cause: CancelCause) {}

    fn waits(&mut self, number: u32) {}

    fn ended(&mut self, number: u32, reply: Option<&Reply>) {}

    fn none_ended(&mut self, number: u32) {}

    fn page(&mut self, page: u32, mapping: &Mapping) {}

    fn shown(&mut self, count: u32) {}

    fn parent(&mut self, mapping: Option<Mapping>) {}

    fn region_added(&mut self) {}

    fn named(&mut self, number: u32) {}

    fn steps(&mut self, count: u64) {}

    fn before_line(&mut self, lines: &LineReader) {}

    fn is_closed(&self) -> bool {
        self.refused.is_some()
    }

    fn finish(&mut self) -> Result<(), RunFault> {
        Ok(())
    }
}
