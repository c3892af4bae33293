//! A sink that notes whether a line was answered for lack of memory, or because the history is full.
ghost use Rattle.std.specs.Prelude.{◌≡◌, ℕ, false};
ghost use Rattle.l4_answers.specs.Reports.{Transferred};
ghost use Rattle.l4_orders.specs.declared.lacking.Lack.TheVariants.{Nothing};
ghost use Rattle.l4_orders.specs.Inside.Lacking.{lack_of, lack_of_code, then_lack, HasNoted};

use l4_answers::{Code, Sink};
use l4_fpage::PageSize;
use l4_ipc::{CancelCause, Outcome};
use l4_mapdb::Mapping;
use l4_names::Names;
use l4_text::{LineReader, RunFault};
use l4_threads::Reply;

/// What an answer lacked, if anything: memory, or room in the history.
#[derive(Clone, Copy, Debug, PartialEq, Eq)]
pub(crate) enum Lack {
    Nothing,
    Memory,
    History,
}

/// Ignores answers, and notes the first lack.
#[derive(Drop)]
pub(crate) struct Lacking {
    lack: Lack,
}

/// Returns what a refusal with this code lacks.
fn lack_of_code(name: &[u8]) -> Lack
    ensures { result ≡ lack_of_code name.now }
{
    if name == b"NoMemory".as_slice() {
        return Lack::Memory;
    }
    if name == b"L1".as_slice() {
        return Lack::History;
    }
    Lack::Nothing
}

/// Returns what a transfer with this outcome lacks.
fn lack_of_outcome(outcome: Outcome) -> Lack
    ensures { (sender receiver : ℕ) → result ≡ lack_of (Transferred sender receiver outcome) }
{
    match outcome {
        Outcome::NoMemory => Lack::Memory,
        _ => Lack::Nothing,
    }
}

impl Lacking {
    /// Returns a sink to which nothing was reported.
    pub(crate) fn new() -> Lacking
        ensures { result.lack ≡ Nothing }
    {
        Lacking {
            lack: Lack::Nothing,
        }
    }

    /// Returns the first lack.
    pub(crate) fn lack(&self) -> Lack
        ensures { result ≡ self.now.lack }
    {
        self.lack
    }

    /// Notes a lack, unless one was noted.
    fn note(&mut self, lack: Lack)
        ensures { self.new.lack ≡ then_lack self.old.lack lack }
    {
        if let Lack::Nothing = self.lack {
            self.lack = lack;
        }
    }
}

impl Sink for Lacking {
    ghost has_told = { HasNoted };

    ghost is_out = { HasNoted };

    ghost closed = { λ _. false };

    fn refused_line(&mut self, line: u64, code: &Code) {
        self.note(lack_of_code(code.name()));
    }

    fn unread_line(
        &mut self,
        line: u64,
        code: &Code,
        bytes: &[u8],
        size: PageSize,
        names: &Names,
    ) {}

    fn refused_act(&mut self, thread: u32, code: &Code) {
        self.note(lack_of_code(code.name()));
    }

    fn transfer(&mut self, sender: u32, receiver: u32, outcome: Outcome) {
        self.note(lack_of_outcome(outcome));
    }

    fn expire(&mut self, number: u32) {}

    fn cancel(&mut self, number: u32, cause: CancelCause) {}

    fn waits(&mut self, number: u32) {}

    fn ended(&mut self, number: u32, reply: Option<&Reply>) {}

    fn none_ended(&mut self, number: u32) {}

    fn page(&mut self, page: u32, mapping: &Mapping) {}

    fn shown(&mut self, count: u32) {}

    fn parent(&mut self, mapping: Option<Mapping>) {}

    fn region_added(&mut self) {}

    fn named(&mut self, number: u32) {}

    fn steps(&mut self, count: u64) {}

    fn before_line(&mut self, lines: &LineReader) {}

    fn is_closed(&self) -> bool {
        false
    }

    fn finish(&mut self) -> Result<(), RunFault> {
        Ok(())
    }
}
