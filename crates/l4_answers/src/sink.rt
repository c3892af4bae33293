//! Receivers of the answers of a script.
ghost use Rattle.std.specs.Prelude.{◌≡◌, List, Bool, OnOk, IfErr};
ghost use Rattle.std.specs.Option.{option_copied};
ghost use Rattle.l4_ipc.specs.declared.steps.Refused.TheVariants.{UnknownThread};
ghost use Rattle.l4_answers.specs.Refusals.{kernel_refusal};
ghost use Rattle.l4_answers.specs.Reports.{Report, RefusedLine, UnreadLine, RefusedAct, Transferred, TimedOut, Canceled, Waits, Ended, NoneEnded, Page, Shown, Parent, AddedRegion, Named, StepCount, Adds, Keeps, AllOut};

use crate::refusals::{Code, refused_code};
use l4_fpage::PageSize;
use l4_ipc::{CancelCause, Outcome, Refused};
use l4_mapdb::Mapping;
use l4_names::Names;
use l4_text::{LineReader, RunFault};
use l4_threads::Reply;

/// Receives the answers of a script, each as it is made. A closed sink ignores answers.
pub trait Sink {
    /// That these answers were reported since the sink was the first one. They are written, except those that it holds back or that a failed
    /// write lost.
    ghost has_told: { Self → Self → List Report → Type 0 };

    /// The same, and all of them are written.
    ghost is_out: { Self → Self → List Report → Type 0 };

    /// Whether it takes no more answers.
    ghost closed: { Self → Bool };

    /// Writes all that it holds back.
    fn finish(&mut self) -> Result<(), RunFault>
        ensures ok { OnOk result (AllOut has_told is_out self.old self.new) }
        ensures same { OnOk result (closed self.new ≡ closed self.old) }
        ensures err { IfErr result (λ e. (e ≡ RunFault.Write) × Keeps has_told self.old self.new) };
    /// Returns whether it takes no more answers.
    fn is_closed(&self) -> bool
        ensures { result ≡ closed self.now };
    /// Writes what it holds back if the next line has to be read first.
    fn before_line(&mut self, lines: &LineReader)
        ensures { Keeps has_told self.old self.new };
    /// Reports that a line of the script is refused.
    fn refused_line(&mut self, line: u64, code: &Code)
        ensures { Adds has_told self.old self.new (RefusedLine line code.now) };
    /// Reports that a line of the script is refused because a thread does not exist.
    fn unknown_thread(&mut self, line: u64)
        ensures { Adds has_told self.old self.new (RefusedLine line (kernel_refusal UnknownThread)) }
    {
        self.refused_line(line, &refused_code(Refused::UnknownThread));
    }
    /// Reports that a line of the script can't be read, with its bytes. Pages have this size, and threads these names.
    fn unread_line(&mut self, line: u64, code: &Code, bytes: &[u8], size: PageSize, names: &Names)
        ensures { Adds has_told self.old self.new
            (UnreadLine size names.now line code.now bytes.now) };
    /// Reports that a served thread's call is refused.
    fn refused_act(&mut self, thread: u32, code: &Code)
        ensures { Adds has_told self.old self.new (RefusedAct thread code.now) };
    /// Reports a transfer.
    fn transfer(&mut self, sender: u32, receiver: u32, outcome: Outcome)
        ensures { Adds has_told self.old self.new (Transferred sender receiver outcome) };
    /// Reports that a zero timeout expired.
    fn expire(&mut self, number: u32)
        ensures { Adds has_told self.old self.new (TimedOut number) };
    /// Reports that a wait was canceled.
    fn cancel(&mut self, number: u32, cause: CancelCause)
        ensures { Adds has_told self.old self.new (Canceled number cause) };
    /// Reports that a thread's call has not ended.
    fn waits(&mut self, number: u32)
        ensures { Adds has_told self.old self.new (Waits number) };
    /// Reports how a thread's call ended. A thread that is gone has no reply.
    fn ended(&mut self, number: u32, reply: Option<&Reply>)
        ensures { Adds has_told self.old self.new (Ended number (option_copied reply.entry)) };
    /// Reports that no call of a thread has ended.
    fn none_ended(&mut self, number: u32)
        ensures { Adds has_told self.old self.new (NoneEnded number) };

    /// Reports a page that is present.
    fn page(&mut self, page: u32, mapping: &Mapping)
        ensures { Adds has_told self.old self.new (Page page mapping.now) };
    /// Reports how many pages were listed.
    fn shown(&mut self, count: u32)
        ensures { Adds has_told self.old self.new (Shown count) };
    /// Reports the parent of a page, or that the page is absent.
    fn parent(&mut self, mapping: Option<Mapping>)
        ensures { Adds has_told self.old self.new (Parent mapping) };
    /// Reports that a pager's table has one region more.
    fn region_added(&mut self)
        ensures { Adds has_told self.old self.new AddedRegion };
    /// Reports that a thread was given a name.
    fn named(&mut self, number: u32)
        ensures { Adds has_told self.old self.new (Named number) };
    /// Reports how many entries the history has.
    fn steps(&mut self, count: u64)
        ensures { Adds has_told self.old self.new (StepCount count) };
}
