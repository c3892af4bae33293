//! The codes of refusals that a script's line gets before it reaches the kernel.
ghost use Rattle.std.specs.Prelude.{◌≡◌};
ghost use Rattle.l4_shell.specs.Refusals.{script_refusal, plan_refusal, too_many_names, lacks_memory, call_refusal, region_refusal};
ghost use Rattle.l4_answers.specs.Refusals.{plainly};
ghost use Rattle.l4_pager.specs.Regions.{code_of};

use l4_answers::{Code, refused_code};
use l4_commands::ScriptFault;
use l4_pager::PagerRefusal;
use l4_plan::PlanRefusal;
use l4_record::RecordRefusal;
use l4_servers::RegionRefusal;

/// Returns the code of a line that cannot be read.
pub(crate) fn script_code(fault: ScriptFault) -> Code
    ensures { result ≡ script_refusal fault }
{
    match fault {
        ScriptFault::UnknownCommand => Code::plain(b"S1"),
        ScriptFault::BadTokens => Code::plain(b"S2"),
        ScriptFault::LineTooLong => Code::plain(b"S3"),
        ScriptFault::CutLine => Code::plain(b"S4"),
    }
}

/// Returns the code of a region without a plan, or of a plan without such a message.
pub(crate) fn plan_code(refusal: &PlanRefusal) -> Code
    ensures { result ≡ plan_refusal refusal.now }
{
    match refusal {
        PlanRefusal::Empty => Code::plain(b"N1"),
        PlanRefusal::OutOfSpace => Code::plain(b"N2"),
        PlanRefusal::NoRights => Code::plain(b"N3"),
        PlanRefusal::TooLong(_) => Code::plain(b"N4"),
        PlanRefusal::Several(messages) => Code::numbered(b"N5", *messages),
        PlanRefusal::NoPart(messages) => Code::numbered(b"N6", *messages),
    }
}

/// Returns the code of a name that is one more than a script can have.
pub(crate) fn too_many_names_code() -> Code
    ensures { result ≡ too_many_names }
{
    Code::plain(b"S5")
}

/// Returns the code for lack of memory.
pub(crate) fn memory_code() -> Code
    ensures { result ≡ lacks_memory }
{
    Code::plain(b"NoMemory")
}

/// Returns the code of a call that is not entered. For the kernel's own refusals, this is the innermost one.
pub(crate) fn call_code(refusal: RecordRefusal) -> Code
    ensures { result ≡ call_refusal refusal }
{
    match refusal {
        RecordRefusal::HistoryFull => Code::plain(b"L1"),
        RecordRefusal::NoMemory => memory_code(),
        RecordRefusal::Kernel(refused) => refused_code(refused),
    }
}

/// Returns the code of a refusal by a pager's table.
fn pager_code(refusal: PagerRefusal) -> Code
    ensures { result ≡ plainly (code_of refusal) }
{
    match refusal {
        PagerRefusal::Overlap => Code::plain(b"P1"),
        PagerRefusal::NoRegion => Code::plain(b"P2"),
        PagerRefusal::Full => Code::plain(b"P3"),
        PagerRefusal::BadRegion => Code::plain(b"P4"),
    }
}

/// Returns the code of a region that is not added.
pub(crate) fn region_code(refusal: RegionRefusal) -> Code
    ensures { result ≡ region_refusal refusal }
{
    match refusal {
        RegionRefusal::Pager(refusal) => pager_code(refusal),
        RegionRefusal::NoMemory => memory_code(),
    }
}
