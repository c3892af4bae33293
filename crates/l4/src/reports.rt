//! Explains on standard error a code that standard output has.
use l4_plan::PlanRefusal;
use l4_plan_check::Fault;
use l4_plan_lines::{Answer, LineFault, WrongLine};
use l4_programs::Source;
use l4_reasons::Reason;
use l4_refusals::{number_of, text_of};
use l4_saved::HistoryFault;
use l4_segments::{FaultKind, FileFault, Misfit, MisfitKind};

/// Says what a code means.
fn report_code(rt: &impl Eprint, code: &[u8]) {
    let text = text_of(number_of(code));
    if let Ok(code) = str::from_utf8(text.code) {
        if let Ok(line) = str::from_utf8(text.line) {
            let _ = eprintln!(rt; "error: {code}: {line}");
        }
    }
}

/// Reports why a refused line ended a strict script.
pub(crate) fn report_refused(rt: &impl Eprint, reason: &Reason) {
    let _ = eprintln!(rt; "error: {reason}");
}

/// Reports that no thread has the requested number.
pub(crate) fn report_no_thread(rt: &impl Eprint) {
    report_code(rt, b"K2");
}

/// Says why a region has no plan. The text of a plan that is too long says so itself.
pub(crate) fn report_no_plan(rt: &impl Eprint, refusal: &PlanRefusal) {
    match refusal {
        PlanRefusal::Empty => report_code(rt, b"N1"),
        PlanRefusal::OutOfSpace => report_code(rt, b"N2"),
        PlanRefusal::NoRights => report_code(rt, b"N3"),
        PlanRefusal::TooLong(_) | PlanRefusal::Several(_) | PlanRefusal::NoPart(_) => {}
    }
}

/// Says why a plan is not proved.
fn report_fault(rt: &impl Eprint, fault: Fault) {
    match fault {
        Fault::Item(_) => report_code(rt, b"C1"),
        Fault::Gap(_) => report_code(rt, b"C2"),
        Fault::Page(_) => report_code(rt, b"C3"),
        Fault::Pair(_) => report_code(rt, b"C4"),
        Fault::Count => report_code(rt, b"C5"),
        Fault::Region => report_code(rt, b"C6"),
    }
}

/// Says what is wrong with a line of a plan, or with an input that is empty.
fn report_line(rt: &impl Eprint, wrong: WrongLine, is_empty: bool) {
    let words = match wrong.fault {
        LineFault::BadTokens if is_empty => {
            "S2: the input is empty, but 'l4 check' reads what 'l4 plan' prints"
        }
        LineFault::BadTokens => {
            "S2: the line is not in the form that 'l4 plan' prints, or its tag does not match its items"
        }
        LineFault::LineTooLong => "S3: the line is longer than 4,096 bytes",
        LineFault::CutLine => "S4: the line does not end with a newline",
    };
    let _ = eprintln!(rt; "error: line {}: {words}", wrong.number);
}

/// Says why the answer to a plan is not `proved`.
pub(crate) fn report_unproved(rt: &impl Eprint, answer: &Answer, is_empty: bool) {
    match answer {
        Answer::Refused(wrong) => report_line(rt, *wrong, is_empty),
        Answer::Faulty(fault) => report_fault(rt, *fault),
        Answer::ProvedPlan(_) | Answer::ProvedTooLong => {}
    }
}

/// Says why bytes are not files of segments.
fn file_words(kind: FaultKind) -> &'static str {
    match kind {
        FaultKind::NoMemory => "out of memory",
        FaultKind::Magic => "F1: the segment does not begin with LSG4",
        FaultKind::Version => "F2: the version of the file is not 1",
        FaultKind::Frames => "F3: the number of frames is not in 1..=4096",
        FaultKind::Pages => "F4: the page size is neither 4096 nor 1024 bytes",
        FaultKind::Numbers => "F5: the number of an entry would exceed 2^63",
        FaultKind::Entry => "F6: the words are not those of an entry",
        FaultKind::Checksum => "F7: the checksum is not that of the segment",
        FaultKind::Cut => "F8: the segment is cut off",
        FaultKind::Extra => "bytes follow the segment",
    }
}

/// Reports why a file is not one of segments.
pub(crate) fn report_file(rt: &impl Eprint, name: &str, fault: FileFault) {
    let position = fault.position;
    let words = file_words(fault.kind);
    let _ = eprintln!(rt; "error: {}: byte {position}: {words}", Source(Some(name)));
}

/// Reports why the segment at this place of a file does not fit those before it.
pub(crate) fn report_misfit(rt: &impl Eprint, name: &str, place: usize, misfit: Misfit) {
    let expected = misfit.expected;
    let name = Source(Some(name));
    let _ = match misfit.kind {
        MisfitKind::Frames => eprintln!(rt;
            "error: {name}: segment {place}: J1: the number of frames is not that of the segments before it"
        ),
        MisfitKind::Pages => eprintln!(rt;
            "error: {name}: segment {place}: J2: the page size is not that of the segments before it"
        ),
        MisfitKind::Number => eprintln!(rt;
            "error: {name}: segment {place}: J3: the segment does not begin with the next entry, number {expected}"
        ),
    };
}

/// Reports which entry does not continue a legal history.
pub(crate) fn report_history(rt: &impl Eprint, fault: HistoryFault) {
    let _ = match fault {
        HistoryFault::NotNext(number) => eprintln!(rt;
            "error: entry {number}: J4: the step is neither the next step nor the start of a call by its seat"
        ),
        HistoryFault::OtherAnswer(number) => eprintln!(rt;
            "error: entry {number}: J5: the kernel gives this step another answer"
        ),
        HistoryFault::Memory | HistoryFault::Write => Ok(()),
    };
}
