//! Step lists that end early, and lists that another kernel answered.
use l4_fpage::PageSize;
use l4_judging::{Wanted, judge, read_requests};
use l4_step_lines::{Fault, run};
use l4_text::{Drip, RunFault};
use std::test::Fail;

const LIST: &[u8] = b"space 1\nenabled\nspace 2\n";

/// The answers to the first lines of the list: none, one, two, three.
const ANSWERS: [&[u8]; 4] = [
    b"",
    b"space 0\n",
    b"space 0\nenabled none\n",
    b"space 0\nenabled none\nspace 1\n",
];

#[test]
fn a_failing_read_loses_no_answer(rt: HostRuntime) -> Result<(), Fail> {
    for (calls, lines) in [(0, 0), (7, 0), (8, 1), (15, 1), (16, 2), (24, 3)] {
        let mut reader = Drip { bytes: LIST, calls };
        let mut written = Vec::new(rt.alloc());
        let result = run(rt.alloc(), 256, PageSize::Kib4, &mut reader, &mut written);
        assert!(rt;
            matches!(result, Err(Fault::Stopped(RunFault::Read))),
            "at {calls}"
        );
        assert!(rt;
            Some(&written.as_slice()) == ANSWERS.get(lines),
            "at {calls}"
        );
    }
    Ok(())
}

/// A list with another kernel's answers, of which the third and the fourth differ.
const JUDGED: &[u8] = b"space 1\n# space 0\nenabled\n# ?\nspace 2\n# space 0\nspace 9\n# space 9\n";

/// The first difference, and then both.
const DIFFERENCES: [&[u8]; 2] = [
    b"line 6: space 2: expected space 1, found space 0\n",
    b"line 6: space 2: expected space 1, found space 0\nline 8: space 9: expected none, found space 9\n",
];

#[test]
fn judges_to_the_first_difference_or_to_the_end(rt: HostRuntime) -> Result<(), Fail> {
    for (all, told) in [(false, DIFFERENCES[0]), (true, DIFFERENCES[1])] {
        let mut reader = JUDGED;
        let mut written = Vec::new(rt.alloc());
        let wanted = Wanted {
            requests: None,
            partial: false,
            all,
            calls: false,
        };
        let judged = judge(
            rt.alloc(),
            4,
            PageSize::Kib4,
            wanted,
            &mut reader,
            &mut written,
        );
        assert!(rt; matches!(judged, Ok(false)), "all: {all}");
        assert!(rt; written.as_slice() == told, "all: {all}");
        assert!(rt; reader.is_empty(), "all: {all}");
    }
    Ok(())
}

/// The list without its answers, with comments and an empty line.
const REQUESTS: &[u8] = b"## four queries\nspace 1\n# space 7\nenabled\n\nspace 2\nspace 9\n";

#[test]
fn the_requests_of_a_list_are_its_lines_without_comments(rt: HostRuntime) -> Result<(), Fail> {
    let mut reader = REQUESTS;
    let Ok(requests) = read_requests(rt.alloc(), &mut reader) else {
        return Err(Fail::new("the requests cannot be read"));
    };
    assert!(rt; requests.first() == b"space 1".as_slice());
    Ok(())
}
