use l4_fpage::PageSize;
use l4_record::NoSegments;
use l4_shell::{RunFault, run};
use l4_sinks::Teller;
use l4_text::{Drip, Sip};
use std::io;
use std::io::Read;
use std::test::Fail;

const SCRIPT: &[u8] =
    b"thread 3 new nil\nrecv 3 any 0x10\nsend 1 3 0x00000080 0x00020008 0x000100c7\nshow 3 0 1048576\n";

/// The answers to the first lines of the script: none, one, two and so on.
const ANSWERS: [&[u8]; 5] = [
    b"",
    b"2 control ok\n",
    b"2 control ok\n3 waits\n",
    b"2 control ok\n3 waits\ntransfer 1 3 done\n1 ipc 00000000 0 nil\n3 ipc 00000080 0 1 00020008 000100c7\n",
    b"2 control ok\n3 waits\ntransfer 1 3 done\n1 ipc 00000000 0 nil\n3 ipc 00000080 0 1 00020008 000100c7\npage 32 frame 16 rwx\nshown 1\n",
];

/// What is answered to a line that the end of the script cuts, by the number of lines before it.
const REFUSALS: [&[u8]; 4] = [
    b"line 1 refused S4\n",
    b"line 2 refused S4\n",
    b"line 3 refused S4\n",
    b"line 4 refused S4\n",
];

/// How many of these bytes are newlines.
fn newlines(bytes: &[u8]) -> usize {
    bytes.iter().filter(|b| **b == b'\n').count()
}

/// Gives one `#` a call, and fails at a call.
#[derive(Drop)]
struct Hashes {
    calls: usize,
}

impl Read for Hashes {
    fn read(&mut self, buf: &mut [u8]) -> io::Result<usize> {
        if self.calls == 0 || buf.is_empty() {
            return Err(io::Error::from(io::ErrorKind::Other));
        }
        self.calls -= 1;
        buf[0] = b'#';
        Ok(1)
    }
}

#[test]
fn answers_a_script(rt: HostRuntime) -> Result<(), Fail> {
    let mut written = Vec::new(rt.alloc());
    let mut script = SCRIPT;
    assert_eq!(rt;
        run(
            rt.alloc(),
            256,
            PageSize::Kib4,
            &mut script,
            &mut Teller::new(&mut written, false, None),
            &mut NoSegments
        ),
        Ok(4)
    );
    assert!(rt; Some(&written.as_slice()) == ANSWERS.last());
    Ok(())
}

/// With pages of 1 KiB the same script moves four.
#[test]
fn answers_a_script_of_small_pages(rt: HostRuntime) -> Result<(), Fail> {
    let mut written = Vec::new(rt.alloc());
    let mut script = SCRIPT;
    assert_eq!(rt;
        run(
            rt.alloc(),
            256,
            PageSize::Kib1,
            &mut script,
            &mut Teller::new(&mut written, false, None),
            &mut NoSegments
        ),
        Ok(4)
    );
    let shown =
        b"page 128 frame 64 rwx\npage 129 frame 65 rwx\npage 130 frame 66 rwx\npage 131 frame 67 rwx\nshown 4\n";
    assert!(rt; written.as_slice().starts_with(ANSWERS[3]));
    assert!(rt; written.as_slice().ends_with(shown));
    Ok(())
}

#[test]
fn a_failing_read_loses_no_answer(rt: HostRuntime) -> Result<(), Fail> {
    for calls in 0..SCRIPT.len() + 1 {
        let mut reader = Drip {
            bytes: SCRIPT,
            calls,
        };
        let mut written = Vec::new(rt.alloc());
        let result = run(
            rt.alloc(),
            256,
            PageSize::Kib4,
            &mut reader,
            &mut Teller::new(&mut written, false, None),
            &mut NoSegments,
        );
        assert_eq!(rt; result, Err(RunFault::Read), "at {calls}");
        let whole = newlines(SCRIPT.get(..calls).ok_or("no front")?);
        let owed = ANSWERS.get(whole).ok_or("no answers")?;
        assert!(rt; written.as_slice() == *owed, "at {calls}");
    }
    Ok(())
}

#[test]
fn a_cut_line_is_refused(rt: HostRuntime) -> Result<(), Fail> {
    for end in 0..SCRIPT.len() + 1 {
        let front = SCRIPT.get(..end).ok_or("no front")?;
        let whole = newlines(front);
        let is_cut = !front.is_empty() && front.last() != Some(&b'\n');
        let mut reader = front;
        let mut written = Vec::new(rt.alloc());
        let count = (whole as u64).saturating_add(u64::from(is_cut));
        assert_eq!(rt;
            run(
                rt.alloc(),
                256,
                PageSize::Kib4,
                &mut reader,
                &mut Teller::new(&mut written, false, None),
                &mut NoSegments
            ),
            Ok(count),
            "at {end}"
        );
        let owed = ANSWERS.get(whole).ok_or("no answers")?;
        let refusal = if is_cut {
            *REFUSALS.get(whole).ok_or("no refusal")?
        } else {
            b""
        };
        assert!(rt; written.get(..owed.len()) == Some(*owed), "at {end}");
        assert!(rt; written.get(owed.len()..) == Some(refusal), "at {end}");
    }
    Ok(())
}

#[test]
fn a_comment_without_end_gives_nothing(rt: HostRuntime) -> Result<(), Fail> {
    for calls in [0, 1, 4_095, 4_096, 4_097, 10_000] {
        let mut reader = Hashes { calls };
        let mut written = Vec::new(rt.alloc());
        let result = run(
            rt.alloc(),
            256,
            PageSize::Kib4,
            &mut reader,
            &mut Teller::new(&mut written, false, None),
            &mut NoSegments,
        );
        assert_eq!(rt; result, Err(RunFault::Read), "after {calls}");
        assert!(rt; written.is_empty(), "after {calls}");
    }
    Ok(())
}

#[test]
fn a_failing_write_leaves_a_beginning(rt: HostRuntime) -> Result<(), Fail> {
    let whole = ANSWERS.last().ok_or("no answers")?;
    for calls in 0..whole.len() {
        let mut writer = Sip {
            taken: Vec::new(rt.alloc()),
            calls,
        };
        let mut script = SCRIPT;
        let result = run(
            rt.alloc(),
            256,
            PageSize::Kib4,
            &mut script,
            &mut Teller::new(&mut writer, false, None),
            &mut NoSegments,
        );
        assert_eq!(rt; result, Err(RunFault::Write), "at {calls}");
        assert!(rt;
            whole.get(..calls) == Some(writer.taken.as_slice()),
            "at {calls}"
        );
    }
    Ok(())
}
