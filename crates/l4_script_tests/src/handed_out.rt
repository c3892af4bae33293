//! Tests of scripts whose history is handed out.
ghost use Rattle.std.specs.Prelude.{true};

use l4_fpage::PageSize;
use l4_record::{Segment, SegmentSink};
use l4_shell::{RunFault, run};
use l4_sinks::Teller;
use std::test::Fail;

const SCRIPT: &[u8] =
    b"thread 3 new nil\nrecv 3 any 0x10\nsend 1 3 0x00000080 0x00020008 0x000100c7\nsteps\n";

/// Counts segments and their entries, and fails at a segment.
#[derive(Drop)]
struct Counter {
    segments: usize,
    entries: usize,
    fails_at: usize,
}

impl SegmentSink for Counter {
    ghost has_kept = { λ first now segments. Unit {0} };

    ghost takes = { λ sink. true };

    fn takes_segments(&self) -> bool {
        true
    }

    fn keep(&mut self, segment: Segment) -> bool {
        if self.segments == self.fails_at {
            return false;
        }
        self.segments = self.segments.wrapping_add(1);
        self.entries = self.entries.wrapping_add(segment.history.len());
        true
    }
}

#[test]
fn hands_out_the_history_at_the_end(rt: HostRuntime) -> Result<(), Fail> {
    let mut written = Vec::new(rt.alloc());
    let mut script = SCRIPT;
    let mut counter = Counter {
        segments: 0,
        entries: 0,
        fails_at: 1,
    };
    let result = run(
        rt.alloc(),
        256,
        PageSize::Kib4,
        &mut script,
        &mut Teller::new(&mut written, false, None),
        &mut counter,
    );
    assert_eq!(rt; result, Ok(4));
    assert!(rt; written.as_slice().ends_with(b"steps 4\n"));
    assert_eq!(rt; counter.segments, 1);
    assert_eq!(rt; counter.entries, 4);
    Ok(())
}

#[test]
fn a_lost_segment_is_a_failed_write(rt: HostRuntime) -> Result<(), Fail> {
    let mut written = Vec::new(rt.alloc());
    let mut script = SCRIPT;
    let mut counter = Counter {
        segments: 0,
        entries: 0,
        fails_at: 0,
    };
    let result = run(
        rt.alloc(),
        256,
        PageSize::Kib4,
        &mut script,
        &mut Teller::new(&mut written, false, None),
        &mut counter,
    );
    assert_eq!(rt; result, Err(RunFault::Write));
    assert!(rt; written.as_slice().ends_with(b"steps 4\n"));
    Ok(())
}
