use l4_fpage::{PageSize, Rights};
use l4_msg::Region;
use l4_plan_lines::{RunFault, check_lines, plan_lines};
use l4_text::{Drip, Sip};
use std::test::Fail;

/// Returns a region with all rights.
fn region(source: u32, target: u32, count: u32) -> Region {
    Region {
        source,
        target,
        count,
        rights: Rights::all(),
    }
}

/// Returns whether these lines are written for the plan of a region.
fn is_planned(rt: &HostRuntime, region: &Region, lines: &[u8], plan: bool) -> Result<bool, Fail> {
    let mut out = Vec::new(rt.alloc());
    let answered = plan_lines(region, PageSize::Kib4, &mut out);
    Ok(answered == Ok(plan) && out.as_slice() == lines)
}

/// Returns whether this line is answered to these lines about a region.
fn is_answered(rt: &HostRuntime, region: &Region, lines: &[u8], line: &[u8]) -> Result<bool, Fail> {
    let mut out = Vec::new(rt.alloc());
    let mut reader = lines;
    let proved = line.starts_with(b"proved");
    let answered = check_lines(region, PageSize::Kib4, &mut reader, &mut out);
    Ok(answered == Ok(proved) && out.as_slice() == line)
}

#[test]
fn plans(rt: HostRuntime) -> Result<(), Fail> {
    let one = b"tag 00000080\nitem 00020008 000100c7 page 16\n";
    assert!(rt; is_planned(&rt, &region(16, 32, 1), one, true)?);
    let two = b"tag 00000100\nitem 0000c009 000040e7 page 4\nitem 00010008 000080f7 page 8\n";
    assert!(rt; is_planned(&rt, &region(4, 12, 12), two, true)?);
    let whole = b"tag 00000080\nitem 00000008 00000017 page 0\n";
    assert!(rt; is_planned(&rt, &region(0, 0, 1_048_576), whole, true)?);
    assert!(rt; is_planned(&rt, &region(0, 0, 0), b"refused N1\n", false)?);
    assert!(rt; is_planned(&rt, &region(1_048_575, 0, 2), b"refused N2\n", false)?);
    let none = Region {
        rights: Rights::of_bits(0),
        ..region(0, 0, 1)
    };
    assert!(rt; is_planned(&rt, &none, b"refused N3\n", false)?);
    Ok(())
}

/// Plans by pages of 1 KiB: of one page, and of a whole space.
#[test]
fn plans_small_pages(rt: HostRuntime) -> Result<(), Fail> {
    let mut out = Vec::new(rt.alloc());
    let one = plan_lines(&region(16, 32, 1), PageSize::Kib1, &mut out);
    let whole = plan_lines(&region(0, 0, 4_194_304), PageSize::Kib1, &mut out);
    let beyond = plan_lines(&region(4_194_303, 0, 2), PageSize::Kib1, &mut out);
    assert!(rt; [one, whole, beyond] == [Ok(true), Ok(true), Ok(false)]);
    let lines: &[u8] =
        b"tag 00000080\nitem 00008008 000040a7 page 16\ntag 00000080\nitem 00000008 00000017 page 0\nrefused N2\n";
    assert!(rt; out.as_slice() == lines);
    Ok(())
}

#[test]
fn checks(rt: HostRuntime) -> Result<(), Fail> {
    let whole = region(4, 12, 12);
    let two = b"tag 00000100\nitem 0000c009 000040e7 page 4\nitem 00010008 000080f7 page 8\n";
    assert!(rt; is_answered(&rt, &whole, two, b"proved 2\n")?);
    let read = Region {
        rights: Rights::of_bits(4),
        ..whole
    };
    assert!(rt; is_answered(&rt, &read, two, b"fault C1 0\n")?);
    let one = b"tag 00000080\nitem 0000c008 000040e7 page 4\n";
    assert!(rt; is_answered(&rt, &whole, one, b"fault C2 8\n")?);
    let parted = b"tag 00000100\nitem 00000009 000000c7 page 0\nitem 00001008 000010c7 page 1\n";
    assert!(rt; is_answered(&rt, &region(0, 0, 2), parted, b"fault C4 1\n")?);
    let pages = b"tag 00000100\nitem 0000c009 000040e7 page 8\nitem 00010008 000080f7 page 9\n";
    assert!(rt; is_answered(&rt, &whole, pages, b"fault C4 1\n")?);
    let outside =
        b"tag 00000100\nitem 0000c009 000040e7 page 4\nitem 00010008 000080f7 page 4294967295\n";
    assert!(rt; is_answered(&rt, &whole, outside, b"fault C3 1\n")?);
    assert!(rt; is_answered(&rt, &whole, b"too-long\npage 4\n", b"fault C5\n")?);
    assert!(rt; is_answered(&rt, &region(4, 12, 0), two, b"fault C6\n")?);
    Ok(())
}

#[test]
fn refuses_wrong_lines(rt: HostRuntime) -> Result<(), Fail> {
    let whole = region(4, 12, 12);
    assert!(rt; is_answered(&rt, &whole, b"", b"line 1 refused S2\n")?);
    assert!(rt; is_answered(&rt, &whole, b"tag 00000080", b"line 1 refused S4\n")?);
    assert!(rt; is_answered(&rt, &whole, b"tag 0000008g\n", b"line 1 refused S2\n")?);
    let tag = b"tag 00000080\nitem 0000c009 000040e7 page 4\nitem 00010008 000080f7 page 8\n";
    assert!(rt; is_answered(&rt, &whole, tag, b"line 1 refused S2\n")?);
    let zero = b"tag 00000080\nitem 0000c009 000040e7 page 04\n";
    assert!(rt; is_answered(&rt, &whole, zero, b"line 2 refused S2\n")?);
    let grant = b"tag 00000080\nitem 0000c00a 000040e7 page 4\n";
    assert!(rt; is_answered(&rt, &whole, grant, b"line 2 refused S2\n")?);
    let large = b"too-long\npage 4294967296\n";
    assert!(rt; is_answered(&rt, &whole, large, b"line 2 refused S2\n")?);
    let cut = b"too-long\npage x\npage";
    assert!(rt; is_answered(&rt, &whole, cut, b"line 2 refused S2\n")?);
    Ok(())
}

#[test]
fn refuses_a_long_line(rt: HostRuntime) -> Result<(), Fail> {
    let whole = region(4, 12, 12);
    let mut line = Vec::new(rt.alloc());
    for _ in 0..4096 {
        line.push(b'x')?;
    }
    line.push(b'\n')?;
    assert!(rt; is_answered(&rt, &whole, line.as_slice(), b"line 1 refused S2\n")?);
    line.insert(0, b'x')?;
    assert!(rt; is_answered(&rt, &whole, line.as_slice(), b"line 1 refused S3\n")?);
    line.pop();
    assert!(rt; is_answered(&rt, &whole, line.as_slice(), b"line 1 refused S4\n")?);
    Ok(())
}

/// Source and target lie a page apart, so each page takes an item of its own.
#[test]
fn a_long_plan_is_written_and_proved(rt: HostRuntime) -> Result<(), Fail> {
    let answers: [(u32, &[u8]); 4] = [
        (31, b"proved 31\n"),
        (32, b"proved 32\n"),
        (1_984, b"proved 1984\n"),
        (1_985, b"proved too-long\n"),
    ];
    for (count, answer) in answers {
        let whole = region(0, 1, count);
        let mut out = Vec::new(rt.alloc());
        assert_eq!(rt;
            plan_lines(&whole, PageSize::Kib4, &mut out),
            Ok(count < 1_985)
        );
        assert!(rt; is_answered(&rt, &whole, out.as_slice(), answer)?);
    }
    Ok(())
}

#[test]
fn refuses_the_first_page_past_2048(rt: HostRuntime) -> Result<(), Fail> {
    let whole = region(0, 1, 32);
    let mut lines = Vec::new(rt.alloc());
    lines.extend_from_slice(b"too-long\n")?;
    for _ in 0..2_048 {
        lines.extend_from_slice(b"page 7\n")?;
    }
    assert!(rt; is_answered(&rt, &whole, lines.as_slice(), b"fault C5\n")?);
    lines.extend_from_slice(b"page 7\nx")?;
    assert!(rt; is_answered(&rt, &whole, lines.as_slice(), b"line 2050 refused S2\n")?);
    Ok(())
}

/// Returns a writer that takes this many bytes.
fn taking(rt: &HostRuntime, calls: usize) -> Sip {
    Sip {
        taken: Vec::new(rt.alloc()),
        calls,
    }
}

#[test]
fn faults_of_reader_and_writer(rt: HostRuntime) -> Result<(), Fail> {
    let whole = region(4, 12, 12);
    let mut out = Vec::new(rt.alloc());
    let mut broken = Drip {
        bytes: b"",
        calls: 0,
    };
    assert_eq!(rt;
        check_lines(&whole, PageSize::Kib4, &mut broken, &mut out),
        Err(RunFault::Read)
    );
    assert!(rt; out.is_empty());
    assert_eq!(rt;
        plan_lines(&whole, PageSize::Kib4, &mut taking(&rt, 40)),
        Err(RunFault::Write)
    );
    assert_eq!(rt;
        plan_lines(&region(0, 0, 0), PageSize::Kib4, &mut taking(&rt, 11)),
        Ok(false)
    );
    let mut reader = b"".as_slice();
    assert_eq!(rt;
        check_lines(&whole, PageSize::Kib4, &mut reader, &mut taking(&rt, 3)),
        Err(RunFault::Write)
    );
    Ok(())
}
