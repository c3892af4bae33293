use l4_text::{Ending, LineReader, Output, Sip, Text, next_token, number};

#[test]
fn reads_numbers(rt: HostRuntime) {
    let rows: [(&[u8], Option<u32>); 11] = [
        (b"0", Some(0)),
        (b"007", Some(7)),
        (b"4294967295", Some(0xffff_ffff)),
        (b"4294967296", None),
        (b"00000000001", None),
        (b"0xaBcDeF09", Some(0xabcd_ef09)),
        (b"0x000000001", None),
        (b"0x", None),
        (b"0X1", None),
        (b"+1", None),
        (b"", None),
    ];
    for (text, value) in rows {
        assert_eq!(rt; number(text), value);
    }
}

#[test]
fn parts_a_line_at_spaces(rt: HostRuntime) {
    let (first, rest) = next_token(b"  one two\t3 ").expect(&rt, "a first token");
    assert!(rt; first == b"one".as_slice());
    let (second, rest) = next_token(rest).expect(&rt, "a second token");
    assert!(rt; second == b"two\t3".as_slice());
    assert!(rt; next_token(rest).is_none());
}

#[test]
fn reads_a_line(rt: HostRuntime) {
    let long = [b'x'; 4_097];
    let rows: [(&[u8], Option<Ending>, &[u8]); 4] = [
        (b"", None, b""),
        (b"\nx", Some(Ending::Whole), b""),
        (b"x", Some(Ending::Cut), b"x"),
        (&long, Some(Ending::Cut), &long[..4_096]),
    ];
    for (input, ending, kept) in rows {
        let mut reader = input;
        let mut lines = LineReader::new();
        let read = lines.next(&mut reader);
        assert_eq!(rt; read, Ok(ending));
        assert!(rt; lines.line() == kept);
    }
}

#[test]
fn answers_the_end_again(rt: HostRuntime) {
    let mut reader = b"one\ntwo".as_slice();
    let mut lines = LineReader::new();
    for ending in [Some(Ending::Whole), Some(Ending::Cut), None, None] {
        let read = lines.next(&mut reader);
        assert_eq!(rt; read, Ok(ending));
    }
}

/// Two short lines, one of 4,090 bytes that goes on beyond the 4,096 bytes of the first read, and one that no newline ends.
fn four_lines() -> [u8; 4_102] {
    let mut input = [b'x'; 4_102];
    for (place, byte) in [
        (0, b'1'),
        (1, b'\n'),
        (5, b'\r'),
        (6, 0),
        (7, b'\n'),
        (4_098, b'\n'),
        (4_101, b'4'),
    ] {
        input[place] = byte;
    }
    input
}

#[test]
fn reads_lines_of_one_read_and_of_two(rt: HostRuntime) {
    let long = [b'x'; 4_090];
    let input = four_lines();
    let mut reader = input.as_slice();
    let mut lines = LineReader::new();
    assert_eq!(rt; (lines.has_line(), lines.line().len()), (false, 0));
    let rows: [(Option<Ending>, &[u8], bool); 6] = [
        (Some(Ending::Whole), b"1", true),
        (Some(Ending::Whole), b"xxx\r\0", false),
        (Some(Ending::Whole), &long, false),
        (Some(Ending::Cut), b"xx4", false),
        (None, b"", false),
        (None, b"", false),
    ];
    for (ending, line, more) in rows {
        let read = lines.next(&mut reader);
        assert_eq!(rt; (read, lines.has_line()), (Ok(ending), more));
        assert!(rt; lines.line() == line);
    }
}

#[test]
fn finds_no_line_in_an_empty_stream(rt: HostRuntime) {
    let mut reader = b"".as_slice();
    let mut lines = LineReader::new();
    let read = lines.next(&mut reader);
    assert_eq!(rt;
        (read, lines.has_line(), lines.line().len()),
        (Ok(None), false, 0)
    );
}

#[test]
fn tells_a_text(rt: HostRuntime) {
    let told = b"7 00000bad 80000000 00000001\n".as_slice();
    for calls in 0..told.len() + 1 {
        let mut text = Text::new();
        text.add_number(7);
        text.push(b' ');
        text.add_word(0xbad);
        let mut writer = Sip {
            taken: Vec::new(rt.alloc()),
            calls,
        };
        let mut out = Output::new();
        out.put(&mut writer, &text);
        out.put_words(&mut writer, [0x8000_0000, 1].as_slice());
        let mut newline = Text::new();
        newline.push(b'\n');
        out.put(&mut writer, &newline);
        assert!(rt; !out.has_failed());
        let end = out.finish(&mut writer);
        assert_eq!(rt; end.is_ok(), calls == told.len(), "at {calls}");
        assert!(rt;
            told.get(..calls) == Some(writer.taken.as_slice()),
            "at {calls}"
        );
    }
}
