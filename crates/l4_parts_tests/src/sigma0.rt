use l4_fpage::{Fpage, PageSize, Rights};
use l4_msg::{Message, PageFault, map_answer};
use l4_sigma0::Sigma0;

/// Returns the fpage of a word.
fn fpage(word: u32) -> Fpage {
    Fpage::read(word).unwrap_or(Fpage::Nil)
}

#[test]
fn a_frame_is_given_to_one_space(rt: HostRuntime) {
    let mut sigma0 = Sigma0::new(256, PageSize::Kib4);
    // a request for page 5, and a read fault at 0x5678
    let request = [0xffa0_0002, 0x50c7, 0];
    let fault = [0xffe4_0002, 0x5678, 0];
    for (space, words, answer) in [
        (1, request, map_answer(0x5000, fpage(0x50c7))),
        (1, request, map_answer(0x5000, fpage(0x50c7))),
        (2, request, map_answer(0, Fpage::Nil)),
        (2, fault, map_answer(0, Fpage::Nil)),
        (1, fault, map_answer(0x5000, fpage(0x50c7))),
    ] {
        if let Ok(message) = Message::read(&words) {
            assert_eq!(rt; sigma0.answer(space, &message), answer);
        }
    }
}

#[test]
fn all_frames_of_an_fpage_or_none(rt: HostRuntime) {
    let mut sigma0 = Sigma0::new(8, PageSize::Kib4);
    let fault = PageFault {
        address: 0x7fff,
        ip: 0,
        access: Rights::of_bits(0),
    }
    .message();
    assert_eq!(rt; sigma0.answer(1, &fault), map_answer(0x7000, fpage(0x70c7)));
    // pages 4 to 7, of which 7 is another space's; pages 0 to 3; pages 8 to 15, which aren't there; 1 KiB
    for (word, answer) in [
        (0x40e7, map_answer(0, Fpage::Nil)),
        (0xe7, map_answer(0, fpage(0xe7))),
        (0x80f7, map_answer(0, Fpage::Nil)),
        (0xa7, map_answer(0, Fpage::Nil)),
        (0x17, map_answer(0, Fpage::Nil)),
    ] {
        if let Ok(request) = Message::read(&[0xffa0_0002, word, 0]) {
            assert_eq!(rt; sigma0.answer(2, &request), answer);
        }
    }
    // attributes, another label, a word too many
    for words in [
        [0xffa0_0002, 0x40e7, 1, 0],
        [0xffa1_0002, 0x40e7, 0, 0],
        [0xffa0_0003, 0x40e7, 0, 0],
    ] {
        if let Ok(message) = Message::read(&words) {
            assert_eq!(rt; sigma0.answer(1, &message), map_answer(0, Fpage::Nil));
        }
    }
}

#[test]
fn small_frames_are_given(rt: HostRuntime) {
    let mut sigma0 = Sigma0::new(256, PageSize::Kib1);
    // a read fault at 0x5678, in page 21; requests for 1 KiB and for 4 KiB from 0x5400 and 0x5000 on, and for pages that aren't there
    for (space, words, answer) in [
        (
            2,
            [0xffe4_0002, 0x5678, 0],
            map_answer(0x5400, fpage(0x54a7)),
        ),
        (3, [0xffa0_0002, 0x54a7, 0], map_answer(0, Fpage::Nil)),
        (3, [0xffa0_0002, 0x50c7, 0], map_answer(0, Fpage::Nil)),
        (
            2,
            [0xffa0_0002, 0x50c7, 0],
            map_answer(0x5000, fpage(0x50c7)),
        ),
        (2, [0xffa0_0002, 0x4_00a7, 0], map_answer(0, Fpage::Nil)),
    ] {
        if let Ok(message) = Message::read(&words) {
            assert_eq!(rt; sigma0.answer(space, &message), answer);
        }
    }
}
