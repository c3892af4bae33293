use l4_fpage::{Fpage, PageSize, Rights};
use l4_msg::{
    Acceptor, FrameRequest, Item, ItemFault, Message, MsgFault, PageFault, Tag, item_moves,
    map_answer,
};

/// Returns the label, the number of untyped words and the number of items of the message that words begin with.
fn counted(words: &[u32]) -> Result<(u16, usize, usize), MsgFault> {
    let message = Message::read(words)?;
    Ok((message.label, message.untyped.len(), message.items.len()))
}

/// Returns the first pages and the log of an item's move in a window, by pages of this size.
fn moved_in(size: PageSize, first: u32, second: u32, window: u32) -> Option<(u32, u32, u8)> {
    let item = Item::read(first, second).ok()?;
    let pages = item_moves(&item, &Acceptor::read(window).ok()?, size)?;
    Some((pages.source.first, pages.target.first, pages.source.log))
}

/// The same by pages of 4 KiB.
fn moved(first: u32, second: u32, window: u32) -> Option<(u32, u32, u8)> {
    moved_in(PageSize::Kib4, first, second, window)
}

#[test]
fn refusals_of_messages(rt: HostRuntime) {
    let rows: [(&[u32], MsgFault); 9] = [
        (&[], MsgFault::Short),
        (&[0x40], MsgFault::Short),
        (&[0x40, 0], MsgFault::OddTyped),
        (&[0xfc1], MsgFault::TooManyWords),
        (&[0x1000], MsgFault::Flags),
        (&[0x80, 0xe, 0], MsgFault::BadItem(0)),
        (&[0x80, 0xc, 0], MsgFault::Unsupported(0)),
        (&[0x100, 0x9, 0x17, 0xe, 0], MsgFault::BadItem(1)),
        (&[0x100, 0x9, 0x17, 0x8, 0x217], MsgFault::BadItem(1)),
    ];
    for (words, fault) in rows {
        assert_eq!(rt; counted(words), Err(fault));
    }
}

/// Returns the item of the message that words begin with, None where its tag is refused or does not count just one.
fn only_item(words: &[u32]) -> Option<Result<Item, MsgFault>> {
    let tag = Message::read_tag(words).ok()?;
    if tag.typed != 2 {
        return None;
    }
    Some(Message::read_only_item(words, &tag))
}

/// Returns the item that maps all pages.
fn map_all(base: u32) -> Item {
    Item::Map {
        base,
        fpage: Fpage::Complete(Rights::all()),
    }
}

/// Returns the item that grants all pages.
fn grant_all(base: u32) -> Item {
    Item::Grant {
        base,
        fpage: Fpage::Complete(Rights::all()),
    }
}

#[test]
fn reads_the_only_item(rt: HostRuntime) {
    let rows: [(&[u32], Result<Item, MsgFault>); 5] = [
        (&[0x80, 0x20008, 0x17], Ok(map_all(0x20000))),
        // behind two untyped words, and before a word that means nothing
        (
            &[0xab0082, 7, 0xe, 0x500a, 0x17, 0xe],
            Ok(grant_all(0x5000)),
        ),
        (&[0x80, 0xc, 0], Err(MsgFault::Unsupported(0))),
        (&[0x80, 0xe, 0], Err(MsgFault::BadItem(0))),
        (&[0x80, 0x8, 0x217], Err(MsgFault::BadItem(0))),
    ];
    for (words, read) in rows {
        assert_eq!(rt; only_item(words), Some(read));
    }
}

/// 64 words: a tag, then map items of one page.
fn registers(tag: u32) -> [u32; 64] {
    let mut words = [0u32; 64];
    words[0] = tag;
    for i in 0..31 {
        words[1 + 2 * i] = 0x8;
        words[2 + 2 * i] = 0x100c7;
    }
    words
}

#[test]
fn tags_with_one_bit_changed(rt: HostRuntime) {
    // 0x80, and then with one of the bits 0 to 15 changed
    for (tag, read) in [
        (0x80u32, Ok((0, 0, 1))),
        (0x81, Err(MsgFault::Unsupported(0))),
        (0x82, Ok((0, 2, 1))),
        (0x84, Ok((0, 4, 1))),
        (0x88, Ok((0, 8, 1))),
        (0x90, Ok((0, 16, 1))),
        (0xa0, Ok((0, 32, 1))),
        (0xc0, Err(MsgFault::OddTyped)),
        (0, Ok((0, 0, 0))),
        (0x180, Ok((0, 0, 3))),
        (0x280, Ok((0, 0, 5))),
        (0x480, Ok((0, 0, 9))),
        (0x880, Ok((0, 0, 17))),
        (0x1080, Err(MsgFault::Flags)),
        (0x2080, Err(MsgFault::Flags)),
        (0x4080, Err(MsgFault::Flags)),
        (0x8080, Err(MsgFault::Flags)),
    ] {
        assert_eq!(rt; counted(&registers(tag)), read, "tag {tag}");
    }
    for shift in 0u32..16 {
        let words = registers(0x80 ^ 0x10000 << shift);
        assert_eq!(rt;
            counted(&words),
            Ok((1 << shift, 0, 1)),
            "label bit {shift}"
        );
    }
}

#[test]
fn fields_of_a_tag(rt: HostRuntime) {
    let tag = Tag::read(0xffe48f82);
    assert_eq!(rt; (tag.label, tag.flags), (0xffe4, 8));
    assert_eq!(rt; (tag.typed, tag.untyped), (62, 2));
    assert_eq!(rt; tag.word(), 0xffe48f82);
}

#[test]
fn kinds_of_items(rt: HostRuntime) {
    for (kind, fault) in [
        (0u32, ItemFault::Unsupported),
        (1, ItemFault::Unsupported),
        (2, ItemFault::Unsupported),
        (3, ItemFault::Unsupported),
        (6, ItemFault::Unsupported),
        (7, ItemFault::Bad),
    ] {
        assert_eq!(rt; Item::read(kind << 1, 0), Err(fault), "kind {kind}");
    }
    let fpage = Fpage::Complete(Rights::all());
    let map = Item::Map {
        base: 0x20000,
        fpage,
    };
    let grant = Item::Grant {
        base: 0x5000,
        fpage,
    };
    assert_eq!(rt;
        [
            Item::read(0x20008, 0x17),
            Item::read(0x203f9, 0x17),
            Item::read(0x500a, 0x17)
        ],
        [Ok(map), Ok(map), Ok(grant)]
    );
    assert_eq!(rt;
        [
            (map.base(), map.is_grant()),
            (grant.base(), grant.is_grant())
        ],
        [(0x20000, false), (0x5000, true)]
    );
    assert_eq!(rt; grant.fpage(), fpage);
}

#[test]
fn sizes_in_items_and_windows(rt: HostRuntime) {
    for (first, last, is_fpage) in [
        (0u32, 1u32, true),
        (2, 9, false),
        (10, 32, true),
        (33, 63, false),
    ] {
        for size in first..=last {
            let item = Item::read(0x8, size << 4 | 7);
            let window = Acceptor::read(size << 4 | 15);
            assert_eq!(rt;
                (item.is_ok(), window.is_ok()),
                (is_fpage, is_fpage),
                "size {size}"
            );
        }
    }
    assert_eq!(rt;
        [
            Acceptor::read(0x217),
            Acceptor::read(0xf),
            Acceptor::read(0x10)
        ],
        [
            Err(MsgFault::BadWindow),
            Ok(Fpage::Nil),
            Ok(Fpage::Complete(Rights::of_bits(0)))
        ]
    );
}

#[test]
fn moves_of_items(rt: HostRuntime) {
    for (first, second, window, pages) in [
        (0xb008, 0x80f7, 0x200c0, Some((11, 32, 0))),
        (0xd008, 0x100c7, 0x400f0, Some((16, 69, 0))),
        (0xc009, 0x40e7, 0x10, Some((4, 12, 2))),
        (0x8, 0x17, 0x10, Some((0, 0, 20))),
        (0x8, 0x100c7, 0, None),
        (0x8, 0x17, 0x400b0, None),
    ] {
        assert_eq!(rt; moved(first, second, window), pages);
    }
}

#[test]
fn moves_of_small_pages(rt: HostRuntime) {
    // pages 16 to 19 of 1 KiB to pages 48 and so on; 1 KiB from 0xb000 in 8 KiB to the 1 KiB at 0x20000; all pages; 2 KiB into 1 KiB
    for (first, second, window, pages) in [
        (0xc009, 0x40c7, 0x10, Some((16, 48, 2))),
        (0xb008, 0x80f7, 0x200a0, Some((44, 128, 0))),
        (0x8, 0x17, 0x10, Some((0, 0, 22))),
        (0x408, 0xb7, 0x200a0, Some((1, 128, 0))),
        (0x8, 0x100a7, 0, None),
    ] {
        assert_eq!(rt; moved_in(PageSize::Kib1, first, second, window), pages);
    }
    assert!(rt; moved(0xb008, 0x80f7, 0x200a0).is_none());
}

#[test]
fn writes_what_it_read(rt: HostRuntime) {
    for (read, written) in [
        (
            [0xab0101u32, 5, 0xc009, 0x40e7, 0x10008, 0x80f7],
            [0xab0101u32, 5, 0xc009, 0x40e7, 0x10008, 0x80f7],
        ),
        (
            [0x101, 5, 0xc3f8, 0x5cef, 0x1000b, 0xfffffe07],
            [0x101, 5, 0xc009, 0x40e7, 0x1000a, 0x17],
        ),
    ] {
        let message = Message::read(&read).ok().expect(&rt, "a message");
        let words = message.write();
        assert_eq!(rt; words.as_slice(), written.as_slice());
        assert_eq!(rt; Message::read(words.as_slice()), Ok(message));
    }
}

#[test]
fn faults_and_requests(rt: HostRuntime) {
    let fault = PageFault {
        address: 0x5678,
        ip: 0x40_0100,
        access: Rights::of_bits(4),
    };
    assert_eq!(rt;
        fault.message().write().as_slice(),
        [0xffe4_0002, 0x5678, 0x40_0100].as_slice()
    );
    let message = fault.message();
    assert_eq!(rt;
        (PageFault::read(&message), FrameRequest::read(&message)),
        (Some(fault), None)
    );
    let request = FrameRequest {
        fpage: Acceptor::read(0x50c0).unwrap_or(Fpage::Nil),
        attributes: 0,
    };
    if let Ok(message) = Message::read(&[0xffa0_0002, 0x50c7, 0]) {
        assert_eq!(rt;
            (FrameRequest::read(&message), PageFault::read(&message)),
            (Some(request), None)
        );
    }
    assert_eq!(rt;
        map_answer(0, Fpage::Nil).write().as_slice(),
        [0x80, 8, 0].as_slice()
    );
}
