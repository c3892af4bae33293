use l4_fpage::{Block, Fpage, PageSize, Rights};

/// Returns the base, the log and the bits of the rights of a word that is read as a sized fpage.
fn sized(word: u32) -> Option<(u32, u8, u8)> {
    match Fpage::read(word) {
        Ok(Fpage::Sized(extent)) => Some((extent.base, extent.log, extent.rights.bits())),
        _ => None,
    }
}

/// What the word of a word's fpage is.
fn rewritten(word: u32) -> Option<u32> {
    Some(Fpage::read(word).ok()?.word())
}

/// Returns the block of a word's fpage, of pages of this size.
fn pages(word: u32, size: PageSize) -> Option<(u32, u8)> {
    let block = Fpage::read(word).ok()?.pages(size)?;
    Some((block.first, block.log))
}

#[test]
fn words_of_fpages(rt: HostRuntime) {
    assert_eq!(rt;
        [sized(0x5ce7), sized(0x100cf), sized(0xb7)],
        [Some((0x4000, 14, 7)), sized(0x100c7), Some((0, 11, 7))]
    );
    assert_eq!(rt;
        [rewritten(0x5ce7), rewritten(0x207), rewritten(0xfffffc07)],
        [Some(0x40e7), Some(0x17), Some(0)]
    );
    assert_eq!(rt; Fpage::read(0x207), Ok(Fpage::Complete(Rights::all())));
    assert!(rt; Fpage::read(0x217).is_err());
}

#[test]
fn pages_of_fpages(rt: HostRuntime) {
    for (word, large, small) in [
        (0xb7, None, Some((0, 1))),
        (0x0, None, None),
        (0x54a7, None, Some((21, 0))),
        (0x100c7, Some((16, 0)), Some((64, 2))),
        (0x40e7, Some((4, 2)), Some((16, 4))),
        (0x80f7, Some((8, 3)), Some((32, 5))),
        (0x17, Some((0, 20)), Some((0, 22))),
        (0x80001b7, Some((32768, 15)), Some((131072, 17))),
    ] {
        assert_eq!(rt;
            [pages(word, PageSize::Kib4), pages(word, PageSize::Kib1)],
            [large, small]
        );
    }
}

#[test]
fn sizes_of_words(rt: HostRuntime) {
    for (first, last, is_fpage, is_sized) in [
        (0u32, 1u32, true, false),
        (2, 9, false, false),
        (10, 31, true, true),
        (32, 32, true, false),
        (33, 63, false, false),
    ] {
        for size in first..=last {
            let word = size << 4 | 7;
            assert_eq!(rt;
                (Fpage::read(word).is_ok(), sized(word).is_some()),
                (is_fpage, is_sized),
                "size {size}"
            );
        }
    }
    assert!(rt; Fpage::read(0x417).is_err());
}

#[test]
fn blocks(rt: HostRuntime) {
    for (first, log, is_block) in [
        (0u32, 20u8, true),
        (4, 2, true),
        (6, 2, false),
        (0, 22, true),
        (4194303, 0, true),
        (4194304, 0, false),
        (0, 23, false),
    ] {
        assert_eq!(rt; Block::new(first, log).is_some(), is_block, "{first} {log}");
    }
    for (a, b, first, log) in [
        (5u32, 5u32, 5u32, 0u8),
        (4, 7, 4, 2),
        (7, 8, 0, 4),
        (0, 1048575, 0, 20),
        (0, 4194303, 0, 22),
    ] {
        let block = Block::join(a % 4194304, b % 4194304);
        assert_eq!(rt; (block.first, block.log), (first, log));
        assert!(rt; block.contains(a));
    }
}

/// Returns the pages that two blocks have in common.
fn common(left: Option<Block>, right: Option<Block>) -> Option<Block> {
    left?.intersection(right?)
}

#[test]
fn common_pages_of_blocks(rt: HostRuntime) {
    let small = Block::new(4, 1);
    let large = Block::new(0, 3);
    let apart = Block::new(8, 3);
    assert_eq!(rt;
        [
            common(small, large),
            common(large, small),
            common(large, apart)
        ],
        [small, small, None]
    );
}

/// Returns the word of the fpage of the block's pages of this size with all rights, where a space has these pages.
fn word_of(block: Option<Block>, size: PageSize) -> Option<u32> {
    let block = block?;
    if !block.lies_in(size) {
        return None;
    }
    Some(Fpage::of_block(block, size, Rights::all()).word())
}

#[test]
fn words_of_blocks(rt: HostRuntime) {
    for (first, log, large, small) in [
        (16, 0, Some(0x100c7), Some(0x40a7)),
        (0, 20, Some(0x17), Some(0x1e7)),
        (0, 22, None, Some(0x17)),
        (0x10_0000, 0, None, Some(0x4000_00a7)),
    ] {
        let block = Block::new(first, log);
        assert_eq!(rt;
            [
                word_of(block, PageSize::Kib4),
                word_of(block, PageSize::Kib1)
            ],
            [large, small]
        );
    }
}

#[test]
fn sets_of_rights(rt: HostRuntime) {
    let read_write = Rights::of_bits(6);
    let execute = Rights::of_bits(9);
    assert_eq!(rt; (execute.bits(), Rights::each().len()), (1, 3));
    assert_eq!(rt;
        [
            read_write.union(execute),
            Rights::all().difference(execute),
            Rights::R.union(Rights::W),
            Rights::X,
            Fpage::Complete(execute).rights()
        ],
        [Rights::all(), read_write, read_write, execute, execute]
    );
    assert!(rt; read_write.intersection(execute).is_empty());
    assert!(rt; Rights::all().contains(execute));
    assert!(rt; !execute.contains(read_write));
}
