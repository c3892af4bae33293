use arrayvec::ArrayVec;
use l4_fpage::{PageSize, Rights};
use l4_msg::{Item, MAX_ITEMS, Message, Region, TOO_MANY};
use l4_plan_check::{Fault, Proved, check, check_too_long};

/// Returns a region with all rights.
fn region(source: u32, target: u32, count: u32) -> Region {
    Region {
        source,
        target,
        count,
        rights: Rights::all(),
    }
}

/// Returns the items of a message.
fn items_of(words: &[u32]) -> Option<ArrayVec<Item, MAX_ITEMS>> {
    Some(Message::read(words).ok()?.items)
}

const TWO_ITEMS: [u32; 5] = [0x100, 0xc009, 0x40e7, 0x0001_0008, 0x80f7];

#[test]
fn accepts_a_plan(rt: HostRuntime) {
    let items = items_of(&TWO_ITEMS).expect(&rt, "a message");
    assert_eq!(rt;
        check(
            &region(4, 12, 12),
            PageSize::Kib4,
            items.as_slice(),
            &[4, 8]
        ),
        Ok(Proved)
    );
}

#[test]
fn names_the_first_fault(rt: HostRuntime) {
    let two = items_of(&TWO_ITEMS).expect(&rt, "a message");
    let items = two.as_slice();
    let whole = region(4, 12, 12);
    let empty = region(4, 12, 0);
    let read = Region {
        rights: Rights::of_bits(4),
        ..whole
    };
    assert_eq!(rt;
        [
            check(&empty, PageSize::Kib4, items, &[4, 8]),
            check(&read, PageSize::Kib4, items, &[4, 8]),
            check(&whole, PageSize::Kib4, items, &[4]),
            check(&whole, PageSize::Kib4, items, &[4, 16]),
            check(&whole, PageSize::Kib4, items, &[8, 9])
        ],
        [
            Err(Fault::Region),
            Err(Fault::Item(0)),
            Err(Fault::Count),
            Err(Fault::Page(1)),
            Err(Fault::Pair(1))
        ]
    );
}

#[test]
fn names_the_least_gap(rt: HostRuntime) {
    let items = items_of(&[0x80, 0xc008, 0x40e7]).expect(&rt, "a message");
    assert_eq!(rt;
        check(&region(4, 12, 12), PageSize::Kib4, items.as_slice(), &[4]),
        Err(Fault::Gap(8))
    );
}

#[test]
fn a_block_in_two_items_is_a_pair(rt: HostRuntime) {
    let items = items_of(&[0x100, 0x9, 0xc7, 0x1008, 0x10c7]).expect(&rt, "a message");
    assert_eq!(rt;
        check(&region(0, 0, 2), PageSize::Kib4, items.as_slice(), &[0, 1]),
        Err(Fault::Pair(1))
    );
}

#[test]
fn checks_that_a_plan_is_too_long(rt: HostRuntime) {
    let mut pages = [0; TOO_MANY];
    for (i, page) in pages.iter_mut().enumerate() {
        *page = i as u32;
    }
    assert_eq!(rt;
        [
            check_too_long(&region(0, 1, 1985), PageSize::Kib4, &pages),
            check_too_long(&region(0, 1, 0), PageSize::Kib4, &pages),
            check_too_long(&region(0, 1, 1985), PageSize::Kib4, &[0; 32]),
            check_too_long(&region(0, 1, 1984), PageSize::Kib4, &pages),
            check_too_long(&region(0, 0, 1985), PageSize::Kib4, &pages)
        ],
        [
            Ok(Proved),
            Err(Fault::Region),
            Err(Fault::Count),
            Err(Fault::Page(1984)),
            Err(Fault::Pair(1))
        ]
    );
}

#[test]
fn small_pages_are_pages_of_their_own(rt: HostRuntime) {
    let items = items_of(&[0x80, 0x8008, 0x40a7]).expect(&rt, "a message");
    let page = region(16, 32, 1);
    assert_eq!(rt;
        [
            check(&page, PageSize::Kib1, items.as_slice(), &[16]),
            check(&page, PageSize::Kib4, items.as_slice(), &[16]),
            check(
                &region(4_194_304, 0, 1),
                PageSize::Kib1,
                items.as_slice(),
                &[16]
            )
        ],
        [Ok(Proved), Err(Fault::Gap(16)), Err(Fault::Region)]
    );
}

#[test]
fn pages_that_fall_are_compared_with_each_earlier_one(rt: HostRuntime) {
    let mut pages = [0; TOO_MANY];
    for (i, page) in pages.iter_mut().enumerate() {
        *page = 1984 - i as u32;
    }
    assert_eq!(rt;
        check_too_long(&region(0, 1, 1985), PageSize::Kib4, &pages),
        Ok(Proved)
    );
    pages[1984] = 1984;
    assert_eq!(rt;
        check_too_long(&region(0, 1, 1985), PageSize::Kib4, &pages),
        Err(Fault::Pair(1984))
    );
}
