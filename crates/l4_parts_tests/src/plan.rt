use arrayvec::ArrayVec;
use l4_fpage::{PageSize, Rights};
use l4_msg::{MAX_ITEMS, Region};
use l4_plan::{Plan, PlanRefusal, TOO_MANY, plan};

/// Returns a region with all rights.
fn region(source: u32, target: u32, count: u32) -> Region {
    Region {
        source,
        target,
        count,
        rights: Rights::all(),
    }
}

fn planned(source: u32, target: u32, count: u32) -> Option<Plan> {
    plan(&region(source, target, count), PageSize::Kib4).ok()
}

/// Returns the word of the plan's message with this number, at this place.
fn word(plan: &Plan, number: u32, place: usize) -> Option<u32> {
    match plan.message(number) {
        Ok(message) => message.write().get(place).copied(),
        Err(_) => None,
    }
}

/// Returns the requested number of pages of a region that is too long.
fn too_long(source: u32, target: u32, count: u32) -> Option<ArrayVec<u32, TOO_MANY>> {
    let Err(PlanRefusal::TooLong(pages)) = plan(&region(source, target, count), PageSize::Kib4)
    else {
        return None;
    };
    let mut list = ArrayVec::new();
    for page in pages {
        if list.is_full() {
            return None;
        }
        list.push(page);
    }
    Some(list)
}

#[test]
fn one_page(rt: HostRuntime) {
    let plan = planned(16, 32, 1).expect(&rt, "a plan");
    let message = plan.only().ok().expect(&rt, "a message");
    assert_eq!(rt;
        message.write().as_slice(),
        [0x80, 0x0002_0008, 0x0001_00c7].as_slice()
    );
    assert_eq!(rt; plan.pages_of(0).as_slice(), [16].as_slice());
}

#[test]
fn two_items(rt: HostRuntime) {
    let plan = planned(4, 12, 12).expect(&rt, "a plan");
    assert_eq!(rt; plan.len(), 2);
    let message = plan.only().ok().expect(&rt, "a message");
    assert_eq!(rt;
        message.write().as_slice(),
        [0x100, 0xc009, 0x40e7, 0x0001_0008, 0x80f7].as_slice()
    );
    assert_eq!(rt; plan.pages_of(0).as_slice(), [4, 8].as_slice());
}

#[test]
fn whole_space(rt: HostRuntime) {
    let plan = planned(0, 0, 1_048_576).expect(&rt, "a plan");
    assert_eq!(rt;
        [word(&plan, 0, 0), word(&plan, 0, 1), word(&plan, 0, 2)],
        [Some(0x80), Some(0x8), Some(0x17)]
    );
}

#[test]
fn a_page_more_than_a_message_holds(rt: HostRuntime) {
    let plan = planned(0, 1, 32).expect(&rt, "a plan");
    assert_eq!(rt; plan.messages(), 2);
    assert_eq!(rt;
        [word(&plan, 0, 0), word(&plan, 0, 61), word(&plan, 0, 62)],
        [Some(0xf80), Some(0x0001_f008), Some(0x0001_e0c7)]
    );
    assert_eq!(rt;
        [
            word(&plan, 1, 0),
            word(&plan, 1, 1),
            word(&plan, 1, 2),
            word(&plan, 2, 0)
        ],
        [Some(0x80), Some(0x0002_0008), Some(0x0001_f0c7), None]
    );
    assert_eq!(rt; plan.pages_of(1).as_slice(), [31].as_slice());
    assert!(rt; plan.pages_of(2).is_empty());
    assert!(rt; plan.pages_of(0xffff_ffff).is_empty());
    assert!(rt; matches!(plan.only(), Err(PlanRefusal::Several(2))));
    assert!(rt; matches!(plan.message(2), Err(PlanRefusal::NoPart(2))));
}

#[test]
fn blocks_that_grow_and_shrink(rt: HostRuntime) {
    let plan = planned(1, 1, 131_070).expect(&rt, "a plan");
    assert_eq!(rt; plan.messages(), 2);
    assert_eq!(rt;
        [word(&plan, 0, 61), word(&plan, 0, 62)],
        [Some(0x1fff_c008), Some(0x1fff_c0d7)]
    );
    assert_eq!(rt;
        [word(&plan, 1, 0), word(&plan, 1, 1), word(&plan, 1, 2)],
        [Some(0x80), Some(0x1fff_e008), Some(0x1fff_e0c7)]
    );
    assert_eq!(rt;
        [
            plan.pages_of(0).last().copied(),
            plan.pages_of(1).last().copied()
        ],
        [Some(131_068), Some(131_070)]
    );
    assert_eq!(rt;
        planned(1, 1, 98_302).expect(&rt, "a plan").len(),
        MAX_ITEMS
    );
}

#[test]
fn as_many_messages_as_there_may_be(rt: HostRuntime) {
    let plan = planned(0, 1, 1984).expect(&rt, "a plan");
    assert_eq!(rt; plan.messages(), 64);
    for number in 0..64 {
        assert_eq!(rt; word(&plan, number, 0), Some(0xf80));
        assert_eq!(rt; plan.pages_of(number).get(0).copied(), Some(31 * number));
    }
    assert_eq!(rt; plan.pages().count(), 1984);
}

#[test]
fn too_long_for_single_pages(rt: HostRuntime) {
    let pages = too_long(0, 1, 1985).expect(&rt, "too long");
    assert_eq!(rt; pages.len(), TOO_MANY);
    for (i, page) in pages.iter().enumerate() {
        assert_eq!(rt; *page as usize, i);
    }
}

#[test]
fn refusals(rt: HostRuntime) {
    for (size, last) in [(PageSize::Kib4, 1_048_575), (PageSize::Kib1, 4_194_303)] {
        assert!(rt; matches!(plan(&region(0, 0, 0), size), Err(PlanRefusal::Empty)));
        assert!(rt;
            matches!(
                plan(&region(last, 0, 2), size),
                Err(PlanRefusal::OutOfSpace)
            )
        );
        assert!(rt; plan(&region(last, 0, 1), size).is_ok());
        let none = Region {
            source: 0,
            target: 0,
            count: 1,
            rights: Rights::of_bits(0),
        };
        assert!(rt; matches!(plan(&none, size), Err(PlanRefusal::NoRights)));
    }
}

#[test]
fn small_pages(rt: HostRuntime) {
    let plan = plan(&region(16, 32, 1), PageSize::Kib1)
        .ok()
        .expect(&rt, "a plan");
    let message = plan.only().ok().expect(&rt, "a message");
    assert_eq!(rt;
        message.write().as_slice(),
        [0x80, 0x8008, 0x40a7].as_slice()
    );
    assert_eq!(rt; plan.pages_of(0).as_slice(), [16].as_slice());
}

#[test]
fn whole_space_of_small_pages(rt: HostRuntime) {
    let plan = plan(&region(0, 0, 4_194_304), PageSize::Kib1)
        .ok()
        .expect(&rt, "a plan");
    let message = plan.only().ok().expect(&rt, "a message");
    assert_eq!(rt; message.write().as_slice(), [0x80, 0x8, 0x17].as_slice());
    assert_eq!(rt; plan.pages_of(0).as_slice(), [0].as_slice());
}

#[test]
fn small_pages_in_two_messages(rt: HostRuntime) {
    let plan = plan(&region(0, 1, 32), PageSize::Kib1)
        .ok()
        .expect(&rt, "a plan");
    assert_eq!(rt; plan.messages(), 2);
    assert_eq!(rt;
        [word(&plan, 0, 0), word(&plan, 0, 61), word(&plan, 0, 62)],
        [Some(0xf80), Some(0x7c08), Some(0x78a7)]
    );
    assert_eq!(rt;
        [word(&plan, 1, 0), word(&plan, 1, 1), word(&plan, 1, 2)],
        [Some(0x80), Some(0x8008), Some(0x7ca7)]
    );
}
