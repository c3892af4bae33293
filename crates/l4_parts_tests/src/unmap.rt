use l4_forest::{Forest, ItemMove, Mapping, NoMemory, Place};
use l4_fpage::{Block, PageSize, Rights};
use l4_msg::Move;
use l4_unmap::{UnmapFault, unmap};
use std::alloc::Global;

/// Returns the forest in which the pages 6 and 7 of space 2 are mapped from sigma0's 254 and 255 with all rights.
fn mapped(alloc: Global) -> Result<Forest, NoMemory> {
    let mut forest = Forest::new(alloc, 256)?;
    forest.new_space(2)?;
    let item = ItemMove {
        mv: Move {
            source: Block { first: 254, log: 1 },
            target: Block { first: 6, log: 1 },
        },
        rights: Rights::all(),
        grant: false,
    };
    match forest.map_all(0, 2, &[item]) {
        Ok(()) => Ok(forest),
        Err(_) => Err(NoMemory),
    }
}

/// What a page that is mapped from sigma0's of this number shows.
fn child(frame: u32, rights: Rights) -> Option<Mapping> {
    Some(Mapping {
        frame,
        rights,
        parent: Some(Place {
            space: 0,
            page: frame,
        }),
    })
}

#[test]
fn takes_what_two_fpages_name(rt: HostRuntime) {
    let mut forest = mapped(rt.alloc()).expect(&rt, "memory");
    let own = forest.at(0, 255);

    // to write page 254 and 255, to read page 255 alone, and a word that isn't counted
    let words = [0xf_e0d2, 0xf_f0c4, 0x20];
    assert_eq!(rt; unmap(&mut forest, 0, PageSize::Kib4, 1, &words), Ok(()));
    assert_eq!(rt;
        [forest.at(2, 6), forest.at(2, 7), forest.at(0, 255)],
        [
            child(254, Rights::of_bits(5)),
            child(255, Rights::of_bits(1)),
            own
        ]
    );

    // all rights of the complete fpage, by the child, which loses nothing of its own
    assert_eq!(rt; unmap(&mut forest, 2, PageSize::Kib4, 0, &[0x17]), Ok(()));
    assert_eq!(rt; forest.at(2, 6), child(254, Rights::of_bits(5)));
}

#[test]
fn takes_own_pages_too(rt: HostRuntime) {
    let mut forest = mapped(rt.alloc()).expect(&rt, "memory");

    // the nil fpage, and all rights of the pages from 128 on
    assert_eq!(rt;
        unmap(&mut forest, 0, PageSize::Kib4, 0x41, &[7, 0x8_0137]),
        Ok(())
    );
    assert_eq!(rt;
        [
            forest.next_present(0, 127),
            forest.next_present(0, 128),
            forest.next_present(2, 0)
        ],
        [Some(127), None, None]
    );
}

#[test]
fn takes_small_pages(rt: HostRuntime) {
    let mut forest = mapped(rt.alloc()).expect(&rt, "memory");

    // to write the page of 1 KiB at 0x3fc00, which is 255
    assert_eq!(rt;
        unmap(&mut forest, 0, PageSize::Kib1, 0, &[0x3_fca2]),
        Ok(())
    );
    assert_eq!(rt;
        [forest.at(2, 6), forest.at(2, 7)],
        [child(254, Rights::all()), child(255, Rights::of_bits(5))]
    );
}

#[test]
fn refusals(rt: HostRuntime) {
    let mut forest = mapped(rt.alloc()).expect(&rt, "memory");
    let cases = [
        (0x42, UnmapFault::TooFew),
        (0x7f, UnmapFault::TooFew),
        (0x41, UnmapFault::BadFpage(1)),
    ];
    for (control, fault) in cases {
        let result = unmap(&mut forest, 0, PageSize::Kib4, control, &[0x17, 0x21]);
        assert_eq!(rt; result, Err(fault), "at {control}");
    }
    assert_eq!(rt; forest.at(2, 7), child(255, Rights::of_bits(7)));
}
