use l4_forest::{Cause, Forest, ItemMove, Mapping, NoMemory, Place};
use l4_fpage::{Block, Rights};
use l4_msg::Move;
use std::test::Fail;

/// What a page shows that no page was moved to.
fn root(frame: u32, rights: Rights) -> Mapping {
    Mapping {
        frame,
        rights,
        parent: None,
    }
}

/// Returns an item that maps page 5 to page 5.
fn onto_itself() -> ItemMove {
    ItemMove {
        mv: Move {
            source: Block { first: 5, log: 0 },
            target: Block { first: 5, log: 0 },
        },
        rights: Rights::all(),
        grant: false,
    }
}

#[test]
fn starts_with_frames(rt: HostRuntime) {
    let forest = Forest::new(rt.alloc(), 256).expect(&rt, "memory");
    assert_eq!(rt;
        [forest.at(0, 255), forest.at(0, 256)],
        [Some(root(255, Rights::all())), None]
    );
    assert_eq!(rt;
        [
            forest.next_present(0, 16),
            forest.next_present(0, 256),
            forest.next_present(2, 0)
        ],
        [Some(16), None, None]
    );
    forest.law_forest();
}

#[test]
fn revokes_and_tangles(rt: HostRuntime) {
    let mut forest = Forest::new(rt.alloc(), 256).expect(&rt, "memory");
    assert_eq!(rt;
        [forest.root(5), forest.root(256)],
        [Some(Place { space: 0, page: 5 }), None]
    );
    let onto_itself = [onto_itself()];
    assert!(rt; matches!(forest.map_all(0, 0, &onto_itself), Err(Cause::Entangled)));
    forest.revoke(Place { space: 0, page: 5 }, Rights::of_bits(2), true);
    assert_eq!(rt; forest.at(0, 5), Some(root(5, Rights::of_bits(5))));
    forest.revoke(Place { space: 0, page: 5 }, Rights::all(), true);
    assert_eq!(rt; forest.at(0, 5), None);
}

#[test]
fn ends_a_space(rt: HostRuntime) -> Result<(), Fail> {
    let mut forest = Forest::new(rt.alloc(), 256)?;
    forest.new_space(2)?;
    forest.new_space(3)?;
    let page = [onto_itself()];
    match forest.map_all(0, 2, &page) {
        Ok(()) => {}
        Err(_) => return Err(NoMemory.into()),
    }
    match forest.map_all(2, 3, &page) {
        Ok(()) => {}
        Err(_) => return Err(NoMemory.into()),
    }
    assert_eq!(rt;
        [forest.next_present(2, 0), forest.next_present(3, 0)],
        [Some(5), Some(5)]
    );
    forest.end_space(2);
    assert_eq!(rt;
        [forest.at(0, 5), forest.at(2, 5), forest.at(3, 5)],
        [Some(root(5, Rights::all())), None, None]
    );
    assert_eq!(rt;
        [forest.next_present(2, 0), forest.next_present(3, 0)],
        [None, None]
    );
    Ok(())
}

/// Returns an item that moves page 5 to page 9.
fn page(grant: bool, rights: Rights) -> ItemMove {
    ItemMove {
        mv: Move {
            source: Block { first: 5, log: 0 },
            target: Block { first: 9, log: 0 },
        },
        rights,
        grant,
    }
}

/// A page of space 0 that is granted to space 2 leaves its children with the rights of the item.
#[test]
fn grants_a_page_with_a_child(rt: HostRuntime) -> Result<(), Fail> {
    let mut forest = Forest::new(rt.alloc(), 256)?;
    forest.new_space(2)?;
    forest.new_space(3)?;
    match forest.map_all(0, 3, &[page(false, Rights::all())]) {
        Ok(()) => {}
        Err(_) => return Err(NoMemory.into()),
    }
    match forest.map_all(0, 2, &[page(true, Rights::of_bits(5))]) {
        Ok(()) => {}
        Err(_) => return Err(NoMemory.into()),
    }
    let granted = Place { space: 2, page: 9 };
    let child = Mapping {
        frame: 5,
        rights: Rights::of_bits(5),
        parent: Some(granted),
    };
    assert_eq!(rt; [forest.at(0, 5), forest.at(3, 9)], [None, Some(child)]);
    assert_eq!(rt; forest.root(5), Some(granted));
    Ok(())
}
