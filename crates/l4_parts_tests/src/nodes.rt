ghost use Rattle.std.specs.Prelude.{◌≡◌};

use l4_fpage::Rights;
use l4_nodes::{Node, Place, Slots, node_of, place_of, see};
use l4_spaces::{Link, NoMemory};

/// Returns the top of a tree that shows the frame with all rights, and has no neighbours.
fn top(frame: u32) -> Node
    ensures { result.depth ≡ 0 }
{
    let none = Link::none();
    Node {
        frame,
        rights: Rights::all(),
        source: false,
        granted: None,
        depth: 0,
        seen: 0,
        mark: 0,
        end: none,
        parent: none,
        prev: none,
        next: none,
        doomed: none,
    }
}

/// Returns a blank at page 5 and a node at page 6 of space 3.
fn blank_and_node(slots: &mut Slots) -> Result<[usize; 2], NoMemory> {
    slots.make_room(1)?;
    let blank = slots.insert_blank(Place { space: 3, page: 5 });
    slots.make_room(1)?;
    let node = slots.insert_node(Place { space: 3, page: 6 }, top(9));
    Ok([blank, node])
}

/// Returns the frame of the node under the key, and the stamp of the last walk that has come by it.
fn shown(slots: &Slots, key: usize) -> Option<(u32, u32)> {
    let Some(node) = node_of(slots, key) else {
        return None;
    };
    Some((node.frame, node.seen))
}

#[test]
fn slots_hold_blanks_and_nodes(rt: HostRuntime) {
    let mut slots = Slots::new(rt.alloc());
    let [blank, node] = blank_and_node(&mut slots).expect(&rt, "memory");
    let pages = [place_of(&slots, blank), place_of(&slots, node)];
    let wanted = [
        Some(Place { space: 3, page: 5 }),
        Some(Place { space: 3, page: 6 }),
    ];
    assert_eq!(rt; pages, wanted);
    see(&mut slots, node, 7);
    let copy = slots.copy().expect(&rt, "memory");
    slots.clear_notes();
    // what is noted in the one is not seen in the other
    assert_eq!(rt;
        [shown(&slots, node), shown(&copy, node)],
        [Some((9, 0)), Some((9, 7))]
    );
    assert_eq!(rt; shown(&slots, blank), None);
    slots.remove(node);
    assert_eq!(rt;
        [place_of(&slots, node), place_of(&copy, node)],
        [None, wanted[1]]
    );
}
