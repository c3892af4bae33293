ghost use Rattle.std.specs.Prelude.{All};
ghost use Rattle.l4_spaces.specs.Keys.{IsKey};
ghost use Rattle.l4_spaces.specs.Tables.{IsSpace, IsPage};

use l4_spaces::tables::{clear, key_in};
use l4_spaces::{NoMemory, Spaces};
use std::test::Fail;

/// Sets each of the pages: after `prepare` none of it can fail.
fn fill(spaces: &mut Spaces, space: u64, pages: &[u32]) -> Result<(), NoMemory>
    requires there { IsSpace spaces.old space }
    requires fit { All IsPage pages.now }
{
    spaces.prepare(space, pages)?;
    for page in pages {
        spaces.set(space, *page, 1);
    }
    Ok(())
}

#[test]
fn fills_a_space(rt: HostRuntime) -> Result<(), Fail> {
    let mut spaces = Spaces::new(rt.alloc());
    spaces.add(4)?;
    let pages = [8, 2, 8, 4_194_303, 0];
    fill(&mut spaces, 4, pages.as_slice())?;
    for page in pages {
        assert_eq!(rt; spaces.get(4, page), Some(1), "page {page}");
    }
    assert_eq!(rt; spaces.next_present(4, 9), Some(4_194_303));
    Ok(())
}

#[test]
fn keeps_pages(rt: HostRuntime) -> Result<(), Fail> {
    let mut spaces = Spaces::new(rt.alloc());
    assert!(rt; !spaces.has(7));
    spaces.add(7)?;
    spaces.prepare(7, &[5, 3, 2000])?;
    spaces.set(7, 5, 50);
    spaces.set(7, 3, 30);
    spaces.set(7, 5, 51);
    assert_eq!(rt;
        [
            spaces.get(7, 3),
            spaces.get(7, 5),
            spaces.get(7, 4),
            spaces.get(8, 5)
        ],
        [Some(30), Some(51), None, None]
    );
    for (page, next) in [
        (0, Some(3)),
        (3, Some(3)),
        (4, Some(5)),
        (5, Some(5)),
        (6, None),
    ] {
        assert_eq!(rt; spaces.next_present(7, page), next, "from {page}");
    }
    assert_eq!(rt; spaces.next_node(7, 4, 6), Some((5, 51)));
    assert_eq!(rt; spaces.next_node(7, 4, 5), None);
    assert_eq!(rt; spaces.next_present(6, 0), None);
    spaces.clear(7, 3);
    spaces.clear(7, 4);
    assert_eq!(rt; spaces.next_present(7, 0), Some(5));
    spaces.remove(7);
    assert_eq!(rt; (spaces.has(7), spaces.get(7, 5)), (false, None));
    Ok(())
}

/// Sets a page of the space, which is added if it is not there.
fn put(spaces: &mut Spaces, space: u64, page: u32, key: usize) -> Result<(), NoMemory>
    requires fits { IsPage page }
    requires few { IsKey key }
{
    spaces.add(space)?;
    spaces.prepare(space, &[page])?;
    spaces.set(space, page, key);
    Ok(())
}

/// Removes the key of the page while the tables of the space are aside.
fn clear_aside(spaces: &mut Spaces, space: u64, page: u32)
    requires there { IsSpace spaces.old space }
{
    let mut tables = spaces.take_tables(space);
    clear(&mut tables, page);
    spaces.put_tables(space, tables);
}

#[test]
fn has_no_pages_while_its_tables_are_aside(rt: HostRuntime) -> Result<(), Fail> {
    let mut spaces = Spaces::new(rt.alloc());
    spaces.add(7)?;
    fill(&mut spaces, 7, &[5, 2050])?;
    spaces.add(7)?;
    let tables = spaces.take_tables(7);
    assert_eq!(rt;
        [key_in(&tables, 5), key_in(&tables, 2050), spaces.get(7, 5)],
        [Some(1), Some(1), None]
    );
    Ok(())
}

#[test]
fn gets_its_tables_back(rt: HostRuntime) -> Result<(), Fail> {
    let mut spaces = Spaces::new(rt.alloc());
    spaces.add(7)?;
    fill(&mut spaces, 7, &[5, 2050])?;
    spaces.add(7)?;
    clear_aside(&mut spaces, 7, 5);
    assert_eq!(rt; [spaces.get(7, 5), spaces.get(7, 2050)], [None, Some(1)]);
    Ok(())
}

#[test]
fn claims_absent_pages(rt: HostRuntime) -> Result<(), Fail> {
    let mut spaces = Spaces::new(rt.alloc());
    spaces.add(7)?;
    let first = spaces.claim(7, 5, 50)?;
    let again = spaces.claim(7, 5, 51)?;
    let in_a_second_table = spaces.claim(7, 3000, 20)?;
    assert_eq!(rt; [first, again, in_a_second_table], [true, false, true]);
    assert_eq!(rt;
        [
            spaces.get(7, 5),
            spaces.get(7, 4),
            spaces.get(7, 3000),
            spaces.get(7, 3001)
        ],
        [Some(50), None, Some(20), None]
    );
    assert_eq!(rt; spaces.next_present(7, 6), Some(3000));
    Ok(())
}

#[test]
fn keeps_great_keys(rt: HostRuntime) -> Result<(), Fail> {
    let mut spaces = Spaces::new(rt.alloc());
    put(&mut spaces, 7, 9, 2_147_483_648)?;
    put(&mut spaces, 7, 3, 4_294_967_294)?;
    put(&mut spaces, 7, 8, 4_294_967_293)?;
    spaces.clear(7, 8);
    assert_eq!(rt;
        [
            spaces.get(7, 9),
            spaces.get(7, 3),
            spaces.get(7, 8),
            spaces.get(7, 4)
        ],
        [Some(2_147_483_648), Some(4_294_967_294), None, None]
    );
    Ok(())
}

#[test]
fn gives_the_next_table(rt: HostRuntime) -> Result<(), Fail> {
    let mut spaces = Spaces::new(rt.alloc());
    put(&mut spaces, 7, 3027, 9)?;
    let (start, row) = spaces.next_table(7, 4, 8192).expect(&rt, "a table");
    assert_eq!(rt; (start, row.len(), row.at(979)), (2048, 2048, Some(9)));
    assert!(rt; spaces.next_table(7, 4, 2048).is_none());
    Ok(())
}
