ghost use Rattle.std.specs.Prelude.{◌≡◌, ◌≤◌, ◌+◌, ◌-◌, IfOk, true};
ghost use Rattle.l4_spaces.specs.Tables.{IsPage};
ghost use Rattle.l4_links.specs.Entries.{IsBlank, HaveRights, IsPlain, ArePlain};

use l4_fpage::{Block, Rights};
use l4_links::{Entry, Links, NoMemory, Place, Standing};
use l4_msg::{ItemMove, Move};
use std::test::Fail;

/// Returns a page of space 0.
fn place(page: u32) -> Place {
    Place { space: 0, page }
}

/// Returns a blank at the page of space 0, which has no key yet.
fn blank(links: &mut Links, page: u32) -> Result<usize, NoMemory>
    requires { IsPage page }
    ensures { IfOk result (IsBlank links.new.entries) }
{
    links.add_space(0)?;
    let place = Place { space: 0, page };
    let None = links.find(place) else {
        return Err(NoMemory);
    };
    let key = links.add_blank(place)?;
    Ok(key)
}

/// Returns a child with all rights that its parent has, at the page.
fn child(links: &mut Links, parent: usize, page: u32) -> Result<usize, NoMemory>
    requires { IsPage page }
{
    let key = blank(links, page)?;
    let Some(above) = links.standing(parent) else {
        return Err(NoMemory);
    };
    if above.rights.is_empty() {
        return Err(NoMemory);
    }
    links.stand_under(parent, key, Rights::all());
    Ok(key)
}

/// Returns a root with all rights.
fn root(links: &mut Links, frame: u32) -> Result<usize, NoMemory>
    requires { IsPage frame }
{
    let key = blank(links, frame)?;
    links.stand_root(key, frame, Rights::all());
    Ok(key)
}

/// Lets what stands under the key take this page, which has no key yet.
fn grant(links: &mut Links, key: usize, page: u32, rights: Rights) -> Result<(), NoMemory>
    requires { IsPage page }
{
    let blank = blank(links, page)?;
    let Some(_) = links.standing(key) else {
        return Err(NoMemory);
    };
    links.take_over(key, blank, rights);
    Ok(())
}

/// Returns whether all that stands has a right.
fn have_rights(links: &Links) -> bool
    ensures { result ≡ true → HaveRights links.now.entries }
{
    for key in 0..links.bound() {
        if let Some(standing) = links.standing(key) {
            if standing.rights.is_empty() {
                return false;
            }
        }
    }
    true
}

/// Returns whether something stands there with a right, and without a mark.
fn is_plain(entry: &Entry) -> bool
    ensures { result ≡ true → IsPlain entry.now }
{
    let Some(standing) = entry.stands else {
        return false;
    };
    if entry.wanted || standing.source || standing.granted.is_some() {
        return false;
    }
    !standing.rights.is_empty()
}

/// Returns whether something stands at each page that has a key, with a right and without a mark.
fn are_plain(links: &Links) -> bool
    ensures { result ≡ true → ArePlain links.now.entries }
{
    for key in 0..links.bound() {
        if let Some(entry) = links.at(key) {
            if !is_plain(&entry) {
                return false;
            }
        }
    }
    true
}

/// Moves what is at the pages of a block of space 0 to the pages of a block of space 1, or adds children there. Returns whether this was done.
fn send(
    links: &mut Links,
    first: u32,
    target: u32,
    log: u8,
    rights: Rights,
    grant: bool,
) -> Result<bool, NoMemory> {
    links.add_space(1)?;
    let Some(source) = Block::new(first, log) else {
        return Err(NoMemory);
    };
    let Some(target) = Block::new(target, log) else {
        return Err(NoMemory);
    };
    if !are_plain(links) {
        return Err(NoMemory);
    }
    let item = ItemMove {
        mv: Move { source, target },
        rights,
        grant,
    };
    Ok(links.move_items(0, 1, &[item]))
}

/// Maps a page of space 0 to a page of space 1. Returns whether this was done.
fn map_away(links: &mut Links, page: u32, other: u32, rights: Rights) -> Result<bool, NoMemory> {
    send(links, page, other, 0, rights, false)
}

/// Grants the pages of a block of space 0 to space 1. Returns whether this was done.
fn move_away(
    links: &mut Links,
    first: u32,
    target: u32,
    log: u8,
    rights: Rights,
) -> Result<bool, NoMemory> {
    send(links, first, target, log, rights, true)
}

/// Clears the key, where all that stands has a right.
fn clear(links: &mut Links, key: usize) {
    if have_rights(links) {
        links.clear(key);
    }
}

/// Cuts off what descends from the key, where all that stands has a right.
fn cut_below(links: &mut Links, key: usize) {
    if have_rights(links) {
        links.cut_below(key);
    }
}

/// Returns the rights under the key, and the parent.
fn shown(links: &Links, key: usize) -> Option<(Rights, Option<usize>)> {
    let Some(standing) = links.standing(key) else {
        return None;
    };
    Some((standing.rights, standing.parent))
}

/// Returns whether these rights and parents stand under these keys.
fn stand_so(links: &Links, rows: &[(usize, u8, Option<usize>)]) -> bool {
    for (key, rights, parent) in rows {
        if shown(links, *key) != Some((Rights::of_bits(*rights), *parent)) {
            return false;
        }
    }
    true
}

/// Returns a root, a child of it, and a child of that one: the three keys from the top.
fn chain(links: &mut Links) -> Result<[usize; 3], NoMemory> {
    let top = root(links, 5)?;
    let middle = child(links, top, 10)?;
    let low = child(links, middle, 11)?;
    Ok([top, middle, low])
}

#[test]
fn caps_a_chain(rt: HostRuntime) {
    let mut links = Links::new(rt.alloc(), 3).expect(&rt, "memory");
    let [top, middle, low] = chain(&mut links).expect(&rt, "memory");
    links.cap_below(middle, Rights::of_bits(5));
    let rows = [
        (top, 7, None),
        (middle, 7, Some(top)),
        (low, 5, Some(middle)),
    ];
    assert!(rt; stand_so(&links, &rows));
    // the second walk passes by the run of the first, and caps what the first left
    links.cap_below(top, Rights::of_bits(5));
    assert!(rt; stand_so(&links, &[(middle, 5, Some(top))]));
    links.cap_tree(top, Rights::of_bits(3));
    assert!(rt; stand_so(&links, &[(top, 3, None), (low, 1, Some(middle))]));
}

/// Returns the entry of a page where nothing stands.
fn blank_entry(page: u32, wanted: bool) -> Option<Entry> {
    Some(Entry {
        place: place(page),
        wanted,
        stands: None,
    })
}

/// Returns a root with three children, of which the second has a child, and that one too: the keys in the order of their pages.
fn three_children(links: &mut Links) -> Result<[usize; 6], NoMemory> {
    let top = root(links, 5)?;
    let last = child(links, top, 10)?;
    let middle = child(links, top, 11)?;
    let low = child(links, middle, 12)?;
    let lowest = child(links, low, 13)?;
    let first = child(links, top, 14)?;
    Ok([top, last, middle, low, lowest, first])
}

#[test]
fn clears_a_node_in_the_middle(rt: HostRuntime) {
    let mut links = Links::new(rt.alloc(), 3).expect(&rt, "memory");
    let [top, last, gone, low, lowest, first] = three_children(&mut links).expect(&rt, "memory");
    links.set_wanted(lowest, true);
    clear(&mut links, gone);
    // a wanted page is left as a blank
    assert_eq!(rt;
        [links.at(gone), links.at(low), links.at(lowest)],
        [blank_entry(11, false), None, blank_entry(13, true)]
    );
    assert_eq!(rt;
        [links.find(place(12)), links.find(place(13))],
        [None, Some(lowest)]
    );
    // the list goes on from the node before the run to the one after it
    links.cap_below(top, Rights::of_bits(4));
    assert!(rt; stand_so(&links, &[(first, 4, Some(top)), (last, 4, Some(top))]));
}

#[test]
fn cuts_off_what_descends(rt: HostRuntime) {
    let mut links = Links::new(rt.alloc(), 3).expect(&rt, "memory");
    let [top, last, middle, low, lowest, first] = three_children(&mut links).expect(&rt, "memory");
    links.set_wanted(lowest, true);
    cut_below(&mut links, middle);
    // a wanted page is left as a blank
    assert_eq!(rt;
        [links.at(low), links.at(lowest)],
        [None, blank_entry(13, true)]
    );
    assert_eq!(rt;
        [
            links.find(place(11)),
            links.find(place(12)),
            links.find(place(13))
        ],
        [Some(middle), None, Some(lowest)]
    );
    // what stands under the key stays, and the list goes on from it to the node after the run
    links.cap_below(top, Rights::of_bits(4));
    let rows = [
        (first, 4, Some(top)),
        (middle, 4, Some(top)),
        (last, 4, Some(top)),
    ];
    assert!(rt; stand_so(&links, &rows));
}

/// Returns a root at the frame's page with a child at the page: the two keys.
fn root_with_child(links: &mut Links, frame: u32, page: u32) -> Result<[usize; 2], NoMemory>
    requires frame { IsPage frame }
    requires page { IsPage page }
{
    let top = root(links, frame)?;
    let below = child(links, top, page)?;
    Ok([top, below])
}

#[test]
fn clears_a_root_at_the_beginning(rt: HostRuntime) {
    let mut links = Links::new(rt.alloc(), 3).expect(&rt, "memory");
    let [top, first] = root_with_child(&mut links, 5, 14).expect(&rt, "memory");
    clear(&mut links, top);
    assert!(rt; links.at(first).is_none());
    // another root comes in its place
    let [second, below] = root_with_child(&mut links, 6, 20).expect(&rt, "memory");
    let shows = Standing {
        frame: 6,
        rights: Rights::all(),
        source: false,
        granted: None,
        parent: Some(second),
    };
    assert_eq!(rt;
        links.at(below),
        Some(Entry {
            place: place(20),
            wanted: false,
            stands: Some(shows)
        })
    );
}

#[test]
fn grants_a_page(rt: HostRuntime) {
    let mut links = Links::new(rt.alloc(), 3).expect(&rt, "memory");
    let [top, granted, low] = chain(&mut links).expect(&rt, "memory");
    links.set_source(granted, true);
    grant(&mut links, granted, 12, Rights::of_bits(5)).expect(&rt, "memory");
    assert_eq!(rt;
        [links.find(place(10)), links.find(place(12))],
        [None, Some(granted)]
    );
    let source = links.standing(granted);
    assert!(rt; stand_so(&links, &[(low, 7, Some(granted))]));
    links.set_plain(granted);
    let page = Standing {
        frame: 5,
        rights: Rights::all(),
        source: true,
        granted: Some(Rights::of_bits(5)),
        parent: Some(top),
    };
    let plain = Standing {
        source: false,
        granted: None,
        ..page
    };
    assert_eq!(rt;
        [source, links.standing(granted)],
        [Some(page), Some(plain)]
    );
}

#[test]
fn finds_pages(rt: HostRuntime) {
    let mut links = Links::new(rt.alloc(), 3).expect(&rt, "memory");
    let key = blank(&mut links, 3).expect(&rt, "memory");
    let far = root(&mut links, 4_194_303).expect(&rt, "memory");
    links.law_places();
    links.law_trees();
    assert!(rt; links.bound() >= 2);
    assert_eq!(rt;
        [
            links.find(place(3)),
            links.find(place(4)),
            links.find(place(4_194_303))
        ],
        [Some(key), None, Some(far)]
    );
    assert_eq!(rt;
        [
            links.next_key(0, 0),
            links.next_key(0, 4),
            links.next_key(1, 0)
        ],
        [Some(3), Some(4_194_303), None]
    );
    assert_eq!(rt;
        [
            links.next_key_in(0, 0, 4),
            links.next_key_in(0, 4, 4_194_303)
        ],
        [Some((3, key)), None]
    );
}

#[test]
fn finds_parents(rt: HostRuntime) {
    let mut links = Links::new(rt.alloc(), 3).expect(&rt, "memory");
    let [top, middle, _] = chain(&mut links).expect(&rt, "memory");
    assert_eq!(rt;
        [
            links.next_parent_in(0, 0, 10),
            links.next_parent_in(0, 6, 2000),
            links.next_parent_in(0, 11, 2000)
        ],
        [Some((5, top)), Some((10, middle)), None]
    );
}

#[test]
fn maps_a_page(rt: HostRuntime) {
    let mut links = Links::new(rt.alloc(), 3).expect(&rt, "memory");
    let [top, middle, low] = chain(&mut links).expect(&rt, "memory");
    assert_eq!(rt; map_away(&mut links, 10, 12, Rights::all()), Ok(true));
    let own = links.find(away(12)).expect(&rt, "a child");
    assert!(rt; stand_so(&links, &[(own, 7, Some(middle))]));
    // its own child has other rights then, and a cap finds it
    assert_eq!(rt; map_away(&mut links, 10, 12, Rights::of_bits(5)), Ok(true));
    links.cap_below(middle, Rights::of_bits(6));
    let rows = [(low, 6, Some(middle)), (own, 4, Some(middle))];
    assert!(rt; stand_so(&links, &[(middle, 7, Some(top))]) && stand_so(&links, &rows));
}

#[test]
fn maps_a_page_in_place_of_another_child(rt: HostRuntime) {
    let mut links = Links::new(rt.alloc(), 3).expect(&rt, "memory");
    let [top, middle, _] = chain(&mut links).expect(&rt, "memory");
    assert_eq!(rt; map_away(&mut links, 10, 12, Rights::of_bits(5)), Ok(true));
    assert_eq!(rt; map_away(&mut links, 5, 12, Rights::of_bits(6)), Ok(true));
    let next = links.find(away(12)).expect(&rt, "a child");
    // what descends from the other page no longer has it
    links.cap_below(middle, Rights::of_bits(1));
    assert!(rt; stand_so(&links, &[(next, 6, Some(top)), (middle, 7, Some(top))]));
    // something descends from it now, so it stays
    let low = child(&mut links, next, 13).expect(&rt, "memory");
    assert_eq!(rt; map_away(&mut links, 10, 12, Rights::all()), Ok(false));
    assert!(rt; stand_so(&links, &[(next, 6, Some(top)), (low, 6, Some(next))]));
}

#[test]
fn takes_a_blank_and_its_space(rt: HostRuntime) -> Result<(), Fail> {
    let mut links = Links::new(rt.alloc(), 3).expect(&rt, "memory");
    let key = blank(&mut links, 3)?;
    links.take_blank(key);
    assert!(rt; links.at(key).is_none());
    assert!(rt; links.find(place(3)).is_none());
    let None = links.next_key(0, 0) else {
        return Ok(());
    };
    links.end_space(0);
    assert!(rt; links.next_key(0, 0).is_none());
    Ok(())
}

/// Returns a root with two children, of which the first has a child: the four keys from the top.
fn nephew(links: &mut Links) -> Result<[usize; 4], NoMemory> {
    let top = root(links, 5)?;
    let left = child(links, top, 10)?;
    let right = child(links, top, 11)?;
    let low = child(links, left, 12)?;
    Ok([top, left, right, low])
}

#[test]
fn finds_sources(rt: HostRuntime) {
    let mut links = Links::new(rt.alloc(), 3).expect(&rt, "memory");
    let [top, left, right, low] = nephew(&mut links).expect(&rt, "memory");
    links.set_source(low, true);
    assert!(rt; !links.has_source_below(right));
    assert!(rt; !links.has_source_below(low));
    assert!(rt; links.has_source_below(top) && links.has_source_below(left));
    links.set_source(low, false);
    assert!(rt; !links.has_source_below(top) && !links.has_source_below(left));
}

/// Returns a page of space 1.
fn away(page: u32) -> Place {
    Place { space: 1, page }
}

#[test]
fn moves_a_block_of_pages(rt: HostRuntime) {
    let mut links = Links::new(rt.alloc(), 3).expect(&rt, "memory");
    let [top, middle, low] = chain(&mut links).expect(&rt, "memory");
    // page 12 is in the block of pages 8 to 15 and has no key, page 5 is in front of it
    assert_eq!(rt; move_away(&mut links, 8, 16, 3, Rights::all()), Ok(true));
    assert_eq!(rt;
        [
            links.find(place(5)),
            links.find(place(10)),
            links.find(place(11)),
            links.find(away(18)),
            links.find(away(19)),
            links.find(away(20))
        ],
        [Some(top), None, None, Some(middle), Some(low), None]
    );
    // what descends is still found from the top
    links.cap_below(top, Rights::of_bits(5));
    let rows = [
        (top, 7, None),
        (middle, 5, Some(top)),
        (low, 5, Some(middle)),
    ];
    assert!(rt; stand_so(&links, &rows));
}

#[test]
fn moves_no_page_where_one_cannot_go(rt: HostRuntime) {
    let mut links = Links::new(rt.alloc(), 3).expect(&rt, "memory");
    let [top, left, right, low] = nephew(&mut links).expect(&rt, "memory");
    links.cap_tree(left, Rights::of_bits(5));
    // the top gets the place that the second page would go to
    assert_eq!(rt; move_away(&mut links, 5, 21, 0, Rights::all()), Ok(true));
    assert_eq!(rt;
        [
            move_away(&mut links, 10, 20, 1, Rights::all()),
            // the second page has other rights than these
            move_away(&mut links, 10, 30, 1, Rights::of_bits(5))
        ],
        [Ok(false), Ok(false)]
    );
    assert_eq!(rt;
        [
            links.find(place(10)),
            links.find(place(11)),
            links.find(away(20)),
            links.find(away(21)),
            links.find(away(30))
        ],
        [Some(left), Some(right), None, Some(top), None]
    );
    let rows = [
        (left, 5, Some(top)),
        (right, 7, Some(top)),
        (low, 5, Some(left)),
    ];
    assert!(rt; stand_so(&links, &rows));
}

/// Returns a root with two children, of which the second has a child, and that one too: the five keys from the top.
fn family(links: &mut Links) -> Result<[usize; 5], NoMemory> {
    let top = root(links, 5)?;
    let left = child(links, top, 10)?;
    let right = child(links, top, 11)?;
    let low = child(links, right, 12)?;
    let lowest = child(links, low, 13)?;
    Ok([top, left, right, low, lowest])
}

/// Returns whether nothing stands at these keys, and no place is noted either.
fn are_free(links: &Links, keys: &[usize]) -> bool {
    for key in keys {
        if links.at(*key).is_some() {
            return false;
        }
    }
    true
}

#[test]
fn buries_what_has_no_rights(rt: HostRuntime) {
    let mut links = Links::new(rt.alloc(), 3).expect(&rt, "memory");
    let [top, left, right, low, lowest] = family(&mut links).expect(&rt, "memory");
    // the parent stands on the stack before its children
    links.cap_tree(right, Rights::of_bits(0));
    assert!(rt; stand_so(&links, &[(low, 0, Some(right))]));
    links.bury();
    assert!(rt; are_free(&links, &[right, low, lowest]));
    assert!(rt; links.find(place(11)).is_none() && links.find(place(13)).is_none());
    assert!(rt; stand_so(&links, &[(left, 7, Some(top))]));
    // the list goes on without them, and takes other nodes
    let next = child(&mut links, left, 11).expect(&rt, "memory");
    links.cap_below(top, Rights::of_bits(4));
    assert!(rt; stand_so(&links, &[(left, 4, Some(top)), (next, 4, Some(left))]));
    // a second walk finds what the first left without rights on the stack
    links.cap_below(left, Rights::of_bits(3));
    links.cap_below(top, Rights::of_bits(3));
    links.bury();
    assert!(rt; are_free(&links, &[next, left]));
    assert!(rt; stand_so(&links, &[(top, 7, None)]));
    // the first node of the list goes too
    links.cap_tree(top, Rights::of_bits(0));
    links.bury();
    assert!(rt; links.find(place(5)).is_none());
    let second = root(&mut links, 5).expect(&rt, "memory");
    assert!(rt; stand_so(&links, &[(second, 7, None)]) && have_rights(&links));
}
