//! A page of sigma0 that goes to a third thread and on to root.

use l4_ipc::{ArrayVec, Call, Fpage, MAX_WORDS, PageSize, Place, Rights, ThreadId, Timeout};
use l4_provenance::{ChainLink, ReplayFault, provenance};
use l4_provenance_check::check_provenance;
use l4_record::{Appended, History, Recorder};
use std::alloc::Global;
use std::process::Abort;

const FRAMES: u32 = 32;

const SIZE: PageSize = PageSize::Kib4;

const SIGMA0: u32 = 1;

const ROOT: u32 = 2;

const ROOT_ID: ThreadId = ThreadId(0x8001);

/// A thread that root makes, in space 2.
const THIRD: u32 = 3;

const THIRD_ID: ThreadId = ThreadId(3 * 0x4000 + 1);

/// Maps page 16 with all rights, to page 32 in a window of all pages.
const MAPS: [u32; 3] = [0x80, 0x2_0008, 0x1_00c7];

/// Grants page 32 to read and to write, to page 7 in a window of all pages.
const GRANTS: [u32; 3] = [0x80, 0x700a, 0x2_00c6];

/// Maps page 9 with all rights, to page 7 in a window of all pages.
const MAPS_ANEW: [u32; 3] = [0x80, 0x7008, 0x90c7];

fn send(to: ThreadId, message: [u32; 3]) -> Call {
    let mut words: ArrayVec<u32, MAX_WORDS> = ArrayVec::new();
    let _ = words.try_extend_from_slice(&message);
    Call::send(to, words, Timeout::Never)
}

fn receive() -> Call {
    Call::receive(
        ThreadId::any(),
        Fpage::Complete(Rights::all()),
        Timeout::Never,
    )
}

/// Sigma0's page 16 goes to page 32 of the third thread by entry 3, and from there to root's page 7 by entry 6.
fn recorded(rt: &impl Abort, recorder: &mut Recorder) {
    let told = &mut Appended::new();
    let create = Call::create(THIRD_ID, THIRD_ID, ThreadId::nil());
    assert!(rt; recorder.enter(ROOT, &create, told).is_ok());
    assert!(rt; recorder.enter(THIRD, &receive(), told).is_ok());
    assert!(rt; recorder.enter(SIGMA0, &send(THIRD_ID, MAPS), told).is_ok());
    assert!(rt; recorder.enter(ROOT, &receive(), told).is_ok());
    assert!(rt; recorder.enter(THIRD, &send(ROOT_ID, GRANTS), told).is_ok());
    assert_eq!(rt; recorder.history().len(), 7);
}

fn recorder(rt: &impl Abort, alloc: Global) -> Recorder {
    let (mut recorder, _, _) = Recorder::new(alloc, FRAMES, SIZE, 0).expect(rt, "a recorder");
    recorded(rt, &mut recorder);
    recorder
}

const fn page(space: u64, page: u32) -> Place {
    Place { space, page }
}

/// What the row says of the two transfers.
fn links() -> [ChainLink; 2] {
    [
        ChainLink {
            entry: 3,
            source: page(0, 16),
            target: page(2, 32),
            grant: false,
            source_rights: Rights::all(),
            item_rights: Rights::all(),
        },
        ChainLink {
            entry: 6,
            source: page(2, 32),
            target: page(1, 7),
            grant: true,
            source_rights: Rights::all(),
            item_rights: Rights::of_bits(6),
        },
    ]
}

/// Whether these are the links that are found of the page.
fn finds(alloc: Global, history: &History, place: Place, links: &[ChainLink]) -> bool {
    match provenance(alloc, FRAMES, SIZE, history, place) {
        Ok(Some(found)) => found.as_slice() == links,
        _ => false,
    }
}

fn finds_none(alloc: Global, history: &History, place: Place) -> bool {
    matches!(provenance(alloc, FRAMES, SIZE, history, place), Ok(None))
}

fn judges(alloc: Global, history: &History, place: Place, links: &[ChainLink], yes: bool) -> bool {
    check_provenance(alloc, FRAMES, SIZE, history, place, links) == Ok(yes)
}

/// The links of a page that came by two transfers are found, and judged to be its provenance.
#[test]
fn two_transfers(rt: HostRuntime) {
    let alloc = rt.alloc();
    let recorder = recorder(&rt, alloc);
    let history = recorder.history();
    assert!(rt; finds(alloc, history, page(1, 7), &links()));
    assert!(rt; judges(alloc, history, page(1, 7), &links(), true));
}

/// A page of sigma0 came by none, and one that is not present has no provenance; so has one that was granted away.
#[test]
fn no_transfers(rt: HostRuntime) {
    let alloc = rt.alloc();
    let recorder = recorder(&rt, alloc);
    let history = recorder.history();
    assert!(rt; finds(alloc, history, page(0, 16), &[]));
    assert!(rt; judges(alloc, history, page(0, 16), &[], true));
    assert!(rt; finds_none(alloc, history, page(2, 32)));
    let row = links();
    let row = row.as_slice();
    assert!(rt; judges(alloc, history, page(2, 32), &row[..1], false));
    assert!(rt; finds_none(alloc, history, page(1, 8)));
    assert!(rt; judges(alloc, history, page(1, 8), &[], false));
}

/// The row with one thing told otherwise: an entry, a page, the rights of the source, those of the item, map for grant.
fn altered() -> [[ChainLink; 2]; 5] {
    let mut lists = [links(), links(), links(), links(), links()];
    lists[0][0].entry = 2;
    lists[1][0].source = page(0, 17);
    lists[2][1].source_rights = Rights::of_bits(6);
    lists[3][1].item_rights = Rights::all();
    lists[4][1].grant = false;
    lists
}

/// A list that leaves a link out or tells it otherwise is none.
#[test]
fn other_lists(rt: HostRuntime) {
    let alloc = rt.alloc();
    let recorder = recorder(&rt, alloc);
    let history = recorder.history();
    let row = links();
    let row = row.as_slice();
    assert!(rt; judges(alloc, history, page(1, 7), &row[1..], false));
    assert!(rt; judges(alloc, history, page(1, 7), &row[..1], false));
    for list in &altered() {
        assert!(rt; judges(alloc, history, page(1, 7), list.as_slice(), false));
    }
}

/// Where the page was written again, the links are the newer ones.
#[test]
fn written_again(rt: HostRuntime) {
    let alloc = rt.alloc();
    let mut recorder = recorder(&rt, alloc);
    let told = &mut Appended::new();
    assert!(rt; recorder.enter(ROOT, &receive(), told).is_ok());
    assert!(rt;
        recorder
            .enter(SIGMA0, &send(ROOT_ID, MAPS_ANEW), told)
            .is_ok()
    );
    let history = recorder.history();
    let anew = [ChainLink {
        entry: 9,
        source: page(0, 9),
        target: page(1, 7),
        grant: false,
        source_rights: Rights::all(),
        item_rights: Rights::all(),
    }];
    assert!(rt; finds(alloc, history, page(1, 7), &anew));
    assert!(rt; judges(alloc, history, page(1, 7), &anew, true));
    assert!(rt; judges(alloc, history, page(1, 7), &links(), false));
}

/// A history isn't replayed with fewer frames than it was recorded with, if it needs them, nor with none.
#[test]
fn not_replayed(rt: HostRuntime) {
    let alloc = rt.alloc();
    let recorder = recorder(&rt, alloc);
    let history = recorder.history();
    let place = page(1, 7);
    let none = check_provenance(alloc, 0, SIZE, history, place, &links());
    assert_eq!(rt; none, Err(ReplayFault::BadFrames));
    assert!(rt;
        matches!(
            provenance(alloc, 4097, SIZE, history, place),
            Err(ReplayFault::BadFrames)
        )
    );
    assert_eq!(rt;
        check_provenance(alloc, 8, SIZE, history, place, &links()),
        Ok(false)
    );
}

/// With fewer frames root does not have the page, so its fault gets another answer. Links that are wrong before that entry do not hide this.
#[test]
fn another_answer_behind_wrong_links(rt: HostRuntime) {
    let alloc = rt.alloc();
    let mut recorder = recorder(&rt, alloc);
    let told = &mut Appended::new();
    let fault = Call::fault(7 * 4096, 0, Rights::R);
    assert!(rt; recorder.enter(ROOT, &fault, told).is_ok());
    let history = recorder.history();
    let place = page(1, 7);
    assert!(rt; judges(alloc, history, place, &links(), true));
    assert_eq!(rt;
        check_provenance(alloc, 8, SIZE, history, place, &links()),
        Err(ReplayFault::OtherAnswer(7))
    );
}

/// There is no kernel with 0 or 5,000 frames, so the check is refused, even for a history without entries.
#[test]
fn no_such_kernel(rt: HostRuntime) {
    let alloc = rt.alloc();
    let (recorder, _, _) = Recorder::new(alloc, FRAMES, SIZE, 0).expect(&rt, "a recorder");
    let history = recorder.history();
    for frames in [0, 5000] {
        let told = check_provenance(alloc, frames, SIZE, history, page(0, 0), &[]);
        assert_eq!(rt; told, Err(ReplayFault::BadFrames));
    }
    assert!(rt; judges(alloc, history, page(0, 0), &[], true));
}
