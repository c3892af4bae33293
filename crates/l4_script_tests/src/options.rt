use l4_fpage::{PageSize, Rights};
use l4_msg::Region;
use l4_options::{OptionFault, Options, ScriptOptions, StepOptions, options, step_options};
use std::alloc::Global;
use std::test::Fail;

/// Returns the frames and the pages of the script that is to be run by these words, if they ask for that.
fn run_of(alloc: Global, words: &[&str]) -> Option<(u32, PageSize)> {
    match options(alloc, words) {
        Ok(Options::Run { script, .. }) => Some((script.frames, script.size)),
        _ => None,
    }
}

/// Those of the list of steps that is to be done.
fn steps_of(alloc: Global, words: &[&str]) -> Option<(u32, PageSize)> {
    match step_options(alloc, words) {
        Ok(StepOptions::Run(list)) => Some((list.frames, list.size)),
        _ => None,
    }
}

/// Returns the size of the pages that a plan is asked for.
fn plan_size_of(alloc: Global, words: &[&str]) -> Option<PageSize> {
    match options(alloc, words) {
        Ok(Options::Plan { size, .. }) => Some(size),
        _ => None,
    }
}

/// Returns the size of the pages of which a plan is to be checked.
fn check_size_of(alloc: Global, words: &[&str]) -> Option<PageSize> {
    match options(alloc, words) {
        Ok(Options::Check { size, .. }) => Some(size),
        _ => None,
    }
}

/// Returns whether this word cannot be a number of frames.
fn is_refused_as_frames(alloc: Global, word: &str) -> bool {
    let words = ["l4", "run", "--frames", word];
    matches!(
        options(alloc, words.as_slice()),
        Err(OptionFault::Frames(_))
    )
}

#[test]
fn reads_frames(rt: HostRuntime) {
    for (word, frames) in [("1", 1), ("4096", 4096), ("007", 7)] {
        let words = ["l4", "run", "--frames", word];
        assert_eq!(rt;
            run_of(rt.alloc(), words.as_slice()),
            Some((frames, PageSize::Kib4))
        );
        let words = ["l4_steps", "--frames", word];
        assert_eq!(rt;
            steps_of(rt.alloc(), words.as_slice()),
            Some((frames, PageSize::Kib4))
        );
    }
    for word in ["0", "4097", "+5", "0x10", ""] {
        assert!(rt; is_refused_as_frames(rt.alloc(), word), "{word}");
    }
}

#[test]
fn reads_a_plain_run(rt: HostRuntime) {
    let words = ["l4", "run"];
    assert!(rt;
        matches!(
            options(rt.alloc(), words.as_slice()),
            Ok(Options::Run {
                script: ScriptOptions {
                    frames: 256,
                    size: PageSize::Kib4,
                    file: None
                },
                strict: false,
                explain: false,
                number: false,
                moves: false,
                history_to: None
            })
        )
    );
}

#[test]
fn reads_page_sizes(rt: HostRuntime) {
    for (word, size) in [
        ("4096", PageSize::Kib4),
        ("1024", PageSize::Kib1),
        ("01024", PageSize::Kib1),
    ] {
        let words = ["l4", "run", "--frames=5", "--page-size", word];
        assert_eq!(rt; run_of(rt.alloc(), words.as_slice()), Some((5, size)));
        let words = ["l4_steps", "--page-size", word];
        assert_eq!(rt; steps_of(rt.alloc(), words.as_slice()), Some((256, size)));
        let words = ["l4", "plan", "16", "32", "1", "rwx", "--page-size", word];
        assert_eq!(rt; plan_size_of(rt.alloc(), words.as_slice()), Some(size));
        let words = ["l4", "check", "--page-size", word, "16", "32", "1", "rwx"];
        assert_eq!(rt; check_size_of(rt.alloc(), words.as_slice()), Some(size));
    }
}

#[test]
fn refuses_page_sizes(rt: HostRuntime) {
    for word in ["2048", "4", "0x400", "+1024", "1k", ""] {
        let words = ["l4", "run", "--page-size", word];
        assert!(rt;
            matches!(
                options(rt.alloc(), words.as_slice()),
                Err(OptionFault::Pages(_))
            ),
            "{word}"
        );
    }
    let words = ["l4", "run", "--page-size", "1024", "--page-size", "1024"];
    assert!(rt;
        matches!(
            options(rt.alloc(), words.as_slice()),
            Err(OptionFault::Words(_))
        )
    );
}

/// Returns whether a plan of exactly this region of large pages is requested.
fn is_planned(asked: &Options, owed: &Region) -> bool {
    match asked {
        Options::Plan { region, size } => region == owed && *size == PageSize::Kib4,
        _ => false,
    }
}

#[test]
fn reads_regions(rt: HostRuntime) -> Result<(), Fail> {
    let words = ["l4", "plan", "4", "12", "4294967295", "r_-"];
    let Ok(asked) = options(rt.alloc(), words.as_slice()) else {
        return Err("not understood".into());
    };
    let owed = Region {
        source: 4,
        target: 12,
        count: 4_294_967_295,
        rights: Rights::of_bits(4),
    };
    assert!(rt; is_planned(&asked, &owed));
    let words = ["l4", "check", "0", "0", "4294967296", "rwx"];
    assert!(rt;
        matches!(
            options(rt.alloc(), words.as_slice()),
            Err(OptionFault::Decimal {
                name: "<COUNT>",
                ..
            })
        )
    );
    let words = ["l4", "check", "0", "0", "1", "rxw"];
    assert!(rt;
        matches!(
            options(rt.alloc(), words.as_slice()),
            Err(OptionFault::Rights(_))
        )
    );
    let words = ["l4", "plan", "0", "0", "1", "-w-"];
    assert!(rt;
        matches!(
            options(rt.alloc(), words.as_slice()),
            Err(OptionFault::Hyphens { instead: "_w_", .. })
        )
    );
    Ok(())
}

#[test]
fn shows_help(rt: HostRuntime) -> Result<(), Fail> {
    let words = ["l4", "--help"];
    assert!(rt; matches!(options(rt.alloc(), words.as_slice()), Ok(Options::Show(_))));
    let words = ["l4_steps", "--help"];
    assert!(rt;
        matches!(
            step_options(rt.alloc(), words.as_slice()),
            Ok(StepOptions::Show(_))
        )
    );
    Ok(())
}
