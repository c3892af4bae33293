//! The kernel.

use crate::{end_memory, stop};
use l4_ipc::{
    Answer, ArrayVec, Call, Fpage, Kernel, MAX_WORDS, MOST_PAGES, Outcome, PageSize, Refused,
    Rights, Step, ThreadId, Timeout, UnmapCall,
};
use std::io;

const FRAMES: u32 = 8;

const ROOT: u32 = 2;

/// The threads and the spaces that are printed.
pub const THREADS: u32 = 8;

const SPACES: u64 = 8;

/// The message that maps page 4 with all rights, to page 1,024 in a window of all pages.
const MAPS: [u32; 3] = [0x80, 0x40_0008, 0x40c7];

/// The message that maps pages 4 to 7 with all rights, to pages 2,048 to 2,051.
const MAPS_FOUR: [u32; 3] = [0x80, 0x80_0008, 0x40e7];

/// Returns the id of a thread in version 1.
pub fn id(number: u32) -> ThreadId {
    match ThreadId::global(number, 1) {
        Some(id) => id,
        None => ThreadId::nil(),
    }
}

/// Returns a send phase with an infinite timeout.
pub fn send(to: u32, words: &[u32]) -> Call {
    let mut registers: ArrayVec<u32, MAX_WORDS> = ArrayVec::new();
    let _ = registers.try_extend_from_slice(words);
    Call::send(id(to), registers, Timeout::Never)
}

/// Receives a message from any thread with a complete window, without an end.
pub fn receive() -> Call {
    Call::receive(
        ThreadId::any(),
        Fpage::Complete(Rights::all()),
        Timeout::Never,
    )
}

/// Makes a thread in a space of its own.
pub fn create(number: u32) -> Call {
    Call::create(id(number), id(number), ThreadId::nil())
}

/// The word of page 1,024 of a space with all rights.
const PAGE_1024: [u32; 1] = [0x40_00c7];

/// Takes pages, the caller's own too, from all that descend from them.
fn unmap(words: &[u32]) -> Call {
    let mut registers: ArrayVec<u32, MAX_WORDS> = ArrayVec::new();
    let _ = registers.try_extend_from_slice(words);
    Call::Unmap(UnmapCall {
        control: 0x40,
        words: registers,
    })
}

/// Prints all threads, and the step that comes next.
fn show_threads(rt: &impl Print, kernel: &Kernel) -> io::Result<()> {
    for number in 0..THREADS {
        let space = kernel.space_of(number);
        println!(rt;
            "thread {number} space {space:?} reply {:?}",
            kernel.reply(number)
        )?;
    }
    println!(rt; "enabled {:?}", kernel.enabled())
}

/// Prints all pages of a space.
fn show_pages(rt: &impl Print, kernel: &Kernel, space: u64) -> io::Result<()> {
    let mut from = 0;
    for _ in 0..MOST_PAGES {
        let Some(page) = kernel.next_page(space, from) else {
            break;
        };
        println!(rt; "page {space} {page} {:?}", kernel.mapping(space, page))?;
        from = page.saturating_add(1);
    }
    Ok(())
}

/// Prints all threads, the step that comes next, and all pages of all spaces.
pub fn show(rt: &impl Print, kernel: &Kernel) -> io::Result<()> {
    show_threads(rt, kernel)?;
    for space in 0..SPACES {
        show_pages(rt, kernel, space)?;
    }
    println!(rt; ".")
}

/// Does one step, which may lack memory.
fn step(rt: &impl Print, kernel: &mut Kernel, step: &Step) -> io::Result<()> {
    if let Err(refused) = kernel.step(step) {
        println!(rt; "refused step {refused:?}")?;
        show(rt, kernel)?;
        if kernel.step(step).is_err() {
            return Err(stop());
        }
    }
    println!(rt; "done step")?;
    show(rt, kernel)
}

/// Prints steps of which none is refused. Returns whether there was memory for all of them.
fn show_run(
    rt: &impl Print,
    kernel: &Kernel,
    answers: &[Result<Answer, Refused>],
) -> io::Result<bool> {
    for answer in answers {
        let Ok(answer) = answer else {
            return Err(stop());
        };
        if answer.outcome == Outcome::NoMemory {
            println!(rt; "lacked run {answer:?}")?;
            show(rt, kernel)?;
            return Ok(false);
        }
    }
    println!(rt; "done run {}", answers.len())?;
    show(rt, kernel)?;
    Ok(true)
}

/// Does these steps. Returns whether there was memory for all of them.
fn run_once(rt: &impl Print, kernel: &mut Kernel, steps: &[Step]) -> io::Result<bool> {
    let Ok(answers) = kernel.run(steps) else {
        println!(rt; "refused run")?;
        show(rt, kernel)?;
        return Ok(false);
    };
    show_run(rt, kernel, answers.as_slice())
}

/// The same, once more if memory ran out.
fn run(rt: &impl Print, kernel: &mut Kernel, steps: &[Step]) -> io::Result<()> {
    if run_once(rt, kernel, steps)? || run_once(rt, kernel, steps)? {
        return Ok(());
    }
    Err(stop())
}

/// The message that maps page 5 with the right to read, to page 1,024 in a window of all pages, which is present there.
const REPLACES: [u32; 3] = [0x80, 0x40_0008, 0x50c4];

/// The message whose two items map pages 4 and 5 to one page.
const ENTANGLED: [u32; 5] = [0x100, 0x1009, 0x40c7, 0x1008, 0x50c7];

/// Returns the steps that take no memory: a transfer to a page that is present, an entangled one, a thread in a space that is there, its
/// pager, its fault, a wait that expires, an Unmap, and the ends of two threads.
fn steps() -> [Step; 15] {
    let zero = Call::receive(id(3), Fpage::Nil, Timeout::Zero);
    [
        Step::Start(3, receive()),
        Step::Start(1, send(3, &REPLACES)),
        Step::Transfer(1, 3),
        Step::Start(4, receive()),
        Step::Start(1, send(4, &ENTANGLED)),
        Step::Transfer(1, 4),
        Step::Start(ROOT, Call::create(id(5), id(3), ThreadId::nil())),
        Step::Start(ROOT, Call::set_pager(id(5), id(4))),
        Step::Start(5, Call::fault(0x5678, 0x10, Rights::of_bits(4))),
        Step::Start(4, zero),
        Step::Expire(4),
        Step::Start(3, unmap(&PAGE_1024)),
        Step::Start(ROOT, Call::delete(id(5))),
        Step::Start(ROOT, Call::delete(id(4))),
        Step::Start(ROOT, Call::delete(id(3))),
    ]
}

/// Does these steps.
fn spare<R: Input + Print>(rt: &R, kernel: &mut Kernel) -> io::Result<()> {
    let steps = steps();
    end_memory(rt)?;
    for each in &steps {
        step(rt, kernel, each)?;
    }
    Ok(())
}

/// Copies the kernel, once more if memory ran out, and prints the copy.
fn copy(rt: &impl Print, kernel: &Kernel) -> io::Result<()> {
    let copied = match kernel.copy() {
        Ok(copied) => copied,
        Err(_) => {
            println!(rt; "refused copy")?;
            show(rt, kernel)?;
            let Ok(copied) = kernel.copy() else {
                return Err(stop());
            };
            copied
        }
    };
    println!(rt; "done copy")?;
    show(rt, &copied)
}

/// Creates enough threads that a space needs memory, and maps pages.
fn take_memory(rt: &impl Print, kernel: &mut Kernel) -> io::Result<()> {
    println!(rt; "done boot")?;
    show(rt, kernel)?;
    for number in [3, 4, 6] {
        step(rt, kernel, &Step::Start(ROOT, create(number)))?;
    }
    for words in [MAPS, MAPS_FOUR] {
        let steps = [
            Step::Start(3, receive()),
            Step::Start(1, send(3, &words)),
            Step::Transfer(1, 3),
        ];
        run(rt, kernel, &steps)?;
    }
    copy(rt, kernel)
}

/// Boots, makes threads, maps pages, and does steps that take no memory. Returns whether there was memory to boot.
fn tell_once<R: AllocGlobal + Input + Print>(rt: &R) -> io::Result<bool> {
    let Ok(mut kernel) = Kernel::boot(rt.alloc(), FRAMES, PageSize::Kib4) else {
        println!(rt; "refused boot\n.")?;
        return Ok(false);
    };
    take_memory(rt, &mut kernel)?;
    spare(rt, &mut kernel)?;
    Ok(true)
}

pub fn tell<R: AllocGlobal + Input + Print>(rt: &R) -> io::Result<()> {
    if tell_once(rt)? || tell_once(rt)? {
        return Ok(());
    }
    Err(stop())
}
