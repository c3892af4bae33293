//! Builds threads from words.
ghost use Rattle.std.specs.Prelude.{◌≡◌};
ghost use Rattle.l4_threads.specs.Threads.{runs};

use crate::building::{Stop, left_of, words_with};
use crate::states::{read_counted, read_id, read_state, read_wide};
use l4_ipc::Kernel;
use l4_journal::{Words, read_word};
use l4_threads::{ROOT_SPACE, SendPhase, State, ThreadId, Threads};
use std::alloc::Global;

/// The number of root, which creates the threads.
const ROOT: u32 = 2;

/// A thread that words describe.
#[derive(Clone, Copy)]
pub(crate) struct Described {
    number: u32,
    id: ThreadId,
    pager: ThreadId,
    space: u64,
    /// How many words are left at its state.
    state: usize,
}

/// The threads that words describe.
#[derive(Drop)]
pub(crate) struct AllDescribed {
    next_space: u64,
    queue: Vec<u32>,
    threads: Vec<Described>,
}

/// Reads a thread without its state, and finds where its state begins and ends.
fn read_thread(words: Words<'_>) -> Option<(Described, Words<'_>)> {
    let (number, rest) = read_word(words)?;
    let (id, rest) = read_id(rest)?;
    let (pager, rest) = read_id(rest)?;
    let (space, rest) = read_wide(rest)?;
    let state = left_of(&rest);
    let (_, rest) = read_state(rest)?;
    let described = Described {
        number,
        id,
        pager,
        space,
        state,
    };
    Some((described, rest))
}

/// Reads the list of threads. Returns how many words are left after it.
fn read_threads(words: &[u32], start: usize, threads: &mut Vec<Described>) -> Result<usize, Stop> {
    let mut left = start;
    for _turn in 0..words.len() {
        let Some((more, rest)) = read_word(words_with(words, left)) else {
            return Err(Stop::Words(left));
        };
        if more == 0 {
            return Ok(left_of(&rest));
        }
        let Some((thread, rest)) = read_thread(rest) else {
            return Err(Stop::Words(left));
        };
        if threads.push(thread).is_err() {
            return Err(Stop::NoMemory);
        }
        left = left_of(&rest);
    }
    Err(Stop::Words(left))
}

/// Reads the number of the next new space and the queue of senders.
fn read_queue(words: Words<'_>) -> Option<(u64, &[u32], Words<'_>)> {
    let (next_space, rest) = read_wide(words)?;
    let (queue, rest) = read_counted(rest)?;
    Some((next_space, queue, rest))
}

/// Reads all threads. Returns them, and how many words are left after them.
pub(crate) fn read_all(
    alloc: Global,
    words: &[u32],
    start: usize,
) -> Result<(AllDescribed, usize), Stop> {
    let Some((next_space, senders, rest)) = read_queue(words_with(words, start)) else {
        return Err(Stop::Words(start));
    };
    let left = left_of(&rest);
    let mut queue = Vec::new(alloc);
    if queue.extend_from_slice(senders).is_err() {
        return Err(Stop::NoMemory);
    }
    let mut threads = Vec::new(alloc);
    let left = read_threads(words, left, &mut threads)?;
    let all = AllDescribed {
        next_space,
        queue,
        threads,
    };
    Ok((all, left))
}

/// Returns whether a thread runs.
fn runs(threads: &Threads, number: u32) -> bool
    ensures { result ≡ runs threads.now number }
{
    match threads.state(number) {
        Some(state) => state.is_running(),
        None => false,
    }
}

/// Gives a running thread what it does, unless it sends. Returns whether it could.
fn put_state(threads: &mut Threads, number: u32, state: State) -> bool {
    if !runs(threads, number) {
        return false;
    }
    match state {
        State::Running(None) => {}
        State::Running(Some(reply)) => threads.end_call(number, reply),
        State::Sending(_) => {}
        State::Receiving(receiving) => threads.start_receive(number, receiving),
    }
    true
}

impl AllDescribed {
    /// Returns the least number of a space of a thread that is not below `from`.
    fn least_space(&self, from: u64) -> Option<u64> {
        let mut least = None;
        for thread in self.threads.as_slice() {
            let lower = match least {
                Some(space) => thread.space < space,
                None => true,
            };
            if thread.space >= from && lower {
                least = Some(thread.space);
            }
        }
        least
    }

    /// Returns whether a thread is in this space.
    pub(crate) fn has_space(&self, space: u64) -> bool {
        self.least_space(space) == Some(space)
    }

    /// Creates the threads of a space, which is the next new one unless it exists at boot. Returns whether it could.
    fn create_in(&self, threads: &mut Threads, space: u64) -> bool {
        let mut home = match space {
            0 => Some(ThreadId(0x4001)),
            ROOT_SPACE => Some(ThreadId(0x8001)),
            _ => None,
        };
        for thread in self.threads.as_slice() {
            if thread.space != space || thread.number <= ROOT {
                continue;
            }
            let named = home.unwrap_or(thread.id);
            if threads
                .create(ROOT, thread.id, named, thread.pager)
                .is_err()
            {
                return false;
            }
            home = Some(named);
        }
        true
    }

    /// Raises the number of the next new space. Returns whether it was not above that.
    fn skip_to(&self, threads: &mut Threads, space: u64) -> bool {
        if space < threads.new_space() {
            return false;
        }
        threads.skip_spaces(space);
        true
    }

    /// Creates all threads in rising order of their spaces. Returns whether it could.
    fn create_all(&self, threads: &mut Threads) -> bool {
        let mut from = 0;
        for _turn in 0..self.threads.len() {
            let Some(space) = self.least_space(from) else {
                break;
            };
            if space > ROOT_SPACE && !self.skip_to(threads, space) {
                return false;
            }
            if !self.create_in(threads, space) {
                return false;
            }
            let Some(next) = space.checked_add(1) else {
                return false;
            };
            from = next;
        }
        self.skip_to(threads, self.next_space)
    }

    /// Sets the pagers of sigma0 and root, and gives each thread what it does, unless it sends.
    fn put_states(&self, words: &[u32], threads: &mut Threads) -> Result<(), Stop> {
        for thread in self.threads.as_slice() {
            let set = threads.set_pager(ROOT, thread.id, thread.pager);
            let Some((state, _)) = read_state(words_with(words, thread.state)) else {
                return Err(Stop::Words(thread.state));
            };
            if set.is_err() || !put_state(threads, thread.number, state) {
                return Err(Stop::Words(thread.state));
            }
        }
        Ok(())
    }

    /// Returns how many words are left at the state of a thread.
    fn state_of(&self, number: u32) -> Option<usize> {
        for thread in self.threads.as_slice() {
            if thread.number == number {
                return Some(thread.state);
            }
        }
        None
    }

    /// Makes the senders send, in the order of the queue. Returns whether it could.
    pub(crate) fn put_senders(&self, words: &[u32], kernel: &mut Kernel) -> bool {
        for number in self.queue.as_slice() {
            let Some(left) = self.state_of(*number) else {
                return false;
            };
            let Some((State::Sending(sending), _)) = read_state(words_with(words, left)) else {
                return false;
            };
            let phase = SendPhase {
                to: sending.to,
                expires: sending.expires,
                then: sending.then,
                fault: sending.fault,
            };
            if !kernel.resume_send(*number, sending.words.as_slice(), phase) {
                return false;
            }
        }
        true
    }

    /// Builds the threads, without what senders send. The words are those that were described.
    pub(crate) fn build(
        &self,
        alloc: Global,
        words: &[u32],
        start: usize,
    ) -> Result<Threads, Stop> {
        let Ok(mut threads) = Threads::boot(alloc) else {
            return Err(Stop::NoMemory);
        };
        if !self.create_all(&mut threads) {
            return Err(Stop::Words(start));
        }
        self.put_states(words, &mut threads)?;
        Ok(threads)
    }
}
