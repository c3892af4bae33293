//! Whether threads and mappings can be those of a kernel.
ghost use Rattle.std.specs.Prelude.{◌≡◌, ◌<◌, ◌↔◌, ℕ, IsTrue, Some};
ghost use Rattle.std.specs.FinSet as set;
ghost use Rattle.l4_threads.specs.Threads.{thread_at};
ghost use Rattle.l4_threads.specs.declared.Thread.{Thread as AThread};
ghost use Rattle.l4_ipc.specs.Parts.{IsPart, AreParts};
ghost use Rattle.l4_ipc.specs.SpacePages.{FitIn};

use l4_forest::Forest;
use l4_fpage::PageSize;
use l4_threads::{Thread, Threads};

/// Returns whether a space exists.
fn has_space(forest: &Forest, space: u64) -> bool
    ensures { IsTrue result ↔ IsTrue (set.contains forest.now.spaces space) }
{
    match forest.next_space(space) {
        Some(next) => next == space,
        None => false,
    }
}

/// Returns whether the space of a thread exists, and the thread does not send.
fn is_part(thread: &Thread, forest: &Forest) -> bool
    ensures { IsTrue result ↔ IsPart forest.now thread.now }
{
    if thread.state.sending().is_some() {
        return false;
    }
    has_space(forest, thread.space)
}

/// Returns whether the spaces of all threads exist, and none of them sends.
fn are_all(threads: &Threads, forest: &Forest) -> bool
    ensures { IsTrue result
        ↔ ((n : ℕ) (thread : AThread) → thread_at threads.now n ≡ Some thread
        → IsPart forest.now thread) }
{
    threads.law_consistent();
    let mut from = 0u32;
    while let Some(number) = threads.next_thread(from) {
        let Some(thread) = threads.thread(number) else {
            unreachable!()
        };
        if !is_part(thread, forest) {
            return false;
        }
        from = number + 1;
    }
    true
}

/// Returns whether each present page is one of a space, for pages of this size. The number of every space is below the limit.
fn pages_fit(forest: &Forest, limit: u64, size: PageSize) -> bool
    requires { (space : ℕ) → IsTrue (set.contains forest.now.spaces space) → space < limit }
    ensures { IsTrue result ↔ FitIn size forest.now }
{
    forest.law_forest();
    let pages = size.space_pages();
    let mut from = 0u64;
    while let Some(space) = forest.next_space(from) {
        if let Some(_page) = forest.next_present(space, pages) {
            return false;
        }
        from = space + 1;
    }
    true
}

/// Returns whether threads and mappings can be those of a kernel with pages of this size.
pub fn are_parts(threads: &Threads, forest: &Forest, size: PageSize) -> bool
    ensures { IsTrue result ↔ AreParts size threads.now forest.now }
{
    let limit = threads.new_space();
    if let Some(_space) = forest.next_space(limit) {
        return false;
    }
    if !pages_fit(forest, limit, size) {
        return false;
    }
    are_all(threads, forest)
}
