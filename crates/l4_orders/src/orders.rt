//! All orders of a plan.
ghost use Rattle.std.specs.Prelude.{◌≡◌, ◌≤◌, MatchResult};
ghost use Rattle.l4_fpage.specs.Pages.{max_frames};
ghost use Rattle.l4_orders.specs.Filling.{FillsHistory};
ghost use Rattle.l4_orders.specs.Orders.{FindsOrders};

use crate::executing::execute_all;
use crate::plans::Plan;
use crate::replaying::{booted, replay_all};
use crate::states::PlanState;
use l4_fpage::PageSize;
use l4_merges::{Explored, Failure, Unwatched, Watch, explore};
use std::alloc::Global;

/// Searches all orders of a plan as `watched_orders` does, without reports.
pub fn all_orders(
    alloc: Global,
    frames: u32,
    size: PageSize,
    plan: &Plan,
    most: u64,
) -> Result<Explored, Failure>
    requires { frames ≤ max_frames }
    ensures { MatchResult result (FindsOrders frames size plan.now most)
        (λ why. why ≡ Failure.Full → FillsHistory frames size plan.now) }
{
    watched_orders(alloc, frames, size, plan, most, &mut Unwatched)
}

/// Searches all orders of a plan on a new kernel with this many frames, 1 to 4,096, of this size, and visits at most `most` states.
///
/// The lines before `unordered` are executed in their order. Then a thread executes its next line whenever it runs: the line's call, the
/// steps that come next, and the acts of served threads, as in a script. The next of the lines that end the waits of a thread (`timeout` and
/// `cancel`) is executed whenever the thread waits. An order ends when no line can be executed. Its outcome is the text of the answers to the
/// queries, and a line `stuck N L` for each thread N that is left before its line L.
///
/// Returns each outcome once, with an order that produces it, and whether every order was followed. The script of each of these orders is
/// executed once more, from boot, and has this outcome. If every order was followed, returns the graph of the states too. `watch` gets a report
/// after each state. Returns the failure if a line before `unordered` or such a script could not be executed
/// for lack of memory, or because the history is full: then an answer to one of its lines says so.
pub fn watched_orders<W: Watch>(
    alloc: Global,
    frames: u32,
    size: PageSize,
    plan: &Plan,
    most: u64,
    watch: &mut W,
) -> Result<Explored, Failure>
    requires { frames ≤ max_frames }
    ensures { MatchResult result (FindsOrders frames size plan.now most)
        (λ why. why ≡ Failure.Full → FillsHistory frames size plan.now) }
{
    let mut script = booted(alloc, frames, size)?;
    let line = execute_all(&mut script, 1, plan.first.as_slice())?;
    let Ok(gone) = plan.none_gone(alloc) else {
        return Err(Failure::Memory);
    };
    let state = PlanState {
        plan,
        alloc,
        script,
        gone,
        line,
    };
    let explored = explore(alloc, state, most, watch);
    replay_all(alloc, frames, size, plan, explored.found.as_slice())?;
    Ok(explored)
}
