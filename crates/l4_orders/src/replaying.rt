//! Executes the script of an order once more, from boot.
ghost use Rattle.std.specs.Prelude.{◌≡◌, ◌≤◌, Contains, MatchResult};
ghost use Rattle.std.specs.List.{All};
ghost use Rattle.l4_fpage.specs.Pages.{max_frames};
ghost use Rattle.l4_merges.specs.declared.found.Found.{Found};
ghost use Rattle.l4_shell.specs.ByLines.{state_of, IsFirst};
ghost use Rattle.l4_orders.specs.Filling.{FillsScript, FillsBy};
ghost use Rattle.l4_orders.specs.Witnesses.{IsRunTo, IsOutcomeOf, IsWitness};

use crate::executing::{answers, execute_all, execute_order};
use crate::plans::Plan;
use crate::stuck::put_all_stuck;
use l4_fpage::PageSize;
use l4_merges::{Failure, Found};
use l4_shell::ScriptRun;
use std::alloc::Global;

/// Boots a kernel for a script.
pub(crate) fn booted(alloc: Global, frames: u32, size: PageSize) -> Result<Box<ScriptRun>, Failure>
    requires { frames ≤ max_frames }
    ensures { MatchResult result (λ run. IsFirst frames size run.value) (λ why. why ≡ Failure.Memory) }
{
    let Some(run) = ScriptRun::new(alloc, frames, size) else {
        return Err(Failure::Memory);
    };
    match Box::new(alloc, run) {
        Ok(run) => Ok(run),
        Err(_) => Err(Failure::Memory),
    }
}

/// Executes the script of an order. Returns its outcome.
fn replayed(
    alloc: Global,
    script: &mut ScriptRun,
    plan: &Plan,
    order: &[usize],
) -> Result<Vec<u8>, Failure>
    ensures { MatchResult result
        (λ text. IsRunTo (state_of script.old) plan.now order.now text.items)
        (λ why. why ≡ Failure.Full → FillsScript (state_of script.old) plan.now order.now) }
{
    let first = execute_all(script, 1, plan.first.as_slice())?;
    let (line, gone) = execute_order(alloc, script, first, plan, order)?;
    let mut text = answers(alloc, script, line, plan.queries.as_slice())?;
    let blocks = plan.blocks.as_slice();
    match put_all_stuck(alloc, &mut text, blocks, gone.as_slice()) {
        Ok(()) => Ok(text),
        Err(_) => Err(Failure::Memory),
    }
}

/// Executes the script of an order on a new kernel. Returns its outcome.
fn replay(
    alloc: Global,
    frames: u32,
    size: PageSize,
    plan: &Plan,
    order: &[usize],
) -> Result<Vec<u8>, Failure>
    requires { frames ≤ max_frames }
    ensures { MatchResult result
        (λ text. IsOutcomeOf frames size plan.now order.now text.items)
        (λ why. why ≡ Failure.Full → FillsBy frames size plan.now order.now) }
{
    let mut script = booted(alloc, frames, size)?;
    replayed(alloc, &mut script, plan, order)
}

/// Executes the script of each order on a new kernel, and compares its outcome with the one that was found. An outcome that differs has the
/// same result as a lack of memory: no order of a plan that was read from a file has two outcomes.
pub(crate) fn replay_all(
    alloc: Global,
    frames: u32,
    size: PageSize,
    plan: &Plan,
    found: &[Found],
) -> Result<(), Failure>
    requires { frames ≤ max_frames }
    ensures { MatchResult result
        (λ _. All (IsWitness frames size plan.now) found.now)
        (λ why. why ≡ Failure.Full → (one : Found) × Contains found.now one × FillsBy frames size plan.now one.order.items) }
{
    for one in found {
        let outcome = replay(alloc, frames, size, plan, one.order.as_slice())?;
        if outcome.as_slice() == one.outcome.as_slice() {
            continue;
        }
        return Err(Failure::Memory);
    }
    Ok(())
}
