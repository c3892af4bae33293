//! The messages of delegations.
ghost use Rattle.std.specs.Prelude.{IfOk, IfErr};
ghost use Rattle.l4_fpage.specs.declared.sizes.PageSize.{PageSize as APageSize};
ghost use Rattle.l4_msg.specs.declared.regions.Region.{Region as ARegion};
ghost use Rattle.l4_plan.specs.Shortest.{IsShortest};
ghost use Rattle.l4_shell.specs.Delegations.{ArePlanWords, HasNoPlan};

use arrayvec::ArrayVec;
use l4_commands::Which;
use l4_fpage::PageSize;
use l4_msg::{MAX_WORDS, Region};
use l4_plan::{Plan, PlanRefusal, plan};

/// Returns the words of the only message of a plan, or the number of its messages.
fn only_words(plan: &Plan) -> Result<ArrayVec<u32, MAX_WORDS>, PlanRefusal>
    ensures ok { (size : APageSize) (r : ARegion) → IsShortest size r plan.now
        → IfOk result (λ words. ArePlanWords size r Which.Only words.items) }
    ensures err { (size : APageSize) (r : ARegion) → IsShortest size r plan.now
        → IfErr result (HasNoPlan size r Which.Only) }
{
    match plan.only() {
        Ok(message) => Ok(message.write()),
        Err(refusal) => Err(refusal),
    }
}

/// Returns the words of the message with this number of a plan, or the number of its messages.
fn part_words(plan: &Plan, number: u32) -> Result<ArrayVec<u32, MAX_WORDS>, PlanRefusal>
    ensures ok { (size : APageSize) (r : ARegion) → IsShortest size r plan.now
        → IfOk result (λ words. ArePlanWords size r (Which.Message number) words.items) }
    ensures err { (size : APageSize) (r : ARegion) → IsShortest size r plan.now
        → IfErr result (HasNoPlan size r (Which.Message number)) }
{
    match plan.message(number) {
        Ok(message) => Ok(message.write()),
        Err(refusal) => Err(refusal),
    }
}

/// Returns the words of this message of a plan, or the number of its messages.
fn message_words(plan: &Plan, which: Which) -> Result<ArrayVec<u32, MAX_WORDS>, PlanRefusal>
    ensures ok { (size : APageSize) (r : ARegion) → IsShortest size r plan.now
        → IfOk result (λ words. ArePlanWords size r which words.items) }
    ensures err { (size : APageSize) (r : ARegion) → IsShortest size r plan.now
        → IfErr result (HasNoPlan size r which) }
{
    match which {
        Which::Only => only_words(plan),
        Which::Message(number) => part_words(plan, number),
    }
}

/// Returns the words of this message of the shortest plan of a region of pages of this size, or the reason why there is none.
pub(crate) fn plan_words(
    region: &Region,
    size: PageSize,
    which: Which,
) -> Result<ArrayVec<u32, MAX_WORDS>, PlanRefusal>
    ensures ok { IfOk result (λ words. ArePlanWords size region.now which words.items) }
    ensures err { IfErr result (HasNoPlan size region.now which) }
{
    match plan(region, size) {
        Ok(plan) => match message_words(&plan, which) {
            Ok(words) => Ok(words),
            Err(refusal) => Err(refusal),
        },
        Err(refusal) => Err(refusal),
    }
}
