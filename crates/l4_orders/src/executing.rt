//! Executes lines of a plan one after another, and reads the answers to its queries.
ghost use Rattle.std.specs.Prelude.{◌≡◌, ◌+◌, List, true, None, MatchResult};
ghost use Rattle.l4_answers.specs.Reports.{Report};
ghost use Rattle.l4_commands.specs.Requests.{asked_at};
ghost use Rattle.l4_shell.specs.ByLines.{state_of};
ghost use Rattle.l4_shell.specs.Room.{any_full};
ghost use Rattle.l4_shell.specs.Sessions.{AnswersLine};
ghost use Rattle.l4_sinks.specs.Texts.{AreAnswerTexts};
ghost use Rattle.l4_text.specs.declared.lines.Ending.TheVariants.{Whole};
ghost use Rattle.l4_orders.specs.Turns.{AnswersWell, AnswersInTurn};
ghost use Rattle.l4_orders.specs.Filling.{FillsFrom};
ghost use Rattle.l4_orders.specs.Inside.Executed.{Executed};
ghost use Rattle.l4_orders.specs.Plans.{gone_after, none_gone};
ghost use Rattle.l4_orders.specs.Telling.{lines_of_order};

use crate::lacking::{Lack, Lacking};
use crate::plans::{Plan, PlanLine, advance};
use l4_expectations::answered;
use l4_merges::Failure;
use l4_shell::ScriptRun;
use l4_text::Ending;
use std::alloc::Global;

/// Executes a line of a thread. Returns the failure if an answer says that memory ran out, or that the history is full.
pub(crate) fn execute(script: &mut ScriptRun, line: u64, bytes: &[u8]) -> Result<(), Failure>
    ensures { MatchResult result
        (λ _. AnswersWell (state_of script.old) line bytes.now (state_of script.new))
        (λ why. why ≡ Failure.Full → (told : List Report)
        × AnswersLine (state_of script.old) line (asked_at (state_of script.old).session.machine.size (state_of script.old).names Whole bytes.now) told (state_of script.new)
        × (any_full told ≡ true)) }
{
    let mut sink = Lacking::new();
    script.answer_line(line, Ending::Whole, bytes, &mut sink);
    match sink.lack() {
        Lack::Nothing => Ok(()),
        Lack::Memory => Err(Failure::Memory),
        Lack::History => Err(Failure::Full),
    }
}

/// Returns the next line's number. No memory has room for so many lines that there is none.
pub(crate) fn next_number(number: u64) -> Result<u64, Failure>
    ensures { MatchResult result (λ next. next ≡ number + 1) (λ why. why ≡ Failure.Memory) }
{
    match number.checked_add(1) {
        Some(next) => Ok(next),
        None => Err(Failure::Memory),
    }
}

/// Executes lines in their order. The first one has this number. Returns the number of the line behind the last.
pub(crate) fn execute_all(
    script: &mut ScriptRun,
    first: u64,
    lines: &[PlanLine],
) -> Result<u64, Failure>
    ensures { MatchResult result
        (λ next. Executed (state_of script.old) (state_of script.new) first next lines.now)
        (λ why. why ≡ Failure.Full → FillsFrom (state_of script.old) first lines.now) }
{
    let mut number = first;
    for line in lines {
        execute(script, number, line.bytes.as_slice())?;
        number = next_number(number)?;
    }
    Ok(number)
}

/// Executes the lines of an order. The first one has this number. Returns the number of the line behind the last, and how many lines each
/// thread has executed.
pub(crate) fn execute_order(
    alloc: Global,
    script: &mut ScriptRun,
    first: u64,
    plan: &Plan,
    order: &[usize],
) -> Result<(u64, Vec<usize>), Failure>
    ensures { MatchResult result
        (λ r. Executed (state_of script.old) (state_of script.new) first r.0
        (lines_of_order plan.now order.now)
        × (r.1.items ≡ gone_after (none_gone plan.now) order.now))
        (λ why. why ≡ Failure.Full → FillsFrom (state_of script.old) first (lines_of_order plan.now order.now)) }
{
    let Ok(mut gone) = plan.none_gone(alloc) else {
        return Err(Failure::Memory);
    };
    let mut number = first;
    for place in order {
        if let Some(line) = plan.line_at(gone.as_slice(), *place) {
            execute(script, number, line.bytes.as_slice())?;
            number = next_number(number)?;
        }
        if advance(&mut gone, *place).is_err() {
            return Err(Failure::Memory);
        }
    }
    Ok((number, gone))
}

/// Returns the text of the answers to queries. The first one has this number.
pub(crate) fn answers(
    alloc: Global,
    script: &mut ScriptRun,
    first: u64,
    queries: &[PlanLine],
) -> Result<Vec<u8>, Failure>
    ensures { MatchResult result
        (λ text. (told : List Report)
        × AnswersInTurn (state_of script.old) first queries.now told (state_of script.new)
        × AreAnswerTexts None told text.items)
        (λ why. why ≡ Failure.Memory) }
{
    let mut text = Vec::new(alloc);
    let mut number = first;
    for query in queries {
        let Some(answer) = answered(alloc, script, number, query.bytes.as_slice()) else {
            return Err(Failure::Memory);
        };
        if text.extend_from_slice(answer.as_slice()).is_err() {
            return Err(Failure::Memory);
        }
        number = next_number(number)?;
    }
    Ok(text)
}
