//! Enters a call, and records which calls ended in it.
ghost use Rattle.std.specs.Prelude.{◌≡◌, ◌⊎◌, ◌+◌, ◌<◌, ◌≤◌, Err, [], ◌∷◌, IfOk, IfErr, OnErr, map, length};
ghost use Rattle.l4_ipc.specs.NextSteps.{answer_of};
ghost use Rattle.l4_ipc.specs.Steps.{Steps};
ghost use Rattle.l4_ipc.specs.declared.steps.NextStep.{NextStep as ANext};
ghost use Rattle.l4_ipc.specs.declared.steps.Refused.{Refused as ARefused};
ghost use Rattle.l4_ipc.specs.declared.steps.Step.TheVariants.{Start};
ghost use Rattle.l4_record.specs.Segments.{kept_count};
ghost use Rattle.l4_record.specs.Sizes.{max_entries, max_handed_out, max_steps, last_start};
ghost use Rattle.l4_lock.specs.Books.{numbers, IsOnce};
ghost use Rattle.l4_lock.specs.Inside.Entering.{Begins, CancelsNoted, IsReady, IsRefusalOf};
ghost use Rattle.l4_lock.specs.Inside.Noting.{noted, noted_steps};
ghost use Rattle.l4_lock.specs.declared.refusals.LockRefusal.TheVariants.{NoMemory, Kernel as ByKernel};

use crate::accounts::Accounts;
use crate::refusals::{LockRefusal, refusal_of};
use l4_ipc::{Call, CancelCause, Kernel, NextStep, Refused};
use l4_record::{Appended, Recorder};

/// Records in the account of this number that its call ended in the entry at this place.
fn note_one(accounts: &mut Accounts, kernel: &Kernel, number: u32, place: usize)
    requires { IsOnce (numbers accounts.old.items) }
    ensures { accounts.new.items ≡ map (noted kernel.now (number ∷ []) place) accounts.old.items }
{
    if let Some(at) = accounts.position(number) {
        accounts.end(at, kernel, place);
    }
}

/// Records in each account of these numbers that its call ended in the entry at this place.
#[inline(always)]
fn note_all(accounts: &mut Accounts, kernel: &Kernel, ended: &[u32], place: usize)
    requires { IsOnce (numbers accounts.old.items) }
    ensures { accounts.new.items ≡ map (noted kernel.now ended.now place) accounts.old.items }
{
    for i in 0..ended.len() {
        note_one(accounts, kernel, ended[i], place);
    }
}

/// Records in each account the calls that ended in a next step, whose entry is at this place.
fn note_next(accounts: &mut Accounts, kernel: &Kernel, next: NextStep, place: usize)
    requires { IsOnce (numbers accounts.old.items) }
    ensures { accounts.new.items
        ≡ map (noted kernel.now (answer_of next).ended.items place) accounts.old.items }
{
    match next {
        NextStep::Transfer(sender, receiver, _, true) => {
            note_all(accounts, kernel, &[sender, receiver], place)
        }
        NextStep::Transfer(_, receiver, _, false) => note_all(accounts, kernel, &[receiver], place),
        NextStep::Expire(number) => note_all(accounts, kernel, &[number], place),
    }
}

/// Records in each account the calls that ended in the next steps, whose entries begin at this place.
fn note_steps(accounts: &mut Accounts, kernel: &Kernel, steps: &[NextStep], place: usize)
    requires once { IsOnce (numbers accounts.old.items) }
    requires place { place ≤ max_handed_out + max_entries }
    requires few { length steps.now ≤ max_steps }
    ensures { accounts.new.items ≡ noted_steps kernel.now place steps.now accounts.old.items }
{
    for i in 0..steps.len() {
        note_next(accounts, kernel, steps[i], place + i);
    }
}

/// Enters a call for the account at an index, and records which calls ended in it. After a refusal, nothing has changed.
pub fn begin(
    recorder: &mut Recorder,
    accounts: &mut Accounts,
    at: usize,
    number: u32,
    call: &Call,
    appended: &mut Appended,
) -> Result<(), LockRefusal>
    requires room { kept_count recorder.old.kept_from recorder.old.history ≤ last_start }
    requires at { at < length accounts.old.items }
    requires once { IsOnce (numbers accounts.old.items) }
    requires book { IsReady accounts.old.items at number recorder.old.history recorder.old.kernel }
    ensures ok { IfOk result
        (λ _. Begins number call.now recorder.old recorder.new accounts.old.items accounts.new.items
        at) }
    ensures same { OnErr result
        ((recorder.new ≡ recorder.old) × (accounts.new.items ≡ accounts.old.items)) }
    ensures err { IfErr result
        (λ e. (e ≡ NoMemory)
        ⊎
        ((r : ARefused) × (e ≡ ByKernel r)
        × Steps recorder.old.kernel (Start number call.now) (Err r) recorder.old.kernel)) }
{
    if accounts.is_pending(at) {
        return Err(LockRefusal::Kernel(Refused::Busy));
    }
    let start = recorder.count();
    if accounts.begin(at, call, start).is_err() {
        return Err(LockRefusal::NoMemory);
    }
    match recorder.enter(number, call, appended) {
        Ok(()) => {
            recorder.law_kept();
            let kernel = recorder.kernel();
            note_all(accounts, kernel, appended.start.ended.as_slice(), start);
            note_steps(accounts, kernel, appended.next.as_slice(), start + 1);
            Ok(())
        }
        Err(refusal) => {
            accounts.cancel(at);
            Err(refusal_of(refusal))
        }
    }
}

/// Cancels the wait of a thread, and records that its call ended. After a refusal, nothing has changed.
pub fn cancel(
    recorder: &mut Recorder,
    accounts: &mut Accounts,
    number: u32,
    cause: CancelCause,
) -> Result<(), LockRefusal>
    requires { IsOnce (numbers accounts.old.items) }
    ensures ok { IfOk result
        (λ _. CancelsNoted number cause recorder.old recorder.new accounts.old.items
        accounts.new.items) }
    ensures same { OnErr result
        ((recorder.new ≡ recorder.old) × (accounts.new.items ≡ accounts.old.items)) }
    ensures err { IfErr result (IsRefusalOf recorder.old number cause) }
{
    let place = recorder.count();
    if let Err(refusal) = recorder.cancel(number, cause) {
        return Err(refusal_of(refusal));
    }
    recorder.law_kept();
    note_one(accounts, recorder.kernel(), number, place);
    Ok(())
}
