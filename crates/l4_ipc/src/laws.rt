//! Laws of the machine's steps.
ghost use Rattle.std.specs.Prelude.{◌≡◌, Result};
ghost use Rattle.l4_ipc.specs.declared.steps.Step.{Step as AStep};
ghost use Rattle.l4_ipc.specs.declared.steps.Answer.{Answer as AnAnswer};
ghost use Rattle.l4_ipc.specs.declared.steps.Refused.{Refused as ARefusal};
ghost use Rattle.l4_ipc.specs.Machine.{Machine};
ghost use Rattle.l4_ipc.specs.Steps.{Steps};

/// Ghost function: from one state, a step and its answer lead to exactly one state. If a step can end in two ways,
/// because memory is found or not, its answer says which.
pub fn an_answer_leads_to_one_state()
    ensures { (old : Machine) (step : AStep) (answer : Result AnAnswer ARefusal) (a b : Machine)
        → Steps old step answer a → Steps old step answer b → a ≡ b }
{}

/// Ghost function: no step changes the page size, which was chosen at boot.
pub fn the_size_of_pages_stays()
    ensures { (old : Machine) (step : AStep) (answer : Result AnAnswer ARefusal) (new : Machine)
        → Steps old step answer new → new.size ≡ old.size }
{}
