ghost use Rattle.std.specs.Prelude.{◌≡◌, ℕ, Bool, List};
ghost use Rattle.l4_fpage.specs.declared.sizes.PageSize.{PageSize as APageSize};
ghost use Rattle.l4_msg.specs.declared.regions.Region.{Region as ARegion};
ghost use Rattle.l4_plan_lines.specs.Answers.{IsAnswer};
ghost use Rattle.l4_plan_lines.specs.Plans.{IsPlanText};
ghost use Rattle.l4_plan_lines.specs.declared.answers.Answer.{Answer as AnAnswer};

/// Ghost function: gives a proof that the text of the plan of a region is unique, and is either a plan or a refusal. It
/// compiles to nothing.
pub fn plan_text_is_unique()
    ensures { (size : APageSize) (r : ARegion) (a b : Bool) (s t : List ℕ) → IsPlanText size r a s
        → IsPlanText size r b t → (a ≡ b) × (s ≡ t) }
{}

/// Ghost function: gives a proof that an input about a region has one answer: one first wrong line, one first fault of
/// one claim, or one proof. It compiles to nothing.
pub fn answer_is_unique()
    ensures { (size : APageSize) (r : ARegion) (input : List ℕ) (a b : AnAnswer)
        → IsAnswer size r input a → IsAnswer size r input b → a ≡ b }
{}
