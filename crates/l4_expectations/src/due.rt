//! The answers to a line, as far as they were not compared yet.
ghost use Rattle.std.specs.Prelude.{◌≡◌};
ghost use Rattle.l4_expectations.specs.Expectations.{is_rest};
ghost use Rattle.l4_expectations.specs.Inside.Lines.{Takes};

use l4_answers::AnswerLines;

/// The expectation that allows any further answers.
const REST: &[u8] = b"..";

/// Which of a line's answers were compared.
#[derive(Clone, Copy)]
pub(crate) enum Stage {
    /// None. Nothing has been expected of the line.
    Untouched,
    /// The first ones.
    Begun,
    /// All: `..` allows those that are left.
    Rest,
}

/// The answers to the last line that has answers.
#[derive(Drop)]
pub(crate) struct Due {
    /// The line's number.
    pub(crate) number: u64,
    pub(crate) left: AnswerLines,
    pub(crate) stage: Stage,
}

/// Whether this allows any further answers.
pub(crate) fn is_rest(answer: &[u8]) -> bool
    ensures { result ≡ is_rest answer.now }
{
    answer == REST
}

impl Due {
    /// Takes the next answer if it is this one, or all answers for `..`. Returns whether it did.
    pub(crate) fn take(&mut self, answer: &[u8]) -> bool
        ensures { Takes self.old answer.now self.new result }
    {
        if is_rest(answer) {
            self.stage = Stage::Rest;
            return true;
        }
        if !self.left.is_next(answer) {
            return false;
        }
        self.left.go_on();
        self.stage = Stage::Begun;
        true
    }
}
