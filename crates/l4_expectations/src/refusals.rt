//! The answers that refuse something.
ghost use Rattle.std.specs.Prelude.{◌≡◌};
ghost use Rattle.l4_expectations.specs.Expectations.{is_refusal};
ghost use Rattle.l4_expectations.specs.Inside.Lines.{FindsRefusal};

use l4_answers::AnswerLines;
use l4_text::next_token;

/// The token of a refusal.
const REFUSED: &[u8] = b"refused";

/// Whether an answer refuses a line, or a call of a served thread.
fn is_refusal(answer: &[u8]) -> bool
    ensures { result ≡ is_refusal answer.now }
{
    let mut rest = answer;
    while let Some((token, after)) = next_token(rest) {
        if token == REFUSED {
            return true;
        }
        rest = after;
    }
    false
}

/// Removes the answers before the first refusal. Returns whether there is one.
pub(crate) fn find_refusal(left: &mut AnswerLines) -> bool
    ensures { FindsRefusal left.old left.new result }
{
    while !left.is_empty() {
        if is_refusal(left.first()) {
            return true;
        }
        left.go_on();
    }
    false
}
