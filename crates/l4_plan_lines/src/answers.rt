ghost use Rattle.std.specs.Prelude.{◌≡◌, ◌+◌, ◌≤◌, ◌<◌, ◌^◌, ◌++◌, ℕ, List, length, Some, IfSome, MatchOption, codes};
ghost use Rattle.std.specs.Fmt.{decimal};
ghost use Rattle.l4_plan_lines.specs.Lines.{ended};
ghost use Rattle.l4_plan_lines.specs.Inside.Inputs.{HasEnded};
ghost use Rattle.l4_plan_lines.specs.Inputs.{IsWhole};
ghost use Rattle.l4_plan_lines.specs.Answers.{IsAnswer, AreRightTags, IsFirstWrongTag, answer_line, wrong_line, wrong_code, fault_line, is_proved};

use crate::claims::{Claim, Head};
use crate::found::{Found, LineFault, WrongLine};
use l4_fpage::PageSize;
use l4_msg::{MAX_ITEMS, Region};
use l4_plan_check::{Fault, check, check_too_long};
use l4_text::Text;

/// The answer to an input.
#[derive(Clone, Copy, PartialEq, Eq, Debug)]
pub enum Answer {
    /// A line is wrong.
    Refused(WrongLine),
    /// The claim has a fault.
    Faulty(Fault),
    /// The claim is a plan with this number of items, and no list is shorter.
    ProvedPlan(usize),
    /// Every plan is too long.
    ProvedTooLong,
}

/// Returns the number, from 0, of the first message whose tag is not that of its items: label 0, no untyped words, and two words for each
/// item.
fn first_wrong_tag(claim: &Claim) -> Option<usize>
    ensures first { MatchOption result (AreRightTags claim.now.tags.items claim.now.items.items)
        (λ k. IsFirstWrongTag claim.now.tags.items claim.now.items.items k) }
    ensures few { IfSome result (λ k. k ≤ 66) }
{
    let count = claim.tags.len();
    for k in 0..count {
        let items = claim
            .items
            .len()
            .saturating_sub(MAX_ITEMS * k)
            .min(MAX_ITEMS);
        if claim.tags[k] as usize != 128 * items {
            return Some(k);
        }
    }
    None
}

/// Returns the answer to a claim about a region.
fn answer_claim(region: &Region, size: PageSize, head: Head, claim: &Claim) -> Answer
    requires { claim.now.head ≡ Some head }
    ensures { (input : List ℕ) → IsWhole input claim.now → IsAnswer size region.now input result }
{
    match head {
        Head::Plan => {
            if let Some(k) = first_wrong_tag(claim) {
                return Answer::Refused(WrongLine {
                    number: 32 * k as u32 + 1,
                    fault: LineFault::BadTokens,
                });
            }
            match check(region, size, claim.items.as_slice(), claim.pages.as_slice()) {
                Ok(_) => Answer::ProvedPlan(claim.items.len()),
                Err(fault) => Answer::Faulty(fault),
            }
        }
        Head::TooLong => match check_too_long(region, size, claim.pages.as_slice()) {
            Ok(_) => Answer::ProvedTooLong,
            Err(fault) => Answer::Faulty(fault),
        },
    }
}

/// Returns the answer to an input about a region.
pub fn answer_input(region: &Region, size: PageSize, found: &Found) -> Answer
    ensures { (text : List ℕ) → HasEnded found.now text → IsAnswer size region.now text result }
{
    match found.finish() {
        Ok(head) => answer_claim(region, size, head, &found.claim),
        Err(wrong) => Answer::Refused(wrong),
    }
}

/// Returns what is reported about a wrong line, after its number.
fn fault_words(fault: LineFault) -> &'static [u8]
    ensures words { result.now ≡ wrong_code fault }
    ensures few { length result.now ≤ 11 }
{
    match fault {
        LineFault::BadTokens => b" refused S2",
        LineFault::LineTooLong => b" refused S3",
        LineFault::CutLine => b" refused S4",
    }
}

/// Puts some words and a number after them at the end of the text.
fn push_numbered(text: &mut Text, words: &[u8], number: u64)
    requires room { length text.old ≤ 100 }
    requires few { length words.now ≤ 10 }
    ensures text { text.new ≡ text.old ++ (words.now ++ decimal number) }
    ensures len { length text.new ≤ length text.old + 30 }
{
    text.add(words);
    text.add_number(number);
}

/// Puts the line of a wrong line at the end of the text, without its newline.
fn push_wrong(text: &mut Text, wrong: WrongLine)
    requires { length text.old ≤ 100 }
    ensures text { text.new ≡ text.old ++ wrong_line wrong }
    ensures len { length text.new ≤ length text.old + 50 }
{
    push_numbered(text, b"line ", u64::from(wrong.number));
    text.add(fault_words(wrong.fault));
}

/// Puts the line of a fault at the end of the text, without its newline.
fn push_fault(text: &mut Text, fault: Fault)
    requires { length text.old ≤ 100 }
    ensures text { text.new ≡ text.old ++ fault_line fault }
    ensures len { length text.new ≤ length text.old + 50 }
{
    match fault {
        Fault::Item(i) => push_numbered(text, b"fault C1 ", i as u64),
        Fault::Gap(page) => push_numbered(text, b"fault C2 ", u64::from(page)),
        Fault::Page(i) => push_numbered(text, b"fault C3 ", i as u64),
        Fault::Pair(i) => push_numbered(text, b"fault C4 ", i as u64),
        Fault::Count => text.add(b"fault C5"),
        Fault::Region => text.add(b"fault C6"),
    }
}

/// Puts the line of an answer at the end of the text, without its newline.
fn push_answer(text: &mut Text, answer: Answer)
    requires { length text.old ≤ 100 }
    ensures text { text.new ≡ text.old ++ answer_line answer }
    ensures len { length text.new ≤ length text.old + 50 }
{
    match answer {
        Answer::Refused(wrong) => push_wrong(text, wrong),
        Answer::Faulty(fault) => push_fault(text, fault),
        Answer::ProvedPlan(items) => push_numbered(text, b"proved ", items as u64),
        Answer::ProvedTooLong => text.add(b"proved too-long"),
    }
}

/// Returns the line of an answer, with its newline.
pub fn answer_text(answer: Answer) -> Text
    ensures { result ≡ ended (answer_line answer) }
{
    let mut text = Text::new();
    push_answer(&mut text, answer);
    text.push(b'\n');
    text
}

impl Answer {
    /// Returns whether the claim is proved.
    pub fn is_proved(&self) -> bool
        ensures { result ≡ is_proved self.now }
    {
        match self {
            Answer::Refused(_) | Answer::Faulty(_) => false,
            Answer::ProvedPlan(_) | Answer::ProvedTooLong => true,
        }
    }
}
