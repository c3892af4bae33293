ghost use Rattle.std.specs.Prelude.{◌≡◌, [], ℕ, List, IfOk, IfErr, None, Some};
ghost use Rattle.l4_plan_lines.specs.Inside.Inputs.{Reflects, EndsSo, TakesOne, HasEnded};
ghost use Rattle.l4_plan_lines.specs.Inputs.{IsRefused, IsWhole};

use crate::claims::{Claim, Head};
use l4_text::Ending;

/// What is wrong with a line.
#[derive(Clone, Copy, PartialEq, Eq, Debug)]
pub enum LineFault {
    /// S2: the line is misspelled, or not allowed at this position.
    BadTokens,
    /// S3: the line has more than 4,096 bytes before its newline.
    LineTooLong,
    /// S4: the input ends before the line's newline.
    CutLine,
}

/// A wrong line: its number, from 1, and what is wrong with it.
#[derive(Clone, Copy, PartialEq, Eq, Debug)]
pub struct WrongLine {
    pub number: u32,
    pub fault: LineFault,
}

/// The result of the lines read so far: their claim, and the first wrong line.
#[derive(Drop)]
pub struct Found {
    pub claim: Claim,
    pub wrong: Option<WrongLine>,
}

impl Found {
    /// Returns the result of no lines: an empty claim, and no wrong line.
    pub fn new() -> Found
        ensures { Reflects result [] }
    {
        Found {
            claim: Claim::new(),
            wrong: None,
        }
    }

    /// Adds the next line, with the way it ended. If the line has more than 4,096 bytes, `line` has the first ones.
    pub fn take(&mut self, ending: Ending, line: &[u8])
        ensures { (lines : List (List ℕ)) (bytes : List ℕ) → EndsSo ending line.now bytes
            → Reflects self.old lines → TakesOne ending self.new lines bytes }
    {
        match self.wrong {
            Some(_) => {}
            None => self.take_next(ending, line),
        }
    }

    /// Adds the next line, if no earlier line was wrong.
    fn take_next(&mut self, ending: Ending, line: &[u8])
        requires { self.old.wrong ≡ None }
        ensures { (lines : List (List ℕ)) (bytes : List ℕ) → EndsSo ending line.now bytes
            → Reflects self.old lines → TakesOne ending self.new lines bytes }
    {
        let before = self.claim.lines();
        let number = before + 1;
        match ending {
            Ending::Cut => {
                self.wrong = Some(WrongLine {
                    number,
                    fault: LineFault::CutLine,
                });
            }
            Ending::Long => {
                self.wrong = Some(WrongLine {
                    number,
                    fault: LineFault::LineTooLong,
                });
            }
            Ending::Whole => {
                let second = self.claim.is_second_tag(line);
                if self.claim.add(line) {
                    return;
                }
                if second {
                    self.wrong = Some(WrongLine {
                        number: before,
                        fault: LineFault::BadTokens,
                    });
                    return;
                }
                self.wrong = Some(WrongLine {
                    number,
                    fault: LineFault::BadTokens,
                });
            }
        }
    }

    /// Returns the head of the claim of the whole input, or the first wrong line.
    pub fn finish(&self) -> Result<Head, WrongLine>
        ensures ok { IfOk result
            (λ _. (input : List ℕ) → HasEnded self.now input → IsWhole input self.now.claim) }
        ensures head { IfOk result (λ head. self.now.claim.head ≡ Some head) }
        ensures err { IfErr result
            (λ wrong. (input : List ℕ) → HasEnded self.now input → IsRefused input wrong) }
    {
        if let Some(wrong) = self.wrong {
            return Err(wrong);
        }
        if self.claim.has_empty_group() {
            return Err(WrongLine {
                number: self.claim.lines(),
                fault: LineFault::BadTokens,
            });
        }
        match self.claim.head {
            Some(head) => Ok(head),
            None => Err(WrongLine {
                number: 1,
                fault: LineFault::BadTokens,
            }),
        }
    }
}
