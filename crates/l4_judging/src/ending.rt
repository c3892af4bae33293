//! The ending of a line.
ghost use Rattle.l4_judging.specs.Inside.Judged.{EndsBy};

use l4_step_lines::Fault;
use l4_text::Ending;

/// Checks the ending of the line of this number. Returns the fault if it ends the list.
pub(crate) fn check_ending(number: u64, ending: Ending) -> Result<(), Fault>
    ensures { EndsBy number ending result }
{
    match ending {
        Ending::Whole => Ok(()),
        Ending::Long => Err(Fault::Long(number)),
        Ending::Cut => Err(Fault::Cut(number)),
    }
}
