//! The report of an invalid command line.
ghost use Rattle.std.specs.Prelude.{◌≡◌};
ghost use Rattle.l4_options.specs.Statuses.{option_status};

use crate::requests::OptionFault;
use l4_programs::{NO_MEMORY, NOT_UNDERSTOOD};

/// Prints on standard error why the command line is invalid. Returns the exit status: 4 if there was not enough memory, 2 for any other
/// fault.
pub fn misread(rt: &impl Eprint, fault: &OptionFault) -> u8
    ensures { result ≡ option_status fault.now }
{
    let _ = rt.eprintln(fault);
    match fault {
        OptionFault::Memory => NO_MEMORY,
        OptionFault::Words(_)
        | OptionFault::Frames(_)
        | OptionFault::Pages(_)
        | OptionFault::Decimal { .. }
        | OptionFault::Rights(_)
        | OptionFault::Hyphens { .. }
        | OptionFault::Exclude(_, _)
        | OptionFault::Word(_)
        | OptionFault::TooMany(_)
        | OptionFault::TooManyTokens(_)
        | OptionFault::Kind(_)
        | OptionFault::Token { .. }
        | OptionFault::Reading(_) => NOT_UNDERSTOOD,
    }
}
