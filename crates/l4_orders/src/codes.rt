//! The codes of lines that cannot be part of a litmus test.
ghost use Rattle.std.specs.Prelude.{◌≡◌};
ghost use Rattle.l4_orders.specs.Codes.{line_code};

use crate::parts::LineFault;

/// Returns the code of a line that cannot be part of a litmus test.
pub fn line_code(fault: LineFault) -> &'static [u8]
    ensures { result.now ≡ line_code fault }
{
    match fault {
        LineFault::Long => b"S3",
        LineFault::Cut => b"S4",
        LineFault::Unknown => b"S1",
        LineFault::Unread => b"S2",
        LineFault::NamesFull => b"S5",
        LineFault::Repeated => b"O1",
        LineFault::OfNoThread => b"O2",
        LineFault::NoQuery => b"O3",
        LineFault::Steps => b"O4",
        LineFault::NoThread(_) => b"O5",
        LineFault::NoAnswer => b"O7",
        LineFault::Expectation => b"O8",
    }
}
