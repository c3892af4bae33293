//! The text of a message's refusal.
ghost use Rattle.std.specs.Prelude.{◌≡◌, ◌≤◌, ◌+◌, ◌++◌, length};
ghost use Rattle.l4_decode.specs.Refusals.{reason_text, refusal_text};
ghost use Rattle.l4_text.specs.Sizes.{text_bytes};

use l4_answers::{add_code, refused_code};
use l4_ipc::{Lower, Refused};
use l4_msg::MsgFault;
use l4_refusals::text_of;
use l4_text::Text;

/// Returns the meaning of a refusal's code.
fn reason(fault: MsgFault) -> &'static [u8]
    ensures value { result.now ≡ reason_text fault }
    ensures few { length result.now ≤ 80 }
{
    match fault {
        MsgFault::TooManyWords => text_of(0x4d31).line,
        MsgFault::OddTyped => text_of(0x4d32).line,
        MsgFault::BadItem(_) => text_of(0x4d33).line,
        MsgFault::Unsupported(_) => text_of(0x4d34).line,
        MsgFault::Flags => text_of(0x4d35).line,
        MsgFault::BadWindow => text_of(0x4d36).line,
        MsgFault::Short => text_of(0x4d37).line,
    }
}

/// Adds `refused CODE: REASON`.
#[tactic(auto, unfolding(crate::specs::Refusals::refusal_text))]
pub(crate) fn add_refusal(text: &mut Text, fault: MsgFault)
    requires { length text.old + 119 ≤ text_bytes }
    ensures value { text.new ≡ text.old ++ refusal_text fault }
    ensures len { length text.new ≤ length text.old + 119 }
{
    text.add(b"refused ");
    add_code(text, &refused_code(Refused::Lower(Lower::Message(fault))));
    text.add(b": ");
    text.add(reason(fault));
}
