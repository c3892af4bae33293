//! The commands of scripts: what the tokens of a line request.
#![tactic(auto)]

mod calls;
mod commands;
mod kinds;
mod laws;
mod line_kinds;
mod naming;
mod partners;
mod regions;
mod requests;
mod symbols;

pub use calls::{read_fault, read_ipc, read_receive, read_send};
pub use commands::{ScriptFault, command_name, is_fault, is_ipc, is_recv, is_send, request};
pub use kinds::{TokenKind, is_of_kind};
pub use laws::{names_hide_no_word, names_stand_for_threads};
pub use line_kinds::{LineKind, is_comment, read_kind};
pub use partners::{NewSpace, Partner};
pub use requests::{CallPlaces, LentCall, ROOT, Request, Which, delete_call, send_call};
pub use symbols::{fpage_count, symbol};
