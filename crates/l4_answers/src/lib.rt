//! The kernel's answers: their receivers and their texts.
#![tactic(auto)]

mod lines;
mod pages;
mod refusals;
mod replies;
mod sink;

pub use lines::{AnswerLines, first_line, later_lines, line_len};
pub use pages::{add_page, add_place, add_rights, put_page, put_parent, put_shown};
pub use refusals::{
    Code, add_code, put_named, put_refused_act, put_refused_line, put_region, put_steps,
    refused_code,
};
pub use replies::{
    put_cancel, put_expire, put_none, put_reply, put_transfer, put_waits, reply_words,
};
pub use sink::Sink;
