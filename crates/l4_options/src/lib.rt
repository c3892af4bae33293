//! The command lines of the programs `l4` and `l4_steps`.
#![tactic(auto)]

mod advice;
mod commands;
mod encoding;
mod histories;
mod misreading;
mod ordering;
mod requests;
mod step_commands;
mod testing;
mod values;

pub use commands::options;
pub use misreading::misread;
pub use requests::{JudgeOptions, OptionFault, Options, OrdersOptions, ScriptOptions, StepOptions};
pub use step_commands::step_options;
