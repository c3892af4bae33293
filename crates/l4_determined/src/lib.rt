//! What a call leads to is determined, unless memory runs out: its steps, the steps that come next, and the acts of served threads.
#![tactic(auto)]

mod laws;

pub use laws::{next_steps_lead_to_one_machine, the_next_act_is_one, the_next_step_is_one};
