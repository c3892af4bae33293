//! The kernel, plans and checks for C. `include/l4.h` declares these functions, and states units, ranges and refusals.
#![tactic(auto)]

mod asking;
mod checking;
mod descending;
mod giving;
mod judgements;
mod owning;
mod paging;
mod planning;
mod stepping;
mod texts;
mod watching;

pub use asking::{
    l4_mapping_of, l4_mappings, l4_next_page, l4_next_space, l4_next_thread, l4_page_size_of,
    l4_reply_of, l4_space_of, l4_state_of,
};
pub use checking::{
    l4_check_plan, l4_check_plan_sized, l4_check_too_long, l4_check_too_long_sized,
};
pub use descending::l4_descendants;
pub use giving::{l4_sigma0_answer, l4_sigma0_free, l4_sigma0_new, l4_sigma0_new_sized};
pub use judgements::JudgeResult;
pub use owning::{l4_boot, l4_boot_sized, l4_copy, l4_free};
pub use paging::{
    l4_pager_add, l4_pager_answer, l4_pager_find, l4_pager_free, l4_pager_new, l4_pager_new_sized,
    l4_read_fault, l4_read_request,
};
pub use planning::{
    PartResult, PlanResult, l4_plan_message, l4_plan_message_sized, l4_plan_pages,
    l4_plan_pages_sized, l4_plan_region, l4_plan_region_sized,
};
pub use stepping::{
    l4_cancel, l4_enabled, l4_enter, l4_expire, l4_next, l4_start, l4_timeout, l4_transfer,
};
pub use texts::{l4_refusal_code, l4_refusal_text, l4_reply_text, l4_step_text, l4_version};
pub use watching::{l4_execute, l4_judge};
