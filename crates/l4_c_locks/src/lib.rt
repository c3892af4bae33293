//! Locked kernels for C. `include/l4.h` declares these functions, and states units, ranges and refusals.
#![tactic(auto)]

mod locking;
mod segments;
mod sharing;
mod tracing;

pub use locking::{
    l4_lock_cancel, l4_lock_close, l4_lock_ended, l4_lock_enter, l4_lock_entry, l4_lock_frames_of,
    l4_lock_free, l4_lock_give, l4_lock_kept_from, l4_lock_length, l4_lock_new, l4_lock_new_sized,
    l4_lock_receipt, l4_lock_seat_of, l4_lock_take, l4_lock_timeout,
};
pub use segments::{
    l4_lock_hand_out, l4_segment_bytes, l4_segment_entry, l4_segment_first, l4_segment_free,
    l4_segment_length,
};
pub use sharing::{
    l4_lock_copy, l4_lock_descendants, l4_lock_mapping_of, l4_lock_mappings, l4_lock_next_page,
    l4_lock_next_space, l4_lock_next_thread, l4_lock_page_size_of, l4_lock_reply_of,
    l4_lock_space_of, l4_lock_state_of,
};
pub use tracing::{l4_lock_check_provenance, l4_lock_provenance};
