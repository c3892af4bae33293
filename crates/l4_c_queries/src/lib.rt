//! What a kernel, a locked kernel and a segment answer to queries from C.
#![tactic(auto)]

mod asking;
mod copying;
mod descending;
mod entries;
mod files;
mod mapped;
mod states;
mod tracing;

pub use asking::{
    ThreadResult, mapping_of, next_page, next_space, next_thread, no_mapping, no_size,
    page_size_of, reply_of, space_of, space_told, thread_told,
};
pub use copying::fill;
pub use descending::{CountResult, PlaceResult, counted, list_descendants};
pub use entries::{ended_from, entry_of, receipt_of, refused_call, segment_entry};
pub use files::{write_bytes, write_file};
pub use mapped::{MappedResult, list_mappings};
pub use states::{StateResult, no_state, state_of};
pub use tracing::{Verdict, judge_links, trace, verdict_of};
