//! Segments of histories as files: their written form, which is read back exactly, and segments that follow each other.
#![tactic(auto)]

mod entries;
mod faults;
mod files;
mod headings;
mod joining;
mod laws;
mod reading;
mod saved;
mod words;
mod writing;

pub use entries::{put_entry, read_entry};
pub use faults::{FaultKind, FileFault};
pub use files::{Heading, page_bytes, push_words, write_segment};
pub use headings::{number_of, size_of};
pub use joining::{Joined, Misfit, MisfitKind, join};
pub use l4_record::{Entry, History, Segment};
pub use laws::{files_determine_segments, written_entries_read_back};
pub use reading::{read_segment, read_segments};
pub use saved::SavedSegment;
pub use words::{are_at, read_words, word_at};
pub use writing::{KeepFault, SegmentWriter};
