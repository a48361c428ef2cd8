//! What moves elements.
#![tactic(auto)]

mod buffer;
mod byte_compress;
mod compaction;
mod elements;
mod lists;
mod ones;
mod picks;
mod slice;
mod targets;

pub use buffer::{compact_bits, compact_words};
pub use byte_compress::{compress_bits, compress_words, table_entry};
pub use compaction::{compact_by_bitmap, compact_runs_by_bitmap, move_by_bitmap};
pub use elements::{Element, Event, sparse_limit};
pub use lists::list_words;
pub use picks::{copy_runs, move_at, move_runs};
pub use slice::{MaskBits, MaskWords, copy_at, copy_part, copy_to};
