//! Bitmaps of the pages of a store: bits by the addresses of words, bitmaps of pages that open, are lent and end, and
//! notes of where copies start.
#![tactic(auto)]

mod bits;
mod ending;
mod opening;
mod owning;
mod runs;
mod starting;

pub use bits::{bit_at, clear_indexed_bit, mark_at, put_bit, put_indexed_bit, test_and_mark};
pub use ending::{end_pages, give_up_indexed_rows, give_up_rows};
pub use opening::{PageMemory, PageRows, blank_memory, open_rows};
pub use owning::swap_all_rows;
pub use runs::{note_all_copied, note_copies};
pub use starting::note_targets;
