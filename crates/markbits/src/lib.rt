//! Bitmaps with a bit for each word of a page: where objects start, and which are live, marked or grey.
#![tactic(auto)]

mod block_index;
mod indexed;
mod indexed_row;
mod ranked_row;
mod rows;
mod word_row;

pub use indexed::IndexedRows;
pub use indexed_row::IndexedRow;
pub use ranked_row::RankedRow;
pub use rows::{Row, Rows};
