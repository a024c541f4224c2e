//! Recorded heaps for tests, of one thread or shared with all their seats, and scripts of their steps. Their calls
//! have no contracts, so that the proofs of tests are short.
#![tactic(auto)]

mod book;
mod opened;
mod table;

pub use book::{HeldBook, act, small_book};
pub use opened::{FULL, HEAD, LINKED, MARKED, ROOMY, WHOLE_PAGES, act_all, book_of, script_of};
pub use table::{
    HeldTable, Table, ask, entry_text, image_of, seat_of, shared_image, table_of, text_of,
};
