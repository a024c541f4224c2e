//! Fast paths: steps of a thread that are done at once if no test rejects them and no trap is due, on an object that is
//! looked up, or that was found before.
#![tactic(auto)]

mod at_once;
mod found;
mod globals;
mod words;

pub use at_once::{datum_at_once, header_at_once, same_at_once, set_datum_at_once, store_at_once};
pub use found::{
    FoundObject, datum_found, find_object, header_found, load_found, set_datum_found, store_found,
};
pub use globals::load_global_at_once;
