//! The memory of pages: frames of words, with the objects that are kept of each until a word of it is written.
#![tactic(auto)]

mod frame;
mod frames;
mod kept;

pub use frame::Frame;
pub use frames::Frames;
