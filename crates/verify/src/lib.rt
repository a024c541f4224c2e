//! The verifier: whether memory and roots, as plain data, are a sound heap, or else the first fault. It knows nothing
//! of the collector that made them.
#![tactic(auto)]

mod births;
mod chart;
mod fields;
mod frames;
mod image;
mod objects;
mod printing;
mod roots;
mod spots;
mod tables;
mod verdict;
mod verifier;
mod walk;

pub use image::{Image, PageImage, Words};
pub use verdict::{Fault, Root, Verdict};
pub use verifier::{one_verdict, verify_image};
