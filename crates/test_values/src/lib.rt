//! The tests of what a heap is made of below its pages: references, bitmaps, the parts of objects, and configurations.
#![tactic(auto)]

#[cfg(test)]
mod bits;
#[cfg(test)]
mod configs;
#[cfg(test)]
mod objects;
#[cfg(test)]
mod rows;
#[cfg(test)]
mod same;
#[cfg(test)]
mod words;
