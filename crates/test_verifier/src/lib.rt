//! The tests of the verifier, on heaps and on images with faults.
#![tactic(auto)]

#[cfg(test)]
mod edits;
#[cfg(test)]
mod faults;
#[cfg(test)]
mod images;
#[cfg(test)]
mod making;
#[cfg(test)]
mod same;
#[cfg(test)]
mod stories;
#[cfg(test)]
mod verified;
