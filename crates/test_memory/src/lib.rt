//! The tests of a heap's memory: pages, and forwarding tables.
#![tactic(auto)]

#[cfg(test)]
mod lending;
#[cfg(test)]
mod pages;
#[cfg(test)]
mod same;
#[cfg(test)]
mod sides;
