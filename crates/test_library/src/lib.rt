//! Tests of the library: a heap that owns its policy, and calls by typed numbers; and the library when out of memory,
//! where each allocation of a test fails in turn.
#![tactic(auto)]

#[cfg(test)]
mod emptying;
#[cfg(test)]
mod heaps;
#[cfg(test)]
mod listing;
#[cfg(test)]
mod mutating;
#[cfg(test)]
mod numbers;
#[cfg(test)]
mod owning;
#[cfg(test)]
mod preparing;
#[cfg(test)]
mod protections;
#[cfg(test)]
mod same;
#[cfg(test)]
mod sharing;
