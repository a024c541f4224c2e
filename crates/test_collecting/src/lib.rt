//! Tests of the heap of a program: marks, collections in parts, several steps by one call, buffers by the policy, and
//! the smallest heaps.
#![tactic(auto)]

#[cfg(test)]
mod between;
#[cfg(test)]
mod choices;
#[cfg(test)]
mod counting;
#[cfg(test)]
mod heaps;
#[cfg(test)]
mod listing;
#[cfg(test)]
mod long;
#[cfg(test)]
mod marks;
#[cfg(test)]
mod parts;
#[cfg(test)]
mod policies;
#[cfg(test)]
mod reports;
#[cfg(test)]
mod rooms;
#[cfg(test)]
mod same;
#[cfg(test)]
mod scans;
#[cfg(test)]
mod targets;
