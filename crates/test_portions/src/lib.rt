//! Tests of heaps that system threads share: what threads keep from portion to portion, and how a heap is shared.
#![tactic(auto)]

#[cfg(test)]
mod bank;
#[cfg(test)]
mod lists;
#[cfg(test)]
mod opening;
#[cfg(test)]
mod same;
