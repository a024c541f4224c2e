//! Tests of turns on a heap that threads share, which thread has it when, and collections between the turns; and of
//! views in each phase of a collection, by several threads at once.
#![tactic(auto)]

#[cfg(test)]
mod parked;
#[cfg(test)]
mod same;
#[cfg(test)]
mod turns;
#[cfg(test)]
mod views;
