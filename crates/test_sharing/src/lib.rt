//! The tests of shared recorded heaps, compared with those of one thread; and of shared or borrowed recorded heaps when
//! out of memory, where each allocation of a test fails in turn.
#![tactic(auto)]

#[cfg(test)]
mod draining;
#[cfg(test)]
mod histories;
#[cfg(test)]
mod lists;
#[cfg(test)]
mod mirror;
#[cfg(test)]
mod openings;
#[cfg(test)]
mod rows;
#[cfg(test)]
mod same;
#[cfg(test)]
mod steps;
#[cfg(test)]
mod stops;
#[cfg(test)]
mod table;
