//! The tests of the heap: the calls of its threads and workers, and marks in waves, whose results are those of a drain
//! by one thread.
#![tactic(auto)]

#[cfg(test)]
mod at_once;
#[cfg(test)]
mod choices;
#[cfg(test)]
mod heaps;
#[cfg(test)]
mod kept;
#[cfg(test)]
mod mutating;
#[cfg(test)]
mod protections;
#[cfg(test)]
mod same;
#[cfg(test)]
mod tables;
#[cfg(test)]
mod waving;
