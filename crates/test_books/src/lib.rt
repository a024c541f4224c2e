//! The tests of recorded heaps: steps with their answers, complete loads, drains, copies by halves, histories, and
//! relocation-set selection.
#![tactic(auto)]

#[cfg(test)]
mod books;
#[cfg(test)]
mod choices;
#[cfg(test)]
mod halving;
#[cfg(test)]
mod histories;
#[cfg(test)]
mod loads;
#[cfg(test)]
mod marks;
#[cfg(test)]
mod numbered;
#[cfg(test)]
mod same;
