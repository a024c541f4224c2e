//! The tests of runs by threads, of seats and of hints.
#![tactic(auto)]

#[cfg(test)]
mod emptying;
#[cfg(test)]
mod gates;
#[cfg(test)]
mod halting;
#[cfg(test)]
mod recorder;
#[cfg(test)]
mod rows;
#[cfg(test)]
mod same;
#[cfg(test)]
mod stealing;
#[cfg(test)]
mod strays;
#[cfg(test)]
mod taking;
#[cfg(test)]
mod turns;
#[cfg(test)]
mod wants;
#[cfg(test)]
mod watching;
#[cfg(test)]
mod workers;
