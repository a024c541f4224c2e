//! Tests of scripts in addition to those that run the program: how they are read, what their runs write if out of
//! memory or if a writer fails, and texts that no output has.
#![tactic(auto)]

#[cfg(test)]
mod protections;
#[cfg(test)]
mod reports;
#[cfg(test)]
mod same;
#[cfg(test)]
mod scripts;
#[cfg(test)]
mod texts;
#[cfg(test)]
mod wants;
#[cfg(test)]
mod writers;
