//! What threads know of their registers from portion to portion, and how a heap with such seats is shared.
#![tactic(auto)]

#[cfg(test)]
mod keeping;
#[cfg(test)]
mod sharing;
#[cfg(test)]
mod tests;
