//! Threads that share a heap, each with its seat, alongside a collector: for the tests of portions and of views.
#![tactic(auto)]

pub mod team;
