//! Tests of a program's calls on its heap: those that do several steps, as loads and objects that are made with their
//! fields; which number of a call names nothing; the words that collections find and copy; and which calls are done in
//! one go. Many data words and bytes by one call, and counters of collections, are tested from C (`tests/c/bytes.c`,
//! `statistics.c`).
#![tactic(auto)]

#[cfg(test)]
mod batches;
#[cfg(test)]
mod data;
#[cfg(test)]
mod faults;
#[cfg(test)]
mod heaps;
#[cfg(test)]
mod in_one_go;
#[cfg(test)]
mod numbers;
#[cfg(test)]
mod paced;
#[cfg(test)]
mod prepared;
#[cfg(test)]
mod registers;
#[cfg(test)]
mod same;
#[cfg(test)]
mod words;
