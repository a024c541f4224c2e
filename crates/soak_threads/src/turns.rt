//! The operations of a thread: it moves money between the accounts of a bank, and makes and reads lists.
//!
//! Global 0 has the bank, a table of accounts, and global 1 the board, a table with a place for the last list of each
//! thread. Register 0 keeps the list that a thread makes, register 1 the one that it reads; 2 and 3 are for one step.

use crate::team::{CELL, PLACES, POLICY, TABLE};
use model::Refusal;
use portions::MutatorCalls;
use std::alloc::Global;

/// How many cells a list has.
pub const LENGTH: u32 = 50;

/// The sum of a list's numbers.
const SUM: u64 = 1_225;

/// The coins of each account at first.
const START: u64 = 1_000;

/// Makes the bank and the board, in their globals.
pub fn found_bank(alloc: Global, mutator: &mut impl MutatorCalls) -> Result<(), Refusal> {
    mutator.make(alloc, POLICY, 2, TABLE)?;
    for account in 0..PLACES {
        mutator.make(alloc, POLICY, 3, CELL)?;
        mutator.set_datum(3, 0, START)?;
        mutator.store(2, account, 3)?;
    }
    mutator.store_global(0, 2)?;
    mutator.make(alloc, POLICY, 2, TABLE)?;
    mutator.store_global(1, 2)
}

/// Moves one coin from an account to another one.
pub fn transfer(mutator: &mut impl MutatorCalls, from: u32, to: u32) -> Result<(), Refusal> {
    mutator.read_global(2, 0)?;
    mutator.read(3, 2, from)?;
    let had = mutator.datum(3, 0)?;
    mutator.set_datum(3, 0, had.wrapping_sub(1))?;
    mutator.read(3, 2, to)?;
    let has = mutator.datum(3, 0)?;
    mutator.set_datum(3, 0, has.wrapping_add(1))
}

/// Returns whether the sum of all accounts is what it was at first.
pub fn is_balanced(mutator: &mut impl MutatorCalls) -> Result<bool, Refusal> {
    let mut sum = 0u64;
    mutator.read_global(2, 0)?;
    for account in 0..PLACES {
        mutator.read(3, 2, account)?;
        sum = sum.wrapping_add(mutator.datum(3, 0)?);
    }
    Ok(sum == START.wrapping_mul(u64::from(PLACES)))
}

/// Puts a number in front of the thread's list.
pub fn push(alloc: Global, mutator: &mut impl MutatorCalls, number: u32) -> Result<(), Refusal> {
    mutator.make(alloc, POLICY, 3, CELL)?;
    mutator.set_datum(3, 0, u64::from(number))?;
    mutator.store(3, 0, 0)?;
    mutator.copy_register(0, 3)
}

/// Puts the thread's list on the board, in the place of the one before, and begins another one.
pub fn publish(mutator: &mut impl MutatorCalls, thread: u32) -> Result<(), Refusal> {
    mutator.read_global(2, 1)?;
    mutator.store(2, thread, 0)?;
    mutator.clear_register(0)
}

/// Takes a thread's list from the board to read it. Returns whether there is one.
pub fn look_up(mutator: &mut impl MutatorCalls, thread: u32) -> Result<bool, Refusal> {
    mutator.read_global(2, 1)?;
    mutator.read(1, 2, thread)?;
    Ok(!mutator.is_null(1)?)
}

/// Adds up half of a list, and leaves the rest of it to be read.
pub fn sum_half(mutator: &mut impl MutatorCalls, sum: u64) -> Result<u64, Refusal> {
    let mut sum = sum;
    for _ in 0..LENGTH / 2 {
        sum = sum.wrapping_add(mutator.datum(1, 0)?);
        mutator.read(1, 1, 0)?;
    }
    Ok(sum)
}

/// Returns whether a list that was read to its end has this sum, and has ended.
pub fn is_whole(mutator: &impl MutatorCalls, sum: u64) -> Result<bool, Refusal> {
    Ok(sum == SUM && mutator.is_null(1)?)
}
