//! Reporting the counts of a drive.

use crate::counts::{Counts, KINDS};
use crate::setups::Habits;
use anyhow::{Result, bail};

/// Prints how often each kind of step was accepted, and the other counts.
pub fn tell<R: Print>(rt: &R, counts: &Counts) -> Result<()> {
    for (name, accepted) in KINDS.iter().zip(counts.accepted.iter()) {
        println!(rt; "{name} {accepted}")?;
    }
    println!(rt; "refused {}", counts.refused)?;
    println!(rt; "moved {}", counts.moved)?;
    println!(rt; "changed {}", counts.changed)?;
    println!(rt; "verified {}", counts.verified)?;
    Ok(())
}

/// Fails if a kind of step was never accepted. Pages are copied by one step only with the habit `rolls`.
fn missing_kind(counts: &Counts, habits: Habits) -> Result<()> {
    for (name, accepted) in KINDS.iter().zip(counts.accepted.iter()) {
        if *accepted == 0 && (habits.rolls || *name != "CopyPage") {
            bail!("no {name} was accepted");
        }
    }
    Ok(())
}

/// Fails if something never occurred.
pub fn misses(counts: &Counts, habits: Habits) -> Result<()> {
    missing_kind(counts, habits)?;
    if counts.moved == 0 {
        bail!("no trap moved a word");
    }
    if counts.changed == 0 {
        bail!("no heal found its place changed");
    }
    Ok(())
}
