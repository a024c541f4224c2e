//! How often each kind of step was accepted.

use cycle::{Answer, Reply, Step};

/// The names of the kinds of steps, in their order.
pub const KINDS: [&str; 30] = [
    "Take",
    "GiveBack",
    "New",
    "Load",
    "LoadGlobal",
    "Trap",
    "Heal",
    "Finish",
    "Store",
    "StoreGlobal",
    "Datum",
    "SetDatum",
    "Same",
    "IsNull",
    "CopyReg",
    "ClearReg",
    "Cross",
    "Scrub",
    "Park",
    "Unpark",
    "StartMark",
    "Pick",
    "ScanField",
    "ScanGlobal",
    "EndMark",
    "Protect",
    "Copy",
    "Release",
    "CrossFor",
    "CopyPage",
];

/// Returns the number of the kind of a thread's step; for a worker's, that of none.
fn thread_kind(step: &Step) -> usize {
    match step {
        Step::Take(_) => 0,
        Step::GiveBack => 1,
        Step::New { .. } => 2,
        Step::Load { .. } => 3,
        Step::LoadGlobal { .. } => 4,
        Step::Trap => 5,
        Step::Heal => 6,
        Step::Finish => 7,
        Step::Store { .. } => 8,
        Step::StoreGlobal { .. } => 9,
        Step::Datum { .. } => 10,
        Step::SetDatum { .. } => 11,
        Step::Same { .. } => 12,
        Step::IsNull(_) => 13,
        Step::CopyReg { .. } => 14,
        Step::ClearReg(_) => 15,
        Step::Cross => 16,
        Step::Scrub(_) => 17,
        Step::Park => 18,
        Step::Unpark => 19,
        _ => KINDS.len(),
    }
}

/// Returns the number of the kind of a step.
pub fn kind_of(step: &Step) -> usize {
    match step {
        Step::StartMark => 20,
        Step::Pick { .. } => 21,
        Step::ScanField => 22,
        Step::ScanGlobal(_) => 23,
        Step::EndMark => 24,
        Step::Protect(_) => 25,
        Step::Copy { .. } => 26,
        Step::Release(_) => 27,
        Step::CrossFor(_) => 28,
        Step::CopyPage(_) => 29,
        _ => thread_kind(step),
    }
}

/// The counts of a drive.
#[derive(Drop)]
pub struct Counts {
    /// How many steps of each kind were accepted.
    pub accepted: [u64; 30],
    /// How many steps were rejected.
    pub refused: u64,
    /// How many traps have corrected a reference.
    pub moved: u64,
    /// How many heals have found their place changed.
    pub changed: u64,
    /// How often the heap was verified.
    pub verified: u64,
}

/// Increments a count.
pub fn count(number: &mut u64) {
    *number = number.saturating_add(1);
}

impl Counts {
    /// Returns counts of 0.
    pub fn new() -> Counts {
        Counts {
            accepted: [0; 30],
            refused: 0,
            moved: 0,
            changed: 0,
            verified: 0,
        }
    }

    /// Counts a step of a kind by its reply.
    pub fn enter(&mut self, kind: usize, reply: Reply) {
        if reply.is_err() {
            count(&mut self.refused);
            return;
        }
        if kind < self.accepted.len() {
            count(&mut self.accepted[kind]);
        }
        match reply {
            Ok(Answer::Moved) if kind == 5 => count(&mut self.moved),
            Ok(Answer::Changed) => count(&mut self.changed),
            _ => {}
        }
    }
}
