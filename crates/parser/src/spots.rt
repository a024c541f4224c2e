//! The places of commands that not every kind of run does.

ghost use Rattle.std.specs.Prelude.{◌≡◌, if◌then◌else◌, Some, None};
ghost use Rattle.std.specs.List.{slice_split};
ghost use Rattle.parser.specs.Reading.{newline};
ghost use Rattle.parser.specs.Spots.{fault_at, fault_of, first_spot, is_cycle_word, is_sought, second_word, spots_in};

use crate::commands::begins_with_w;
use crate::fault::{FaultKind, LineFault};
use crate::reading::{cut_line, first_word};
use crate::words::word_at;

/// The first command that only a run by threads does, and the first that such a run doesn't do, each as its fault in
/// the other kind of run.
#[derive(Clone, Copy, Debug, PartialEq, Eq)]
pub struct Spots {
    /// The first cycle, or first half of one.
    pub cycle: Option<LineFault>,
    /// The first command of a worker other than these of worker 0.
    pub other: Option<LineFault>,
}

/// The command that is searched for.
#[derive(Clone, Copy)]
pub enum Sought {
    /// A cycle, or the first half of one.
    Cycle,
    /// A command of a worker other than these of worker 0.
    Other,
}

impl Sought {
    /// Returns the fault of such a command in the other kind of run.
    fn fault(self) -> FaultKind
        ensures { result ≡ fault_of self }
    {
        match self {
            Sought::Cycle => FaultKind::CycleNeedsThreads,
            Sought::Other => FaultKind::UnknownWord,
        }
    }

    /// Returns whether a line is such a command.
    fn is_line(self, line: &[u8]) -> bool
        ensures { result ≡ is_sought self line.now }
    {
        if !begins_with_w(line) {
            return false;
        }
        let (actor, _) = first_word(line);
        let is_cycle = is_cycle_word(second_word(line));
        match self {
            Sought::Cycle => is_cycle,
            Sought::Other => !(actor == b"w0".as_slice() && is_cycle),
        }
    }

    /// Returns the fault of a line with this number, if it is such a command.
    #[tactic(auto, using(crate::proofs::FirstSpots::second_place))]
    fn in_line(self, number: usize, line: &[u8]) -> Option<LineFault>
        ensures { result ≡ (if is_sought self line.now then Some (fault_at (fault_of self) number line.now) else None) }
    {
        if !self.is_line(line) {
            return None;
        }
        let (_, at) = first_word(line);
        Some(LineFault {
            line: number,
            column: at + 1,
            kind: self.fault(),
        })
    }

    /// Returns the fault of the first line that is such a command.
    #[tactic(auto, using(crate::proofs::FirstSpots::spot_is, crate::proofs::FirstSpots::spot_here, crate::proofs::FirstSpots::spot_later, crate::proofs::FirstSpots::spot_last))]
    fn first_in(self, bytes: &[u8]) -> Option<LineFault>
        ensures { result ≡ first_spot self (slice_split newline bytes.now) }
    {
        let mut rest = bytes;
        let mut number = 1;
        while let Some((line, after)) = cut_line(rest) {
            if let Some(fault) = self.in_line(number, line) {
                return Some(fault);
            }
            rest = after;
            number += 1;
        }
        self.in_line(number, rest)
    }
}

/// Returns the second word of a line, or an empty one.
#[tactic(auto, unfolding(crate::specs::Spots::second_word))]
fn second_word(line: &[u8]) -> &[u8]
    ensures { result.now ≡ second_word line.now }
{
    let (_, at) = first_word(line);
    match word_at(line, at) {
        None => b"",
        Some((word, _)) => word,
    }
}

/// Returns whether a word is that of a cycle, or of the first half of one.
fn is_cycle_word(word: &[u8]) -> bool
    ensures { result ≡ is_cycle_word word.now }
{
    word == b"cycle".as_slice() || word == b"roll".as_slice()
}

/// Returns the spots of a script.
#[tactic(auto, unfolding(crate::specs::Spots::spots_in))]
pub fn find_spots(bytes: &[u8]) -> Spots
    ensures { result ≡ spots_in bytes.now }
{
    Spots {
        cycle: Sought::Cycle.first_in(bytes),
        other: Sought::Other.first_in(bytes),
    }
}
