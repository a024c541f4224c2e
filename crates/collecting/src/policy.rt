//! When a heap is collected.

ghost use Rattle.std.specs.Prelude.{◌≡◌, ◌==◌, ◌/◌, if◌then◌else◌};
ghost use Rattle.collecting.specs.Policies.{checked, policy_fault};

use heap::Config;
use std::error::Error;
use std::fmt;

/// The size of buffers, when a heap is collected for them, and which pages are emptied then.
#[derive(Clone, Copy, Debug, PartialEq, Eq)]
pub struct Policy {
    /// The words of a fresh buffer: 1 to the words of a page.
    pub words: u32,
    /// A heap in which at most this many frames are free is collected before a thread gets a fresh buffer, if enough
    /// pages were opened since the last mark ended: 0 to the heap's frames.
    pub free: u32,
    /// Pages of which at most this many words of a hundred are live are emptied: 0 to 100.
    pub percent: u32,
}

/// The first field of a policy that is out of its range.
#[derive(Clone, Copy, Debug, PartialEq, Eq)]
pub enum PolicyFault {
    /// The words are 0, or more than a page has.
    Words,
    /// The free frames are more than the heap has.
    Free,
    /// The percent are more than 100.
    Percent,
}

impl fmt::Display for PolicyFault {
    fn fmt<W: fmt::Write>(&self, f: &mut fmt::Formatter<W>) -> fmt::Result {
        match *self {
            PolicyFault::Words => f.write_str("words of a policy out of range"),
            PolicyFault::Free => f.write_str("free frames of a policy out of range"),
            PolicyFault::Percent => f.write_str("percent out of range"),
        }
    }
}

impl Error for PolicyFault {}

impl Policy {
    /// Returns the usual policy of a heap with pages of `words` and this many frames: buffers of a page, a
    /// collection if at most an eighth of the frames is free, or one, and pages emptied of which at most three
    /// quarters are live.
    pub fn usual(words: u32, frames: u32) -> Policy
        ensures words { result.words ≡ words }
        ensures free { result.free ≡ (if frames / 8 == 0 then 1 else frames / 8) }
        ensures percent { result.percent ≡ 75 }
    {
        let eighth = frames / 8;
        Policy {
            words,
            free: if eighth == 0 { 1 } else { eighth },
            percent: 75,
        }
    }

    /// Returns the first field that is out of its range for a heap of this configuration, if one is.
    #[inline(always)]
    #[tactic(auto, unfolding(crate::specs::Policies::policy_fault))]
    pub fn fault(&self, config: &Config) -> Option<PolicyFault>
        ensures { result ≡ policy_fault config.now self.now }
    {
        if self.words == 0 || self.words > config.words {
            return Some(PolicyFault::Words);
        }
        if self.free > config.frames {
            return Some(PolicyFault::Free);
        }
        if self.percent > 100 {
            return Some(PolicyFault::Percent);
        }
        None
    }

    /// Tests that each field is in its range for a heap of this configuration. Fails with the first one that isn't.
    pub fn check(&self, config: &Config) -> Result<(), PolicyFault>
        ensures { result ≡ checked config.now self.now }
    {
        match self.fault(config) {
            None => Ok(()),
            Some(fault) => Err(fault),
        }
    }
}
