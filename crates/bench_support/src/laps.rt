//! Times of works.

use std::alloc::{AllocError, Global};
use std::io;
use std::time::{Clock, Instant};

/// What was done, how often, and how many nanoseconds it took each time.
#[derive(Drop)]
pub struct Lap {
    pub name: &'static str,
    pub count: u64,
    pub median: u64,
    pub longest: u64,
}

impl Lap {
    /// Returns a lap of what was done once, in `count` parts.
    pub fn once(name: &'static str, count: u64, nanos: u64) -> Lap {
        Lap {
            name,
            count,
            median: nanos,
            longest: nanos,
        }
    }
}

/// Returns the nanoseconds since an instant.
pub fn since(clock: &impl Clock, start: Instant) -> io::Result<u64> {
    let took = start.elapsed(clock)?;
    Ok(u64::try_from(took.as_nanos()).unwrap_or(u64::MAX))
}

/// The times of one kind of work.
#[derive(Drop)]
struct Kind {
    name: &'static str,
    times: Vec<u64>,
}

/// The times of several kinds of work.
#[derive(Drop)]
pub struct Laps {
    alloc: Global,
    kinds: Vec<Kind>,
}

impl Laps {
    /// Returns no times.
    pub fn new(alloc: Global) -> Laps {
        Laps {
            alloc,
            kinds: Vec::new(alloc),
        }
    }

    /// Adds the time of a work of a kind.
    pub fn add(&mut self, name: &'static str, nanos: u64) -> Result<(), AllocError> {
        for kind in &mut self.kinds {
            if kind.name == name {
                return Ok(kind.times.push(nanos)?);
            }
        }
        let times = vec![in self.alloc; nanos]?;
        Ok(self.kinds.push(Kind { name, times })?)
    }

    /// Returns how often each kind of work was done, and how long it took.
    pub fn all(self) -> Result<Vec<Lap>, AllocError> {
        let mut laps = Vec::with_capacity(self.alloc, self.kinds.len())?;
        for kind in self.kinds {
            laps.push(lap_of(kind)?)?;
        }
        Ok(laps)
    }
}

/// Returns how often a kind of work was done, and how long it took.
fn lap_of(kind: Kind) -> Result<Lap, AllocError> {
    let mut times = kind.times;
    times.sort()?;
    Ok(Lap {
        name: kind.name,
        count: times.len() as u64,
        median: times.get(times.len() / 2).copied().unwrap_or(0),
        longest: times.last().copied().unwrap_or(0),
    })
}
