//! Sequences of steps that move objects while threads run.

use crate::mirror::{mirrors, mirrors_stopped};
use std::test::Fail;
use test_support_books::{HEAD, LINKED, MARKED, ROOMY, WHOLE_PAGES};

/// Both threads scrub a register after the crossings.
const SCRUBBED: &str =
    "w0 protect 1\nt0 cross\nt0 datum r0 0\nw0 copy 1 0\nt1 set r0 0 9\nt1 cross\nt1 datum r0 0\nt1 scrub r0\n\
    t0 scrub r0\nt0 datum r0 0\nt1 datum r0 0\n";

#[test]
fn steps_behind_a_stop(rt: HostRuntime) -> Result<(), Fail> {
    mirrors_stopped(&rt, rt.alloc(), &[HEAD, MARKED, SCRUBBED], 24)
}

/// The page is released, and a load of the next mark heals its place after correcting the reference.
const HEALED_LATE: &str =
    "w0 protect 1\nt0 cross\nt1 cross\nw0 release 1\nw0 copy 1 0\nw0 release 1\nw0 mark\nt0 cross\nt1 cross\n\
    t0 loadg r1 0\nt0 trap\nt0 trap\nw0 scang 0\nw0 pick 2.0\nw0 scan\nw0 scan\nw0 endmark\nt0 heal\n\
    t0 finish\nw0 endmark\nt1 take 16\n";

/// A load waits for a crossing, and then copies the object.
const LOADED: &str =
    "w0 protect 1\nt0 cross\nt0 loadg r1 0\nt0 trap\nt0 heal\nt0 cross\nt1 cross\nt0 trap\nt0 trap\nt0 finish\n\
    t0 heal\nt0 finish\nt0 datum r1 0\nw0 copy 1 0\n";

#[test]
fn objects_that_move(rt: HostRuntime) -> Result<(), Fail> {
    for (moves, entries) in [(SCRUBBED, 24), (HEALED_LATE, 35), (LOADED, 25)] {
        mirrors(&rt, rt.alloc(), &[HEAD, MARKED, moves], 0, entries)?;
    }
    Ok(())
}

/// At once, and by halves to a depth of 2.
#[test]
fn whole_pages(rt: HostRuntime) -> Result<(), Fail> {
    for depth in [0, 2] {
        let parts = [ROOMY, MARKED, LINKED, WHOLE_PAGES];
        mirrors(&rt, rt.alloc(), &parts, depth, 65)?;
    }
    Ok(())
}
