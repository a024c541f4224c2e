//! Scanning until nothing is left.

use crate::gate::Gate;
use crate::run::Run;
use crate::scanner::Scanner;
use model::Phase;
use sharing::Seat;
use std::sync::Wait;
use std::thread;
use std::time::Duration;

/// How many microseconds a worker that has found nothing waits before it tries again.
const PAUSE: u64 = 50;

/// How often a worker that has done several steps under one hold of the lock tests whether the run is over, before it
/// takes the lock again: some 20 microseconds, in which others get the lock.
const LULL: u32 = 24_576;

/// Waits for a while, so that threads with steps to do needn't wait for the lock.
pub(crate) fn pause<R: Wait, G: Gate>(run: &Run<R, G>) {
    run.wait(Duration::from_micros(PAUSE));
}

/// Leaves the lock to others for a moment.
fn rest<R: Wait, G: Gate>(run: &Run<R, G>) {
    for _ in 0..LULL {
        if run.is_over() {
            return;
        }
    }
    thread::yield_now();
}

/// Scans until nothing is left that no other worker has, or the run stops.
pub(crate) fn drain<R: Wait, G: Gate>(run: &Run<R, G>, seat: &mut Seat, scanner: &mut Scanner) {
    for _ in run.rt.forever() {
        if run.is_stopped() || !run.scan(seat, scanner) {
            return;
        }
        if !G::WATCHES && !run.is_alone() {
            rest(run);
        }
    }
    unreachable!()
}

/// Scans what is grey until all commands are done, or the run stops.
pub(crate) fn help<R: Wait, G: Gate>(
    run: &Run<R, G>,
    mut seat: Seat,
    mut scanner: Scanner,
) -> Seat {
    for _ in run.rt.forever() {
        if run.is_over() || run.is_stopped() {
            break;
        }
        if matches!(run.phase(), Phase::Scanning) {
            drain(run, &mut seat, &mut scanner);
        }
        pause(run);
    }
    seat
}
