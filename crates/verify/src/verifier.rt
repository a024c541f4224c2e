//! The verifier: all searches for a fault, in order.

ghost use Rattle.std.specs.Prelude.{IfOk};
ghost use Rattle.verify.specs.Soundness.{HasFrames};
ghost use Rattle.verify.specs.Walks.{IsWalk};
ghost use Rattle.verify.specs.Faults.{VerdictIs, OneVerdict};

use crate::births::least_twins;
use crate::chart::Chart;
use crate::fields::first_bad_field;
use crate::frames::has_frames;
use crate::image::Image;
use crate::roots::find_reached;
use crate::verdict::{Fault, Verdict};
use crate::walk::Walk;
use std::alloc::{AllocError, Global};

/// Returns whether an image is sound, or else its first fault: the frames first, then roots, then fields of reached
/// objects, then births. Its time is linear in the words and objects of the image. Fails only if out of memory; all
/// memory except that for births is allocated before the walk begins.
pub fn verify_image(alloc: Global, image: &Image) -> Result<Verdict, AllocError>
    ensures { IfOk result (VerdictIs image.now) }
{
    if !has_frames(alloc, image)? {
        return Ok(Verdict::Faulty(Fault::Frames));
    }
    let chart = Chart::new(alloc, image)?;
    let walk = Walk::new(alloc, image)?;
    verify_chart(alloc, walk, &chart)
}

/// Returns the same if the frames are in order, by a walk that has met nothing yet. Fails only if out of memory.
fn verify_chart(alloc: Global, walk: Walk, chart: &Chart) -> Result<Verdict, AllocError>
    requires frames { HasFrames chart.now }
    requires walk { IsWalk chart.now walk }
    ensures { IfOk result (VerdictIs chart.now) }
{
    let spots = match find_reached(walk, chart) {
        Err(root) => return Ok(Verdict::Faulty(Fault::Root(root))),
        Ok(spots) => spots,
    };
    if let Some(fault) = first_bad_field(chart, &spots) {
        return Ok(Verdict::Faulty(fault));
    }
    match least_twins(alloc, chart, &spots)? {
        None => Ok(Verdict::Sound),
        Some(birth) => Ok(Verdict::Faulty(Fault::Twins(birth))),
    }
}

/// Proves that there is one verdict on an image.
pub fn one_verdict()
    ensures { OneVerdict }
{}
