//! Making a list, by steps.

use crate::asking::{Steps, THREAD};
use crate::mixes::{LAST, OTHER, WORDS};
use cycle::Step;
use heap::Refusal;

/// Puts `count` objects of layout 0 in front of a list, in the present buffer.
fn link(heap: &mut impl Steps, count: u32) -> Result<(), Refusal> {
    let (target, layout, field) = (OTHER, 0, 0);
    let (object, source) = (OTHER, LAST);
    for _ in 0..count {
        heap.step(THREAD, Step::New { target, layout })?;
        let store = Step::Store {
            object,
            field,
            source,
        };
        heap.step(THREAD, store)?;
        let (target, source) = (LAST, OTHER);
        heap.step(THREAD, Step::CopyReg { target, source })?;
    }
    Ok(())
}

/// Puts `count` objects of layout 0 in front of a list, in buffers of a page each, which has space for `each` of
/// them.
pub fn build(heap: &mut impl Steps, count: u32, each: u32) -> Result<(), Refusal> {
    let each = each.max(1);
    let mut left = count;
    for _ in 0..count.div_ceil(each) {
        heap.step(THREAD, Step::Take(WORDS))?;
        link(heap, left.min(each))?;
        heap.step(THREAD, Step::GiveBack)?;
        left = left.saturating_sub(each);
    }
    Ok(())
}
