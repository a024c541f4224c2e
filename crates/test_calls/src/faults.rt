//! Kinds of errors.

use crate::same::{done, same};
use collecting::CallFault;
use model::Refusal;
use std::alloc::Global;
use std::fmt::Write as _;
use std::process::Abort;

/// A fault has this text.
pub fn tells(rt: &impl Abort, alloc: Global, fault: CallFault, wanted: &str) {
    let mut text = String::new(alloc);
    done(rt, write!(text, "{fault}"));
    same(rt, text.as_str(), wanted);
}

#[test]
fn texts(rt: HostRuntime) {
    for (refusal, wanted) in [
        (Refusal::Null, "the register is null"),
        (Refusal::BadIndex, "a number names nothing"),
        (Refusal::NoPages, "the heap has no room"),
        (Refusal::Memory, "memory was refused"),
        (Refusal::Births, "no more objects may be born"),
        (Refusal::Busy, "refused Busy"),
    ] {
        tells(&rt, rt.alloc(), CallFault::from(refusal), wanted);
    }
}
