//! Texts that the output of no script has. `tests/scripts.sh` compares the others: scripts cause each other error and
//! answer, and their reports have each phase, state of a page and reference.

use crate::same::{done, same};
use model::{PageState, Refusal};
use reporting::PageStateText;

#[test]
fn refusals(rt: HostRuntime) {
    let (actor, memory) = (Refusal::NoActor, Refusal::Memory);
    let text = done(&rt, format!(in rt.alloc(); "{actor} {memory}"));
    same(&rt, text.as_str(), "NoActor Memory");
}

#[test]
fn states_of_pages(rt: HostRuntime) {
    let unused = PageStateText(PageState::Unused);
    let text = done(&rt, format!(in rt.alloc(); "{unused}"));
    same(&rt, text.as_str(), "unused");
}
