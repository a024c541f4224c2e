//! A thread reads in its next portion what it wrote to a register in one before.

ghost use Rattle.std.specs.Prelude.{◌≡◌, ◌<◌, true, length, IfSome, Ok};
ghost use Rattle.model.specs.Saying.{done};
ghost use Rattle.model.specs.declared.steps.Answer.TheVariants as answers;
ghost use Rattle.model.specs.declared.steps.Step.TheVariants as steps;
ghost use Rattle.cycle.specs.Mutating.{ThreadStands};
ghost use Rattle.portions.specs.Portions.{GoesOn};

use known_registers::{KnowingSeat, KnownHeap, Mutator, MutatorCalls, Refusal};
use std::sync::Wait;
use tokens::CellName;

/// Copies register 0 to register 1.
fn copy(mutator: &mut Mutator) -> Result<(), Refusal>
    ensures stands { ThreadStands done mutator.old.heap mutator.old.thread (steps.CopyReg 1 0) result
        mutator.new.heap }
    ensures on { GoesOn mutator.old mutator.new }
{
    mutator.copy_register(1, 0)
}

/// Returns whether registers 0 and 1 refer to one object.
fn compare(mutator: &mut Mutator) -> Result<bool, Refusal>
    ensures stands { ThreadStands answers.Truth mutator.old.heap mutator.old.thread (steps.Same 0 1) result
        mutator.new.heap }
    ensures same { mutator.new ≡ mutator.old }
{
    mutator.same(0, 1)
}

/// Returns whether the registers refer to one object, if the copy was made.
fn found(copied: Result<(), Refusal>, same: Result<bool, Refusal>) -> Option<bool>
    ensures { IfSome result (λ is. (copied ≡ Ok tt) × (same ≡ Ok is)) }
{
    match copied {
        Ok(()) => same.ok(),
        Err(_) => None,
    }
}

/// Copies register 0 to register 1 in a portion, and compares them in the next one. Whatever other threads and the
/// collector do in between, both then refer to one object, if the thread has two registers.
pub(crate) fn copied<N: CellName, R: Wait>(
    rt: &R,
    shared: &KnownHeap<N>,
    seat: KnowingSeat<N>,
) -> (KnowingSeat<N>, Option<bool>)
    ensures { 1 < length seat.registers → IfSome result.1 (λ same. same ≡ true) }
{
    let (seat, done) = shared.with(rt, seat, |mutator| copy(mutator));
    let (seat, same) = shared.with(rt, seat, |mutator| compare(mutator));
    (seat, found(done, same))
}
