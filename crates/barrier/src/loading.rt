//! The first half of the read barrier: beginning loads.

ghost use Rattle.std.specs.Prelude.{◌≡◌, Ok};
ghost use Rattle.model.specs.Refusing.{Does};
ghost use Rattle.model.specs.Saying.{said, loaded};
ghost use Rattle.model.specs.Outcome.{Passes};
ghost use Rattle.model.specs.declared.steps.Step.TheVariants as steps;
ghost use Rattle.model.specs.declared.steps.Answer.TheVariants as answers;
ghost use Rattle.model.specs.Loads.{new_barrier, load_outcome, load_global_outcome};

use heap::{Heap, RawEdits, read_reference};
use model::{Barrier, Counter, Place, Refusal};
use refword::Word;

/// Returns the barrier of a load that has just read a reference.
#[inline(always)]
fn new_barrier(target: u32, place: Place, word: Word) -> Barrier
    ensures { result ≡ new_barrier target place word }
{
    Barrier {
        target,
        place,
        raw: word,
        now: word,
        healed: false,
    }
}

/// Begins to load a reference of an object into a register of a thread. Threads, registers and references count from
/// 0.
///
/// Fails as `Heap::usable` does for the object's register, and with `BadIndex` if the object has no such reference.
#[inline(always)]
#[tactic(auto, unfolding(model::specs::Loads::load_outcome))]
pub fn load(
    heap: &mut Heap,
    thread: u32,
    target: u32,
    object: u32,
    field: u32,
) -> Result<(), Refusal>
    requires { Passes heap.old thread (steps.Load target object field) }
    ensures { Does heap.old (said loaded result) heap.new (load_outcome heap.old thread target object field) }
{
    let address = heap.usable(thread, object)?;
    let Some(ahead) = heap.field_behind(address, field) else {
        return Err(Refusal::BadIndex);
    };
    let Some(bits) = heap.memory().word_behind(address, ahead) else {
        return Err(Refusal::BadIndex);
    };
    let place = Place::Field {
        object: address,
        index: field,
    };
    let barrier = new_barrier(target, place, read_reference(bits));
    heap.set_barrier(thread, barrier, Counter::Loads);
    Ok(())
}

/// Begins to load a global into a register of a thread. Threads, registers and globals count from 0. It can't fail.
#[inline(always)]
#[tactic(auto, unfolding(model::specs::Loads::load_global_outcome))]
pub fn load_global(heap: &mut Heap, thread: u32, target: u32, global: u32)
    requires { Passes heap.old thread (steps.LoadGlobal target global) }
    ensures { load_global_outcome heap.old thread target global ≡ Ok (heap.new, answers.Loaded) }
{
    let word = heap.global(global);
    let barrier = new_barrier(target, Place::Global(global), word);
    heap.set_barrier(thread, barrier, Counter::Loads);
}
