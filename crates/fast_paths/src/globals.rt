//! Loads of globals that are done at once.

ghost use Rattle.std.specs.Prelude.{IfSome};
ghost use Rattle.fast_paths.specs.AtOnce.{MayLoadAtOnce, ReadsGlobal};
ghost use Rattle.model.specs.declared.steps.Step.TheVariants as steps;

use crate::at_once::{held_at_once, is_quiet};
use heap::Heap;
use refword::Word;

/// Returns the word of a global, by its number from 0, if a thread may load it into a register.
#[inline(always)]
fn global_at_once(heap: &Heap, thread: u32, target: u32, global: u32) -> Option<Word>
    ensures { IfSome result (ReadsGlobal heap.now thread target global) }
{
    let _target = held_at_once(heap, thread, target)?;
    let global = heap.globals().get(global as usize)?;
    Some(global.word)
}

/// Loads a global into a register, completely, if no test rejects it and no trap is due: it then does what
/// `LoadGlobal` and `Finish` do, and returns true. Else nothing is done.
#[inline(always)]
pub fn load_global_at_once(heap: &mut Heap, thread: u32, target: u32, global: u32) -> bool
    ensures { MayLoadAtOnce result heap.old thread (steps.LoadGlobal target global) heap.new }
{
    heap.law();
    let Some(word) = global_at_once(heap, thread, target, global) else {
        return false;
    };
    if !is_quiet(heap, word) {
        return false;
    }
    heap.raw_read_into(thread, target, word);
    true
}
