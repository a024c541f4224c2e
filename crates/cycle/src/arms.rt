//! The steps of threads, each with its reply, out of line: so `thread_step` stays small enough to be inlined.

ghost use Rattle.std.specs.Prelude.{◌≡◌};
ghost use Rattle.model.specs.Refusing.{Does, DoesStep};
ghost use Rattle.model.specs.declared.steps.Step.TheVariants as steps;
ghost use Rattle.model.specs.declared.steps.Actor.TheVariants.{Thread};
ghost use Rattle.model.specs.Outcome.{outcome};

use crate::calls;
use crate::saying::{done, healed, lent, loaded, scrubbed, trapped};
use heap::Heap;
use model::{Answer, Reply};

pub(crate) fn take(heap: &mut Heap, thread: u32, words: u32) -> Reply
    ensures { DoesStep heap.old (steps.Take words) result heap.new
        (outcome heap.old (Thread thread) (steps.Take words)) }
{
    Ok(lent(calls::take(heap, thread, words)?))
}

pub(crate) fn give_back(heap: &mut Heap, thread: u32) -> Reply
    ensures { Does heap.old result heap.new (outcome heap.old (Thread thread) steps.GiveBack) }
{
    done(calls::give_back(heap, thread))
}

pub(crate) fn new_object(heap: &mut Heap, thread: u32, target: u32, layout: u32) -> Reply
    ensures { Does heap.old result heap.new (outcome heap.old (Thread thread) (steps.New target layout)) }
{
    Ok(Answer::Birth(calls::new_object(heap, thread, target, layout)?))
}

pub(crate) fn load(heap: &mut Heap, thread: u32, target: u32, object: u32, field: u32) -> Reply
    ensures { Does heap.old result heap.new (outcome heap.old (Thread thread) (steps.Load target object field)) }
{
    loaded(calls::load(heap, thread, target, object, field))
}

pub(crate) fn load_global(heap: &mut Heap, thread: u32, target: u32, global: u32) -> Reply
    ensures { Does heap.old result heap.new (outcome heap.old (Thread thread) (steps.LoadGlobal target global)) }
{
    loaded(calls::load_global(heap, thread, target, global))
}

pub(crate) fn trap(heap: &mut Heap, thread: u32) -> Reply
    ensures { Does heap.old result heap.new (outcome heap.old (Thread thread) steps.Trap) }
{
    Ok(trapped(calls::trap(heap, thread)?))
}

pub(crate) fn heal(heap: &mut Heap, thread: u32) -> Reply
    ensures { Does heap.old result heap.new (outcome heap.old (Thread thread) steps.Heal) }
{
    Ok(healed(calls::heal(heap, thread)?))
}

pub(crate) fn finish(heap: &mut Heap, thread: u32) -> Reply
    ensures { Does heap.old result heap.new (outcome heap.old (Thread thread) steps.Finish) }
{
    done(calls::finish(heap, thread))
}

pub(crate) fn store(heap: &mut Heap, thread: u32, object: u32, field: u32, source: u32) -> Reply
    ensures { Does heap.old result heap.new (outcome heap.old (Thread thread) (steps.Store object field source)) }
{
    done(calls::store(heap, thread, object, field, source))
}

pub(crate) fn store_global(heap: &mut Heap, thread: u32, global: u32, source: u32) -> Reply
    ensures { Does heap.old result heap.new (outcome heap.old (Thread thread) (steps.StoreGlobal global source)) }
{
    done(calls::store_global(heap, thread, global, source))
}

pub(crate) fn datum(heap: &Heap, thread: u32, object: u32, index: u32) -> Reply
    ensures { Does heap.now result heap.now (outcome heap.now (Thread thread) (steps.Datum object index)) }
{
    Ok(Answer::Datum(calls::datum(heap, thread, object, index)?))
}

pub(crate) fn set_datum(heap: &mut Heap, thread: u32, object: u32, index: u32, value: u64) -> Reply
    ensures { Does heap.old result heap.new (outcome heap.old (Thread thread) (steps.SetDatum object index value)) }
{
    done(calls::set_datum(heap, thread, object, index, value))
}

pub(crate) fn same(heap: &Heap, thread: u32, left: u32, right: u32) -> Reply
    ensures { Does heap.now result heap.now (outcome heap.now (Thread thread) (steps.Same left right)) }
{
    Ok(Answer::Truth(calls::same(heap, thread, left, right)?))
}

pub(crate) fn is_null(heap: &Heap, thread: u32, register: u32) -> Reply
    ensures { Does heap.now result heap.now (outcome heap.now (Thread thread) (steps.IsNull register)) }
{
    Ok(Answer::Truth(calls::is_null(heap, thread, register)?))
}

pub(crate) fn copy_register(heap: &mut Heap, thread: u32, target: u32, source: u32) -> Reply
    ensures { Does heap.old result heap.new (outcome heap.old (Thread thread) (steps.CopyReg target source)) }
{
    done(calls::copy_register(heap, thread, target, source))
}

pub(crate) fn clear_register(heap: &mut Heap, thread: u32, target: u32) -> Reply
    ensures { Does heap.old result heap.new (outcome heap.old (Thread thread) (steps.ClearReg target)) }
{
    done(calls::clear_register(heap, thread, target))
}

pub(crate) fn cross(heap: &mut Heap, thread: u32) -> Reply
    ensures { Does heap.old result heap.new (outcome heap.old (Thread thread) steps.Cross) }
{
    done(calls::cross(heap, thread))
}

pub(crate) fn scrub(heap: &mut Heap, thread: u32, register: u32) -> Reply
    ensures { Does heap.old result heap.new (outcome heap.old (Thread thread) (steps.Scrub register)) }
{
    Ok(scrubbed(calls::scrub(heap, thread, register)?))
}

pub(crate) fn park(heap: &mut Heap, thread: u32) -> Reply
    ensures { Does heap.old result heap.new (outcome heap.old (Thread thread) steps.Park) }
{
    done(calls::park(heap, thread))
}

pub(crate) fn unpark(heap: &mut Heap, thread: u32) -> Reply
    ensures { Does heap.old result heap.new (outcome heap.old (Thread thread) steps.Unpark) }
{
    done(calls::unpark(heap, thread))
}
