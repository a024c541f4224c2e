//! Objects that wait to be scanned, apart from the heap's own bitmaps.

ghost use Rattle.std.specs.Prelude.{◌≡◌, [], Some};
ghost use Rattle.std.specs.Prelude.{reverse};
ghost use Rattle.drains.specs.Waiting.{all_noted, AreWaiting, Waits};

use arrayvec::ArrayVec;
use heap::Heap;
use refword::Addr;

/// The addresses of objects that a drain has marked and will scan, and that the heap hasn't made grey: 64 at most.
/// The newest one is scanned first, so that mostly no bit is set for an object and cleared again.
pub type Waiting = ArrayVec<u64, 64>;

/// Lets an object that wasn't marked before wait, if there is space, and if it isn't the one at `address`, which is
/// being scanned; else makes it grey.
#[inline(always)]
pub fn wait(heap: &mut Heap, address: Addr, target: Addr, waiting: &mut Waiting)
    ensures { Waits address target heap.old (reverse waiting.old.items) heap.new (reverse waiting.new.items) }
{
    if waiting.is_full() || target.number() == address.number() {
        heap.raw_set_todo(target);
    } else {
        waiting.push(target.number());
    }
}

/// Makes all objects that wait grey; then none waits any more.
pub fn note_all(heap: &mut Heap, waiting: &mut Waiting)
    requires { AreWaiting heap.old.mark heap.old.store.words (reverse waiting.old.items) }
    ensures heap { heap.new ≡ all_noted heap.old (reverse waiting.old.items) }
    ensures none { waiting.new.items ≡ [] }
{
    let count = waiting.len();
    for _ in 0..count {
        let Some(number) = waiting.pop() else {
            return;
        };
        heap.raw_set_todo(Addr::new(number).unwrap());
    }
}
