//! Each call with numbers that all differ: a call that swaps two of them fails or has another result.

use crate::same::{done, same};
use heap::Config;
use layout::{Layout, Layouts};
use managed::FieldLoad;
use model::Refusal;
use std::alloc::Global;
use std::process::Abort;
use typed::{Datum, Field, GlobalNumber, HeapCalls, LayoutNumber, Register, Thread, TypedHeap};

/// Thread 1 of two.
const ME: Thread = Thread(1);

/// Registers 2 and 3 of five refer to objects, and register 4 is loaded.
const FIRST: Register = Register(2);

const SECOND: Register = Register(3);

const READ: Register = Register(4);

/// The last of three layouts, its last reference of two, and its last data word of four.
const PAIRS: LayoutNumber = LayoutNumber(2);

const LAST: Field = Field(1);

const WORD: Datum = Datum(3);

/// The last of seven globals.
const ROOT: GlobalNumber = GlobalNumber(6);

/// Two objects: the second refers to the first.
fn pair(rt: &impl Abort, alloc: Global, heap: &mut impl HeapCalls) {
    done(rt, heap.make(alloc, ME, FIRST, PAIRS));
    done(rt, heap.set_datum(ME, FIRST, WORD, 7));
    done(
        rt,
        heap.make_with(alloc, ME, SECOND, PAIRS, &[3, 2], &[1, 2]),
    );
}

/// References are loaded from their places.
fn references(rt: &impl Abort, heap: &mut impl HeapCalls) {
    done(rt, heap.read(ME, READ, SECOND, LAST));
    same(rt, heap.same(ME, READ, FIRST), Ok(true));
    done(rt, heap.store(ME, FIRST, LAST, SECOND));
    let fields = [FieldLoad {
        target: READ.0,
        field: LAST.0,
    }];
    same(rt, heap.loads(ME, FIRST, &fields), Ok(()));
    same(rt, heap.same(ME, READ, SECOND), Ok(true));
    done(rt, heap.store_global(ME, ROOT, FIRST));
    done(rt, heap.read_global(ME, READ, ROOT));
    same(rt, heap.same(ME, READ, FIRST), Ok(true));
    same(rt, done(rt, heap.object(ME, READ)).layout, PAIRS.0);
}

/// Data words are read from their places.
fn words(rt: &impl Abort, heap: &mut impl HeapCalls) {
    same(rt, heap.datum(ME, FIRST, WORD), Ok(7));
    done(rt, heap.set_many(ME, SECOND, Datum(2), &[8, 9]));
    same(rt, heap.datum(ME, SECOND, WORD), Ok(9));
    let mut values = [0; 2];
    done(rt, heap.get_many(ME, SECOND, Datum(1), &mut values));
    same(rt, values[0], 2);
    same(rt, values[1], 8);
}

/// Registers are copied and cleared, and a thread is parked.
fn registers(rt: &impl Abort, heap: &mut impl HeapCalls) {
    done(rt, heap.copy_register(ME, READ, SECOND));
    same(rt, heap.same(ME, READ, SECOND), Ok(true));
    done(rt, heap.clear_register(ME, READ));
    same(rt, heap.is_null(ME, READ), Ok(true));
    same(rt, heap.is_null(ME, SECOND), Ok(false));
    done(rt, heap.park(ME));
    same(rt, heap.is_null(ME, READ), Err(Refusal::Parked));
    done(rt, heap.unpark(ME));
    same(rt, heap.is_null(ME, READ), Ok(true));
}

/// A buffer is taken, an object allocated in it, and the rest given back.
fn buffers(rt: &impl Abort, alloc: Global, heap: &mut impl HeapCalls) {
    done(rt, heap.give_back(ME));
    done(rt, heap.take(ME, 10));
    same(rt, heap.new_object(ME, READ, PAIRS), Ok(2));
    same(rt, heap.new_object(ME, READ, PAIRS), Err(Refusal::NoRoom));
    done(rt, heap.refill(alloc, ME));
    same(rt, heap.new_object(ME, READ, PAIRS), Ok(3));
    same(
        rt,
        heap.make_with_paced(alloc, ME, READ, PAIRS, &[2], &[5]),
        Ok(4),
    );
    same(rt, heap.datum(ME, READ, Datum(0)), Ok(5));
}

fn all(rt: &impl Abort, alloc: Global, heap: &mut impl HeapCalls) {
    pair(rt, alloc, heap);
    references(rt, heap);
    words(rt, heap);
    registers(rt, heap);
    buffers(rt, alloc, heap);
}

/// A heap of two threads with five registers each, three layouts and seven globals.
pub fn new_heap(rt: &impl Abort, alloc: Global) -> TypedHeap {
    let layouts = vec![in alloc;
        Layout { refs: 0, nums: 0 },
        Layout { refs: 1, nums: 1 },
        Layout { refs: 2, nums: 4 },
    ];
    let mut config = Config::new(64, 8, Layouts::new(done(rt, layouts)));
    config.threads = 2;
    config.registers = 5;
    config.globals = 7;
    done(rt, TypedHeap::new(alloc, config))
}

#[test]
fn each_call_takes_its_numbers(rt: HostRuntime) {
    let mut heap = new_heap(&rt, rt.alloc());
    all(&rt, rt.alloc(), &mut heap);
}
