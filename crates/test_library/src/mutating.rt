//! The calls of a portion, with numbers that all differ.

use crate::numbers::new_heap;
use crate::same::{done, same};
use collecting::Policy;
use managed::FieldLoad;
use portions::Mutator;
use std::alloc::Global;
use std::process::Abort;
use typed::{Datum, Field, GlobalNumber, LayoutNumber, Register};
use typed_portions::PortionCalls;

/// Registers 2 and 3 of five refer to objects, and register 4 is loaded.
const FIRST: Register = Register(2);

const SECOND: Register = Register(3);

const READ: Register = Register(4);

/// The last of three layouts, its last reference of two, and its last data word of four.
const PAIRS: LayoutNumber = LayoutNumber(2);

const LAST: Field = Field(1);

const WORD: Datum = Datum(3);

/// The last of seven globals.
const ROOT: GlobalNumber = GlobalNumber(6);

/// Buffers of a page of 64 words.
const POLICY: Policy = Policy {
    words: 64,
    free: 1,
    percent: 75,
};

/// References are loaded from their places.
fn references(rt: &impl Abort, mutator: &mut impl PortionCalls) {
    done(rt, mutator.read(READ, SECOND, LAST));
    same(rt, mutator.same(READ, FIRST), Ok(true));
    done(rt, mutator.store(FIRST, LAST, SECOND));
    let fields = [FieldLoad {
        target: READ.0,
        field: LAST.0,
    }];
    same(rt, mutator.loads(FIRST, &fields), Ok(()));
    same(rt, mutator.same(READ, SECOND), Ok(true));
    done(rt, mutator.store_global(ROOT, FIRST));
    done(rt, mutator.read_global(READ, ROOT));
    same(rt, mutator.same(READ, FIRST), Ok(true));
    same(rt, done(rt, mutator.object(READ)).layout, PAIRS.0);
    done(rt, mutator.copy_register(READ, SECOND));
    same(rt, mutator.same(READ, SECOND), Ok(true));
    done(rt, mutator.clear_register(READ));
    same(rt, mutator.is_null(READ), Ok(true));
}

/// Data words are read from their places.
fn words(rt: &impl Abort, mutator: &mut impl PortionCalls) {
    done(rt, mutator.set_datum(FIRST, WORD, 7));
    same(rt, mutator.datum(FIRST, WORD), Ok(7));
    done(rt, mutator.set_many(SECOND, Datum(2), &[8, 9]));
    let mut values = [0; 2];
    done(rt, mutator.get_many(SECOND, Datum(1), &mut values));
    same(rt, values[0], 2);
    same(rt, values[1], 8);
}

fn all(rt: &impl Abort, alloc: Global, mutator: &mut impl PortionCalls) {
    done(rt, mutator.make(alloc, POLICY, FIRST, PAIRS));
    done(
        rt,
        mutator.make_with(alloc, POLICY, SECOND, PAIRS, &[3, 2], &[1, 2]),
    );
    references(rt, mutator);
    words(rt, mutator);
    same(rt, done(rt, mutator.collect(alloc, 75)).live, 2);
    done(rt, mutator.give_back());
    done(rt, mutator.take(10));
    same(rt, mutator.new_object(READ, PAIRS), Ok(2));
    done(rt, mutator.refill(alloc, POLICY));
    same(rt, mutator.new_object(READ, PAIRS), Ok(3));
}

/// A mutator in a portion of the last thread.
fn new_mutator(rt: &impl Abort, alloc: Global) -> Mutator {
    let heap = new_heap(rt, alloc).into_managed();
    let (mut mutator, seats) = match Mutator::open(alloc, heap) {
        Ok(opened) => opened,
        Err(fault) => panic!(rt; "error: {:?}", fault.refusal),
    };
    for seat in seats.threads {
        let mut seat = seat;
        mutator.enter(&mut seat);
    }
    mutator
}

#[test]
fn each_call_of_a_portion_takes_its_numbers(rt: HostRuntime) {
    let mut mutator = new_mutator(&rt, rt.alloc());
    all(&rt, rt.alloc(), &mut mutator);
}
