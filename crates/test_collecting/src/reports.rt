//! Reports of the heap of a program.

use crate::same::{done, same};
use collecting::Collect;
use heap::Config;
use layout::{Layout, Layouts};
use managed::ManagedHeap;
use reporting::report_heap;
use std::alloc::Global;
use std::process::Abort;

/// A heap of which a report can be written.
trait Told: Collect {
    fn told<R: Abort>(&self, rt: &R, alloc: Global) -> Vec<u8>;
}

impl Told for ManagedHeap {
    fn told<R: Abort>(&self, rt: &R, alloc: Global) -> Vec<u8> {
        let mut written = Vec::new(alloc);
        done(rt, report_heap(alloc, self.heap(), &mut written));
        written
    }
}

/// The report of a heap has these lines.
fn tells(rt: &impl Abort, alloc: Global, heap: &impl Told, wanted: &str) {
    let written = heap.told(rt, alloc);
    same(rt, written.as_slice(), wanted.as_bytes());
}

/// A heap of two threads with two registers each, and one global.
fn new_heap(rt: &impl Abort, alloc: Global) -> ManagedHeap {
    let layouts = Layouts::new(done(rt, vec![in alloc; Layout { refs: 1, nums: 1 }]));
    let mut config = Config::new(16, 2, layouts);
    config.threads = 2;
    config.registers = 2;
    config.globals = 1;
    done(rt, ManagedHeap::new(alloc, config))
}

/// Before the first step.
const NEW: &str = "phase idle nmt 0 births 0 frames 0/2
thread 0 running buffer - r0 - r1 -
thread 1 running buffer - r0 - r1 -
global 0 -
barrier 0 loads 0 gc 0 nmt 0 healed 0 changed 0
barrier 1 loads 0 gc 0 nmt 0 healed 0 changed 0
";

/// Thread 0 has allocated two objects, the first of which is in the global, and has loaded it; thread 1 has parked.
const USED: &str = "phase idle nmt 0 births 2 frames 1/2
page 1 open frame 0 top 16 objects 2 live 0
thread 0 running buffer 1.6-16 r0 1.0/0 r1 1.0/0
thread 1 parked buffer - r0 - r1 -
global 0 1.0/0
barrier 0 loads 1 gc 0 nmt 0 healed 0 changed 0
barrier 1 loads 0 gc 0 nmt 0 healed 0 changed 0
";

/// The buffer is given back, the heap is collected, and the global is loaded again: the first object has moved.
const MOVED: &str = "phase relocating nmt 1 births 2 frames 1/2
page 1 gone frame - top 16 objects 2 live 1 copied 1/1
page 2 open frame 1 top 16 objects 1 live 0
thread 0 running buffer - r0 2.0/1 r1 2.0/1
thread 1 parked buffer - r0 - r1 -
global 0 2.0/1
barrier 0 loads 2 gc 1 nmt 0 healed 1 changed 0
barrier 1 loads 0 gc 0 nmt 0 healed 0 changed 0
";

fn make_two(rt: &impl Abort, heap: &mut impl Collect) {
    done(rt, heap.take(0, 16));
    done(rt, heap.new_object(0, 0, 0));
    done(rt, heap.new_object(0, 1, 0));
    done(rt, heap.store_global(0, 0, 0));
    done(rt, heap.read_global(0, 1, 0));
    done(rt, heap.park(1));
}

fn reports(rt: &impl Abort, alloc: Global, heap: &mut impl Told) {
    tells(rt, alloc, heap, NEW);
    make_two(rt, heap);
    tells(rt, alloc, heap, USED);
    done(rt, heap.give_back(0));
    done(rt, heap.collect(alloc, 75));
    done(rt, heap.read_global(0, 1, 0));
    tells(rt, alloc, heap, MOVED);
}

#[test]
fn lines_of_a_held_heap(rt: HostRuntime) {
    let mut heap = new_heap(&rt, rt.alloc());
    reports(&rt, rt.alloc(), &mut heap);
}
