//! Making and freeing heaps.

ghost use Rattle.std.specs.Prelude.{◌≡◌, IfOk, None, map};
ghost use Rattle.foreign.specs.Making.{Makes, MadeOf, config_of, layout_of, usual_sizes};

use crate::codes::{DONE, HAS_HEAP, NO_MEMORY, fault_code};
use crate::handle::Handle;
use crate::held::Held;
use collecting::{Counters, Parts, Target};
use heap::{Config, NewFault};
use layout::{Layout, Layouts};
use managed::ManagedHeap;
use model::{MOST_BIRTHS, MOST_HISTORY, MOST_PAGES, USUAL_GLOBALS, USUAL_REGISTERS};
use std::alloc::{AllocError, Global};

/// `pauseless_sizes`: the sizes and limits of a heap, with the ranges of `Config`.
#[repr(C)]
#[derive(Clone, Copy)]
pub struct SizesOfC {
    /// The words of a page.
    pub words: u32,
    /// The frames.
    pub frames: u32,
    /// The page numbers.
    pub pages: u32,
    /// The mutator threads.
    pub threads: u32,
    /// The collector's workers.
    pub workers: u32,
    /// The registers of each thread.
    pub registers: u32,
    /// The global roots.
    pub globals: u32,
    /// The limit of births.
    pub births: u64,
}

/// `pauseless_layout`: how many references and data words an object has.
#[repr(C)]
#[derive(Clone, Copy)]
pub struct LayoutOfC {
    /// The references.
    pub refs: u16,
    /// The data words.
    pub nums: u16,
}

/// Writes the sizes that serve most heaps of this many frames of `words`, as `Config::new` has them.
#[tactic(auto, unfolding(crate::specs::Making::usual_sizes))]
#[unsafe(no_mangle)]
pub extern "C" fn pauseless_usual(words: u32, frames: u32, sizes: &mut SizesOfC)
    ensures { sizes.new ≡ usual_sizes words frames }
{
    *sizes = SizesOfC {
        words,
        frames,
        pages: frames.saturating_mul(2).min(MOST_PAGES),
        threads: 1,
        workers: 1,
        registers: USUAL_REGISTERS,
        globals: USUAL_GLOBALS,
        births: MOST_BIRTHS,
    };
}

fn layout_of(layout: &LayoutOfC) -> Layout
    ensures { result ≡ layout_of layout.now }
{
    Layout {
        refs: layout.refs,
        nums: layout.nums,
    }
}

fn items_of(alloc: Global, layouts: &[LayoutOfC]) -> Result<Vec<Layout>, AllocError>
    ensures { IfOk result (λ items. items.items ≡ map layout_of layouts.now) }
{
    layouts
        .iter()
        .map(|layout| layout_of(layout))
        .collect(alloc)
}

fn layouts_of(alloc: Global, layouts: &[LayoutOfC]) -> Result<Layouts, AllocError>
    ensures { IfOk result (λ ls. ls ≡ map layout_of layouts.now) }
{
    Ok(Layouts::new(items_of(alloc, layouts)?))
}

fn config_of(sizes: &SizesOfC, layouts: Layouts) -> Config
    ensures { result ≡ config_of sizes.now layouts }
{
    Config {
        words: sizes.words,
        frames: sizes.frames,
        pages: sizes.pages,
        threads: sizes.threads,
        workers: sizes.workers,
        registers: sizes.registers,
        globals: sizes.globals,
        layouts,
        births: sizes.births,
        history: MOST_HISTORY,
    }
}

/// Makes a heap in a box. Fails with the code of the reason.
fn make_of(alloc: Global, config: Config) -> Result<Box<Held>, u32>
    ensures { MadeOf config result }
{
    let count = config.layouts.len();
    match ManagedHeap::new(alloc, config) {
        Ok(heap) => {
            let parts = Parts::new(alloc);
            let held = Held {
                heap,
                parts,
                follows: false,
                target: Target::new(0, 0),
                counters: Counters::new(),
            };
            Box::new(alloc, held).ok().ok_or(NO_MEMORY)
        }
        Err(NewFault::Config(fault)) => Err(fault_code(count, fault)),
        Err(NewFault::Memory) => Err(NO_MEMORY),
    }
}

/// Makes a heap of these sizes and layouts, which the handle then owns. The code is that of the first size that is
/// out of its range, that the handle has a heap already, or that it is out of memory.
#[unsafe(no_mangle)]
pub extern "C" fn pauseless_new(
    alloc: Global,
    heap: &mut Handle,
    sizes: &SizesOfC,
    layouts: &[LayoutOfC],
) -> u32
    ensures { Makes sizes.now layouts.now heap.old.slot.held result heap.new.slot.held }
{
    if let Some(held) = heap.take(alloc) {
        heap.put(held);
        return HAS_HEAP;
    }
    let Ok(layouts) = layouts_of(alloc, layouts) else {
        return NO_MEMORY;
    };
    match make_of(alloc, config_of(sizes, layouts)) {
        Ok(held) => {
            heap.put(held);
            DONE
        }
        Err(code) => code,
    }
}

/// Frees the heap with all its memory, if the handle has one.
#[unsafe(no_mangle)]
pub extern "C" fn pauseless_free(alloc: Global, heap: &mut Handle)
    ensures { heap.new.slot.held ≡ None }
{
    let _held = heap.take(alloc);
}
