//! A heap as text.

ghost use Rattle.std.specs.Prelude.{◌≡◌, IfOk};
ghost use Rattle.reporting.specs.Reports.{heap_text};
ghost use Rattle.foreign.specs.Telling.{Reports, written};

use crate::codes::{DONE, NO_HEAP, NO_MEMORY};
use crate::handle::Handle;
use heap::Heap;
use reporting::{ReportFault, report_heap};
use std::alloc::Global;

/// Returns the report of a heap.
fn text_of(alloc: Global, heap: &Heap) -> Result<Vec<u8>, ReportFault>
    ensures { IfOk result (λ text. text.items ≡ heap_text heap.now) }
{
    let mut text = Vec::new(alloc);
    report_heap(alloc, heap, &mut text)?;
    Ok(text)
}

/// Writes as much of a text as fits.
fn give_text(text: &[u8], room: &mut [u8])
    ensures { room.new ≡ written text.now room.old }
{
    let n = text.len().min(room.len());
    room[..n].copy_from_slice(&text[..n]);
}

/// Writes the report of a heap, in lines of ASCII text, to `text` as far as it fits, and its length in bytes to
/// `length`. Fails if the handle has no heap or if out of memory, and then writes nothing.
#[unsafe(no_mangle)]
pub extern "C" fn pauseless_report(
    alloc: Global,
    heap: &mut Handle,
    text: &mut [u8],
    length: &mut u64,
) -> u32
    ensures same { heap.new.slot.held ≡ heap.old.slot.held }
    ensures told { Reports heap.old.slot.held result text.old text.new length.old length.new }
{
    let Some(held) = heap.lend() else {
        return NO_HEAP;
    };
    let told = text_of(alloc, held.heap.heap());
    match told {
        Ok(report) => {
            give_text(&report, text);
            *length = report.len() as u64;
            DONE
        }
        Err(_) => NO_MEMORY,
    }
}
