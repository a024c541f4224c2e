//! Complete reports.

ghost use Rattle.std.specs.Prelude.{OnOk};
ghost use Rattle.std.specs.Io.KnownBytes.{Appends};
ghost use Rattle.reporting.specs.Reports.{heap_text, report_text, state_text};

use crate::fault::ReportFault;
use crate::lines::{tell_barriers, tell_cycles, tell_globals, tell_head, tell_pages, tell_threads};
use entries::History;
use heap::Heap;
use std::alloc::Global;
use std::io;

/// Writes the collector's state, the pages in use, the threads and the globals.
#[tactic(auto, unfolding(crate::specs::Reports::state_text))]
fn tell_state<W: io::Write>(heap: &Heap, text: &mut String, w: &mut W) -> Result<(), ReportFault>
    ensures { OnOk result (Appends (W.contents w.old) (W.contents w.new) (state_text heap.now)) }
{
    tell_head(heap, text, w)?;
    tell_pages(heap, text, w)?;
    tell_threads(heap, text, w)?;
    tell_globals(heap, text, w)
}

/// Writes the report: the collector's state, the pages in use, the threads and the globals, what each mark that ended
/// in the history has found, and each thread's barrier counters. Fails with `Memory` if out of memory, and with
/// `Write` if the writer fails.
#[tactic(auto, unfolding(crate::specs::Reports::report_text))]
pub fn report<W: io::Write>(
    alloc: Global,
    heap: &Heap,
    history: &History,
    w: &mut W,
) -> Result<(), ReportFault>
    ensures { OnOk result (Appends (W.contents w.old) (W.contents w.new) (report_text heap.now history.now.entries)) }
{
    let mut text = String::new(alloc);
    tell_state(heap, &mut text, w)?;
    tell_cycles(history, &mut text, w)?;
    tell_barriers(heap, &mut text, w)
}

/// Writes the report of a heap that has no history, as a program's: all that `report` writes except what marks have
/// found. Fails with `Memory` if out of memory, and with `Write` if the writer fails.
#[tactic(auto, unfolding(crate::specs::Reports::report_text, crate::specs::Reports::cycles_from))]
pub fn report_heap<W: io::Write>(alloc: Global, heap: &Heap, w: &mut W) -> Result<(), ReportFault>
    ensures { OnOk result (Appends (W.contents w.old) (W.contents w.new) (heap_text heap.now)) }
{
    let mut text = String::new(alloc);
    tell_state(heap, &mut text, w)?;
    tell_barriers(heap, &mut text, w)
}
