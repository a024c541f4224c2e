//! Texts and reports that a run writes, with the errors of runs.

ghost use Rattle.std.specs.Prelude.{OnOk, string_bytes};
ghost use Rattle.std.specs.Io.KnownBytes.{Appends};
ghost use Rattle.reporting.specs.Reports.{report_text};

use crate::fault::RunFault;
use cycle::History;
use heap::Heap;
use std::alloc::Global;
use std::io;

/// Writes a text. Fails with `Write` if the writer fails.
pub fn tell<W: io::Write>(w: &mut W, text: &String) -> Result<(), RunFault>
    ensures { OnOk result (Appends (W.contents w.old) (W.contents w.new) (string_bytes text.now)) }
{
    match reporting::tell(w, text) {
        Ok(()) => Ok(()),
        Err(fault) => Err(RunFault::from(fault)),
    }
}

/// Writes the report of a heap with a history, as `reporting::report` does.
pub fn report<W: io::Write>(
    alloc: Global,
    heap: &Heap,
    history: &History,
    w: &mut W,
) -> Result<(), RunFault>
    ensures { OnOk result (Appends (W.contents w.old) (W.contents w.new) (report_text heap.now history.now.entries)) }
{
    match reporting::report(alloc, heap, history, w) {
        Ok(()) => Ok(()),
        Err(fault) => Err(RunFault::from(fault)),
    }
}
