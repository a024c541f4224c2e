//! The lines of a report.

ghost use Rattle.std.specs.Prelude.{◌≡◌, ◌++◌, ◌∷◌, [], IfSome, ◌+◌, ◌<◌, ◌≤◌, ◌^◌, OnOk, string_bytes, length};
ghost use Rattle.std.specs.Prelude.{IfErr, slice_get};
ghost use Rattle.std.specs.Io.KnownBytes.{Appends};
ghost use Rattle.model.specs.Stores.{is_protected, is_unused};
ghost use Rattle.reporting.specs.Lines.{texts_from};
ghost use Rattle.reporting.specs.Reports.{head_line, page_line, thread_line, global_line, barrier_line, cycle_line};
ghost use Rattle.reporting.specs.Reports.{cycles_from, next_cycle, bits_in, copied_in, copies_in, copies_of};
ghost use Rattle.reporting.specs.Reports.{activity_of};
ghost use Rattle.reporting.specs.declared.fault.ReportFault.TheVariants.{Write};

use crate::fault::ReportFault;
use crate::wording::{
    Activity, BarrierLine, Copies, CycleLine, GlobalLine, HeadLine, PageLine, RegistersText,
    ThreadLine, WordText,
};
use entries::History;
use forward::{Side, Sides};
use heap::{Heap, Rows, Thread};
use model::{Answer, Global, Page, PageState};
use std::alloc::AllocError;
use std::fmt::{Display, Write as _};
use std::io;

/// Writes a text. Fails with `Write` if the writer fails.
pub fn tell<W: io::Write>(w: &mut W, text: &String) -> Result<(), ReportFault>
    ensures written { OnOk result (Appends (W.contents w.old) (W.contents w.new) (string_bytes text.now)) }
    ensures faults { IfErr result (λ fault. fault ≡ Write) }
{
    match w.write_all(text.as_bytes()) {
        Ok(()) => Ok(()),
        Err(_) => Err(ReportFault::Write),
    }
}

/// Appends a line and its newline to a text. Fails only if out of memory.
fn put_line<D: Display>(line: &D, text: &mut String) -> Result<(), AllocError>
    ensures { OnOk result (IfSome (D.output line.now) (λ bytes. string_bytes text.new
        ≡ string_bytes text.old ++ bytes ++ 10 ∷ [])) }
{
    writeln!(text, "{line}")
}

/// Writes a line and its newline.
fn tell_line<D: Display, W: io::Write>(
    line: &D,
    text: &mut String,
    w: &mut W,
) -> Result<(), ReportFault>
    ensures { OnOk result (IfSome (D.output line.now)
        (λ bytes. Appends (W.contents w.old) (W.contents w.new) (bytes ++ 10 ∷ []))) }
{
    text.clear();
    put_line(line, text)?;
    tell(w, text)
}

fn bits_in(rows: &Rows, index: usize) -> usize
    ensures { result ≡ bits_in rows.now index }
{
    match rows.get(index) {
        None => 0,
        Some(row) => row.count(),
    }
}

/// Returns how many entries of a forwarding table are copied.
fn copied_in(side: &Side) -> usize
    ensures { result ≡ copied_in side.now }
{
    side.len() - side.uncopied() as usize
}

/// Returns the copies of the forwarding table of an index; none if there is no such table.
fn copies_in(sides: &Sides, index: usize) -> Copies
    ensures { result ≡ copies_in sides.now index }
{
    match sides.get(index) {
        None => Copies {
            copied: 0,
            entries: 0,
        },
        Some(side) => Copies {
            copied: copied_in(side),
            entries: side.len(),
        },
    }
}

/// Returns the copies of the page whose record has an index, if it is protected.
fn copies_of(sides: &Sides, index: usize, page: Page) -> Option<Copies>
    ensures { result ≡ copies_of sides.now index page }
{
    if is_protected(page) {
        Some(copies_in(sides, index))
    } else {
        None
    }
}

fn is_protected(page: Page) -> bool
    ensures { result ≡ is_protected page.state }
{
    matches!(page.state, PageState::From | PageState::Gone)
}

fn is_unused(page: Page) -> bool
    ensures { result ≡ is_unused page.state }
{
    matches!(page.state, PageState::Unused)
}

pub(crate) fn tell_head<W: io::Write>(
    heap: &Heap,
    text: &mut String,
    w: &mut W,
) -> Result<(), ReportFault>
    ensures { OnOk result (Appends (W.contents w.old) (W.contents w.new) (head_line heap.now)) }
{
    let line = HeadLine {
        phase: heap.phase(),
        nmt: heap.nmt(),
        births: heap.births(),
        used: heap.memory().used_frames(),
        frames: heap.memory().frame_count(),
    };
    tell_line(&line, text, w)
}

/// Writes the line of the page of an index; nothing if it is unused.
#[tactic(auto, unfolding(crate::specs::Reports::page_line), using(crate::proofs::Telling::appends_nothing))]
fn tell_page<W: io::Write>(
    heap: &Heap,
    index: usize,
    page: Page,
    text: &mut String,
    w: &mut W,
) -> Result<(), ReportFault>
    requires { index + 1 < 2 ^ 64 }
    ensures { OnOk result (Appends (W.contents w.old) (W.contents w.new) (page_line heap.now index page)) }
{
    if is_unused(page) {
        return Ok(());
    }
    let line = PageLine {
        number: index + 1,
        page,
        objects: bits_in(heap.starts(), index),
        live: bits_in(heap.live(), index),
        copies: copies_of(heap.sides(), index, page),
    };
    tell_line(&line, text, w)
}

fn activity_of(thread: &Thread) -> Activity
    ensures { result ≡ activity_of thread.now }
{
    if thread.is_parked() {
        Activity::Parked
    } else if thread.barrier().is_some() {
        Activity::Loading
    } else {
        Activity::Running
    }
}

fn tell_thread<W: io::Write>(
    page_words: u32,
    number: usize,
    thread: &Thread,
    text: &mut String,
    w: &mut W,
) -> Result<(), ReportFault>
    requires { 0 < page_words }
    ensures { OnOk result (Appends (W.contents w.old) (W.contents w.new) (thread_line page_words number thread.now)) }
{
    let line = ThreadLine {
        number,
        activity: activity_of(thread),
        buffer: thread.buffer(),
        registers: RegistersText::new(thread.registers(), page_words),
    };
    tell_line(&line, text, w)
}

fn tell_global<W: io::Write>(
    page_words: u32,
    number: usize,
    global: Global,
    text: &mut String,
    w: &mut W,
) -> Result<(), ReportFault>
    requires { 0 < page_words }
    ensures { OnOk result (Appends (W.contents w.old) (W.contents w.new) (global_line page_words number global)) }
{
    let word = WordText::new(global.word, page_words);
    tell_line(&GlobalLine { number, word }, text, w)
}

pub(crate) fn tell_pages<W: io::Write>(
    heap: &Heap,
    text: &mut String,
    w: &mut W,
) -> Result<(), ReportFault>
    ensures { OnOk result (Appends (W.contents w.old) (W.contents w.new)
        (texts_from (page_line heap.now) 0 heap.now.store.pages)) }
{
    let pages = heap.memory().pages();
    for (index, page) in pages.iter().enumerate() {
        tell_page(heap, index, *page, text, w)?;
    }
    Ok(())
}

pub(crate) fn tell_threads<W: io::Write>(
    heap: &Heap,
    text: &mut String,
    w: &mut W,
) -> Result<(), ReportFault>
    ensures { OnOk result (Appends (W.contents w.old) (W.contents w.new)
        (texts_from (thread_line heap.now.store.words) 0 heap.now.threads)) }
{
    let words = heap.memory().page_words();
    let threads = heap.threads();
    for (number, thread) in threads.iter().enumerate() {
        tell_thread(words, number, thread, text, w)?;
    }
    Ok(())
}

pub(crate) fn tell_globals<W: io::Write>(
    heap: &Heap,
    text: &mut String,
    w: &mut W,
) -> Result<(), ReportFault>
    ensures { OnOk result (Appends (W.contents w.old) (W.contents w.new)
        (texts_from (global_line heap.now.store.words) 0 heap.now.globals)) }
{
    let words = heap.memory().page_words();
    let globals = heap.globals();
    for (number, global) in globals.iter().enumerate() {
        tell_global(words, number, *global, text, w)?;
    }
    Ok(())
}

/// Writes the line of an entry that ended the mark of a number; nothing for another entry.
#[tactic(auto, using(crate::proofs::Telling::appends_nothing))]
fn tell_cycle<W: io::Write>(
    number: u64,
    answer: Answer,
    text: &mut String,
    w: &mut W,
) -> Result<(), ReportFault>
    ensures { OnOk result (Appends (W.contents w.old) (W.contents w.new) (cycle_line number answer)) }
{
    match answer {
        Answer::Ended { live, retired } => tell_line(
            &CycleLine {
                number,
                live,
                retired,
            },
            text,
            w,
        ),
        _ => Ok(()),
    }
}

/// Returns the number of the next mark to end.
fn next_cycle(number: u64, answer: Answer) -> u64
    requires { number + 1 < 2 ^ 64 }
    ensures value { result ≡ next_cycle number answer }
    ensures bound { result ≤ number + 1 }
{
    match answer {
        Answer::Ended { .. } => number + 1,
        _ => number,
    }
}

/// Returns the answer of an entry, by its number from 0, which must exist.
fn answer_at(history: &History, index: usize) -> Answer
    requires { index < length history.now.entries }
    ensures { IfSome (slice_get history.now.entries index) (λ e. result ≡ e.answer) }
{
    match history.get(index) {
        Some(found) => found.entry().answer,
        None => unreachable!(),
    }
}

pub(crate) fn tell_cycles<W: io::Write>(
    history: &History,
    text: &mut String,
    w: &mut W,
) -> Result<(), ReportFault>
    ensures { OnOk result (Appends (W.contents w.old) (W.contents w.new) (cycles_from 1 history.now.entries)) }
{
    let mut number = 1u64;
    for index in 0..history.len() {
        let answer = answer_at(history, index);
        tell_cycle(number, answer, text, w)?;
        number = next_cycle(number, answer);
    }
    Ok(())
}

fn tell_barrier<W: io::Write>(
    number: usize,
    thread: &Thread,
    text: &mut String,
    w: &mut W,
) -> Result<(), ReportFault>
    ensures { OnOk result (Appends (W.contents w.old) (W.contents w.new) (barrier_line number thread.now)) }
{
    let tally = thread.tally();
    tell_line(&BarrierLine { number, tally }, text, w)
}

pub(crate) fn tell_barriers<W: io::Write>(
    heap: &Heap,
    text: &mut String,
    w: &mut W,
) -> Result<(), ReportFault>
    ensures { OnOk result (Appends (W.contents w.old) (W.contents w.new) (texts_from barrier_line 0 heap.now.threads)) }
{
    let threads = heap.threads();
    for (number, thread) in threads.iter().enumerate() {
        tell_barrier(number, thread, text, w)?;
    }
    Ok(())
}
