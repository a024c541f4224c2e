//! The lines of the contents of pages: objects, and entries of forwarding tables.

use forward::Side;
use heap::{Heap, Row, read_reference};
use layout::{Header, Layout};
use model::Forwarding;
use refword::Addr;
use reporting::{BitText, WordText};
use std::alloc::AllocError;
use std::fmt::Write as _;

/// Returns whether a bitmap has a bit at an offset.
fn bit(row: Option<&Row>, offset: usize) -> BitText {
    match row {
        None => BitText(false),
        Some(row) => BitText(row.test(offset)),
    }
}

/// Appends a space and a reference, as in the report.
pub(crate) fn put_word(heap: &Heap, bits: u64, text: &mut String) -> Result<(), AllocError> {
    let word = WordText::new(read_reference(bits), heap.memory().page_words());
    write!(text, " {word}")
}

/// Appends a space and an address: its page and its offset.
pub(crate) fn put_address(heap: &Heap, address: Addr, text: &mut String) -> Result<(), AllocError> {
    let memory = heap.memory();
    let (page, offset) = (memory.page_of(address), memory.offset_of(address));
    write!(text, " {page}.{offset}")
}

fn put_references(heap: &Heap, words: &[u64], text: &mut String) -> Result<(), AllocError> {
    text.push_str(" refs")?;
    for bits in words {
        put_word(heap, *bits, text)?;
    }
    Ok(())
}

fn put_data(words: &[u64], text: &mut String) -> Result<(), AllocError> {
    text.push_str(" data")?;
    for number in words {
        write!(text, " {number}")?;
    }
    Ok(())
}

/// Returns the words of an object after its header, in two parts: references and data.
fn parts(words: &[u64], offset: usize, layout: Layout) -> (&[u64], &[u64]) {
    let first = offset.saturating_add(1);
    let middle = first.saturating_add(usize::from(layout.refs));
    let end = middle.saturating_add(usize::from(layout.nums));
    let references = words.get(first..middle).unwrap_or(&[]);
    let data = words.get(middle..end).unwrap_or(&[]);
    (references, data)
}

/// Returns the header of the object at an offset of a page's words, and its layout.
fn kind_at(heap: &Heap, words: &[u64], offset: usize) -> Option<(Header, Layout)> {
    let header = Header::read(*words.get(offset)?);
    let layout = heap.config().layouts.get(u32::from(header.layout))?;
    Some((header, layout))
}

/// Appends an object's bits: whether the last mark has found it, whether the running one has, and whether it is grey.
fn put_bits(heap: &Heap, index: usize, offset: usize, text: &mut String) -> Result<(), AllocError> {
    let live = bit(heap.live().get(index), offset);
    let mark = bit(heap.mark().get(index), offset);
    let todo = bit(heap.todo().get(index), offset);
    write!(text, " live {live} mark {mark} todo {todo}")
}

/// Appends the line of the object at an offset of the page whose record has an index.
fn put_object(
    heap: &Heap,
    index: usize,
    offset: usize,
    words: &[u64],
    text: &mut String,
) -> Result<(), AllocError> {
    let number = index.saturating_add(1);
    write!(text, "object {number}.{offset}")?;
    if let Some((header, layout)) = kind_at(heap, words, offset) {
        let (birth, layout_number) = (header.birth, header.layout);
        write!(text, " birth {birth} layout {layout_number}")?;
        put_bits(heap, index, offset, text)?;
        let (references, data) = parts(words, offset, layout);
        put_references(heap, references, text)?;
        put_data(data, text)?;
    }
    text.push('\n')
}

/// Appends the lines of all objects of a page, by its record's index, its start bitmap and its words.
fn put_objects(
    heap: &Heap,
    index: usize,
    starts: &Row,
    words: &[u64],
    text: &mut String,
) -> Result<(), AllocError> {
    for offset in 0..starts.len() {
        if starts.test(offset) {
            put_object(heap, index, offset, words, text)?;
        }
    }
    Ok(())
}

/// Appends the line of an entry: its page, its number, its object's old place, and the new one.
fn put_entry(
    heap: &Heap,
    page: usize,
    number: usize,
    entry: Forwarding,
    text: &mut String,
) -> Result<(), AllocError> {
    let offset = entry.offset;
    write!(text, "entry {page} {number} from {page}.{offset} to")?;
    put_address(heap, entry.to, text)?;
    text.push_str(if entry.copied {
        " copied\n"
    } else {
        " planned\n"
    })
}

fn put_entries(heap: &Heap, page: usize, side: &Side, text: &mut String) -> Result<(), AllocError> {
    for number in 0..side.len() {
        if let Some(entry) = side.entry(number) {
            put_entry(heap, page, number, entry, text)?;
        }
    }
    Ok(())
}

/// Appends the lines of the contents of the page whose record has an index. A page without memory has no objects.
fn put_page(heap: &Heap, index: usize, text: &mut String) -> Result<(), AllocError> {
    let number = index.saturating_add(1);
    let words = heap.memory().words(u32::try_from(number).unwrap_or(0));
    if let (Some(starts), Some(words)) = (heap.starts().get(index), words) {
        put_objects(heap, index, starts, words, text)?;
    }
    match heap.sides().get(index) {
        None => Ok(()),
        Some(side) => put_entries(heap, number, side, text),
    }
}

/// Appends the lines of the contents of all pages.
pub fn put_pages(heap: &Heap, text: &mut String) -> Result<(), AllocError> {
    for index in 0..heap.memory().pages().len() {
        put_page(heap, index, text)?;
    }
    Ok(())
}
