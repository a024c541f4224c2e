//! Lists of grey objects.

ghost use Rattle.std.specs.Prelude.{◌<◌, ◌≤◌, true, length};

use heap::{Heap, Row};
use refword::Addr;
use std::alloc::{AllocError, Global};

/// How many objects are grey, and where.
#[derive(Clone, Copy)]
pub(crate) struct Extent {
    /// How many objects are grey.
    pub objects: u64,
    /// The index after the last page with a grey object.
    pub end: usize,
    /// The index after the last page that has a bitmap.
    pub used: usize,
}

/// Returns the extent together with the page of an index, which has a bitmap.
fn with_page(extent: Extent, index: usize, objects: usize) -> Extent {
    let next = index.saturating_add(1);
    if objects == 0 {
        return Extent {
            used: next,
            ..extent
        };
    }
    Extent {
        objects: extent.objects.saturating_add(objects as u64),
        end: next,
        used: next,
    }
}

/// Returns how many objects are grey, and on which pages.
pub(crate) fn extent_of(heap: &Heap) -> Extent {
    let mut extent = Extent {
        objects: 0,
        end: 0,
        used: 0,
    };
    for index in 0..heap.memory().pages().len() {
        if let Some(row) = heap.todo().get(index) {
            if row.len() != 0 {
                extent = with_page(extent, index, row.count());
            }
        }
    }
    extent
}

/// Adds the addresses of a page's grey objects to a list. Fails only if out of memory.
fn list_page(
    heap: &Heap,
    page: u32,
    row: &Row,
    list: &mut Vec<Addr, Global>,
) -> Result<(), AllocError>
    requires low { 0 < page }
    requires high { page ≤ heap.now.store.count }
{
    let words = heap.memory().page_words();
    let mut from = 0;
    while let Some(place) = row.next_from(from) {
        if place >= words {
            return Ok(());
        }
        list.push(heap.address_on(page, place))?;
        from = place as usize + 1;
    }
    Ok(())
}

/// Lists the addresses of the grey objects of pages before an index, from the lowest on. Fails only if out of memory.
pub(crate) fn list_grey(
    heap: &Heap,
    end: usize,
    list: &mut Vec<Addr, Global>,
) -> Result<(), AllocError> {
    list.clear();
    let pages = heap.memory().page_count();
    for index in 0..end {
        if let Some(row) = heap.todo().get(index) {
            if row.count() != 0 && index < pages as usize {
                list_page(heap, index as u32 + 1, row, list)?;
            }
        }
    }
    Ok(())
}

/// Returns whether no more than two thirds of the grey objects are on the pages of one part, of which there are as many
/// as threads: else a wave would keep one thread busy alone.
pub(crate) fn are_spread(heap: &Heap, extent: Extent, threads: u32) -> bool {
    let size = extent.used.div_ceil(threads.max(1) as usize).max(1);
    let mut most = 0u64;
    let mut here = 0u64;
    for index in 0..extent.used {
        if index % size == 0 {
            most = most.max(here);
            here = 0;
        }
        if let Some(row) = heap.todo().get(index) {
            here = here.saturating_add(row.count() as u64);
        }
    }
    most.max(here) <= extent.objects.saturating_sub(extent.objects / 3)
}
