//! Edits of an image. Pages count from 1, all else from 0. If the image has no such place, nothing is changed.

use model::{Forwarding, PageState};
use refword::Addr;
use std::alloc::{AllocError, Global};
use verify::Image;

/// Replaces one of the free frames.
pub fn set_free(image: &mut Image, index: usize, frame: u32) {
    if index < image.free.len() {
        image.free[index] = frame;
    }
}

/// Gives 16 words to a frame that has none. If out of memory it stays as it is.
fn fill_frame(image: &mut Image, frame: usize) {
    let alloc = *image.pages.allocator();
    if frame < image.frames.len() && image.frames[frame].words.is_empty() {
        if let Ok(words) = zeros(alloc) {
            image.frames[frame].words = words;
        }
    }
}

/// Returns the words of a page, all 0.
fn zeros(alloc: Global) -> Result<Vec<u64>, AllocError> {
    vec![in alloc; 0; 16]
}

/// Sets a page's state and frame, which has words then.
pub fn set_page(image: &mut Image, number: usize, state: PageState, frame: Option<u32>) {
    if number > 0 && number <= image.pages.len() {
        let page = &mut image.pages[number - 1];
        page.state = state;
        page.frame = frame;
        if let Some(frame) = frame {
            fill_frame(image, frame as usize);
        }
    }
}

/// Sets or clears the start bit at an offset of a page.
pub fn set_start(image: &mut Image, number: usize, offset: usize, starts: bool) {
    if number > 0 && number <= image.pages.len() {
        image.pages[number - 1].starts.put(offset, starts);
    }
}

/// Sets the word of a frame at an offset.
pub fn set_word(image: &mut Image, frame: usize, offset: usize, bits: u64) {
    if frame < image.frames.len() {
        let words = &mut image.frames[frame].words;
        if offset < words.len() {
            words[offset] = bits;
        }
    }
}

/// Sets the value of a register.
pub fn set_register(image: &mut Image, thread: usize, register: usize, value: u64) {
    if thread < image.registers.len() {
        let words = &mut image.registers[thread].words;
        if register < words.len() {
            words[register] = value;
        }
    }
}

/// Sets the current reference of a thread's load.
pub fn set_load(image: &mut Image, thread: usize, value: Option<u64>) {
    if thread < image.loads.len() {
        image.loads[thread] = value;
    }
}

/// Sets the value of the global.
pub fn set_global(image: &mut Image, value: u64) {
    if !image.globals.is_empty() {
        image.globals[0] = value;
    }
}

/// Sets a page's frame, or none.
pub fn set_frame(image: &mut Image, page: usize, frame: Option<u32>) {
    if page > 0 && page <= image.pages.len() {
        image.pages[page - 1].frame = frame;
    }
}

/// Sets the first entry of a page's forwarding table.
pub fn set_entry(image: &mut Image, page: usize, entry: Forwarding) {
    if page > 0 && page <= image.pages.len() {
        let side = &mut image.pages[page - 1].side;
        if !side.is_empty() {
            side[0] = entry;
        }
    }
}

/// Returns the word of a frame at an offset.
pub fn word(image: &Image, frame: usize, offset: usize) -> Option<u64> {
    let memory = image.frames.get(frame)?;
    memory.words.get(offset).copied()
}

/// Returns an entry for the object at offset 0, by its new address and whether it is copied.
pub fn entry(to: u64, copied: bool) -> Option<Forwarding> {
    let to = Addr::new(to)?;
    Some(Forwarding {
        offset: 0,
        to,
        copied,
    })
}
