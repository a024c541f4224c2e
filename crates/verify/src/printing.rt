//! The text of an image: all parts of it, a line for each, so that a fault can be studied, and an image with a
//! planted fault written down. Each line ends with a newline.
//!
//! | Line | For |
//! |---|---|
//! | `image words W frames N free F F ..` | the words of a page, the configured number of frames, the free ones |
//! | `layout R D` | each layout: its numbers of references and data |
//! | `page P STATE frame F starts O O .. side O>A O>A* ..` | each page, from 1 |
//! | `frame F X X ..` | each frame, from 0: its words |
//! | `thread T load X registers X X ..` | each thread, from 0: the current reference of its load, and its registers |
//! | `global G X` | each global, from 0 |
//!
//! A page without a frame, and a thread without a load, have `-` there. `starts` has the offsets of a page's start
//! bits, `side` its forwarding table: offsets and new addresses, in decimals, with `*` if the object is copied. Words
//! and references are in hexadecimal digits.

use crate::image::{Image, PageImage, Words};
use layout::Layout;
use markbits::Row;
use model::{Forwarding, PageState};
use std::fmt::{Display, Formatter, Result, Write};

fn put_words<W: Write>(f: &mut Formatter<W>, words: &[u64]) -> Result {
    for word in words {
        write!(f, " {word:x}")?;
    }
    Ok(())
}

fn put_free<W: Write>(f: &mut Formatter<W>, free: &[u32]) -> Result {
    for frame in free {
        write!(f, " {frame}")?;
    }
    Ok(())
}

fn put_layouts<W: Write>(f: &mut Formatter<W>, layouts: &[Layout]) -> Result {
    for layout in layouts {
        let (refs, nums) = (layout.refs, layout.nums);
        writeln!(f, "layout {refs} {nums}")?;
    }
    Ok(())
}

fn put_starts<W: Write>(f: &mut Formatter<W>, starts: &Row) -> Result {
    f.write_str(" starts")?;
    for offset in 0..starts.len() {
        if starts.test(offset) {
            write!(f, " {offset}")?;
        }
    }
    Ok(())
}

fn put_entry<W: Write>(f: &mut Formatter<W>, entry: &Forwarding) -> Result {
    let (offset, to) = (entry.offset, entry.to.number());
    write!(f, " {offset}>{to}")?;
    f.write_str(if entry.copied { "*" } else { "" })
}

fn put_side<W: Write>(f: &mut Formatter<W>, side: &[Forwarding]) -> Result {
    f.write_str(" side")?;
    for entry in side {
        put_entry(f, entry)?;
    }
    Ok(())
}

fn name_of(state: PageState) -> &'static str {
    match state {
        PageState::Unused => "unused",
        PageState::Open => "open",
        PageState::Closed => "closed",
        PageState::From => "from",
        PageState::Gone => "gone",
    }
}

fn put_state<W: Write>(f: &mut Formatter<W>, number: usize, page: &PageImage) -> Result {
    write!(f, "page {number} ")?;
    f.write_str(name_of(page.state))?;
    match page.frame {
        None => f.write_str(" frame -"),
        Some(frame) => write!(f, " frame {frame}"),
    }
}

fn put_page<W: Write>(f: &mut Formatter<W>, number: usize, page: &PageImage) -> Result {
    put_state(f, number, page)?;
    put_starts(f, &page.starts)?;
    put_side(f, &page.side)?;
    writeln!(f)
}

fn put_pages<W: Write>(f: &mut Formatter<W>, pages: &[PageImage]) -> Result {
    for index in 0..pages.len() {
        put_page(f, index + 1, &pages[index])?;
    }
    Ok(())
}

fn put_frame<W: Write>(f: &mut Formatter<W>, frame: usize, memory: &Words) -> Result {
    write!(f, "frame {frame}")?;
    put_words(f, &memory.words)?;
    writeln!(f)
}

fn put_frames<W: Write>(f: &mut Formatter<W>, frames: &[Words]) -> Result {
    for frame in 0..frames.len() {
        put_frame(f, frame, &frames[frame])?;
    }
    Ok(())
}

fn put_load<W: Write>(f: &mut Formatter<W>, thread: usize, load: Option<u64>) -> Result {
    write!(f, "thread {thread} load ")?;
    match load {
        None => f.write_str("-"),
        Some(word) => write!(f, "{word:x}"),
    }
}

fn put_thread<W: Write>(
    f: &mut Formatter<W>,
    thread: usize,
    load: Option<u64>,
    registers: &[u64],
) -> Result {
    put_load(f, thread, load)?;
    f.write_str(" registers")?;
    put_words(f, registers)?;
    writeln!(f)
}

fn put_globals<W: Write>(f: &mut Formatter<W>, globals: &[u64]) -> Result {
    for global in 0..globals.len() {
        let word = globals[global];
        writeln!(f, "global {global} {word:x}")?;
    }
    Ok(())
}

impl Image {
    /// Returns the registers of a thread; none past the list.
    fn registers_of(&self, thread: usize) -> &[u64] {
        match self.registers.get(thread) {
            None => &[],
            Some(registers) => &registers.words,
        }
    }

    fn put_sizes<W: Write>(&self, f: &mut Formatter<W>) -> Result {
        let (words, frames) = (self.words, self.frame_count);
        write!(f, "image words {words} frames {frames} free")?;
        put_free(f, &self.free)?;
        writeln!(f)
    }

    fn put_threads<W: Write>(&self, f: &mut Formatter<W>) -> Result {
        for thread in 0..self.registers.len().max(self.loads.len()) {
            let load = self.loads.get(thread).copied().flatten();
            put_thread(f, thread, load, self.registers_of(thread))?;
        }
        Ok(())
    }
}

impl Display for Image {
    fn fmt<W: Write>(&self, f: &mut Formatter<W>) -> Result {
        self.put_sizes(f)?;
        put_layouts(f, &self.layouts)?;
        put_pages(f, &self.pages)?;
        put_frames(f, &self.frames)?;
        self.put_threads(f)?;
        put_globals(f, &self.globals)
    }
}
