//! The image of a heap as plain data, which may have any fault.

use layout::Layout;
use markbits::Row;
use model::{Forwarding, PageState};
use std::marker::Model;

/// A page.
#[derive(Debug, Drop)]
pub struct PageImage {
    /// Its state.
    pub state: PageState,
    /// The number of its frame, from 0.
    pub frame: Option<u32>,
    /// Its start bitmap: at which offsets objects start. Past its end none does.
    pub starts: Row,
    /// The entries of its forwarding table, if it was protected. Of two entries for one offset the first counts.
    pub side: Vec<Forwarding>,
}

impl Model for PageImage {
    ghost use Rattle.verify.specs.Images.{PageData};

    ghost Value = { PageData };

    ghost view = { λ p. record { state = p.state; frame = p.frame; starts = p.starts; side = p.side.items } };
}

/// The words of a frame, or the registers of a thread: any numbers.
#[derive(Debug, Drop)]
pub struct Words {
    /// The words in order.
    pub words: Vec<u64>,
}

impl Model for Words {
    ghost use Rattle.std.specs.Prelude.{List, ℕ};

    ghost Value = { List ℕ };

    ghost view = { λ w. w.words.items };
}

/// The image of a heap. Its lists may have any lengths.
#[derive(Debug, Drop)]
pub struct Image {
    /// The words of a page: in a sound image a power of two from 16 to 32,768.
    pub words: u32,
    /// The configured number of frames.
    pub frame_count: u32,
    /// The numbers of the free frames.
    pub free: Vec<u32>,
    /// The pages, from number 1.
    pub pages: Vec<PageImage>,
    /// The memory of each frame, from number 0.
    pub frames: Vec<Words>,
    /// The registers of each thread.
    pub registers: Vec<Words>,
    /// The current reference of each thread's load, if the thread has an open barrier.
    pub loads: Vec<Option<u64>>,
    /// The globals.
    pub globals: Vec<u64>,
    /// The layouts, by number from 0.
    pub layouts: Vec<Layout>,
}

impl Model for Image {
    ghost use Rattle.verify.specs.Images.{ImageData};

    ghost Value = { ImageData };

    ghost view = { λ i. record {
      words = i.words;
      frame_count = i.frame_count;
      free = i.free.items;
      pages = i.pages.items;
      frames = i.frames.items;
      registers = i.registers.items;
      loads = i.loads.items;
      globals = i.globals.items;
      layouts = i.layouts.items;
    } };
}
