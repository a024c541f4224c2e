//! The heap line and the layout lines.

ghost use Rattle.std.specs.Prelude.{◌≡◌, ◌==◌, ◌≤◌, IfOk};
ghost use Rattle.model.specs.declared.limits.TheConstants.{MOST_WORDS};
ghost use Rattle.model.specs.Configs.{is_page_size};
ghost use Rattle.parser.specs.Headings.{field_at, page_size_at, limit_at, memory_at, actors_at, limits_at, sizes_at};
ghost use Rattle.parser.specs.Headings.{heap_in, layout_in, config_of};

use crate::fault::{FaultKind, Flaw};
use crate::limits::{MOST_BIRTHS, MOST_FRAMES, MOST_GLOBALS, MOST_REGISTERS, MOST_THREADS};
use crate::words::{end_at, fixed_at, number_at, word_at};
use layout::{Layout, Layouts};
use model::{Config, MOST_FIELDS, MOST_HISTORY, MOST_PAGES, MOST_WORDS, MOST_WORKERS};

/// The numbers of a heap line; omitted ones have their greatest value.
#[derive(Clone, Copy, Debug, PartialEq, Eq)]
pub struct Sizes {
    /// The words of a page: 16 to 32,768, a power of two.
    pub words: u32,
    /// The frames: 1 to 4,096.
    pub frames: u32,
    /// The pages: as many as frames to 1,048,575.
    pub pages: u32,
    /// The threads: 1 to 64.
    pub threads: u32,
    /// The workers: 1 to 16.
    pub workers: u32,
    /// The registers of each thread: 1 to 16.
    pub registers: u32,
    /// The globals: 0 to 64.
    pub globals: u32,
    /// The limit of births: 1 to 2^32.
    pub births: u64,
    /// The limit of entries of a history: 1 to 1,000,000.
    pub history: u64,
}

impl Sizes {
    /// Returns the configuration of these sizes, with layouts.
    pub fn config(self, layouts: Vec<Layout>) -> Config
        ensures { result ≡ config_of self layouts.items }
    {
        Config {
            words: self.words,
            frames: self.frames,
            pages: self.pages,
            threads: self.threads,
            workers: self.workers,
            registers: self.registers,
            globals: self.globals,
            layouts: Layouts::new(layouts),
            births: self.births,
            history: self.history,
        }
    }
}

fn is_page_size(words: u64) -> bool
    ensures { result ≡ is_page_size words }
{
    matches!(
        words,
        16 | 32 | 64 | 128 | 256 | 512 | 1024 | 2048 | 4096 | 8192 | 16384 | 32768
    )
}

/// Returns the number after a name that is required at a place.
#[tactic(auto, unfolding(crate::specs::Headings::field_at))]
fn field_at(line: &[u8], at: usize, name: &[u8], low: u64, high: u64) -> Result<(u64, usize), Flaw>
    ensures found { result ≡ field_at line.now at name.now low high }
    ensures range { IfOk result (λ x. x.0 ≤ high) }
{
    let after = fixed_at(line, at, name, FaultKind::UnknownWord)?;
    number_at(line, after, low, high)
}

/// Returns the words of a page, after their name.
#[tactic(auto, unfolding(crate::specs::Headings::page_size_at))]
fn page_size_at(line: &[u8], at: usize) -> Result<(u64, usize), Flaw>
    ensures found { result ≡ page_size_at line.now at }
    ensures range { IfOk result (λ x. x.0 ≤ MOST_WORDS) }
{
    let after = fixed_at(line, at, b"words", FaultKind::UnknownWord)?;
    let (words, end) = number_at(line, after, 16, MOST_WORDS as u64)?;
    if !is_page_size(words) {
        return Err(Flaw {
            column: after + 1,
            kind: FaultKind::NumberOutOfRange,
        });
    }
    Ok((words, end))
}

/// Returns a limit from 1 to `most` after its name, or `most` if the name is missing.
#[tactic(auto, unfolding(crate::specs::Headings::limit_at))]
fn limit_at(line: &[u8], at: usize, name: &[u8], most: u64) -> Result<(u64, usize), Flaw>
    ensures { result ≡ limit_at line.now at name.now most }
{
    let Some((word, after)) = word_at(line, at) else {
        return Ok((most, at));
    };
    if word == name {
        number_at(line, after, 1, most)
    } else {
        Ok((most, at))
    }
}

/// Returns the words of a page, the frames and the pages, and the place after them.
#[tactic(auto, unfolding(crate::specs::Headings::memory_at))]
fn memory_at(line: &[u8], at: usize) -> Result<((u32, u32, u32), usize), Flaw>
    ensures { result ≡ memory_at line.now at }
{
    let (words, at) = page_size_at(line, at)?;
    let (frames, at) = field_at(line, at, b"frames", 1, MOST_FRAMES as u64)?;
    let (pages, at) = field_at(line, at, b"pages", frames, MOST_PAGES as u64)?;
    Ok(((words as u32, frames as u32, pages as u32), at))
}

/// Returns the threads, the workers and the registers, and the place after them.
#[tactic(auto, unfolding(crate::specs::Headings::actors_at))]
fn actors_at(line: &[u8], at: usize) -> Result<((u32, u32, u32), usize), Flaw>
    ensures { result ≡ actors_at line.now at }
{
    let (threads, at) = field_at(line, at, b"threads", 1, MOST_THREADS as u64)?;
    let (workers, at) = field_at(line, at, b"workers", 1, MOST_WORKERS as u64)?;
    let (registers, at) = field_at(line, at, b"registers", 1, MOST_REGISTERS as u64)?;
    Ok(((threads as u32, workers as u32, registers as u32), at))
}

/// Returns the globals, the births and the history, and the place after them.
#[tactic(auto, unfolding(crate::specs::Headings::limits_at))]
fn limits_at(line: &[u8], at: usize) -> Result<((u32, u64, u64), usize), Flaw>
    ensures { result ≡ limits_at line.now at }
{
    let (globals, at) = field_at(line, at, b"globals", 0, MOST_GLOBALS as u64)?;
    let (births, at) = limit_at(line, at, b"births", MOST_BIRTHS)?;
    let (history, at) = limit_at(line, at, b"history", MOST_HISTORY)?;
    Ok(((globals as u32, births, history), at))
}

/// Returns the numbers of a heap line, and the place after them.
#[tactic(auto, unfolding(crate::specs::Headings::sizes_at))]
fn sizes_at(line: &[u8], at: usize) -> Result<(Sizes, usize), Flaw>
    ensures { result ≡ sizes_at line.now at }
{
    let ((words, frames, pages), at) = memory_at(line, at)?;
    let ((threads, workers, registers), at) = actors_at(line, at)?;
    let ((globals, births, history), at) = limits_at(line, at)?;
    let sizes = Sizes {
        words,
        frames,
        pages,
        threads,
        workers,
        registers,
        globals,
        births,
        history,
    };
    Ok((sizes, at))
}

/// Returns the sizes in a heap line, from the place after its first word to its end.
#[tactic(auto, unfolding(crate::specs::Headings::heap_in))]
pub fn heap_in(line: &[u8], at: usize) -> Result<Sizes, Flaw>
    ensures { result ≡ heap_in line.now at }
{
    let (sizes, at) = sizes_at(line, at)?;
    end_at(line, at)?;
    Ok(sizes)
}

/// Returns the layout in a layout line, from the place after its first word to its end.
#[tactic(auto, unfolding(crate::specs::Headings::layout_in))]
pub fn layout_in(sizes: &Sizes, line: &[u8], at: usize) -> Result<Layout, Flaw>
    ensures { result ≡ layout_in sizes.now line.now at }
{
    let (refs, after) = number_at(line, at, 0, MOST_FIELDS as u64)?;
    let (nums, end) = number_at(line, after, 0, MOST_FIELDS as u64)?;
    if 1 + refs + nums > sizes.words as u64 {
        return Err(Flaw {
            column: after + 1,
            kind: FaultKind::LayoutTooLarge,
        });
    }
    end_at(line, end)?;
    Ok(Layout {
        refs: refs as u16,
        nums: nums as u16,
    })
}
