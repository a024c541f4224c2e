//! The lines of a report, each without its newline.

ghost use Rattle.std.specs.Prelude.{◌≡◌, ◌++◌, ◌<◌};
ghost use Rattle.std.specs.Fmt.{WritesOnOk};
ghost use Rattle.reporting.specs.Lines.{counts_text, heals_text, register_text};

use crate::wording::records::{
    BufferText, Copies, CopiesText, FrameText, PageStateText, PhaseText, WordText,
};
use model::{Buffer, Page, Phase, Tally};
use refword::Word;
use std::fmt;

/// A bit: `0` or `1`.
#[derive(Clone, Copy, Debug, PartialEq, Eq)]
pub struct BitText(pub bool);

impl fmt::Display for BitText {
    ghost use Rattle.std.specs.Prelude.{Some};
    ghost use Rattle.reporting.specs.Texts.{bit_text};

    ghost output = { λ t. Some (bit_text t.0) };

    fn fmt<W: fmt::Write>(&self, f: &mut fmt::Formatter<W>) -> fmt::Result {
        if self.0 {
            write!(f, "1")
        } else {
            write!(f, "0")
        }
    }
}

/// The first line: the phase, the clean NMT bit, the births, and how many of the frames are used, as
/// `phase idle nmt 0 births 1 frames 1/4`.
#[derive(Clone, Copy, Debug, PartialEq, Eq)]
pub struct HeadLine {
    /// The phase of the collector's cycle.
    pub phase: Phase,
    /// The clean NMT bit.
    pub nmt: bool,
    /// How many objects were allocated.
    pub births: u64,
    /// How many frames are owned by a page.
    pub used: usize,
    /// How many frames there are.
    pub frames: usize,
}

impl fmt::Display for HeadLine {
    ghost use Rattle.std.specs.Prelude.{Some};
    ghost use Rattle.reporting.specs.Lines.{head_line};

    ghost output = { λ l. Some (head_line l.phase l.nmt l.births l.used l.frames) };

    fn fmt<W: fmt::Write>(&self, f: &mut fmt::Formatter<W>) -> fmt::Result {
        let (phase, nmt) = (PhaseText(self.phase), BitText(self.nmt));
        let (births, used, frames) = (self.births, self.used, self.frames);
        write!(
            f,
            "phase {phase} nmt {nmt} births {births} frames {used}/{frames}"
        )
    }
}

/// The line of a page, as `page 1 open frame 0 top 16 objects 1 live 0`; that of a protected page
/// ends with its copies, as `page 1 gone frame - top 16 objects 1 live 1 copied 1/1`.
#[derive(Clone, Copy, Debug, PartialEq, Eq)]
pub struct PageLine {
    /// Its number, from 1.
    pub number: usize,
    /// Its record.
    pub page: Page,
    /// How many objects start in it.
    pub objects: usize,
    /// How many of them the last mark found live.
    pub live: usize,
    /// How many of the live ones are copied, if the page is protected.
    pub copies: Option<Copies>,
}

/// Writes how many objects start in a page, how many of them are live, and its copies.
fn write_counts<W: fmt::Write>(
    f: &mut fmt::Formatter<W>,
    objects: usize,
    live: usize,
    copies: CopiesText,
) -> fmt::Result
    ensures { WritesOnOk W.write_str_gives f.old result (counts_text objects live copies.0) f.new }
{
    write!(f, " objects {objects} live {live}{copies}")
}

impl fmt::Display for PageLine {
    ghost use Rattle.std.specs.Prelude.{Some};
    ghost use Rattle.reporting.specs.Lines.{page_line};

    ghost output = { λ l. Some (page_line l.number l.page l.objects l.live l.copies) };

    fn fmt<W: fmt::Write>(&self, f: &mut fmt::Formatter<W>) -> fmt::Result {
        let (state, frame) = (PageStateText(self.page.state), FrameText(self.page.frame));
        let (number, top) = (self.number, self.page.top);
        write!(f, "page {number} {state} frame {frame} top {top}")?;
        write_counts(f, self.objects, self.live, CopiesText(self.copies))
    }
}

/// The references in registers, each after a space and its register's number from 0, as ` r0 1.0/0 r1 -`.
#[derive(Clone, Copy)]
pub struct RegistersText<'a> {
    words: &'a [Word],
    page_words: u32,
    ghost sized: { 0 < page_words },
}

impl<'a> RegistersText<'a> {
    /// Returns the text of registers, on pages of `page_words` words.
    pub fn new(words: &'a [Word], page_words: u32) -> RegistersText<'a>
        requires { 0 < page_words }
        ensures words { result.words ≡ words.entry }
        ensures page_words { result.page_words ≡ page_words }
    {
        RegistersText { words, page_words }
    }
}

/// Writes a space, a register's number and its reference.
fn write_register<W: fmt::Write>(
    f: &mut fmt::Formatter<W>,
    number: usize,
    word: WordText,
) -> fmt::Result
    ensures { WritesOnOk W.write_str_gives f.old result (register_text word.page_words number word.word) f.new }
{
    write!(f, " r{number} {word}")
}

impl<'a> fmt::Display for RegistersText<'a> {
    ghost use Rattle.std.specs.Prelude.{Some};
    ghost use Rattle.reporting.specs.Lines.{registers_text};

    ghost output = { λ t. Some (registers_text t.page_words t.words.now) };

    fn fmt<W: fmt::Write>(&self, f: &mut fmt::Formatter<W>) -> fmt::Result {
        for (number, word) in self.words.iter().enumerate() {
            write_register(f, number, WordText::new(*word, self.page_words))?;
        }
        Ok(())
    }
}

/// A thread's activity.
#[derive(Clone, Copy, Debug, PartialEq, Eq)]
pub enum Activity {
    /// It is parked.
    Parked,
    /// It has an unfinished load.
    Loading,
    /// It does neither.
    Running,
}

impl fmt::Display for Activity {
    ghost use Rattle.std.specs.Prelude.{Some};
    ghost use Rattle.reporting.specs.Lines.{activity_text};

    ghost output = { λ a. Some (activity_text a) };

    fn fmt<W: fmt::Write>(&self, f: &mut fmt::Formatter<W>) -> fmt::Result {
        match *self {
            Activity::Parked => write!(f, "parked"),
            Activity::Loading => write!(f, "loading"),
            Activity::Running => write!(f, "running"),
        }
    }
}

/// The line of a thread, as `thread 0 running buffer 1.4-16 r0 1.0/0 r1 -`.
#[derive(Clone, Copy)]
pub struct ThreadLine<'a> {
    /// Its number, from 0.
    pub number: usize,
    /// Its activity.
    pub activity: Activity,
    /// Its buffer, if it has one.
    pub buffer: Option<Buffer>,
    /// The references in its registers.
    pub registers: RegistersText<'a>,
}

impl<'a> fmt::Display for ThreadLine<'a> {
    ghost use Rattle.std.specs.Prelude.{Some};
    ghost use Rattle.reporting.specs.Lines.{thread_line};

    ghost output = { λ l. Some (thread_line l.number l.activity l.buffer l.registers.page_words
        l.registers.words.now) };

    fn fmt<W: fmt::Write>(&self, f: &mut fmt::Formatter<W>) -> fmt::Result {
        let (number, activity, registers) = (self.number, self.activity, self.registers);
        let buffer = BufferText(self.buffer);
        write!(f, "thread {number} {activity} buffer {buffer}{registers}")
    }
}

/// The line of a global, as `global 0 1.0/0`.
#[derive(Clone, Copy)]
pub struct GlobalLine {
    /// Its number, from 0.
    pub number: usize,
    /// Its reference.
    pub word: WordText,
}

impl fmt::Display for GlobalLine {
    ghost use Rattle.std.specs.Prelude.{Some};
    ghost use Rattle.reporting.specs.Lines.{global_line};

    ghost output = { λ l. Some (global_line l.word.page_words l.number l.word.word) };

    fn fmt<W: fmt::Write>(&self, f: &mut fmt::Formatter<W>) -> fmt::Result {
        let (number, word) = (self.number, self.word);
        write!(f, "global {number} {word}")
    }
}

/// The line of a mark that ended, as `cycle 1 live 3 retired 0`.
#[derive(Clone, Copy, Debug, PartialEq, Eq)]
pub struct CycleLine {
    /// Its number, from 1.
    pub number: u64,
    /// How many objects it marked.
    pub live: u64,
    /// How many pages it retired.
    pub retired: u64,
}

impl fmt::Display for CycleLine {
    ghost use Rattle.std.specs.Prelude.{Some};
    ghost use Rattle.reporting.specs.Lines.{cycle_line};

    ghost output = { λ l. Some (cycle_line l.number l.live l.retired) };

    fn fmt<W: fmt::Write>(&self, f: &mut fmt::Formatter<W>) -> fmt::Result {
        let (number, live, retired) = (self.number, self.live, self.retired);
        write!(f, "cycle {number} live {live} retired {retired}")
    }
}

/// The line of a thread's barrier counters, as `barrier 0 loads 1 gc 1 nmt 0 healed 1 changed 0`.
#[derive(Clone, Copy, Debug, PartialEq, Eq)]
pub struct BarrierLine {
    /// The thread's number, from 0.
    pub number: usize,
    /// Its barrier counters.
    pub tally: Tally,
}

/// Writes how many places were healed, and how many had changed.
fn write_heals<W: fmt::Write>(f: &mut fmt::Formatter<W>, healed: u64, changed: u64) -> fmt::Result
    ensures { WritesOnOk W.write_str_gives f.old result (heals_text healed changed) f.new }
{
    write!(f, " healed {healed} changed {changed}")
}

impl fmt::Display for BarrierLine {
    ghost use Rattle.std.specs.Prelude.{Some};
    ghost use Rattle.reporting.specs.Lines.{barrier_line};

    ghost output = { λ l. Some (barrier_line l.number l.tally) };

    fn fmt<W: fmt::Write>(&self, f: &mut fmt::Formatter<W>) -> fmt::Result {
        let (number, tally) = (self.number, self.tally);
        let (loads, gc, nmt) = (tally.loads, tally.gc, tally.nmt);
        write!(f, "barrier {number} loads {loads} gc {gc} nmt {nmt}")?;
        write_heals(f, tally.healed, tally.changed)
    }
}
