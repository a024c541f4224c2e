//! The texts of a report's parts.

ghost use Rattle.std.specs.Prelude.{◌≡◌, ◌<◌};

use model::{Buffer, PageState, Phase};
use refword::Word;
use std::fmt;

/// The text of a reference: `-` for null, else page, offset and NMT bit, as `1.12/0`.
#[derive(Clone, Copy)]
pub struct WordText {
    word: Word,
    page_words: u32,
    ghost sized: { 0 < page_words },
}

impl WordText {
    /// Returns the text of a reference, on pages of `page_words` words.
    pub fn new(word: Word, page_words: u32) -> WordText
        requires { 0 < page_words }
        ensures word { result.word ≡ word }
        ensures page_words { result.page_words ≡ page_words }
    {
        WordText { word, page_words }
    }
}

impl fmt::Display for WordText {
    ghost use Rattle.std.specs.Prelude.{Some};
    ghost use Rattle.reporting.specs.Texts.{word_text};

    ghost output = { λ t. Some (word_text t.page_words t.word) };

    fn fmt<W: fmt::Write>(&self, f: &mut fmt::Formatter<W>) -> fmt::Result {
        match self.word.addr() {
            None => f.write_str("-"),
            Some(addr) => {
                let number = addr.number();
                let page = number / u64::from(self.page_words);
                let offset = number % u64::from(self.page_words);
                if self.word.nmt() {
                    write!(f, "{page}.{offset}/1")
                } else {
                    write!(f, "{page}.{offset}/0")
                }
            }
        }
    }
}

/// The name of a phase.
#[derive(Clone, Copy, Debug, PartialEq, Eq)]
pub struct PhaseText(pub Phase);

impl fmt::Display for PhaseText {
    ghost use Rattle.std.specs.Prelude.{Some};
    ghost use Rattle.reporting.specs.Texts.{phase_text};

    ghost output = { λ t. Some (phase_text t.0) };

    fn fmt<W: fmt::Write>(&self, f: &mut fmt::Formatter<W>) -> fmt::Result {
        match self.0 {
            Phase::Idle => f.write_str("idle"),
            Phase::MarkCrossing => f.write_str("mark-crossing"),
            Phase::Scanning => f.write_str("scanning"),
            Phase::ProtectCrossing => f.write_str("protect-crossing"),
            Phase::Relocating => f.write_str("relocating"),
        }
    }
}

/// The name of a page's state.
#[derive(Clone, Copy, Debug, PartialEq, Eq)]
pub struct PageStateText(pub PageState);

impl fmt::Display for PageStateText {
    ghost use Rattle.std.specs.Prelude.{Some};
    ghost use Rattle.reporting.specs.Texts.{page_state_text};

    ghost output = { λ t. Some (page_state_text t.0) };

    fn fmt<W: fmt::Write>(&self, f: &mut fmt::Formatter<W>) -> fmt::Result {
        match self.0 {
            PageState::Unused => f.write_str("unused"),
            PageState::Open => f.write_str("open"),
            PageState::Closed => f.write_str("closed"),
            PageState::From => f.write_str("from"),
            PageState::Gone => f.write_str("gone"),
        }
    }
}

/// A page's frame: its number from 0, or `-` for none.
#[derive(Clone, Copy, Debug, PartialEq, Eq)]
pub struct FrameText(pub Option<u32>);

impl fmt::Display for FrameText {
    ghost use Rattle.std.specs.Prelude.{Some};
    ghost use Rattle.reporting.specs.Texts.{frame_text};

    ghost output = { λ t. Some (frame_text t.0) };

    fn fmt<W: fmt::Write>(&self, f: &mut fmt::Formatter<W>) -> fmt::Result {
        match self.0 {
            None => f.write_str("-"),
            Some(frame) => write!(f, "{frame}"),
        }
    }
}

/// A thread's buffer: page, next offset and end, as `1.15-16`, or `-` for none.
#[derive(Clone, Copy, Debug, PartialEq, Eq)]
pub struct BufferText(pub Option<Buffer>);

impl fmt::Display for BufferText {
    ghost use Rattle.std.specs.Prelude.{Some};
    ghost use Rattle.reporting.specs.Texts.{buffer_text};

    ghost output = { λ t. Some (buffer_text t.0) };

    fn fmt<W: fmt::Write>(&self, f: &mut fmt::Formatter<W>) -> fmt::Result {
        match self.0 {
            None => f.write_str("-"),
            Some(Buffer { page, next, end }) => write!(f, "{page}.{next}-{end}"),
        }
    }
}

/// How many of the entries of a forwarding table are copied.
#[derive(Clone, Copy, Debug, PartialEq, Eq)]
pub struct Copies {
    /// How many are copied.
    pub copied: usize,
    /// How many there are.
    pub entries: usize,
}

/// The end of a protected page's line, as ` copied 1/2`; nothing for another page.
#[derive(Clone, Copy, Debug, PartialEq, Eq)]
pub struct CopiesText(pub Option<Copies>);

impl fmt::Display for CopiesText {
    ghost use Rattle.std.specs.Prelude.{Some};
    ghost use Rattle.reporting.specs.Lines.{copies_text};

    ghost output = { λ t. Some (copies_text t.0) };

    fn fmt<W: fmt::Write>(&self, f: &mut fmt::Formatter<W>) -> fmt::Result {
        match self.0 {
            None => Ok(()),
            Some(Copies { copied, entries }) => write!(f, " copied {copied}/{entries}"),
        }
    }
}
