//! The line of a fault.

use std::fmt::{Display, Formatter, Result, Write};
use verify::{Fault, Root};

/// The text of a fault, on pages of `words` words: `fault`, its kind, and its place. An object is given by its page,
/// from 1, and its offset.
#[derive(Clone, Copy, Debug, PartialEq, Eq)]
pub struct FaultText {
    /// The fault.
    pub fault: Fault,
    /// The words of a page: 16 to 32,768.
    pub words: u32,
}

/// Writes the place of a root: a thread's register, a thread's load, or a global.
fn put_root<W: Write>(f: &mut Formatter<W>, root: Root) -> Result {
    match root {
        Root::Register(thread, register) => write!(f, "fault root t{thread}.r{register}"),
        Root::Pending(thread) => write!(f, "fault pending t{thread}"),
        Root::Global(global) => write!(f, "fault global {global}"),
    }
}

impl Display for FaultText {
    fn fmt<W: Write>(&self, f: &mut Formatter<W>) -> Result {
        match self.fault {
            Fault::Frames => f.write_str("fault frames"),
            Fault::Root(root) => put_root(f, root),
            Fault::Field(address, field) => {
                let words = u64::from(self.words.max(1));
                let (page, offset) = (address / words, address % words);
                write!(f, "fault field {page}.{offset}.{field}")
            }
            Fault::Twins(birth) => write!(f, "fault twins {birth}"),
        }
    }
}
