//! The text that a run prints: the lines of commands, and reports. A report has the current state of a heap, and what
//! each mark of a history has found.
//!
//! `wording` has the texts of actors, answers and errors, and of a report's parts. `docs/SCRIPT.md` describes the lines
//! of a report, under 'The report'.
#![tactic(auto)]

mod fault;
mod lines;
mod whole;
mod wording;

pub use fault::ReportFault;
pub use lines::tell;
pub use whole::{report, report_heap};
pub use wording::{
    Activity, ActorText, AnswerText, BarrierLine, BitText, BufferText, Copies, CopiesText,
    CycleLine, FrameText, GlobalLine, HeadLine, PageLine, PageStateText, PhaseText, RegistersText,
    ReplyText, ThreadLine, WordText, put_drained, put_line, write_line,
};
