//! The text that a run prints: actors, answers, errors and the parts of a report.

mod line;
mod putting;
mod records;
mod report;
mod steps;

pub use line::{put_drained, put_line, write_line};
pub use records::{BufferText, Copies, CopiesText, FrameText, PageStateText, PhaseText, WordText};
pub use report::{
    Activity, BarrierLine, BitText, CycleLine, GlobalLine, HeadLine, PageLine, RegistersText,
    ThreadLine,
};
pub use steps::{ActorText, AnswerText, ReplyText};
