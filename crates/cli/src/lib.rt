//! The program's command line: reads a script, runs or checks it, and writes the output.
#![tactic(auto)]

mod asking;
mod running;
mod serving;

pub use asking::{AskFault, Asked, Mode, ask};
pub use running::not_opened;
pub use serving::serve;
