//! The page store: pages, the frames that are their memory, and allocation buffers.
#![tactic(auto)]

mod copies;
mod owned;
mod size;
mod sources;
mod store;
mod targets;

pub use copies::many;
pub use model::{Buffer, Page, PageState, Room};
pub use owned::{OwnedPage, Part};
pub use page_frames::{Frame, Frames};
pub use pieces::{Cutter, PieceGate, cut_off};
pub use size::PageSize;
pub use store::{Store, record_count};
pub use targets::{PageRun, Target};
