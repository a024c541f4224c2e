//! Views: read-only access to a managed heap, without steps. Nothing changes the heap meanwhile.
#![tactic(auto)]

mod handle;
pub mod places;
mod view;

pub use handle::Handle;
pub use view::View;
