//! Why a heap can't be made.

use model::ConfigFault;
use std::alloc::AllocError;
use thiserror::Error;

/// Why a heap can't be made.
#[derive(Debug, Drop, Error)]
pub enum NewFault {
    /// A field of the configuration is out of its range: the first such field.
    #[error("{0}")]
    Config(ConfigFault),
    /// Out of memory.
    #[error("out of memory")]
    Memory,
}

impl From<AllocError> for NewFault {
    ghost use Rattle.std.specs.Prelude.{◌≡◌};
    ghost use Rattle.heap.specs.declared.fault.NewFault.TheVariants.{Memory};

    ghost from_gives = { λ _ e. e ≡ Memory };

    fn from(_error: AllocError) -> NewFault {
        NewFault::Memory
    }
}
