//! Why a node isn't written.

use cm_base::NoMemory;
use std::alloc::AllocError;
use thiserror::Error;

/// Why a node isn't written.
#[derive(Clone, Copy, Debug, PartialEq, Eq, Error)]
pub enum WriteFault {
    #[error("more bytes than the limit")]
    TooLong,
    #[error("out of memory")]
    NoMemory,
}

impl From<NoMemory> for WriteFault {
    ghost use Rattle.std.specs.Prelude.{◌≡◌};
    ghost use Rattle.node_bytes.specs.declared.fault.WriteFault.TheVariants.{NoMemory as memory};

    ghost from_gives = { λ _ fault. fault ≡ memory };

    fn from(_error: NoMemory) -> Self {
        WriteFault::NoMemory
    }
}

impl From<AllocError> for WriteFault {
    ghost use Rattle.std.specs.Prelude.{◌≡◌};
    ghost use Rattle.node_bytes.specs.declared.fault.WriteFault.TheVariants.{NoMemory as memory};

    ghost from_gives = { λ _ fault. fault ≡ memory };

    fn from(_error: AllocError) -> Self {
        WriteFault::NoMemory
    }
}
