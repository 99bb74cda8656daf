//! Why no source was derived.

use bin_store::StoreFault;
use cm_base::{NoMemory, ToolFault};
use thiserror::Error;

/// Why a source of a member wasn't derived.
#[derive(Clone, Copy, Debug, PartialEq, Eq, Error)]
pub enum DeriveFault {
    #[error("the folder failed")]
    Folder,
    #[error("the tool failed")]
    Tool,
    #[error("out of memory")]
    NoMemory,
}

impl From<NoMemory> for DeriveFault {
    ghost use Rattle.std.specs.Prelude.{◌≡◌};
    ghost use Rattle.tool_deriving.specs.declared.fault.DeriveFault.TheVariants.{NoMemory as memory};

    ghost from_gives = { λ _ fault. fault ≡ memory };

    fn from(_error: NoMemory) -> Self {
        DeriveFault::NoMemory
    }
}

impl From<StoreFault> for DeriveFault {
    ghost use Rattle.std.specs.Prelude.{◌≡◌};
    ghost use Rattle.tool_deriving.specs.Faults.{of_store};

    ghost from_gives = { λ error fault. fault ≡ of_store error };

    fn from(error: StoreFault) -> Self {
        match error {
            StoreFault::Folder => DeriveFault::Folder,
            StoreFault::NoMemory => DeriveFault::NoMemory,
        }
    }
}

impl From<ToolFault> for DeriveFault {
    ghost use Rattle.std.specs.Prelude.{◌≡◌};
    ghost use Rattle.tool_deriving.specs.Faults.{of_tool};

    ghost from_gives = { λ error fault. fault ≡ of_tool error };

    fn from(error: ToolFault) -> Self {
        match error {
            ToolFault::Failed => DeriveFault::Tool,
            ToolFault::NoMemory => DeriveFault::NoMemory,
        }
    }
}
