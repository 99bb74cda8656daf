//! Why a code isn't read.

use cm_base::NoMemory;
use thiserror::Error;

/// What ends the reading of a code.
#[derive(Clone, Copy, Debug, PartialEq, Eq, Error)]
pub enum CodeFault {
    #[error("the bytes are no code")]
    BadCode,
    #[error("out of memory")]
    NoMemory,
}

impl From<NoMemory> for CodeFault {
    ghost use Rattle.std.specs.Prelude.{◌≡◌};
    ghost use Rattle.sml_syntax.specs.declared.fault.CodeFault.TheVariants.{NoMemory as memory};

    ghost from_gives = { λ _ fault. fault ≡ memory };

    fn from(_error: NoMemory) -> Self {
        CodeFault::NoMemory
    }
}
