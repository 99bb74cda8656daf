//! Why bytes aren't read as an interface.

use cm_base::NoMemory;
use cm_bytes::Short;
use std::alloc::{AllocError, AllocFailed};
use thiserror::Error;

/// Why bytes aren't read as an interface.
#[derive(Clone, Copy, Debug, PartialEq, Eq, Error)]
pub enum RestoreFault {
    #[error("not an interface")]
    BadInterface,
    #[error("out of memory")]
    NoMemory,
}

impl From<Short> for RestoreFault {
    ghost use Rattle.std.specs.Prelude.{◌≡◌};
    ghost use Rattle.interface_reading.specs.declared.fault.RestoreFault.TheVariants.{BadInterface as bad};

    ghost from_gives = { λ _ fault. fault ≡ bad };

    fn from(_short: Short) -> Self {
        RestoreFault::BadInterface
    }
}

impl From<NoMemory> for RestoreFault {
    ghost use Rattle.std.specs.Prelude.{◌≡◌};
    ghost use Rattle.interface_reading.specs.declared.fault.RestoreFault.TheVariants.{NoMemory as memory};

    ghost from_gives = { λ _ fault. fault ≡ memory };

    fn from(_error: NoMemory) -> Self {
        RestoreFault::NoMemory
    }
}

impl From<AllocError> for RestoreFault {
    ghost use Rattle.std.specs.Prelude.{◌≡◌};
    ghost use Rattle.interface_reading.specs.declared.fault.RestoreFault.TheVariants.{NoMemory as memory};

    ghost from_gives = { λ _ fault. fault ≡ memory };

    fn from(_error: AllocError) -> Self {
        RestoreFault::NoMemory
    }
}

impl<T: Drop> From<AllocFailed<T>> for RestoreFault {
    ghost use Rattle.std.specs.Prelude.{◌≡◌};
    ghost use Rattle.interface_reading.specs.declared.fault.RestoreFault.TheVariants.{NoMemory as memory};

    ghost from_gives = { λ _ fault. fault ≡ memory };

    fn from(_error: AllocFailed<T>) -> Self {
        RestoreFault::NoMemory
    }
}
