//! Why a call on the store didn't do its work.

use cm_base::{FolderFault, NoMemory};
use thiserror::Error;

/// Why a call on the store didn't do its work.
#[derive(Clone, Copy, Debug, PartialEq, Eq, Error)]
pub enum StoreFault {
    #[error("the folder failed")]
    Folder,
    #[error("out of memory")]
    NoMemory,
}

impl From<NoMemory> for StoreFault {
    ghost use Rattle.std.specs.Prelude.{◌≡◌};
    ghost use Rattle.bin_store.specs.declared.fault.StoreFault.TheVariants.{NoMemory as memory};

    ghost from_gives = { λ _ fault. fault ≡ memory };

    fn from(_error: NoMemory) -> Self {
        StoreFault::NoMemory
    }
}

impl From<FolderFault> for StoreFault {
    ghost use Rattle.std.specs.Prelude.{◌≡◌};
    ghost use Rattle.bin_store.specs.Faults.{fault_of};

    ghost from_gives = { λ error fault. fault ≡ fault_of error };

    fn from(error: FolderFault) -> Self {
        match error {
            FolderFault::Failed => StoreFault::Folder,
            FolderFault::NoMemory => StoreFault::NoMemory,
        }
    }
}
