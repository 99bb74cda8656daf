//! Why a project wasn't loaded.

use cm_base::{Diag, Fault, FolderFault, NoMemory};

/// Why a project wasn't loaded: a diagnostic, a failing folder, or want of memory.
#[derive(Debug, Drop)]
pub enum ReadFault {
    Diag(Diag),
    Folder,
    NoMemory,
}

impl From<NoMemory> for ReadFault {
    ghost use Rattle.std.specs.Prelude.{◌≡◌};
    ghost use Rattle.loader_parts.specs.declared.fault.ReadFault.TheVariants.{NoMemory as memory};

    ghost from_gives = { λ _ fault. fault ≡ memory };

    fn from(_error: NoMemory) -> Self {
        ReadFault::NoMemory
    }
}

impl From<FolderFault> for ReadFault {
    ghost use Rattle.std.specs.Prelude.{◌≡◌};
    ghost use Rattle.loader_parts.specs.Answers.{of_folder};

    ghost from_gives = { λ error fault. fault ≡ of_folder error };

    fn from(error: FolderFault) -> Self {
        match error {
            FolderFault::Failed => ReadFault::Folder,
            FolderFault::NoMemory => ReadFault::NoMemory,
        }
    }
}

impl From<Fault> for ReadFault {
    ghost use Rattle.std.specs.Prelude.{◌≡◌};
    ghost use Rattle.loader_parts.specs.Answers.{of_refusal};

    ghost from_gives = { λ error fault. fault ≡ of_refusal error };

    fn from(error: Fault) -> Self {
        match error {
            Fault::Diag(diag) => ReadFault::Diag(diag),
            Fault::NoMemory => ReadFault::NoMemory,
        }
    }
}
