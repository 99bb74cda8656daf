//! Why a project wasn't loaded whose members may be of tools' classes.

use cm_base::{Diag, Fault, NoMemory};
use loader_parts::ReadFault;
use member_deriving::MemberFault;

/// Why a project wasn't loaded: a diagnostic, a failing folder, a failing tool, or want of memory.
#[derive(Debug, Drop)]
pub enum LoadFault {
    Diag(Diag),
    Folder,
    Tool,
    NoMemory,
}

impl From<NoMemory> for LoadFault {
    ghost use Rattle.std.specs.Prelude.{◌≡◌};
    ghost use Rattle.group_loader.specs.declared.fault.LoadFault.TheVariants.{NoMemory as memory};

    ghost from_gives = { λ _ fault. fault ≡ memory };

    fn from(_error: NoMemory) -> Self {
        LoadFault::NoMemory
    }
}

impl From<Fault> for LoadFault {
    ghost use Rattle.std.specs.Prelude.{◌≡◌};
    ghost use Rattle.group_loader.specs.Answers.{of_refusal};

    ghost from_gives = { λ error fault. fault ≡ of_refusal error };

    fn from(error: Fault) -> Self {
        match error {
            Fault::Diag(diag) => LoadFault::Diag(diag),
            Fault::NoMemory => LoadFault::NoMemory,
        }
    }
}

impl From<ReadFault> for LoadFault {
    ghost use Rattle.std.specs.Prelude.{◌≡◌};
    ghost use Rattle.group_loader.specs.Answers.{of_plain};

    ghost from_gives = { λ error fault. fault ≡ of_plain error };

    fn from(error: ReadFault) -> Self {
        match error {
            ReadFault::Diag(diag) => LoadFault::Diag(diag),
            ReadFault::Folder => LoadFault::Folder,
            ReadFault::NoMemory => LoadFault::NoMemory,
        }
    }
}

impl From<MemberFault> for LoadFault {
    ghost use Rattle.std.specs.Prelude.{◌≡◌};
    ghost use Rattle.group_loader.specs.Answers.{of_member};

    ghost from_gives = { λ error fault. fault ≡ of_member error };

    fn from(error: MemberFault) -> Self {
        match error {
            MemberFault::Diag(diag) => LoadFault::Diag(diag),
            MemberFault::Folder => LoadFault::Folder,
            MemberFault::Tool => LoadFault::Tool,
            MemberFault::NoMemory => LoadFault::NoMemory,
        }
    }
}
