//! Why a member has no source.

use cm_base::{Diag, Fault, NoMemory};
use tool_deriving::DeriveFault;

/// Why a member has no source: a diagnostic, a failing folder, a failing tool, or want of memory.
#[derive(Debug, Drop)]
pub enum MemberFault {
    Diag(Diag),
    Folder,
    Tool,
    NoMemory,
}

impl From<NoMemory> for MemberFault {
    ghost use Rattle.std.specs.Prelude.{◌≡◌};
    ghost use Rattle.member_deriving.specs.declared.fault.MemberFault.TheVariants.{NoMemory as memory};

    ghost from_gives = { λ _ fault. fault ≡ memory };

    fn from(_error: NoMemory) -> Self {
        MemberFault::NoMemory
    }
}

impl From<Fault> for MemberFault {
    ghost use Rattle.std.specs.Prelude.{◌≡◌};
    ghost use Rattle.member_deriving.specs.Faults.{of_refusal};

    ghost from_gives = { λ error fault. fault ≡ of_refusal error };

    fn from(error: Fault) -> Self {
        match error {
            Fault::Diag(diag) => MemberFault::Diag(diag),
            Fault::NoMemory => MemberFault::NoMemory,
        }
    }
}

impl From<DeriveFault> for MemberFault {
    ghost use Rattle.std.specs.Prelude.{◌≡◌};
    ghost use Rattle.member_deriving.specs.Faults.{of_deriving};

    ghost from_gives = { λ error fault. fault ≡ of_deriving error };

    fn from(error: DeriveFault) -> Self {
        match error {
            DeriveFault::Folder => MemberFault::Folder,
            DeriveFault::Tool => MemberFault::Tool,
            DeriveFault::NoMemory => MemberFault::NoMemory,
        }
    }
}
