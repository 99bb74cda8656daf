//! Why a project wasn't planned.

use bin_store::StoreFault;
use cm_base::{Diag, Fault, NoMemory};

/// Why a step between loading and building ended without its answer: the first diagnostic, a failing folder, or want of
/// memory.
#[derive(Debug, Drop)]
pub enum PlanFault {
    Diag(Diag),
    Folder,
    NoMemory,
}

impl From<NoMemory> for PlanFault {
    ghost use Rattle.std.specs.Prelude.{◌≡◌};
    ghost use Rattle.skeleton_asking.specs.declared.fault.PlanFault.TheVariants.{NoMemory as memory};

    ghost from_gives = { λ _ fault. fault ≡ memory };

    fn from(_error: NoMemory) -> Self {
        PlanFault::NoMemory
    }
}

impl From<StoreFault> for PlanFault {
    ghost use Rattle.std.specs.Prelude.{◌≡◌};
    ghost use Rattle.skeleton_asking.specs.Faults.{of_store};

    ghost from_gives = { λ error fault. fault ≡ of_store error };

    fn from(error: StoreFault) -> Self {
        match error {
            StoreFault::Folder => PlanFault::Folder,
            StoreFault::NoMemory => PlanFault::NoMemory,
        }
    }
}

impl From<Fault> for PlanFault {
    ghost use Rattle.std.specs.Prelude.{◌≡◌};
    ghost use Rattle.skeleton_asking.specs.Faults.{of_fault};

    ghost from_gives = { λ error fault. fault ≡ of_fault error };

    fn from(error: Fault) -> Self {
        match error {
            Fault::Diag(diag) => PlanFault::Diag(diag),
            Fault::NoMemory => PlanFault::NoMemory,
        }
    }
}
