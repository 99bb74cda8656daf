//! Why a written path has no name.

use cm_base::NoMemory;

/// The number that refuses a written path, or want of memory.
#[derive(Debug, Drop)]
pub enum PathFault {
    Number(u8),
    NoMemory,
}

impl From<NoMemory> for PathFault {
    ghost use Rattle.std.specs.Prelude.{◌≡◌};
    ghost use Rattle.path_anchors.specs.declared.fault.PathFault.TheVariants.{NoMemory as memory};

    ghost from_gives = { λ _ fault. fault ≡ memory };

    fn from(_error: NoMemory) -> Self {
        PathFault::NoMemory
    }
}
