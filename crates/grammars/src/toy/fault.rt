//! Why a reading ends before its phrase is whole.

ghost use Rattle.grammars.specs.declared.toy.fault.Fault.TheVariants.{NoMemory};
ghost use Rattle.std.specs.Prelude.{◌≡◌};

use std::alloc::AllocFailed;

/// Why a reading ends before its phrase is whole.
#[derive(Debug, Drop)]
pub enum Fault {
    Refused,
    TooDeep,
    NoMemory,
}

impl<T: Drop> From<AllocFailed<T>> for Fault {
    ghost from_gives = { λ _ fault. fault ≡ NoMemory };

    fn from(_refused: AllocFailed<T>) -> Fault {
        Fault::NoMemory
    }
}
