//! Why two types can't be made one.

use cm_base::NoMemory;
use semantic_objects::TyId;

/// Why a unification is refused: two types have symbols that differ, or rigid variables that do; a variable would stand
/// in its own type; a type that has to admit equality doesn't. The ids are those of the table where the two types don't
/// fit; what they stand for is undone with the rest.
#[derive(Clone, Copy, Debug, PartialEq, Eq)]
pub enum TypeFault {
    Clash(TyId, TyId),
    Circular(TyId, TyId),
    NotEquality(TyId),
    NoMemory,
}

impl From<NoMemory> for TypeFault {
    ghost use Rattle.std.specs.Prelude.{◌≡◌};
    ghost use Rattle.sml_types.specs.declared.fault.TypeFault.TheVariants.{NoMemory as memory};

    ghost from_gives = { λ _ fault. fault ≡ memory };

    fn from(_error: NoMemory) -> Self {
        TypeFault::NoMemory
    }
}
