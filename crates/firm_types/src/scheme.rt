//! Schemes that close nothing.

ghost use Rattle.std.specs.Prelude.{◌≡◌, [], true, IfOk};
ghost use Rattle.unification.specs.Types.{Ty};
ghost use Rattle.unification.specs.Closing.{closed_over};
ghost use Rattle.type_nodes.specs.Tables.{Has, state, whole};

use cm_base::{List, NoMemory};
use semantic_objects::{Scheme, TreePart, TyId};
use sml_types::TypeTable;
use std::alloc::Global;

/// The type that an id stands for, as a scheme that closes nothing: all its variables stay free. Shared parts stay
/// shared, so it is made in as many steps as nodes are reached.
pub fn open_scheme(alloc: Global, t: &mut TypeTable, id: TyId) -> Result<Scheme, NoMemory>
    requires { Has t.old id }
    ensures scheme { IfOk result (λ scheme.
        scheme ≡ record { marks = []; body = closed_over [] (whole t.old id) }) }
    ensures same { t.new ≡ t.old }
{
    let mut kept = List::new(alloc);
    kept.add(id)?;
    t.generalise(id, &kept)
}

/// Whether a variable of the table stands for itself.
pub(crate) fn stands_for_itself(
    alloc: Global,
    t: &mut TypeTable,
    number: usize,
) -> Result<bool, NoMemory>
    requires { Has t.old (TyId.Variable number) }
    ensures itself { IfOk result (λ itself. itself ≡ true → (state t.old).stands number ≡ Ty.Var number) }
    ensures same { t.new ≡ t.old }
{
    let scheme = open_scheme(alloc, t, TyId::Variable(number))?;
    match scheme.body().part(alloc)? {
        TreePart::Free(TyId::Variable(other)) => Ok(other == number),
        _ => Ok(false),
    }
}
