//! The sizes of what a `val` makes.

ghost use Rattle.std.specs.Prelude.{◌≡◌, IfOk};
ghost use Rattle.unification.specs.Types.{Ty, put};
ghost use Rattle.type_nodes.specs.Tables.{state};
ghost use Rattle.static_semantics.specs.Inferring.{Scope, is_too_large, refuses_where};
ghost use Rattle.type_phrases.specs.Inferred.{Answers};
ghost use Rattle.closing_laws.specs.Variables.{any_too_large};
ghost use Rattle.value_closing.specs.Closings.{closings};

use crate::closing::ClosingVariable;
use cm_base::{Fault, NoMemory};
use pattern_elab::refuse;
use semantic_objects::TyId;
use sml_modules::EnvGraph;
use sml_trees::At;
use sml_types::TypeTable;
use std::alloc::Global;

/// Whether a variable's type has more than 65,536 nodes. A variable that the table doesn't have is refused as want of
/// memory is.
fn is_too_large(t: &mut TypeTable, number: usize) -> Result<bool, NoMemory>
    ensures large { IfOk result (λ large. large ≡ is_too_large (put (state t.old).stands (Ty.Var number))) }
    ensures same { t.new ≡ t.old }
{
    let id = TyId::Variable(number);
    if !t.has(id) {
        return Err(NoMemory);
    }
    Ok(t.sized(id)? > 65_536)
}

/// Whether the type of any of these variables has.
fn any_too_large(t: &mut TypeTable, variables: &[ClosingVariable]) -> Result<bool, NoMemory>
    ensures large { IfOk result (λ large. large ≡ any_too_large (state t.old) (closings variables.now)) }
    ensures same { t.new ≡ t.old }
{
    for variable in variables {
        if is_too_large(t, variable.number)? {
            return Ok(true);
        }
    }
    Ok(false)
}

/// 38 at a `val` where the type of one of its variables is too large. The table is as it was.
pub(crate) fn check_sizes(
    alloc: Global,
    g: &EnvGraph,
    t: &mut TypeTable,
    at: At,
    variables: &[ClosingVariable],
) -> Result<(), Fault>
    ensures answer { (inner : Scope) → inner.home ≡ g.now.home → Answers
        (refuses_where (any_too_large (state t.old) (closings variables.now)) 38 inner at) (λ u. tt) result }
    ensures same { t.new ≡ t.old }
{
    if any_too_large(t, variables)? {
        return Err(refuse(alloc, g, 38, at));
    }
    Ok(())
}
