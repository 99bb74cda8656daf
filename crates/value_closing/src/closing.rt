//! The variables of a `val` one after another.

ghost use Rattle.std.specs.Prelude.{◌≡◌, ◌++◌, IfOk, OnOk};
ghost use Rattle.type_schemes.specs.Schemes.{HaveAll};
ghost use Rattle.pattern_elab.specs.Scopes.{bound_of};
ghost use Rattle.closing_laws.specs.Variables.{all_closing, variables_of};
ghost use Rattle.value_closing.specs.Groups.{own_rows, groups_of};
ghost use Rattle.value_closing.specs.Closings.{closings, id_where, ids_where};

use crate::group::{BoundGroup, BoundVariable};
use cm_base::{List, NoMemory, Text};
use semantic_objects::TyId;
use sml_types::TypeTable;
use std::alloc::Global;

/// A variable by its number in the table of types, and whether its type is closed.
#[derive(Drop)]
pub(crate) struct ClosingVariable {
    pub(crate) name: Text,
    pub(crate) number: usize,
    pub(crate) closes: bool,
}

/// Adds the variables of a binding.
fn add_all(
    all: &mut List<ClosingVariable>,
    closes: bool,
    variables: List<BoundVariable>,
) -> Result<(), NoMemory>
    ensures { OnOk result (closings all.new ≡ closings all.old ++ all_closing closes (bound_of (own_rows variables))) }
{
    for variable in variables.into_vec() {
        let BoundVariable { name, own } = variable;
        all.add(ClosingVariable {
            name,
            number: own.number,
            closes,
        })?;
    }
    Ok(())
}

/// The variables of all bindings.
pub(crate) fn all_variables(
    alloc: Global,
    groups: List<BoundGroup>,
) -> Result<List<ClosingVariable>, NoMemory>
    ensures { IfOk result (λ all. closings all ≡ variables_of (groups_of groups)) }
{
    let mut all = List::new(alloc);
    for group in groups.into_vec() {
        let BoundGroup { closes, variables } = group;
        add_all(&mut all, closes, variables)?;
    }
    Ok(all)
}

/// Adds the id of a variable where it is closed as one asks. One that the table doesn't have is refused as want of
/// memory is.
fn add_where(
    t: &TypeTable,
    ids: &mut List<TyId>,
    variable: &ClosingVariable,
    closes: bool,
) -> Result<(), NoMemory>
    requires { HaveAll t.now ids.old }
    ensures ids { OnOk result (ids.new ≡ ids.old ++ id_where closes variable.now) }
    ensures has { OnOk result (HaveAll t.now ids.new) }
{
    if variable.closes != closes {
        return Ok(());
    }
    let id = TyId::Variable(variable.number);
    if !t.has(id) {
        return Err(NoMemory);
    }
    ids.add(id)
}

/// The ids of those that are closed, or of those that aren't. A variable that the table doesn't have is refused as want
/// of memory is.
pub(crate) fn ids_where(
    alloc: Global,
    t: &TypeTable,
    variables: &[ClosingVariable],
    closes: bool,
) -> Result<List<TyId>, NoMemory>
    ensures ids { IfOk result (λ ids. ids ≡ ids_where closes variables.now) }
    ensures has { IfOk result (HaveAll t.now) }
{
    let mut ids = List::new(alloc);
    for variable in variables {
        add_where(t, &mut ids, variable, closes)?;
    }
    Ok(ids)
}
