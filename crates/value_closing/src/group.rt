//! The bindings of a `val`.

ghost use Rattle.std.specs.Prelude.{◌≡◌, ◌∷◌, ◌++◌, [], drop, IfOk, OnOk, OnErr};
ghost use Rattle.pattern_elab.specs.Scopes.{bound_of};
ghost use Rattle.value_closing.specs.Groups.{own_rows, groups_of};

use cm_base::{List, NoMemory, Text};
use name_trails::NameTrail;
use pattern_elab::OwnVariable;
use std::alloc::Global;

/// A variable that a binding binds.
#[derive(Drop)]
pub struct BoundVariable {
    pub name: Text,
    pub own: OwnVariable,
}

/// The variables of one binding in their order, and whether their types are closed: where its right side is
/// nonexpansive. The Definition of Standard ML (Revised), sections 4.7 and 4.8.
#[derive(Drop)]
pub struct BoundGroup {
    pub closes: bool,
    pub variables: List<BoundVariable>,
}

/// The variables of rows.
fn variables_in(
    alloc: Global,
    rows: &[(Text, OwnVariable)],
) -> Result<List<BoundVariable>, NoMemory>
    ensures { IfOk result (λ variables. own_rows variables ≡ rows.now) }
{
    let mut variables = List::new(alloc);
    for row in rows {
        variables.add(BoundVariable {
            name: row.0.copy()?,
            own: row.1,
        })?;
    }
    Ok(variables)
}

/// The rows from a place on.
pub(crate) fn rows_since(rows: &[(Text, OwnVariable)], start: usize) -> &[(Text, OwnVariable)]
    ensures { result.now ≡ drop start rows.now }
{
    if start <= rows.len() {
        rows.split_at(start).1
    } else {
        &[]
    }
}

/// One binding more, of the variables that were bound from a place on. Want of memory leaves the bindings as they were.
pub(crate) fn add_group(
    alloc: Global,
    groups: &mut List<BoundGroup>,
    closes: bool,
    bound: &NameTrail<OwnVariable>,
    start: usize,
) -> Result<(), NoMemory>
    ensures ok { OnOk result (groups_of groups.new ≡ groups_of groups.old ++ (closes, drop start (bound_of bound.now)) ∷ []) }
    ensures err { OnErr result (groups.new ≡ groups.old) }
{
    let variables = variables_in(alloc, rows_since(bound.rows(), start))?;
    groups.add(BoundGroup { closes, variables })?;
    Ok(())
}
