//! The variables of a `val` as values with their schemes.

ghost use Rattle.std.specs.Prelude.{◌≡◌, ◌∷◌, ◌++◌, ℕ, [], map, reverse, true, IfOk};
ghost use Rattle.unification.specs.Closing.{kept_since, scheme_over};
ghost use Rattle.type_nodes.specs.Tables.{Has, state, whole};
ghost use Rattle.type_schemes.specs.Schemes.{scheme_since};
ghost use Rattle.core_scopes.specs.Listed.{scope_rows};
ghost use Rattle.value_closing.specs.Closings.{ids_where, entry_rows, IsValueBy};

use crate::closing::ClosingVariable;
use cm_base::{List, NoMemory};
use core_scopes::{NamedInScope, ValueInScope};
use pattern_elab::OwnVariable;
use semantic_objects::{Scheme, TyId, ValueEntry, VidStatus};
use sml_types::TypeTable;
use std::alloc::Global;

/// The list the other way round.
fn reversed(schemes: List<Scheme>) -> List<Scheme>
    ensures { result ≡ reverse schemes }
{
    let mut items = schemes.into_vec();
    items.reverse();
    List::from_vec(items)
}

/// The scheme of a variable's type in which nothing is closed. A variable that the table doesn't have is refused as
/// want of memory is.
fn open_scheme(alloc: Global, t: &mut TypeTable, number: usize) -> Result<Scheme, NoMemory>
    ensures scheme { IfOk result (λ scheme.
        scheme ≡ scheme_over [] (state t.old).marks (whole t.old (TyId.Variable number))) }
    ensures same { t.new ≡ t.old }
{
    let id = TyId::Variable(number);
    if !t.has(id) {
        return Err(NoMemory);
    }
    let mut kept = List::new(alloc);
    kept.add(id)?;
    Ok(t.generalise(id, &kept)?)
}

/// The value of a variable: its scheme is the last one that is left where it is closed.
fn value_by(
    alloc: Global,
    t: &mut TypeTable,
    variable: ClosingVariable,
    left: &mut List<Scheme>,
) -> Result<NamedInScope<OwnVariable>, NoMemory>
    ensures value { IfOk result (IsValueBy t.old variable left.old left.new) }
    ensures same { t.new ≡ t.old }
{
    let ClosingVariable {
        name,
        number,
        closes,
    } = variable;
    let scheme = if closes {
        match left.pop() {
            Some(scheme) => scheme,
            None => return Err(NoMemory),
        }
    } else {
        open_scheme(alloc, t, number)?
    };
    let status = VidStatus::Variable;
    Ok(NamedInScope {
        name,
        entry: ValueInScope::Entry(ValueEntry { status, scheme }),
    })
}

/// The values of variables, by the schemes of those that are closed in their order.
pub(crate) fn values_by(
    alloc: Global,
    t: &mut TypeTable,
    variables: List<ClosingVariable>,
    schemes: List<Scheme>,
) -> Result<List<NamedInScope<OwnVariable>>, NoMemory>
    ensures values { IfOk result (λ values. (n : ℕ) → schemes ≡ map (scheme_since t.old n) (ids_where true variables)
        → scope_rows values ≡ entry_rows (kept_since n (state t.old).stands) (state t.old) variables) }
    ensures same { t.new ≡ t.old }
{
    let mut left = reversed(schemes);
    let mut values = List::new(alloc);
    for variable in variables.into_vec() {
        values.add(value_by(alloc, t, variable, &mut left)?)?;
    }
    Ok(values)
}
