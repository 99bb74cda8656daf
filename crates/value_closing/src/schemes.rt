//! The schemes of values are entered into the table.

ghost use Rattle.std.specs.Prelude.{◌≡◌, IfOk, IsTrue, OnOk};
ghost use Rattle.type_nodes.specs.Tables.{state};
ghost use Rattle.sml_modules.specs.Items.{map_rows};
ghost use Rattle.core_scopes.specs.Scopes.{entry_of, value_of, AreHeld};
ghost use Rattle.core_scopes.specs.Listed.{bound_rows, scope_rows};
ghost use Rattle.type_phrases.specs.Inferred.{KeepsTypes};
ghost use Rattle.pattern_elab.specs.Scopes.{own_entry, IsEnteredIn, MayBeEntered};
ghost use Rattle.value_closing.specs.Under.{HasScheme, IsGiven};

use cm_base::{List, NoMemory};
use core_scopes::{BoundValue, NamedBound, NamedInScope, ValueInScope};
use pattern_elab::OwnVariable;
use sml_types::{TableScheme, TypeTable};
use std::alloc::Global;

/// What the table has of the scheme of a value from now on: nothing of a variable that a pattern bound. A scheme in which
/// a variable is free that the table doesn't have is refused as want of memory is.
fn entered_of(
    t: &mut TypeTable,
    value: &ValueInScope<OwnVariable>,
) -> Result<Option<TableScheme>, NoMemory>
    ensures entered { IfOk result (MayBeEntered t.new (entry_of own_entry value.now).scheme) }
    ensures given { IfOk result (HasScheme value.now) }
    ensures state { state t.new ≡ state t.old }
    ensures kept { KeepsTypes t.old t.new }
{
    match value {
        ValueInScope::Entry(entry) => Ok(Some(t.enter(&entry.scheme)?)),
        ValueInScope::Own(_) => Ok(None),
    }
}

/// A value as it is bound, with its scheme in the table where that is asked for, or refused for it.
fn bound_value(
    t: &mut TypeTable,
    value: ValueInScope<OwnVariable>,
    with_schemes: bool,
) -> Result<BoundValue<OwnVariable>, NoMemory>
    ensures value { IfOk result (λ bound. bound.value ≡ value) }
    ensures entered { IfOk result (IsEnteredIn t.new) }
    ensures given { IsTrue with_schemes → IfOk result IsGiven }
    ensures state { state t.new ≡ state t.old }
    ensures kept { KeepsTypes t.old t.new }
{
    let scheme = if with_schemes {
        entered_of(t, &value)?
    } else {
        None
    };
    Ok(BoundValue { value, scheme })
}

/// Values as they are bound, with what the table has of their schemes where that is asked for, or refused for one.
pub(crate) fn bound_values(
    alloc: Global,
    t: &mut TypeTable,
    values: List<NamedInScope<OwnVariable>>,
    with_schemes: bool,
) -> Result<List<NamedBound<OwnVariable>>, NoMemory>
    ensures rows { IfOk result (λ bounds. map_rows value_of (bound_rows bounds) ≡ scope_rows values) }
    ensures entered { IfOk result (λ bounds. AreHeld (IsEnteredIn t.new) (bound_rows bounds)) }
    ensures given { IsTrue with_schemes → IfOk result (λ bounds. AreHeld IsGiven (bound_rows bounds)) }
    ensures state { OnOk result (state t.new ≡ state t.old) }
    ensures kept { KeepsTypes t.old t.new }
{
    let mut bounds = List::new(alloc);
    for named in values.into_vec() {
        let NamedInScope { name, entry } = named;
        let bound = bound_value(t, entry, with_schemes)?;
        bounds.add(NamedBound { name, bound })?;
    }
    Ok(bounds)
}
