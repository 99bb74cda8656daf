//! The exceptions of a declaration.

ghost use Rattle.std.specs.Prelude.{◌≡◌, [], map, IfOk};
ghost use Rattle.semantic_objects.specs.declared.entry.ValueEntry.{ValueEntry};
ghost use Rattle.semantic_objects.specs.Tables.{names_of};
ghost use Rattle.sml_modules.specs.Graphs.{value_rows};
ghost use Rattle.bare_phrases.specs.PhraseOf.{ex_phrase};
ghost use Rattle.static_semantics.specs.Inferring.{Scope as Inner};
ghost use Rattle.static_semantics.specs.DatatypeInference.{exceptions_of};
ghost use Rattle.core_scopes.specs.Listed.{scope_rows};
ghost use Rattle.core_scopes.specs.Marks.{env_of_made};
ghost use Rattle.type_phrases.specs.Inferred.{Answers, IsScopeOver, scope_in};
ghost use Rattle.exception_bindings.specs.Exceptions.{AreVariables, IsNamed, entry_rows, env_of_values, may_bind};

use crate::entry::entry_of;
use crate::reserved::is_reserved_constructor;
use cm_base::{Fault, List, NoMemory};
use core_scopes::{Made, NamedInScope, Scope, ValueInScope};
use name_trails::NameTrail;
use sml_modules::{EnvGraph, NamedValue};
use sml_trees::{ExBind, Name};
use sml_types::TypeTable;
use std::alloc::Global;
use type_phrases::{place_of, refusal};

/// 34 at a name that no exception may have, 40 at one that an exception before has.
fn check_name(alloc: Global, g: &EnvGraph, names: &NameTrail<()>, name: &Name) -> Result<(), Fault>
    ensures { (inner : Inner) (made : List NamedValue) → inner.home ≡ g.now.home → IsNamed names.now made
        → Answers (may_bind inner name.now (env_of_values made)) (λ u. tt) result }
{
    if is_reserved_constructor(&name.text) {
        return Err(refusal(g, 34, place_of(name), List::new(alloc)));
    }
    match names.find(&name.text) {
        None => Ok(()),
        Some(_) => Err(refusal(g, 40, place_of(name), List::new(alloc))),
    }
}

/// The exceptions of a declaration, in written order.
pub(crate) fn exception_values<V: Copy + Drop>(
    alloc: Global,
    g: &EnvGraph,
    t: &mut TypeTable,
    scope: &Scope<V>,
    binds: &[ExBind],
) -> Result<List<NamedValue>, Fault>
    requires { IsScopeOver g.now t.old scope.now }
    ensures infers { (read : V → ValueEntry) → AreVariables read
        → Answers (exceptions_of (scope_in g.now t.old read scope.now) (map ex_phrase binds.now)) env_of_values result }
    ensures same { t.new ≡ t.old }
{
    let mut names = NameTrail::new(alloc);
    let mut made = List::new(alloc);
    for exception in binds {
        check_name(alloc, g, &names, &exception.name)?;
        let entry = entry_of(alloc, g, t, scope, &exception.body)?;
        let key = exception.name.text.copy()?;
        let name = exception.name.text.copy()?;
        names.bind(key, ())?;
        made.add(NamedValue { name, entry })?;
    }
    Ok(made)
}

/// Entries as values in scope.
fn in_scope<V: Copy + Drop>(
    alloc: Global,
    entries: List<NamedValue>,
) -> Result<List<NamedInScope<V>>, NoMemory>
    ensures { IfOk result (λ values. scope_rows values ≡ entry_rows entries) }
{
    let mut values = List::new(alloc);
    for named in entries.into_vec() {
        let NamedValue { name, entry } = named;
        let entry = ValueInScope::Entry(entry);
        values.add(NamedInScope { name, entry })?;
    }
    Ok(values)
}

/// What an `exception` declaration binds in a scope in which what the unit itself bound are variables. For each
/// exception in written order 34 at `true`, `false`, `nil`, `::`, `ref` and `it`, 40 at a name that an exception before
/// has, then: alone its type is `exn`, with a type an arrow from that to `exn`, of which nothing is closed; a copy has
/// the entry of the copied exception, 30 at a name that stands for no value, 34 there where it is no exception. The
/// table is as it was, whatever comes of it. The Definition of Standard ML (Revised), rules 20, 30 and 31.
pub fn elab_exceptions<V: Copy + Drop>(
    alloc: Global,
    g: &EnvGraph,
    t: &mut TypeTable,
    scope: &Scope<V>,
    binds: &[ExBind],
) -> Result<Made<V>, Fault>
    requires { IsScopeOver g.now t.old scope.now }
    ensures infers { (read : V → ValueEntry) → AreVariables read
        → Answers (exceptions_of (scope_in g.now t.old read scope.now) (map ex_phrase binds.now))
        (env_of_made g.now read) result }
    ensures structures { IfOk result (λ made. made.structures ≡ []) }
    ensures same { t.new ≡ t.old }
{
    let entries = exception_values(alloc, g, t, scope, binds)?;
    let values = in_scope(alloc, entries)?;
    let structures = List::new(alloc);
    let types = List::new(alloc);
    Ok(Made {
        structures,
        types,
        values,
    })
}
