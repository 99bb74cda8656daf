//! `datatype` specifications.

ghost use Rattle.std.specs.Prelude.{◌≡◌, ◌∷◌, ◌++◌, [], map, IfOk, OnOk};
ghost use Rattle.semantic_objects.specs.declared.entry.ValueEntry.{ValueEntry};
ghost use Rattle.type_nodes.specs.Tables.{Table};
ghost use Rattle.sml_modules.specs.Graphs.{type_rows};
ghost use Rattle.bare_phrases.specs.PhraseOf.{con_phrase, dat_phrase};
ghost use Rattle.static_semantics.specs.Inferring.{Scope as Inner};
ghost use Rattle.core_scopes.specs.Scopes.{IsScopeOf};
ghost use Rattle.core_scopes.specs.Marks.{value_rows};
ghost use Rattle.datatype_elab.specs.Leaving.{MakesNames};
ghost use Rattle.type_phrases.specs.Inferred.{Answers, KeepsTypes, progress, scope_in};
ghost use Rattle.module_semantics.specs.SignatureInference.{infer_datatype_specs, names_of_types, specified_cons, specified_types};
ghost use Rattle.signature_specs.specs.Specs.{signature_so_far, IsFrontOf};
ghost use Rattle.datatype_specs.specs.Steps.{env_of_new, specified_con, specified_type};

use crate::entries::{add_types, add_values};
use cm_base::{Fault, List, NoMemory};
use core_scopes::{Made, Scope};
use datatype_elab::datatypes_in;
use env_parts::{copy_type, copy_value};
use function_forms::alone;
use name_trails::NameTrail;
use semantic_objects::{TyName, TypeStr, ValueEntry};
use signature_specs::{Specified, specify_type, specify_value};
use sml_modules::EnvGraph;
use sml_trees::{ConBind, DatBind};
use sml_types::TypeTable;
use std::alloc::Global;

/// What datatypes make, by name.
#[derive(Drop)]
struct NewTypes {
    types: NameTrail<TypeStr>,
    values: NameTrail<ValueEntry>,
}

/// What datatypes made, by name.
fn by_name<V: Drop>(alloc: Global, made: Made<V>) -> Result<NewTypes, NoMemory>
    ensures types { IfOk result (λ new. new.types ≡ type_rows made.types) }
    ensures values { IfOk result (λ new. (read : V → ValueEntry) → new.values ≡ value_rows read made.values) }
{
    let Made { types, values, .. } = made;
    let mut new = NewTypes {
        types: NameTrail::new(alloc),
        values: NameTrail::new(alloc),
    };
    add_types(&mut new.types, types)?;
    add_values(&mut new.values, values)?;
    Ok(new)
}

/// Adds the type name of a type, if there is such a type and it is a name alone.
fn add_name(bound: &mut List<TyName>, new: &NewTypes, bind: &DatBind) -> Result<(), NoMemory>
    ensures { OnOk result (bound.new ≡ bound.old ++ names_of_types (dat_phrase bind.now ∷ []) (env_of_new new.now)) }
{
    if let Some(entry) = new.types.find(&bind.name.text) {
        if let Some(name) = alone(&entry.function)? {
            bound.add(name.copy()?)?;
        }
    }
    Ok(())
}

/// Adds the type names of datatypes, in written order.
fn add_names(bound: &mut List<TyName>, new: &NewTypes, binds: &[DatBind]) -> Result<(), NoMemory>
    ensures { OnOk result (bound.new ≡ bound.old ++ names_of_types (map dat_phrase binds.now) (env_of_new new.now)) }
{
    for bind in binds {
        add_name(bound, new, bind)?;
    }
    Ok(())
}

/// Specifies a constructor: 40 at a name that a value has already.
fn specify_con(
    alloc: Global,
    g: &EnvGraph,
    made: &mut Specified,
    new: &NewTypes,
    con: &ConBind,
) -> Result<(), Fault>
    ensures infers { (inner : Inner) → inner.home ≡ g.now.home
        → Answers (specified_con inner (con_phrase con.now) (env_of_new new.now) (signature_so_far g.now made.old))
        (λ u. signature_so_far g.now made.new) result }
    ensures front { OnOk result (IsFrontOf made.old made.new) }
    ensures structures { OnOk result (made.new.structures ≡ made.old.structures) }
{
    match new.values.find(&con.name.text) {
        Some(entry) => {
            let entry = copy_value(alloc, entry)?;
            specify_value(alloc, g, made, &con.name, entry)
        }
        None => Err(Fault::NoMemory),
    }
}

/// Specifies the constructors of a datatype, in written order.
fn specify_cons(
    alloc: Global,
    g: &EnvGraph,
    made: &mut Specified,
    new: &NewTypes,
    cons: &[ConBind],
) -> Result<(), Fault>
    ensures infers { (inner : Inner) → inner.home ≡ g.now.home
        → Answers (specified_cons inner (map con_phrase cons.now) (env_of_new new.now)
        (signature_so_far g.now made.old)) (λ u. signature_so_far g.now made.new) result }
    ensures front { OnOk result (IsFrontOf made.old made.new) }
    ensures structures { OnOk result (made.new.structures ≡ made.old.structures) }
{
    for con in cons {
        specify_con(alloc, g, made, new, con)?;
    }
    Ok(())
}

/// Specifies a type of some datatypes: 40 at a name that a type has already.
fn specify_name(
    alloc: Global,
    g: &EnvGraph,
    made: &mut Specified,
    new: &NewTypes,
    bind: &DatBind,
) -> Result<(), Fault>
    ensures infers { (inner : Inner) → inner.home ≡ g.now.home
        → Answers (specified_type inner (dat_phrase bind.now) (env_of_new new.now) (signature_so_far g.now made.old))
        (λ u. signature_so_far g.now made.new) result }
    ensures front { OnOk result (IsFrontOf made.old made.new) }
    ensures structures { OnOk result (made.new.structures ≡ made.old.structures) }
{
    match new.types.find(&bind.name.text) {
        Some(entry) => {
            let entry = copy_type(alloc, entry)?;
            specify_type(alloc, g, made, &bind.name, entry)
        }
        None => Err(Fault::NoMemory),
    }
}

/// Specifies datatypes, in written order: the type of each, then its constructors.
fn specify_datatypes(
    alloc: Global,
    g: &EnvGraph,
    made: &mut Specified,
    new: &NewTypes,
    binds: &[DatBind],
) -> Result<(), Fault>
    ensures infers { (inner : Inner) → inner.home ≡ g.now.home
        → Answers (specified_types inner (map dat_phrase binds.now) (env_of_new new.now)
        (signature_so_far g.now made.old)) (λ u. signature_so_far g.now made.new) result }
    ensures front { OnOk result (IsFrontOf made.old made.new) }
    ensures structures { OnOk result (made.new.structures ≡ made.old.structures) }
{
    for bind in binds {
        specify_name(alloc, g, made, new, bind)?;
        specify_cons(alloc, g, made, new, bind.cons.as_slice())?;
    }
    Ok(())
}

/// The datatypes of a `datatype` specification in a scope, after what is specified so far. Everything is as
/// `datatypes_in` has it, though no name is refused for itself; then for each type in written order 40 at its name where
/// a type of the signature has it already, and for each of its constructors 40 at its name where a value has it. The
/// signature binds the names of the types. The scope is left as it was, and the table may have more; after a refusal the
/// signature is of no use, and the graph may have type names more that nothing has.
/// The Definition of Standard ML (Revised), rules 71, 81 and 82.
pub fn elab_datatype_specs<V: Copy + Drop>(
    alloc: Global,
    g: &mut EnvGraph,
    t: &mut TypeTable,
    scope: &mut Scope<V>,
    binds: &[DatBind],
    made: &mut Specified,
) -> Result<(), Fault>
    requires { IsScopeOf g.old scope.old }
    ensures infers { (u : Table) (read : V → ValueEntry)
        → Answers (infer_datatype_specs (scope_in g.old u read scope.old) (map dat_phrase binds.now)
        (signature_so_far g.old made.old) (progress t.old g.old))
        (λ done. (signature_so_far g.new made.new, progress t.new g.new)) result }
    ensures keeps { KeepsTypes t.old t.new }
    ensures names { MakesNames g.old g.new }
    ensures scope { scope.new ≡ scope.old }
    ensures front { OnOk result (IsFrontOf made.old made.new) }
    ensures structures { OnOk result (made.new.structures ≡ made.old.structures) }
{
    let part = datatypes_in(alloc, g, t, scope, &[], binds)?;
    let new = by_name(alloc, part)?;
    add_names(&mut made.bound, &new, binds)?;
    specify_datatypes(alloc, g, made, &new, binds)
}
