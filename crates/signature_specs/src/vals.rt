//! `val` specifications.

ghost use Rattle.std.specs.Prelude.{◌≡◌, length, map, IfOk, OnOk};
ghost use Rattle.semantic_objects.specs.Trees.{BindsBelow};
ghost use Rattle.semantic_objects.specs.declared.entry.ValueEntry.{ValueEntry};
ghost use Rattle.type_nodes.specs.Tables.{Table};
ghost use Rattle.bare_phrases.specs.PhraseOf.{ty_phrase};
ghost use Rattle.core_scopes.specs.Scopes.{IsScopeOf};
ghost use Rattle.type_phrases.specs.Inferred.{Answers, KeepsTypes, progress, scope_in};
ghost use Rattle.module_semantics.specs.SigPhrases.{val_phrase};
ghost use Rattle.module_semantics.specs.SignatureInference.{infer_vals};
ghost use Rattle.signature_specs.specs.Specs.{signature_so_far, IsFrontOf};
ghost use Rattle.signature_specs.specs.Steps.{infer_val, closed_entry};

use crate::specified::{Specified, specify_value};
use crate::under::type_under;
use crate::variables::{marks_of, own_variables};
use cm_base::{Fault, NoMemory};
use core_scopes::Scope;
use name_trails::NameTrail;
use semantic_objects::{Scheme, TypeTree, ValueEntry, VidStatus};
use sml_modules::EnvGraph;
use sml_trees::{Ty, ValDesc};
use sml_types::TypeTable;
use std::alloc::Global;

/// A value whose type is closed over these variables.
fn closed_value(
    alloc: Global,
    own: &NameTrail<usize>,
    body: TypeTree,
) -> Result<ValueEntry, NoMemory>
    requires { BindsBelow (length own.now) body }
    ensures { IfOk result (λ entry. entry ≡ closed_entry own.now body) }
{
    let marks = marks_of(alloc, own)?;
    let scheme = Scheme::make(marks, body)?;
    let status = VidStatus::Variable;
    Ok(ValueEntry { status, scheme })
}

/// The entry of a value that is specified with a type. The scope is left as it was.
fn entry_of<V: Copy + Drop>(
    alloc: Global,
    g: &EnvGraph,
    t: &mut TypeTable,
    scope: &mut Scope<V>,
    ty: &Ty,
) -> Result<ValueEntry, Fault>
    requires { IsScopeOf g.now scope.old }
    ensures infers { (u : Table) (read : V → ValueEntry)
        → Answers (infer_val (scope_in g.now u read scope.old) (ty_phrase ty.now) (progress t.old g.now))
        (λ entry. (entry, progress t.new g.now)) result }
    ensures keeps { KeepsTypes t.old t.new }
    ensures scope { scope.new ≡ scope.old }
{
    let own = own_variables(alloc, g, t, ty)?;
    let made = type_under(alloc, g, t, scope, &own, ty)?;
    Ok(closed_value(alloc, &own, made.tree)?)
}

/// The values of a `val` specification in a scope, after what is specified so far. For each in written order its type,
/// in which its own type variables are in scope and no others; it is closed over them by their first places in the
/// source. Then 40 at a name that a value of the signature has already. It is refused as `elab_ty` refuses types. The
/// scope is left as it was, and the table may have types and variables more; after a refusal the signature is of no use.
/// The Definition of Standard ML (Revised), rules 68 and 79.
pub fn elab_vals<V: Copy + Drop>(
    alloc: Global,
    g: &EnvGraph,
    t: &mut TypeTable,
    scope: &mut Scope<V>,
    descs: &[ValDesc],
    made: &mut Specified,
) -> Result<(), Fault>
    requires { IsScopeOf g.now scope.old }
    ensures infers { (u : Table) (read : V → ValueEntry)
        → Answers (infer_vals (scope_in g.now u read scope.old) (map val_phrase descs.now)
        (signature_so_far g.now made.old) (progress t.old g.now))
        (λ done. (signature_so_far g.now made.new, progress t.new g.now)) result }
    ensures keeps { KeepsTypes t.old t.new }
    ensures scope { scope.new ≡ scope.old }
    ensures front { OnOk result (IsFrontOf made.old made.new) }
    ensures structures { OnOk result (made.new.structures ≡ made.old.structures) }
{
    for desc in descs {
        let entry = entry_of(alloc, g, t, scope, &desc.ty)?;
        specify_value(alloc, g, made, &desc.name, entry)?;
    }
    Ok(())
}
