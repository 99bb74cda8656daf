//! `exception` specifications.

ghost use Rattle.std.specs.Prelude.{◌≡◌, [], map, IfOk, OnOk};
ghost use Rattle.std.specs.Option.{option_map};
ghost use Rattle.semantic_objects.specs.Trees.{BindsBelow};
ghost use Rattle.semantic_objects.specs.declared.entry.ValueEntry.{ValueEntry};
ghost use Rattle.unification.specs.Closing.{closed_over};
ghost use Rattle.type_nodes.specs.Tables.{Table};
ghost use Rattle.bare_phrases.specs.PhraseOf.{ty_phrase, con_phrase};
ghost use Rattle.static_semantics.specs.BasicTypes.{exn_ty};
ghost use Rattle.core_scopes.specs.Scopes.{IsScopeOf};
ghost use Rattle.type_phrases.specs.Inferred.{Answers, KeepsTypes, scope_in};
ghost use Rattle.type_phrases.specs.Steps.{OnlyMakes};
ghost use Rattle.module_semantics.specs.SignatureInference.{infer_exception_specs};
ghost use Rattle.signature_specs.specs.Specs.{signature_so_far, IsFrontOf};
ghost use Rattle.signature_specs.specs.Steps.{infer_exception, exception_with, open_exception};

use crate::specified::{Specified, specify_value};
use crate::under::type_under;
use cm_base::{Fault, List, NoMemory};
use core_scopes::Scope;
use listed_types::closed_over_list;
use name_trails::NameTrail;
use pattern_elab::exn_type;
use semantic_objects::{Scheme, TreePart, TypeTree, ValueEntry, VidStatus};
use sml_modules::EnvGraph;
use sml_trees::{ConBind, Ty};
use sml_types::TypeTable;
use std::alloc::Global;

/// `exn`, as a tree. The table may have types more then.
fn make_exn(alloc: Global, t: &mut TypeTable) -> Result<TypeTree, NoMemory>
    ensures tree { IfOk result (λ tree. tree ≡ closed_over [] exn_ty) }
    ensures ids { KeepsTypes t.old t.new }
{
    let exn = exn_type(alloc, t)?;
    let tree = closed_over_list(alloc, t, 0, 0, exn)?;
    Ok(tree)
}

/// `exn`, as a tree.
fn exn_tree(alloc: Global, t: &mut TypeTable) -> Result<TypeTree, NoMemory>
    ensures tree { IfOk result (λ tree. tree ≡ closed_over [] exn_ty) }
    ensures same { t.new ≡ t.old }
{
    let before = t.mark();
    let made = make_exn(alloc, t);
    t.undo(&before);
    made
}

/// An exception of a type.
fn open_exception(alloc: Global, body: TypeTree) -> Result<ValueEntry, NoMemory>
    requires { BindsBelow 0 body }
    ensures { IfOk result (λ entry. entry ≡ open_exception body) }
{
    let marks = List::new(alloc);
    let scheme = Scheme::make(marks, body)?;
    let status = VidStatus::Exception;
    Ok(ValueEntry { status, scheme })
}

/// An exception with an argument. The scope is left as it was.
fn entry_with<V: Copy + Drop>(
    alloc: Global,
    g: &EnvGraph,
    t: &mut TypeTable,
    scope: &mut Scope<V>,
    ty: &Ty,
) -> Result<ValueEntry, Fault>
    requires { IsScopeOf g.now scope.old }
    ensures infers { (u : Table) (read : V → ValueEntry)
        → Answers (exception_with (scope_in g.now u read scope.old) (ty_phrase ty.now)) (λ entry. entry) result }
    ensures makes { OnlyMakes t.old t.new }
    ensures scope { scope.new ≡ scope.old }
{
    let none = NameTrail::new(alloc);
    let made = type_under(alloc, g, t, scope, &none, ty)?;
    let exn = exn_tree(alloc, t)?;
    let body = TypeTree::make(alloc, TreePart::Arrow(made.tree, exn))?;
    let entry = open_exception(alloc, body)?;
    Ok(entry)
}

/// The entry of an exception that is specified. The scope is left as it was.
fn entry_of<V: Copy + Drop>(
    alloc: Global,
    g: &EnvGraph,
    t: &mut TypeTable,
    scope: &mut Scope<V>,
    arg: &Option<Ty>,
) -> Result<ValueEntry, Fault>
    requires { IsScopeOf g.now scope.old }
    ensures infers { (u : Table) (read : V → ValueEntry)
        → Answers (infer_exception (scope_in g.now u read scope.old) (option_map ty_phrase arg.now)) (λ entry. entry)
        result }
    ensures makes { OnlyMakes t.old t.new }
    ensures scope { scope.new ≡ scope.old }
{
    match arg {
        Some(ty) => entry_with(alloc, g, t, scope, ty),
        None => {
            let exn = exn_tree(alloc, t)?;
            let entry = open_exception(alloc, exn)?;
            Ok(entry)
        }
    }
}

/// The exceptions of an `exception` specification in a scope, after what is specified so far. For each in written order
/// the type of its argument, in which no type variable is in scope, then 40 at a name that a value of the signature has
/// already. No name is refused for itself, and types are refused as `elab_ty` refuses them. The scope is left as it was,
/// and the table may have types more; after a refusal the signature is of no use.
/// The Definition of Standard ML (Revised), rules 72 and 83.
pub fn elab_exception_specs<V: Copy + Drop>(
    alloc: Global,
    g: &EnvGraph,
    t: &mut TypeTable,
    scope: &mut Scope<V>,
    cons: &[ConBind],
    made: &mut Specified,
) -> Result<(), Fault>
    requires { IsScopeOf g.now scope.old }
    ensures infers { (u : Table) (read : V → ValueEntry)
        → Answers (infer_exception_specs (scope_in g.now u read scope.old) (map con_phrase cons.now)
        (signature_so_far g.now made.old)) (λ done. signature_so_far g.now made.new) result }
    ensures makes { OnlyMakes t.old t.new }
    ensures scope { scope.new ≡ scope.old }
    ensures front { OnOk result (IsFrontOf made.old made.new) }
    ensures structures { OnOk result (made.new.structures ≡ made.old.structures) }
{
    for con in cons {
        let entry = entry_of(alloc, g, t, scope, &con.arg)?;
        specify_value(alloc, g, made, &con.name, entry)?;
    }
    Ok(())
}
