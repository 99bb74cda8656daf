//! The entries of exceptions.

ghost use Rattle.std.specs.Prelude.{◌≡◌, IfOk};
ghost use Rattle.semantic_objects.specs.declared.entry.ValueEntry.{ValueEntry};
ghost use Rattle.semantic_objects.specs.Environments.{values};
ghost use Rattle.type_nodes.specs.Tables.{Table, Has, whole, type_of, state};
ghost use Rattle.bare_phrases.specs.PhraseOf.{ty_phrase, ex_body_phrase};
ghost use Rattle.static_semantics.specs.BasicTypes.{exn_ty};
ghost use Rattle.static_semantics.specs.DatatypeInference.{exception_entry, exception_of};
ghost use Rattle.static_semantics.specs.DatatypeInference.{is_exception as is_of_exception};
ghost use Rattle.core_scopes.specs.Scopes.{IsScopeOf};
ghost use Rattle.type_phrases.specs.Inferred.{Answers, IsScopeOver, KeepsTypes, scope_in};
ghost use Rattle.exception_bindings.specs.Exceptions.{AreVariables, exception_with, exception_copied};

use cm_base::{Fault, List, NoMemory};
use core_scopes::{Scope, ValueInScope};
use firm_types::{check_firm, open_scheme};
use pattern_elab::exn_type;
use semantic_objects::{TyId, ValueEntry, VidStatus};
use sml_modules::EnvGraph;
use sml_trees::{At, ExBody, LongName, Ty};
use sml_types::TypeTable;
use std::alloc::Global;
use type_phrases::{elab_ty, refusal, unknown};

/// Whether this is the status of an exception.
fn is_exception(status: VidStatus) -> bool
    ensures { result ≡ is_of_exception status }
{
    match status {
        VidStatus::Variable => false,
        VidStatus::Constructor => false,
        VidStatus::Exception => true,
    }
}

/// An exception of the type that an id stands for.
fn entry_at(alloc: Global, t: &mut TypeTable, id: TyId) -> Result<ValueEntry, NoMemory>
    requires { Has t.old id }
    ensures entry { IfOk result (λ entry. entry ≡ exception_entry (whole t.old id)) }
    ensures same { t.new ≡ t.old }
{
    let scheme = open_scheme(alloc, t, id)?;
    let status = VidStatus::Exception;
    Ok(ValueEntry { status, scheme })
}

/// An exception without argument. The table may have types more then.
fn make_plain(alloc: Global, t: &mut TypeTable) -> Result<ValueEntry, NoMemory>
    ensures entry { IfOk result (λ entry. entry ≡ exception_entry exn_ty) }
    ensures ids { KeepsTypes t.old t.new }
{
    let exn = exn_type(alloc, t)?;
    entry_at(alloc, t, exn)
}

/// An exception without argument.
fn plain_entry(alloc: Global, t: &mut TypeTable) -> Result<ValueEntry, NoMemory>
    ensures entry { IfOk result (λ entry. entry ≡ exception_entry exn_ty) }
    ensures same { t.new ≡ t.old }
{
    let before = t.mark();
    let made = make_plain(alloc, t);
    t.undo(&before);
    made
}

/// An exception with an argument. The table may have types more then.
fn make_with<V: Copy + Drop>(
    alloc: Global,
    g: &EnvGraph,
    t: &mut TypeTable,
    scope: &Scope<V>,
    ty: &Ty,
) -> Result<ValueEntry, Fault>
    requires { IsScopeOver g.now t.old scope.now }
    ensures infers { (read : V → ValueEntry)
        → Answers (exception_with (scope_in g.now t.old read scope.now) (ty_phrase ty.now)) (λ entry. entry) result }
    ensures ids { KeepsTypes t.old t.new }
{
    check_firm(alloc, g, t, scope, ty)?;
    let argument = elab_ty(alloc, g, t, scope, ty)?;
    let exn = exn_type(alloc, t)?;
    let arrow = t.arrow(argument, exn)?;
    Ok(entry_at(alloc, t, arrow)?)
}

/// An exception with an argument.
fn entry_with<V: Copy + Drop>(
    alloc: Global,
    g: &EnvGraph,
    t: &mut TypeTable,
    scope: &Scope<V>,
    ty: &Ty,
) -> Result<ValueEntry, Fault>
    requires { IsScopeOver g.now t.old scope.now }
    ensures infers { (read : V → ValueEntry)
        → Answers (exception_with (scope_in g.now t.old read scope.now) (ty_phrase ty.now)) (λ entry. entry) result }
    ensures same { t.new ≡ t.old }
{
    let before = t.mark();
    let made = make_with(alloc, g, t, scope, ty);
    t.undo(&before);
    made
}

/// The entry of an exception in scope, as it is: 30 at a name that stands for no value, 34 there where the value is no
/// exception.
fn copied_entry<V: Copy + Drop>(
    alloc: Global,
    g: &EnvGraph,
    scope: &Scope<V>,
    long: &LongName,
) -> Result<ValueEntry, Fault>
    requires { IsScopeOf g.now scope.now }
    ensures { (t : Table) (read : V → ValueEntry) → AreVariables read
        → Answers (exception_copied (scope_in g.now t read scope.now) long.now) (λ entry. entry) result }
{
    let at = At {
        line: long.line,
        col: long.col,
    };
    let found = scope.find_long_value(g, long.parts.as_slice())?;
    match found {
        None => Err(unknown(alloc, g, long)),
        Some(ValueInScope::Own(_)) => Err(refusal(g, 34, at, List::new(alloc))),
        Some(ValueInScope::Entry(entry)) => {
            if is_exception(entry.status) {
                Ok(entry)
            } else {
                Err(refusal(g, 34, at, List::new(alloc)))
            }
        }
    }
}

/// The entry of an exception that is bound.
pub(crate) fn entry_of<V: Copy + Drop>(
    alloc: Global,
    g: &EnvGraph,
    t: &mut TypeTable,
    scope: &Scope<V>,
    body: &ExBody,
) -> Result<ValueEntry, Fault>
    requires { IsScopeOver g.now t.old scope.now }
    ensures infers { (read : V → ValueEntry) → AreVariables read
        → Answers (exception_of (scope_in g.now t.old read scope.now) (ex_body_phrase body.now)) (λ entry. entry) result }
    ensures same { t.new ≡ t.old }
{
    match body {
        ExBody::Plain => Ok(plain_entry(alloc, t)?),
        ExBody::Of(ty) => entry_with(alloc, g, t, scope, ty),
        ExBody::Copy(long) => copied_entry(alloc, g, scope, long),
    }
}
