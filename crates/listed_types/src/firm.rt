//! Type phrases whose type names stand for functions without variables of a table. All functions in scope are such ones,
//! since a declaration closes what it binds; nothing in the form of a scope says so, and so it is looked at.

ghost use Rattle.std.specs.Prelude.{◌≡◌, map, true, not, IfOk};
ghost use Rattle.semantic_objects.specs.declared.entry.ValueEntry.{ValueEntry};
ghost use Rattle.semantic_objects.specs.Environments.{types};
ghost use Rattle.bare_phrases.specs.PhraseOf.{ty_phrase, ty_phrases, ty_field_phrase, ty_fields};
ghost use Rattle.static_semantics.specs.Inferring.{found_at};
ghost use Rattle.core_scopes.specs.Scopes.{seen, IsScopeOf};
ghost use Rattle.listed_types.specs.Firm.{any_free, is_firm_found, AreFirmArgs, AreFirmFields, FirmIn, Where};

use cm_base::NoMemory;
use core_scopes::Scope;
use semantic_objects::TypeNode;
use sml_modules::EnvGraph;
use sml_trees::{LongName, Ty, TyField};

/// Whether no node is a variable of a table.
fn has_no_free(nodes: &[TypeNode]) -> bool
    ensures { result ≡ not (any_free nodes.now) }
{
    for node in nodes {
        if let TypeNode::Free(_) = node {
            return false;
        }
    }
    true
}

/// Whether a type name stands for such a function, or for nothing.
fn is_firm_name<V: Copy + Drop>(
    g: &EnvGraph,
    scope: &Scope<V>,
    long: &LongName,
) -> Result<bool, NoMemory>
    requires { IsScopeOf g.now scope.now }
    ensures { IfOk result (λ is. Where is ((read : V → ValueEntry)
        → is_firm_found (found_at types long.now.parts (seen g.now read scope.now)) ≡ true)) }
{
    match scope.find_long_type_function(g, long.parts.as_slice())? {
        Some(function) => Ok(has_no_free(function.body.nodes())),
        None => Ok(true),
    }
}

/// Whether all type names of a phrase stand for such functions.
#[cycle(firm)]
pub(crate) fn is_firm<V: Copy + Drop>(
    g: &EnvGraph,
    scope: &Scope<V>,
    ty: &Ty,
) -> Result<bool, NoMemory>
    requires { IsScopeOf g.now scope.now }
    ensures { IfOk result (λ is. Where is (FirmIn g.now scope.now (ty_phrase ty.now))) }
{
    match ty {
        Ty::Var(_, _) => Ok(true),
        Ty::Record(fields, _) => are_firm_fields(g, scope, fields.as_slice()),
        Ty::Named(args, long, _) => {
            if is_firm_name(g, scope, long)? {
                are_firm_args(g, scope, args.as_slice())
            } else {
                Ok(false)
            }
        }
        Ty::Arrow(from, to, _) => {
            if is_firm(g, scope, from.get())? {
                is_firm(g, scope, to.get())
            } else {
                Ok(false)
            }
        }
    }
}

/// Whether all type names of fields do.
#[cycle(firm)]
fn are_firm_fields<V: Copy + Drop>(
    g: &EnvGraph,
    scope: &Scope<V>,
    fields: &[TyField],
) -> Result<bool, NoMemory>
    requires { IsScopeOf g.now scope.now }
    ensures { IfOk result (λ are. Where are ((read : V → ValueEntry)
        → AreFirmFields (seen g.now read scope.now) (ty_fields (map ty_field_phrase fields.now)))) }
{
    for field in fields {
        if !is_firm(g, scope, &field.ty)? {
            return Ok(false);
        }
    }
    Ok(true)
}

/// Whether all type names of arguments do.
#[cycle(firm)]
fn are_firm_args<V: Copy + Drop>(
    g: &EnvGraph,
    scope: &Scope<V>,
    args: &[Ty],
) -> Result<bool, NoMemory>
    requires { IsScopeOf g.now scope.now }
    ensures { IfOk result (λ are. Where are ((read : V → ValueEntry)
        → AreFirmArgs (seen g.now read scope.now) (ty_phrases (map ty_phrase args.now)))) }
{
    for arg in args {
        if !is_firm(g, scope, arg)? {
            return Ok(false);
        }
    }
    Ok(true)
}
