//! Expressions that are nonexpansive.

ghost use Rattle.std.specs.Prelude.{◌≡◌, false, map, IfOk};
ghost use Rattle.semantic_objects.specs.declared.entry.ValueEntry.{ValueEntry};
ghost use Rattle.bare_phrases.specs.PhraseOf.{exp_phrase, exp_field_phrase, exp_fields};
ghost use Rattle.static_semantics.specs.Inferring.{is_con};
ghost use Rattle.static_semantics.specs.Nonexpansive.{is_nonexpansive, are_nonexpansive};
ghost use Rattle.core_scopes.specs.Scopes.{seen, IsScopeOf};

use crate::constructs::constructs;
use cm_base::NoMemory;
use core_scopes::Scope;
use sml_modules::EnvGraph;
use sml_trees::{Exp, ExpField};

/// Whether an expression is nonexpansive where these names are in scope: a constant, a name, a record of such, a
/// function, such with a type, or a constructor or an exception, other than one named `ref`, with such an argument. A
/// constructor is a name as it is, without a type around it. (The Definition of Standard ML, section 4.7.) The values
/// that the unit itself made must be variables.
#[cycle(is_nonexpansive)]
#[tactic(auto, using(crate::proofs::Forms::forms))]
pub fn is_nonexpansive<V: Copy + Drop>(
    g: &EnvGraph,
    scope: &Scope<V>,
    exp: &Exp,
) -> Result<bool, NoMemory>
    requires { IsScopeOf g.now scope.now }
    ensures { IfOk result (λ is. (read : V → ValueEntry) → ((own : V) → is_con (read own).status ≡ false)
        → is ≡ is_nonexpansive (seen g.now read scope.now) (exp_phrase exp.now)) }
{
    match exp {
        Exp::Int(_, _) | Exp::Str(_, _) | Exp::Char(_, _) | Exp::Long(_, _) | Exp::Fn(_, _) => {
            Ok(true)
        }
        Exp::Record(fields, _) => are_nonexpansive(g, scope, fields.as_slice()),
        Exp::App(function, argument, _) => {
            Ok(constructs(g, scope, function.get())? && is_nonexpansive(g, scope, argument.get())?)
        }
        Exp::Typed(exp, _, _) => is_nonexpansive(g, scope, exp.get()),
        Exp::Let(_, _, _) | Exp::Handle(_, _, _) | Exp::Raise(_, _) => Ok(false),
    }
}

#[cycle(is_nonexpansive)]
#[tactic(auto, using(crate::proofs::Forms::forms))]
fn are_nonexpansive<V: Copy + Drop>(
    g: &EnvGraph,
    scope: &Scope<V>,
    fields: &[ExpField],
) -> Result<bool, NoMemory>
    requires { IsScopeOf g.now scope.now }
    ensures { IfOk result (λ are. (read : V → ValueEntry) → ((own : V) → is_con (read own).status ≡ false)
        → are ≡ are_nonexpansive (seen g.now read scope.now) (exp_fields (map exp_field_phrase fields.now))) }
{
    for field in fields {
        if !is_nonexpansive(g, scope, &field.exp)? {
            return Ok(false);
        }
    }
    Ok(true)
}
