//! The patterns of `rec` bindings.

ghost use Rattle.std.specs.Prelude.{◌≡◌, not, IfOk};
ghost use Rattle.bare_phrases.specs.PhraseOf.{pat_phrase};
ghost use Rattle.static_semantics.specs.Inferring.{refuses_where};
ghost use Rattle.static_semantics.specs.PatternInference.{pat_at};
ghost use Rattle.static_semantics.specs.CoreInference.{names_variable, is_variable};
ghost use Rattle.core_scopes.specs.Scopes.{IsScopeOf};
ghost use Rattle.type_phrases.specs.Inferred.{Answers};
ghost use Rattle.pattern_elab.specs.Scopes.{scope_of};

use cm_base::{Fault, NoMemory, Text};
use pattern_elab::{CoreScope, refuse, stands_for_con};
use sml_modules::EnvGraph;
use sml_trees::{At, Pat};
use std::alloc::Global;

/// Whether a long name is one part that doesn't stand for a constructor or an exception.
fn names_variable(g: &EnvGraph, scope: &CoreScope, parts: &[Text]) -> Result<bool, NoMemory>
    requires { IsScopeOf g.now scope.now }
    ensures { IfOk result (λ is. is ≡ names_variable (scope_of g.now scope.now).env parts.now) }
{
    match parts {
        [name] => Ok(!stands_for_con(g, scope, name)?),
        _ => Ok(false),
    }
}

/// Whether a pattern is a variable, with types or without.
#[cycle(is_variable)]
#[tactic(auto, using(bare_phrases::proofs::Forms::pat_forms))]
fn is_variable(g: &EnvGraph, scope: &CoreScope, pat: &Pat) -> Result<bool, NoMemory>
    requires { IsScopeOf g.now scope.now }
    ensures { IfOk result (λ is. is ≡ is_variable (scope_of g.now scope.now).env (pat_phrase pat.now)) }
{
    match pat {
        Pat::Long(long, _) => names_variable(g, scope, long.parts.as_slice()),
        Pat::Typed(inner, _, _) => is_variable(g, scope, inner.get()),
        Pat::Wild(_)
        | Pat::Int(_, _)
        | Pat::Str(_, _)
        | Pat::Char(_, _)
        | Pat::Record(_, _)
        | Pat::Con(_, _, _)
        | Pat::As(_, _, _, _) => Ok(false),
    }
}

/// The place of a pattern, that of its first word.
#[tactic(auto, using(bare_phrases::proofs::Forms::pat_forms))]
fn pattern_place(pat: &Pat) -> At
    ensures { result ≡ pat_at (pat_phrase pat.now) }
{
    match pat {
        Pat::Wild(at) => *at,
        Pat::Int(_, at) => *at,
        Pat::Str(_, at) => *at,
        Pat::Char(_, at) => *at,
        Pat::Long(_, at) => *at,
        Pat::Record(_, at) => *at,
        Pat::Con(_, _, at) => *at,
        Pat::Typed(_, _, at) => *at,
        Pat::As(_, _, _, at) => *at,
    }
}

/// 34 at the pattern of a `rec` binding that isn't a variable, with types or without. The Definition of Standard ML
/// (Revised), section 2.9.
pub(crate) fn check_recursive(
    alloc: Global,
    g: &EnvGraph,
    scope: &CoreScope,
    pat: &Pat,
) -> Result<(), Fault>
    requires { IsScopeOf g.now scope.now }
    ensures { Answers (refuses_where (not (is_variable (scope_of g.now scope.now).env (pat_phrase pat.now))) 34
        (scope_of g.now scope.now) (pat_at (pat_phrase pat.now))) (λ u. tt) result }
{
    if is_variable(g, scope, pat)? {
        Ok(())
    } else {
        Err(refuse(alloc, g, 34, pattern_place(pat)))
    }
}
