//! Constructors and exceptions in patterns.

ghost use Rattle.std.specs.Prelude.{◌≡◌, not, IfOk};
ghost use Rattle.unification.specs.Instances as schemes;
ghost use Rattle.type_nodes.specs.Tables.{Has, state};
ghost use Rattle.static_semantics.specs.Inferring.{refuses_where};
ghost use Rattle.static_semantics.specs.PatternInference as inference;
ghost use Rattle.core_scopes.specs.Scopes.{entry_of, AreHeld};
ghost use Rattle.type_phrases.specs.Inferred.{Answers, KeepsTypes, home_scope};
ghost use Rattle.pattern_elab.specs.Scopes.{own_entry, IsEnteredIn, StandsFor};
ghost use Rattle.pattern_elab.specs.Steps.{FindsSides};

use crate::own::{CoreScope, OwnVariable};
use crate::steps::refuse;
use crate::value::{has_con_status, instance};
use cm_base::Fault;
use core_scopes::ValueInScope;
use semantic_objects::{Symbol, TyId, TypeNode, TypeTree};
use sml_modules::EnvGraph;
use sml_trees::{At, LongName};
use sml_types::TypeTable;
use std::alloc::Global;

/// 34 at a place where a value is neither a constructor nor an exception.
pub(crate) fn check_con(
    alloc: Global,
    g: &EnvGraph,
    at: At,
    value: &ValueInScope<OwnVariable>,
) -> Result<(), Fault>
    ensures { Answers (inference.as_con (home_scope g.now) at (entry_of own_entry value.now)) (λ u. tt) result }
{
    if has_con_status(value) {
        Ok(())
    } else {
        Err(refuse(alloc, g, 34, at))
    }
}

/// Whether a type with this symbol is no function type.
fn is_no_arrow(symbol: &Symbol) -> bool
    ensures { result ≡ inference.is_no_arrow symbol.now }
{
    match symbol {
        Symbol::Arrow => false,
        Symbol::Record(_) => true,
        Symbol::Name(_) => true,
    }
}

/// Whether a constructor with a type of this form takes no argument.
fn tree_takes_none(body: &TypeTree) -> bool
    ensures { result ≡ inference.takes_none body.now }
{
    let nodes = body.nodes();
    let last = nodes.len() - 1;
    match &nodes[last] {
        TypeNode::Bound(_) => true,
        TypeNode::Free(_) => false,
        TypeNode::Made(symbol, _) => is_no_arrow(symbol),
    }
}

/// Whether a constructor takes no argument.
fn takes_none(value: &ValueInScope<OwnVariable>) -> bool
    ensures { result ≡ inference.takes_none (entry_of own_entry value.now).scheme.body }
{
    match value {
        ValueInScope::Entry(entry) => tree_takes_none(entry.scheme.body()),
        ValueInScope::Own(_) => false,
    }
}

/// 34 at a place where a constructor takes an argument.
pub(crate) fn check_none(
    alloc: Global,
    g: &EnvGraph,
    at: At,
    value: &ValueInScope<OwnVariable>,
) -> Result<(), Fault>
    ensures { Answers (refuses_where (not (inference.takes_none (entry_of own_entry value.now).scheme.body)) 34
        (home_scope g.now) at) (λ u. tt) result }
{
    if takes_none(value) {
        Ok(())
    } else {
        Err(refuse(alloc, g, 34, at))
    }
}

/// The type of the argument and that of the result of a constructor, in an instance of its type: 34 at a place where it
/// takes none.
pub(crate) fn sides_of(
    alloc: Global,
    g: &EnvGraph,
    t: &mut TypeTable,
    at: At,
    scope: &CoreScope,
    long: &LongName,
    value: &ValueInScope<OwnVariable>,
) -> Result<(TyId, TyId), Fault>
    requires entered { AreHeld (IsEnteredIn t.old) scope.now.values }
    requires named { StandsFor scope.now long.now value.now }
    ensures finds { FindsSides g.now at
        (inference.arrow_in (entry_of own_entry value.now).scheme.body
        (schemes.instance (entry_of own_entry value.now).scheme (state t.old)).0) result t.new }
    ensures state { IfOk result (λ sides.
        state t.new ≡ (schemes.instance (entry_of own_entry value.now).scheme (state t.old)).1) }
    ensures first { IfOk result (λ sides. Has t.new sides.0) }
    ensures second { IfOk result (λ sides. Has t.new sides.1) }
    ensures ids { KeepsTypes t.old t.new }
{
    let id = instance(t, scope, long, value)?;
    match t.sides(id) {
        Some(sides) => Ok(sides),
        None => Err(refuse(alloc, g, 34, at)),
    }
}
