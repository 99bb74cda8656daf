//! Expressions in a scope.

ghost use Rattle.std.specs.Prelude.{map};
ghost use Rattle.bare_phrases.specs.PhraseOf.{exp_phrase, exp_field_phrase, exp_fields, rule_phrase, rules_of};
ghost use Rattle.core_rules.specs.Moments.{moment};
ghost use Rattle.core_rules.specs.Ready.{IsReadyAt, IsReadyUnder};
ghost use Rattle.core_scopes.specs.Marks.{IsFrontOf};
ghost use Rattle.core_elab.specs.Inside.{IsInside};
ghost use Rattle.core_rules.specs.Expressions.{IsExp, IsUnder, IsMatch, IsTypedRule, HasFirst, AreExpFields, IsExpField, AreLabelled};

use crate::declared::elab_entered;
use crate::ready::is_ready;
use cm_base::Fault;
use core_rules::{
    RuleType, apply, as_first, constrain, elab_char, elab_int, elab_long, elab_string,
    enter_variables, handle, make_record, match_type, nothing_made, place_of_exp, raise,
    rule_pattern, to_of,
};
use declaration_forms::end_let;
use name_trails::NameTrail;
use pattern_elab::{CoreScope, OwnVariable, sized};
use semantic_objects::TyId;
use sml_modules::EnvGraph;
use sml_trees::{Exp, ExpField, Rule};
use sml_types::TypeTable;
use std::alloc::Global;
use type_phrases::check_label;

/// The body of a `let`: how many type names the unit had made before it, and its type.
#[derive(Clone, Copy)]
pub(crate) struct LetBody {
    pub(crate) to: u64,
    pub(crate) id: TyId,
}

/// The type of an expression in a scope, which is left as it was. The first of 30 to 35, 37, 38, 40 and 41 is answered,
/// and then some of it may be known. The Definition of Standard ML (Revised), rules 1 to 14.
#[cycle(elab_in_scope)]
pub(crate) fn elab_in_scope(
    alloc: Global,
    g: &mut EnvGraph,
    t: &mut TypeTable,
    scope: &mut CoreScope,
    exp: &Exp,
) -> Result<TyId, Fault>
    requires { IsReadyAt (moment g.old t.old scope.old) }
    ensures { IsExp (moment g.old t.old scope.old) (exp_phrase exp.now) (moment g.new t.new scope.new) result }
{
    match exp {
        Exp::Int(_, at) => elab_int(alloc, g, t, *at),
        Exp::Str(_, at) => elab_string(alloc, g, t, *at),
        Exp::Char(_, at) => elab_char(alloc, g, t, *at),
        Exp::Long(long, at) => elab_long(alloc, g, t, scope, long, *at),
        Exp::Record(fields, at) => {
            let rows = elab_fields(alloc, g, t, scope, fields.as_slice())?;
            make_record(alloc, g, t, *at, &rows)
        }
        Exp::App(function, argument, at) => {
            let function = elab_in_scope(alloc, g, t, scope, function.get())?;
            is_ready(g, t, scope);
            let argument = elab_in_scope(alloc, g, t, scope, argument.get())?;
            apply(alloc, g, t, *at, function, argument)
        }
        Exp::Typed(inner, ty, at) => {
            let id = elab_in_scope(alloc, g, t, scope, inner.get())?;
            constrain(alloc, g, t, scope, *at, id, ty)
        }
        Exp::Handle(inner, rules, at) => {
            let id = elab_in_scope(alloc, g, t, scope, inner.get())?;
            is_ready(g, t, scope);
            let handler = elab_match(alloc, g, t, scope, rules.as_slice())?;
            handle(alloc, g, t, *at, id, handler)
        }
        Exp::Raise(inner, at) => {
            let id = elab_in_scope(alloc, g, t, scope, inner.get())?;
            raise(alloc, g, t, *at, id)
        }
        Exp::Fn(rules, at) => {
            let id = elab_match(alloc, g, t, scope, rules.as_slice())?;
            sized(alloc, g, t, *at, id)
        }
        Exp::Let(_, _, _) => elab_let(alloc, g, t, scope, exp),
    }
}

/// A `let`, in a scope, which is left as it was. Another expression is answered as want of memory is. The Definition of
/// Standard ML (Revised), rule 4.
#[cycle(elab_in_scope)]
fn elab_let(
    alloc: Global,
    g: &mut EnvGraph,
    t: &mut TypeTable,
    scope: &mut CoreScope,
    exp: &Exp,
) -> Result<TyId, Fault>
    requires { IsReadyAt (moment g.old t.old scope.old) }
    ensures { IsExp (moment g.old t.old scope.old) (exp_phrase exp.now) (moment g.new t.new scope.new) result }
{
    match exp {
        Exp::Let(_, _, at) => {
            let from = g.made();
            let before = scope.mark();
            let result = elab_inside(alloc, g, t, scope, exp);
            scope.leave(before);
            let inside = result?;
            end_let(alloc, g, t, *at, from, inside.to, inside.id)
        }
        _ => Err(Fault::NoMemory),
    }
}

/// The types of fields, by label: 40 at a label that an earlier field has.
#[cycle(elab_in_scope)]
fn elab_fields(
    alloc: Global,
    g: &mut EnvGraph,
    t: &mut TypeTable,
    scope: &mut CoreScope,
    fields: &[ExpField],
) -> Result<NameTrail<TyId>, Fault>
    requires { IsReadyAt (moment g.old t.old scope.old) }
    ensures { AreExpFields (moment g.old t.old scope.old) (exp_fields (map exp_field_phrase fields.now))
        (moment g.new t.new scope.new) result }
{
    let mut rows = NameTrail::new(alloc);
    for field in fields {
        is_ready(g, t, scope);
        elab_field(alloc, g, t, scope, field, &mut rows)?;
    }
    Ok(rows)
}

/// A field behind others.
#[cycle(elab_in_scope)]
fn elab_field(
    alloc: Global,
    g: &mut EnvGraph,
    t: &mut TypeTable,
    scope: &mut CoreScope,
    field: &ExpField,
    rows: &mut NameTrail<TyId>,
) -> Result<(), Fault>
    requires scope { IsReadyAt (moment g.old t.old scope.old) }
    requires rows { AreLabelled t.old rows.old }
    ensures { IsExpField (moment g.old t.old scope.old) (exp_field_phrase field.now) rows.old rows.new
        (moment g.new t.new scope.new) result }
{
    check_label(alloc, g, rows, &field.label)?;
    let id = elab_in_scope(alloc, g, t, scope, &field.exp)?;
    rows.bind(field.label.text.copy()?, id)?;
    Ok(())
}

/// A match: its type is an arrow from that of the first rule's pattern to that of its expression.
#[cycle(elab_in_scope)]
fn elab_match(
    alloc: Global,
    g: &mut EnvGraph,
    t: &mut TypeTable,
    scope: &mut CoreScope,
    rules: &[Rule],
) -> Result<TyId, Fault>
    requires { IsReadyAt (moment g.old t.old scope.old) }
    ensures { IsMatch (moment g.old t.old scope.old) (rules_of (map rule_phrase rules.now))
        (moment g.new t.new scope.new) result }
{
    let mut first = None;
    for rule in rules {
        is_ready(g, t, scope);
        first = Some(elab_rule(alloc, g, t, scope, first, rule)?);
    }
    match_type(t, first)
}

/// A rule of a match. Behind the first one its pattern and its expression get the types of the first one's.
#[cycle(elab_in_scope)]
fn elab_rule(
    alloc: Global,
    g: &mut EnvGraph,
    t: &mut TypeTable,
    scope: &mut CoreScope,
    first: Option<RuleType>,
    rule: &Rule,
) -> Result<RuleType, Fault>
    requires scope { IsReadyAt (moment g.old t.old scope.old) }
    requires first { HasFirst t.old first }
    ensures { IsTypedRule (moment g.old t.old scope.old) first (rule_phrase rule.now) (moment g.new t.new scope.new)
        result }
{
    let (from, bound) = rule_pattern(alloc, g, t, scope, first, &rule.pat)?;
    let exp = elab_under(alloc, g, t, scope, &bound, &rule.exp)?;
    let to = as_first(alloc, g, t, place_of_exp(&rule.exp), to_of(first), exp)?;
    Ok(RuleType { from, to })
}

/// An expression under the variables of a pattern, which are left again.
#[cycle(elab_in_scope)]
fn elab_under(
    alloc: Global,
    g: &mut EnvGraph,
    t: &mut TypeTable,
    scope: &mut CoreScope,
    bound: &NameTrail<OwnVariable>,
    exp: &Exp,
) -> Result<TyId, Fault>
    requires { IsReadyUnder (moment g.old t.old scope.old) bound.now }
    ensures { IsUnder (moment g.old t.old scope.old) bound.now (exp_phrase exp.now) (moment g.new t.new scope.new)
        result }
{
    let before = scope.mark();
    enter_variables(scope, bound)?;
    is_ready(g, t, scope);
    let result = elab_in_scope(alloc, g, t, scope, exp);
    scope.leave(before);
    result
}

/// The body of a `let` behind its declaration. What that made stays in scope. Another expression is answered as want of
/// memory is.
#[cycle(elab_in_scope)]
fn elab_inside(
    alloc: Global,
    g: &mut EnvGraph,
    t: &mut TypeTable,
    scope: &mut CoreScope,
    exp: &Exp,
) -> Result<LetBody, Fault>
    requires scope { IsReadyAt (moment g.old t.old scope.old) }
    requires front { IsFrontOf scope.old scope.old }
    ensures { IsInside (moment g.old t.old scope.old) (exp_phrase exp.now) (moment g.new t.new scope.new) result }
{
    match exp {
        Exp::Let(dec, body, _) => {
            let mut made = nothing_made(alloc);
            elab_entered(alloc, g, t, scope, dec.get(), &mut made)?;
            is_ready(g, t, scope);
            let to = g.made();
            let id = elab_in_scope(alloc, g, t, scope, body.get())?;
            Ok(LetBody { to, id })
        }
        _ => Err(Fault::NoMemory),
    }
}
