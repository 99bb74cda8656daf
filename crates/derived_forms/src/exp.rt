//! Expressions and declarations of the core.

ghost use Rattle.std.specs.Prelude.{◌≡◌, IfOk, map};
ghost use Rattle.bare_forms.specs.Expressions as spec;
ghost use Rattle.bare_forms.specs.Nodes as nodes;
ghost use Rattle.bare_forms.specs.Nodes.{applied_exp, joined_exp, missing_exp};
ghost use Rattle.bare_forms.specs.Runs.{run_of};
ghost use Rattle.bare_forms.specs.Types.{bare_ty};
ghost use Rattle.sml_trees.specs.declared.exp.Exp.TheVariants as bare;

use crate::part::{clause_of, datatypes_dec, exceptions_dec, place_of_exp, types_dec};
use bare_forms::held::{appended, pushed, with};
use bare_forms::name::copy_name;
use bare_forms::placed::{BareClause, CountedRule, PlacedExp};
use bare_forms::run::operator_of;
use cm_base::{List, NoMemory};
use expression_nodes::fun::fun_rule;
use expression_nodes::node::{
    and_also, case_exp, constant_exp, continued, handle_exp, if_exp, let_exp, list_exp, named_exp,
    operand, or_else, raise_exp, run_exp, sequence_exp, tuple_exp, typed_exp, unit_exp, while_exp,
};
use expression_nodes::part::{fun_dec, local_dec, open_dec, replication_dec, val_dec};
use phrase_forms::pat::to_pat;
use phrase_forms::ty::to_ty;
use sml_trees::held::both;
use sml_trees::{
    At, Dec, Exp, ExpField, FullClause, FullDec, FullExp, FullExpField, FullExpItem, FullFunBind,
    FullRule, FullTy, FullValBind, Rule,
};
use std::alloc::Global;

/// An expression without derived forms.
#[cycle(to_exp)]
#[tactic(auto, using(bare_forms::proofs::ExpLevels::exp_forms))]
fn to_exp(alloc: Global, exp: &FullExp) -> Result<Exp, NoMemory>
    ensures { IfOk result (λ made. made ≡ (spec.bare_exp exp.now).exp) }
{
    match exp {
        FullExp::Constant(constant, at) => constant_exp(constant, *at),
        FullExp::Long(long, at) => named_exp(alloc, *at, &long.long),
        FullExp::Record(fields, at) => to_record(alloc, *at, fields.as_slice()),
        FullExp::Unit(at) => Ok(unit_exp(alloc, *at)),
        FullExp::Tuple(parts, at) => to_tuple(alloc, *at, parts.as_slice()),
        FullExp::Sequence(exps, at) => to_sequence_exp(alloc, *at, exps.as_slice()),
        FullExp::Paren(inner, _) => to_exp(alloc, inner.get()),
        FullExp::List(items, at) => to_list_exp(alloc, *at, items.as_slice()),
        FullExp::Let(decs, exps, at) => {
            let dec = to_sequence(alloc, *at, decs.as_slice())?;
            to_let(alloc, *at, exps.as_slice(), dec)
        }
        FullExp::Run(items, at) => to_run(alloc, *at, items.as_slice()),
        FullExp::Typed(inner, ty, at) => to_typed(alloc, *at, inner.get(), ty),
        FullExp::AndAlso(a, b, at) => to_and_also(alloc, *at, b.get(), to_exp(alloc, a.get())?),
        FullExp::OrElse(a, b, at) => to_or_else(alloc, *at, b.get(), to_exp(alloc, a.get())?),
        FullExp::Handle(inner, rules, at) => {
            to_handle(alloc, *at, rules.as_slice(), to_exp(alloc, inner.get())?)
        }
        FullExp::Raise(inner, at) => to_raise(alloc, *at, inner.get()),
        FullExp::If(a, b, c, at) => {
            let test = to_exp(alloc, a.get())?;
            let (test, first) = both(test, to_exp(alloc, b.get()))?;
            to_if(alloc, *at, c.get(), test, first)
        }
        FullExp::While(a, b, at) => to_while(alloc, *at, b.get(), to_exp(alloc, a.get())?),
        FullExp::Case(subject, rules, at) => {
            to_case(alloc, *at, rules.as_slice(), to_exp(alloc, subject.get())?)
        }
        FullExp::Fn(rules, at) => to_fn(alloc, *at, rules.as_slice()),
    }
}

/// An expression with its place.
#[cycle(to_exp)]
#[tactic(auto, using(bare_forms::proofs::ExpLevels::exp_whole))]
fn to_placed(alloc: Global, exp: &FullExp) -> Result<PlacedExp, NoMemory>
    ensures { IfOk result (λ made. made ≡ spec.bare_exp exp.now) }
{
    Ok(PlacedExp {
        at: place_of_exp(exp),
        exp: to_exp(alloc, exp)?,
    })
}

#[cycle(to_exp)]
fn to_exps(alloc: Global, exps: &[FullExp]) -> Result<Vec<PlacedExp>, NoMemory>
    ensures { IfOk result (λ made. made.items ≡ map spec.bare_exp exps.now) }
{
    let mut made = Vec::new(alloc);
    for exp in exps {
        let (before, exp) = both(made, to_placed(alloc, exp))?;
        made = pushed(before, exp)?;
    }
    Ok(made)
}

/// A tuple.
#[cycle(to_exp)]
fn to_tuple(alloc: Global, at: At, parts: &[FullExp]) -> Result<Exp, NoMemory>
    ensures { IfOk result (λ made. made ≡ nodes.tuple_exp at (map spec.bare_exp parts.now)) }
{
    tuple_exp(alloc, at, to_exps(alloc, parts)?)
}

/// Expressions one after another, of which the last gives the value.
#[cycle(to_exp)]
fn to_sequence_exp(alloc: Global, at: At, exps: &[FullExp]) -> Result<Exp, NoMemory>
    ensures { IfOk result (λ made. made ≡ nodes.sequence_exp at (map spec.bare_exp exps.now)) }
{
    sequence_exp(alloc, at, to_exps(alloc, exps)?)
}

/// A list in brackets.
#[cycle(to_exp)]
fn to_list_exp(alloc: Global, at: At, items: &[FullExp]) -> Result<Exp, NoMemory>
    ensures { IfOk result (λ made. made ≡ nodes.list_exp at (map spec.bare_exp items.now)) }
{
    list_exp(alloc, at, to_exps(alloc, items)?)
}

/// `let dec in exps end`
#[cycle(to_exp)]
fn to_let(alloc: Global, at: At, exps: &[FullExp], dec: Dec) -> Result<Exp, NoMemory>
    ensures { IfOk result (λ made. made ≡ bare.Let dec (nodes.body_exp at (map spec.bare_exp exps.now)) at) }
{
    let (dec, body) = both(dec, to_exps(alloc, exps))?;
    let_exp(alloc, at, dec, body)
}

/// `inner : ty`
#[cycle(to_exp)]
fn to_typed(alloc: Global, at: At, inner: &FullExp, ty: &FullTy) -> Result<Exp, NoMemory>
    ensures { IfOk result (λ made. made ≡ bare.Typed (spec.bare_exp inner.now).exp (bare_ty ty.now) at) }
{
    let (inner, ty) = both(to_exp(alloc, inner)?, to_ty(alloc, ty))?;
    typed_exp(alloc, at, inner, ty)
}

/// `first andalso second`, of which the second is still as it is written; and so below.
#[cycle(to_exp)]
fn to_and_also(alloc: Global, at: At, second: &FullExp, first: Exp) -> Result<Exp, NoMemory>
    ensures { IfOk result (λ made. made ≡ nodes.and_also at first (spec.bare_exp second.now).exp) }
{
    let (first, second) = both(first, to_exp(alloc, second))?;
    and_also(alloc, at, first, second)
}

/// `first orelse second`
#[cycle(to_exp)]
fn to_or_else(alloc: Global, at: At, second: &FullExp, first: Exp) -> Result<Exp, NoMemory>
    ensures { IfOk result (λ made. made ≡ nodes.or_else at first (spec.bare_exp second.now).exp) }
{
    let (first, second) = both(first, to_exp(alloc, second))?;
    or_else(alloc, at, first, second)
}

/// `inner handle rules`
#[cycle(to_exp)]
fn to_handle(alloc: Global, at: At, rules: &[FullRule], inner: Exp) -> Result<Exp, NoMemory>
    ensures { IfOk result (λ made. made ≡ bare.Handle inner (map spec.bare_rule rules.now) at) }
{
    let (inner, rules) = both(inner, to_rules(alloc, rules))?;
    handle_exp(alloc, at, inner, rules)
}

/// `raise inner`
#[cycle(to_exp)]
fn to_raise(alloc: Global, at: At, inner: &FullExp) -> Result<Exp, NoMemory>
    ensures { IfOk result (λ made. made ≡ bare.Raise (spec.bare_exp inner.now).exp at) }
{
    raise_exp(alloc, at, to_exp(alloc, inner)?)
}

/// `if test then first else second`
#[cycle(to_exp)]
fn to_if(alloc: Global, at: At, second: &FullExp, test: Exp, first: Exp) -> Result<Exp, NoMemory>
    ensures { IfOk result (λ made. made ≡ nodes.if_exp at test first (spec.bare_exp second.now).exp) }
{
    let ((test, first), second) = both((test, first), to_exp(alloc, second))?;
    if_exp(alloc, at, test, first, second)
}

/// `while test do body`
#[cycle(to_exp)]
fn to_while(alloc: Global, at: At, body: &FullExp, test: Exp) -> Result<Exp, NoMemory>
    ensures { IfOk result (λ made. made ≡ nodes.while_exp at test (spec.bare_exp body.now).exp) }
{
    let (test, body) = both(test, to_exp(alloc, body))?;
    while_exp(alloc, at, test, body)
}

/// `case subject of rules`
#[cycle(to_exp)]
fn to_case(alloc: Global, at: At, rules: &[FullRule], subject: Exp) -> Result<Exp, NoMemory>
    ensures { IfOk result (λ made. made ≡ nodes.case_exp at subject (map spec.bare_rule rules.now)) }
{
    let (subject, rules) = both(subject, to_rules(alloc, rules))?;
    case_exp(alloc, at, subject, rules)
}

/// A record.
#[cycle(to_exp)]
fn to_record(alloc: Global, at: At, fields: &[FullExpField]) -> Result<Exp, NoMemory>
    ensures { IfOk result (λ made. made ≡ bare.Record (map spec.bare_field fields.now) at) }
{
    let mut made = List::new(alloc);
    for field in fields {
        let (before, field) = both(made, to_field(alloc, field))?;
        made = with(before, field)?;
    }
    Ok(Exp::Record(made, at))
}

/// A field of a record.
#[cycle(to_exp)]
#[tactic(auto, using(bare_forms::proofs::ExpLevels::field_form))]
fn to_field(alloc: Global, field: &FullExpField) -> Result<ExpField, NoMemory>
    ensures { IfOk result (λ made. made ≡ spec.bare_field field.now) }
{
    let exp = to_exp(alloc, &field.exp)?;
    let (exp, label) = both(exp, copy_name(&field.label))?;
    Ok(ExpField { label, exp })
}

/// What the parts of a run make.
#[cycle(to_exp)]
fn to_run(alloc: Global, at: At, items: &[FullExpItem]) -> Result<Exp, NoMemory>
    ensures { IfOk result
        (λ made. made ≡ (run_of joined_exp applied_exp (missing_exp at) (map spec.bare_item items.now)).exp) }
{
    let mut before = Vec::new(alloc);
    let mut begun = None;
    for item in items {
        match item {
            FullExpItem::Atom(exp) => {
                let ((run, function), exp) = both((before, begun), to_placed(alloc, exp))?;
                let (run, exp) = both(run, continued(alloc, function, exp))?;
                before = run;
                begun = Some(exp);
            }
            FullExpItem::Operator(name, fixity) => {
                let ((run, last), operator) = both((before, begun), operator_of(name, *fixity))?;
                before = pushed(run, (operand(alloc, at, last), operator))?;
                begun = None;
            }
        }
    }
    run_exp(alloc, at, before, begun)
}

/// A function.
#[cycle(to_exp)]
fn to_fn(alloc: Global, at: At, rules: &[FullRule]) -> Result<Exp, NoMemory>
    ensures { IfOk result (λ made. made ≡ bare.Fn (map spec.bare_rule rules.now) at) }
{
    Ok(Exp::Fn(to_rules(alloc, rules)?, at))
}

#[cycle(to_exp)]
fn to_rules(alloc: Global, rules: &[FullRule]) -> Result<List<Rule>, NoMemory>
    ensures { IfOk result (λ made. made ≡ map spec.bare_rule rules.now) }
{
    let mut made = List::new(alloc);
    for rule in rules {
        let (before, rule) = both(made, to_rule(alloc, rule))?;
        made = with(before, rule)?;
    }
    Ok(made)
}

#[cycle(to_exp)]
#[tactic(auto, using(bare_forms::proofs::ExpLevels::rule_form))]
fn to_rule(alloc: Global, rule: &FullRule) -> Result<Rule, NoMemory>
    ensures { IfOk result (λ made. made ≡ spec.bare_rule rule.now) }
{
    let exp = to_exp(alloc, &rule.exp)?;
    let (exp, pat) = both(exp, to_pat(alloc, &rule.pat))?;
    let pat = pat.pat;
    Ok(Rule { pat, exp })
}

#[cycle(to_exp)]
fn to_clauses(alloc: Global, clauses: &[FullClause]) -> Result<Vec<BareClause>, NoMemory>
    ensures { IfOk result (λ made. made.items ≡ map spec.bare_clause clauses.now) }
{
    let mut made = Vec::new(alloc);
    for clause in clauses {
        let (before, clause) = both(made, to_clause(alloc, clause))?;
        made = pushed(before, clause)?;
    }
    Ok(made)
}

#[cycle(to_exp)]
#[tactic(auto, using(bare_forms::proofs::ExpLevels::clause_form))]
fn to_clause(alloc: Global, clause: &FullClause) -> Result<BareClause, NoMemory>
    ensures { IfOk result (λ made. made ≡ spec.bare_clause clause.now) }
{
    let body = to_placed(alloc, &clause.body)?;
    clause_of(alloc, &clause.head, &clause.ty, clause.at, body)
}

/// The functions of a `fun`.
#[cycle(to_exp)]
fn to_fun_binds(alloc: Global, binds: &[FullFunBind]) -> Result<List<Rule>, NoMemory>
    ensures { IfOk result (λ made. made ≡ map spec.bare_fun_bind binds.now) }
{
    let mut made = List::new(alloc);
    for bind in binds {
        let (before, function) = both(made, to_fun_bind(alloc, bind))?;
        made = with(before, function)?;
    }
    Ok(made)
}

/// A function of a `fun`.
#[cycle(to_exp)]
#[tactic(auto, using(bare_forms::proofs::ExpLevels::fun_bind_form))]
fn to_fun_bind(alloc: Global, bind: &FullFunBind) -> Result<Rule, NoMemory>
    ensures { IfOk result (λ made. made ≡ spec.bare_fun_bind bind.now) }
{
    let clauses = to_clauses(alloc, bind.clauses.as_slice())?;
    fun_rule(alloc, bind.at, clauses)
}

/// The bindings of a `val`.
#[cycle(to_exp)]
fn to_val_binds(alloc: Global, binds: &[FullValBind]) -> Result<Vec<CountedRule>, NoMemory>
    ensures { IfOk result (λ made. made.items ≡ map spec.bare_val_bind binds.now) }
{
    let mut made = Vec::new(alloc);
    for bind in binds {
        let (before, bind) = both(made, to_val_bind(alloc, bind))?;
        made = pushed(before, bind)?;
    }
    Ok(made)
}

/// A binding of a `val`.
#[cycle(to_exp)]
#[tactic(auto, using(bare_forms::proofs::ExpLevels::val_bind_form))]
fn to_val_bind(alloc: Global, bind: &FullValBind) -> Result<CountedRule, NoMemory>
    ensures { IfOk result (λ made. made ≡ spec.bare_val_bind bind.now) }
{
    let exp = to_exp(alloc, &bind.exp)?;
    let (exp, pat) = both(exp, to_pat(alloc, &bind.pat))?;
    let pat = pat.pat;
    Ok(CountedRule {
        recs: bind.recs,
        rule: Rule { pat, exp },
    })
}

/// Declarations one after another.
#[cycle(to_exp)]
fn to_sequence(alloc: Global, at: At, decs: &[FullDec]) -> Result<Dec, NoMemory>
    ensures { IfOk result (λ made. made ≡ spec.sequence_dec at (map spec.bare_dec decs.now)) }
{
    let mut made = Vec::new(alloc);
    for dec in decs {
        let (before, more) = both(made, to_dec(alloc, dec))?;
        made = appended(before, more)?;
    }
    Ok(Dec::Sequence(List::from_vec(made), at))
}

/// What a declaration becomes, none or one.
#[cycle(to_exp)]
#[tactic(auto, using(bare_forms::proofs::ExpLevels::dec_forms))]
pub fn to_dec(alloc: Global, dec: &FullDec) -> Result<List<Dec>, NoMemory>
    ensures { IfOk result (λ made. made ≡ (spec.bare_dec dec.now).decs) }
{
    match dec {
        FullDec::Val(tyvars, binds, at) => {
            val_dec(
                alloc,
                *at,
                tyvars.as_slice(),
                to_val_binds(alloc, binds.as_slice())?,
            )
        }
        FullDec::Fun(tyvars, binds, at) => {
            fun_dec(
                alloc,
                *at,
                tyvars.as_slice(),
                to_fun_binds(alloc, binds.as_slice())?,
            )
        }
        FullDec::Types(binds, at) => types_dec(alloc, *at, binds),
        FullDec::Datatypes(binds, at) => datatypes_dec(alloc, *at, binds),
        FullDec::Replication(name, long, at) => replication_dec(alloc, *at, name, long),
        FullDec::Exceptions(binds, at) => exceptions_dec(alloc, *at, binds),
        FullDec::Local(hidden, decs, at) => {
            let hidden = to_sequence(alloc, *at, hidden.as_slice())?;
            let (hidden, shown) = both(hidden, to_sequence(alloc, *at, decs.as_slice()))?;
            local_dec(alloc, *at, hidden, shown)
        }
        FullDec::Open(longs, at) => open_dec(alloc, *at, longs.as_slice()),
        FullDec::Infix(_, _, _) => Ok(List::new(alloc)),
        FullDec::Infixr(_, _, _) => Ok(List::new(alloc)),
        FullDec::Nonfix(_, _) => Ok(List::new(alloc)),
    }
}
