//! The heights of expressions and of declarations of the core.

ghost use Rattle.std.specs.Prelude.{◌≡◌, IfOk, map};
ghost use Rattle.bare_forms.specs.Runs.{run_of};
ghost use Rattle.tree_heights.specs.Heights.{highest};
ghost use Rattle.tree_heights.specs.NodeHeights as nodes;
ghost use Rattle.tree_heights.specs.NodeHeights.{joined_exp_height};
ghost use Rattle.tree_heights.specs.FullExpHeights as spec;

use crate::height::{above, highest_of};
use crate::height_head::{args_height, fun_of_height, head_heights, result_height};
use crate::height_node::{
    RunHeight, case_height, continued, exps_height, if_height, operand, sequence_height,
    while_height,
};
use crate::height_pat::pat_height;
use crate::height_ty::ty_height;
use bare_forms::run::{bind_all, operator_of};
use cm_base::NoMemory;
use sml_trees::{
    FullClause, FullDec, FullExp, FullExpField, FullExpItem, FullFunBind, FullRule, FullValBind,
};
use std::alloc::Global;

/// The height of what an expression becomes.
#[cycle(exp_height)]
#[tactic(auto, using(crate::proofs::ExpHeights::exp_forms))]
fn exp_height(alloc: Global, exp: &FullExp) -> Result<usize, NoMemory>
    ensures { IfOk result (λ made. made ≡ spec.full_exp exp.now) }
{
    match exp {
        FullExp::Constant(_, _) => Ok(1),
        FullExp::Long(_, _) => Ok(1),
        FullExp::Record(fields, _) => above(fields_height(alloc, fields.as_slice())?),
        FullExp::Unit(_) => Ok(1),
        FullExp::Tuple(parts, _) => above(highest_exp(alloc, parts.as_slice())?),
        FullExp::Sequence(exps, _) => sequence_height(exp_heights(alloc, exps.as_slice())?),
        FullExp::Paren(inner, _) => exp_height(alloc, inner.get()),
        FullExp::List(items, _) => exps_height(exp_heights(alloc, items.as_slice())?),
        FullExp::Let(decs, exps, _) => {
            let decs = above(decs_height(alloc, decs.as_slice())?)?;
            let body = sequence_height(exp_heights(alloc, exps.as_slice())?)?;
            above(decs.max(body))
        }
        FullExp::Run(items, _) => Ok(exp_run_height(alloc, items.as_slice())?.height),
        FullExp::Typed(inner, ty, _) => {
            let inner = exp_height(alloc, inner.get())?;
            above(inner.max(ty_height(ty)?))
        }
        FullExp::AndAlso(a, b, _) => {
            let a = exp_height(alloc, a.get())?;
            if_height(a, exp_height(alloc, b.get())?, 1)
        }
        FullExp::OrElse(a, b, _) => {
            let a = exp_height(alloc, a.get())?;
            if_height(a, 1, exp_height(alloc, b.get())?)
        }
        FullExp::Handle(inner, rules, _) => {
            let inner = exp_height(alloc, inner.get())?;
            above(inner.max(rules_height(alloc, rules.as_slice())?))
        }
        FullExp::Raise(inner, _) => above(exp_height(alloc, inner.get())?),
        FullExp::If(a, b, c, _) => {
            let a = exp_height(alloc, a.get())?;
            let b = exp_height(alloc, b.get())?;
            if_height(a, b, exp_height(alloc, c.get())?)
        }
        FullExp::While(a, b, _) => {
            let a = exp_height(alloc, a.get())?;
            while_height(a, exp_height(alloc, b.get())?)
        }
        FullExp::Case(subject, rules, _) => {
            let subject = exp_height(alloc, subject.get())?;
            case_height(subject, rules_height(alloc, rules.as_slice())?)
        }
        FullExp::Fn(rules, _) => above(rules_height(alloc, rules.as_slice())?),
    }
}

/// The heights of expressions.
#[cycle(exp_height)]
fn exp_heights(alloc: Global, exps: &[FullExp]) -> Result<Vec<usize>, NoMemory>
    ensures { IfOk result (λ made. made.items ≡ map spec.full_exp exps.now) }
{
    let mut made = Vec::new(alloc);
    for exp in exps {
        made.push(exp_height(alloc, exp)?)?;
    }
    Ok(made)
}

#[cycle(exp_height)]
fn highest_exp(alloc: Global, exps: &[FullExp]) -> Result<usize, NoMemory>
    ensures { IfOk result (λ made. made ≡ highest (map spec.full_exp exps.now)) }
{
    let mut made = 0usize;
    for exp in exps {
        made = made.max(exp_height(alloc, exp)?);
    }
    Ok(made)
}

#[cycle(exp_height)]
fn fields_height(alloc: Global, fields: &[FullExpField]) -> Result<usize, NoMemory>
    ensures { IfOk result (λ made. made ≡ highest (map spec.full_field fields.now)) }
{
    let mut made = 0usize;
    for field in fields {
        made = made.max(exp_height(alloc, &field.exp)?);
    }
    Ok(made)
}

#[cycle(exp_height)]
fn rules_height(alloc: Global, rules: &[FullRule]) -> Result<usize, NoMemory>
    ensures { IfOk result (λ made. made ≡ highest (map spec.full_rule rules.now)) }
{
    let mut made = 0usize;
    for rule in rules {
        made = made.max(rule_height(alloc, rule)?);
    }
    Ok(made)
}

#[cycle(exp_height)]
#[tactic(auto, using(crate::proofs::ExpHeights::rule_form))]
fn rule_height(alloc: Global, rule: &FullRule) -> Result<usize, NoMemory>
    ensures { IfOk result (λ made. made ≡ spec.full_rule rule.now) }
{
    let pat = pat_height(alloc, &rule.pat)?.height;
    Ok(pat.max(exp_height(alloc, &rule.exp)?))
}

/// An expression as an operand of a run.
#[cycle(exp_height)]
fn run_exp(alloc: Global, exp: &FullExp) -> Result<RunHeight, NoMemory>
    ensures { IfOk result (λ made. made ≡ spec.run_exp exp.now) }
{
    let height = exp_height(alloc, exp)?;
    Ok(RunHeight { height })
}

/// What the parts of a run make.
#[cycle(exp_height)]
#[tactic(auto, using(crate::proofs::ExpHeights::exp_runs))]
fn exp_run_height(alloc: Global, items: &[FullExpItem]) -> Result<RunHeight, NoMemory>
    ensures { IfOk result
        (λ made. made ≡ run_of joined_exp_height nodes.applied_exp_height nodes.missing_exp_height
        (map spec.full_item items.now)) }
{
    let mut before = Vec::new(alloc);
    let mut begun = None;
    for item in items {
        match item {
            FullExpItem::Atom(exp) => {
                begun = Some(continued(begun, run_exp(alloc, exp)?)?);
            }
            FullExpItem::Operator(name, fixity) => {
                let operator = operator_of(name, *fixity)?;
                before.push((operand(begun), operator))?;
                begun = None;
            }
        }
    }
    let last = operand(begun);
    bind_all(alloc, before, last)
}

#[cycle(exp_height)]
fn clauses_height(alloc: Global, clauses: &[FullClause]) -> Result<usize, NoMemory>
    ensures { IfOk result (λ made. made ≡ highest (map spec.full_clause clauses.now)) }
{
    let mut made = 0usize;
    for clause in clauses {
        made = made.max(clause_height(alloc, clause)?);
    }
    Ok(made)
}

#[cycle(exp_height)]
#[tactic(auto, using(crate::proofs::ExpHeights::clause_form))]
fn clause_height(alloc: Global, clause: &FullClause) -> Result<usize, NoMemory>
    ensures { IfOk result (λ made. made ≡ spec.full_clause clause.now) }
{
    let args = head_heights(alloc, &clause.head)?;
    let args = args_height(args.as_slice())?;
    let body = exp_height(alloc, &clause.body)?;
    Ok(args.max(result_height(&clause.ty, body)?))
}

/// The function of these clauses.
#[cycle(exp_height)]
fn fun_height(alloc: Global, clauses: &[FullClause]) -> Result<usize, NoMemory>
    ensures { IfOk result (λ made. made ≡ spec.fun_height clauses.now) }
{
    match clauses {
        [] => Ok(1),
        [first, ..] => {
            let rules = clauses_height(alloc, clauses)?;
            fun_of_height(alloc, &first.head, rules)
        }
    }
}

#[cycle(exp_height)]
#[tactic(auto, using(crate::proofs::ExpHeights::fun_bind_form))]
fn fun_bind_height(alloc: Global, bind: &FullFunBind) -> Result<usize, NoMemory>
    ensures { IfOk result (λ made. made ≡ spec.full_fun_bind bind.now) }
{
    fun_height(alloc, bind.clauses.as_slice())
}

#[cycle(exp_height)]
fn fun_binds_height(alloc: Global, binds: &[FullFunBind]) -> Result<usize, NoMemory>
    ensures { IfOk result (λ made. made ≡ highest (map spec.full_fun_bind binds.now)) }
{
    let mut made = 0usize;
    for bind in binds {
        made = made.max(fun_bind_height(alloc, bind)?);
    }
    Ok(made)
}

#[cycle(exp_height)]
fn val_binds_height(alloc: Global, binds: &[FullValBind]) -> Result<usize, NoMemory>
    ensures { IfOk result (λ made. made ≡ highest (map spec.full_val_bind binds.now)) }
{
    let mut made = 0usize;
    for bind in binds {
        made = made.max(val_bind_height(alloc, bind)?);
    }
    Ok(made)
}

#[cycle(exp_height)]
#[tactic(auto, using(crate::proofs::ExpHeights::val_bind_form))]
fn val_bind_height(alloc: Global, bind: &FullValBind) -> Result<usize, NoMemory>
    ensures { IfOk result (λ made. made ≡ spec.full_val_bind bind.now) }
{
    let pat = pat_height(alloc, &bind.pat)?.height;
    Ok(pat.max(exp_height(alloc, &bind.exp)?))
}

/// The highest of declarations.
#[cycle(exp_height)]
fn decs_height(alloc: Global, decs: &[FullDec]) -> Result<usize, NoMemory>
    ensures { IfOk result (λ made. made ≡ highest (map spec.full_dec decs.now)) }
{
    let mut made = 0usize;
    for dec in decs {
        made = made.max(dec_height(alloc, dec)?);
    }
    Ok(made)
}

/// The height of what a declaration becomes.
#[cycle(exp_height)]
#[tactic(auto, using(crate::proofs::ExpHeights::dec_forms))]
pub fn dec_height(alloc: Global, dec: &FullDec) -> Result<usize, NoMemory>
    ensures { IfOk result (λ made. made ≡ spec.full_dec dec.now) }
{
    match dec {
        FullDec::Val(_, binds, _) => above(val_binds_height(alloc, binds.as_slice())?),
        FullDec::Fun(_, binds, _) => above(fun_binds_height(alloc, binds.as_slice())?),
        FullDec::Types(binds, _) => above(highest_of(binds.as_slice())?),
        FullDec::Datatypes(binds, _) => above(highest_of(binds.as_slice())?),
        FullDec::Replication(_, _, _) => Ok(1),
        FullDec::Exceptions(binds, _) => above(highest_of(binds.as_slice())?),
        FullDec::Local(hidden, decs, _) => {
            let hidden = above(decs_height(alloc, hidden.as_slice())?)?;
            let decs = above(decs_height(alloc, decs.as_slice())?)?;
            above(hidden.max(decs))
        }
        FullDec::Open(_, _) => Ok(1),
        FullDec::Infix(_, _, _) => Ok(0),
        FullDec::Infixr(_, _, _) => Ok(0),
        FullDec::Nonfix(_, _) => Ok(0),
    }
}
