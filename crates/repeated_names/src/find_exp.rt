//! Lists of expressions and declarations of the core.

ghost use Rattle.std.specs.Prelude.{◌≡◌, OnOk, map};
ghost use Rattle.repeated_names.specs.Repeats.{earliest_with, repeats_in, all_repeats};
ghost use Rattle.repeated_names.specs.RepeatedDecs as spec;

use crate::find::{Finder, find_in, find_tyvars};
use crate::find_pat::{find_pat, find_pats};
use crate::find_ty::{find_datatypes, find_optional_ty, find_ty};
use cm_base::NoMemory;
use sml_trees::{
    FullClause, FullDec, FullExp, FullExpField, FullExpItem, FullFunBind, FullHead, FullRule,
    FullValBind,
};

#[cycle(find_exp)]
#[tactic(auto, using(crate::proofs::FoundDecs::exp_forms))]
fn find_exp(finder: &mut Finder, exp: &FullExp) -> Result<(), NoMemory>
    ensures { OnOk result (finder.new ≡ earliest_with finder.old (spec.exp_repeats exp.now)) }
{
    match exp {
        FullExp::Constant(_, _) => Ok(()),
        FullExp::Long(_, _) => Ok(()),
        FullExp::Record(fields, _) => find_fields(finder, fields.as_slice()),
        FullExp::Unit(_) => Ok(()),
        FullExp::Tuple(parts, _) => find_exps(finder, parts.as_slice()),
        FullExp::Sequence(exps, _) => find_exps(finder, exps.as_slice()),
        FullExp::Paren(inner, _) => find_exp(finder, inner.get()),
        FullExp::List(items, _) => find_exps(finder, items.as_slice()),
        FullExp::Let(decs, exps, _) => {
            find_decs(finder, decs.as_slice())?;
            find_exps(finder, exps.as_slice())
        }
        FullExp::Run(items, _) => find_items(finder, items.as_slice()),
        FullExp::Typed(inner, ty, _) => {
            find_exp(finder, inner.get())?;
            find_ty(finder, ty)
        }
        FullExp::AndAlso(a, b, _) => {
            find_exp(finder, a.get())?;
            find_exp(finder, b.get())
        }
        FullExp::OrElse(a, b, _) => {
            find_exp(finder, a.get())?;
            find_exp(finder, b.get())
        }
        FullExp::Handle(inner, rules, _) => {
            find_exp(finder, inner.get())?;
            find_rules(finder, rules.as_slice())
        }
        FullExp::Raise(inner, _) => find_exp(finder, inner.get()),
        FullExp::If(a, b, c, _) => {
            find_exp(finder, a.get())?;
            find_exp(finder, b.get())?;
            find_exp(finder, c.get())
        }
        FullExp::While(a, b, _) => {
            find_exp(finder, a.get())?;
            find_exp(finder, b.get())
        }
        FullExp::Case(subject, rules, _) => {
            find_exp(finder, subject.get())?;
            find_rules(finder, rules.as_slice())
        }
        FullExp::Fn(rules, _) => find_rules(finder, rules.as_slice()),
    }
}

#[cycle(find_exp)]
fn find_exps(finder: &mut Finder, exps: &[FullExp]) -> Result<(), NoMemory>
    ensures { OnOk result (finder.new ≡ earliest_with finder.old (all_repeats (map spec.exp_repeats exps.now))) }
{
    for exp in exps {
        find_exp(finder, exp)?;
    }
    Ok(())
}

#[cycle(find_exp)]
fn find_items(finder: &mut Finder, items: &[FullExpItem]) -> Result<(), NoMemory>
    ensures { OnOk result (finder.new ≡ earliest_with finder.old (all_repeats (map spec.exp_item_repeats items.now))) }
{
    for item in items {
        find_item(finder, item)?;
    }
    Ok(())
}

#[cycle(find_exp)]
fn find_item(finder: &mut Finder, item: &FullExpItem) -> Result<(), NoMemory>
    ensures { OnOk result (finder.new ≡ earliest_with finder.old (spec.exp_item_repeats item.now)) }
{
    match item {
        FullExpItem::Atom(exp) => find_exp(finder, exp),
        FullExpItem::Operator(_, _) => Ok(()),
    }
}

#[cycle(find_exp)]
#[tactic(auto, using(crate::proofs::Found::seen_steps))]
fn find_fields(finder: &mut Finder, fields: &[FullExpField]) -> Result<(), NoMemory>
    ensures { OnOk result (finder.new ≡ earliest_with finder.old (repeats_in (map spec.exp_field_member fields.now))) }
{
    let mut seen = finder.no_names();
    for field in fields {
        finder.see(&mut seen, &field.label)?;
        find_exp(finder, &field.exp)?;
    }
    Ok(())
}

#[cycle(find_exp)]
fn find_rules(finder: &mut Finder, rules: &[FullRule]) -> Result<(), NoMemory>
    ensures { OnOk result (finder.new ≡ earliest_with finder.old (all_repeats (map spec.rule_repeats rules.now))) }
{
    for rule in rules {
        find_rule(finder, rule)?;
    }
    Ok(())
}

#[cycle(find_exp)]
#[tactic(auto, using(crate::proofs::FoundDecs::rule_form))]
fn find_rule(finder: &mut Finder, rule: &FullRule) -> Result<(), NoMemory>
    ensures { OnOk result (finder.new ≡ earliest_with finder.old (spec.rule_repeats rule.now)) }
{
    find_pat(finder, &rule.pat)?;
    find_exp(finder, &rule.exp)
}

/// The lists of what stands before the `=` of a clause.
#[tactic(auto, using(crate::proofs::Found::found_steps))]
fn find_head(finder: &mut Finder, head: &FullHead) -> Result<(), NoMemory>
    ensures { OnOk result (finder.new ≡ earliest_with finder.old (spec.head_repeats head.now)) }
{
    match head {
        FullHead::Prefix(_, args) => find_pats(finder, args.as_slice()),
        FullHead::Infix(left, _, right) => {
            find_pat(finder, left)?;
            find_pat(finder, right)
        }
        FullHead::ParenInfix(left, _, right, args) => {
            find_pat(finder, left)?;
            find_pat(finder, right)?;
            find_pats(finder, args.as_slice())
        }
    }
}

#[cycle(find_exp)]
fn find_clauses(finder: &mut Finder, clauses: &[FullClause]) -> Result<(), NoMemory>
    ensures { OnOk result (finder.new ≡ earliest_with finder.old (all_repeats (map spec.clause_repeats clauses.now))) }
{
    for clause in clauses {
        find_clause(finder, clause)?;
    }
    Ok(())
}

#[cycle(find_exp)]
#[tactic(auto, using(crate::proofs::FoundDecs::clause_form))]
fn find_clause(finder: &mut Finder, clause: &FullClause) -> Result<(), NoMemory>
    ensures { OnOk result (finder.new ≡ earliest_with finder.old (spec.clause_repeats clause.now)) }
{
    find_head(finder, &clause.head)?;
    find_optional_ty(finder, &clause.ty)?;
    find_exp(finder, &clause.body)
}

#[cycle(find_exp)]
fn find_fun_binds(finder: &mut Finder, binds: &[FullFunBind]) -> Result<(), NoMemory>
    ensures { OnOk result (finder.new ≡ earliest_with finder.old (all_repeats (map spec.fun_bind_repeats binds.now))) }
{
    for bind in binds {
        find_fun_bind(finder, bind)?;
    }
    Ok(())
}

#[cycle(find_exp)]
#[tactic(auto, using(crate::proofs::FoundDecs::fun_bind_form))]
fn find_fun_bind(finder: &mut Finder, bind: &FullFunBind) -> Result<(), NoMemory>
    ensures { OnOk result (finder.new ≡ earliest_with finder.old (spec.fun_bind_repeats bind.now)) }
{
    find_clauses(finder, bind.clauses.as_slice())
}

#[cycle(find_exp)]
fn find_val_binds(finder: &mut Finder, binds: &[FullValBind]) -> Result<(), NoMemory>
    ensures { OnOk result (finder.new ≡ earliest_with finder.old (all_repeats (map spec.val_bind_repeats binds.now))) }
{
    for bind in binds {
        find_val_bind(finder, bind)?;
    }
    Ok(())
}

#[cycle(find_exp)]
#[tactic(auto, using(crate::proofs::FoundDecs::val_bind_form))]
fn find_val_bind(finder: &mut Finder, bind: &FullValBind) -> Result<(), NoMemory>
    ensures { OnOk result (finder.new ≡ earliest_with finder.old (spec.val_bind_repeats bind.now)) }
{
    find_pat(finder, &bind.pat)?;
    find_exp(finder, &bind.exp)
}

#[cycle(find_exp)]
fn find_decs(finder: &mut Finder, decs: &[FullDec]) -> Result<(), NoMemory>
    ensures { OnOk result (finder.new ≡ earliest_with finder.old (all_repeats (map spec.dec_repeats decs.now))) }
{
    for dec in decs {
        find_dec(finder, dec)?;
    }
    Ok(())
}

#[cycle(find_exp)]
#[tactic(auto, using(crate::proofs::FoundDecs::dec_forms))]
pub fn find_dec(finder: &mut Finder, dec: &FullDec) -> Result<(), NoMemory>
    ensures { OnOk result (finder.new ≡ earliest_with finder.old (spec.dec_repeats dec.now)) }
{
    match dec {
        FullDec::Val(tyvars, binds, _) => {
            find_tyvars(finder, tyvars.as_slice())?;
            find_val_binds(finder, binds.as_slice())
        }
        FullDec::Fun(tyvars, binds, _) => {
            find_tyvars(finder, tyvars.as_slice())?;
            find_fun_binds(finder, binds.as_slice())
        }
        FullDec::Types(binds, _) => find_in(finder, binds.as_slice()),
        FullDec::Datatypes(binds, _) => find_datatypes(finder, binds.as_slice()),
        FullDec::Replication(_, _, _) => Ok(()),
        FullDec::Exceptions(binds, _) => find_in(finder, binds.as_slice()),
        FullDec::Local(hidden, decs, _) => {
            find_decs(finder, hidden.as_slice())?;
            find_decs(finder, decs.as_slice())
        }
        FullDec::Open(_, _) => Ok(()),
        FullDec::Infix(_, _, _) => Ok(()),
        FullDec::Infixr(_, _, _) => Ok(()),
        FullDec::Nonfix(_, _) => Ok(()),
    }
}
