//! The parts of functions that are bound by `fun`.

ghost use Rattle.std.specs.Prelude.{◌≡◌, IfOk, map};
ghost use Rattle.bare_forms.specs.Nodes as spec;
ghost use Rattle.bare_forms.specs.Patterns.{pat_fields_from};
ghost use Rattle.bare_forms.specs.Types.{label_of};

use crate::node::{case_exp, long_exp, long_pat, one_rule, unit_exp};
use bare_forms::held::{only, pushed, with};
use bare_forms::name::{label, long_of_name, place};
use bare_forms::placed::{BareClause, PlacedPat};
use cm_base::{List, NoMemory, Text};
use sml_trees::held::both;
use sml_trees::{At, Exp, ExpField, Pat, PatField, Rule};
use std::alloc::Global;

/// The fields of a tuple pattern of these parts.
#[tactic(auto, using(crate::proofs::Args::field_steps))]
fn fields_of(alloc: Global, at: At, parts: Vec<PlacedPat>) -> Result<List<PatField>, NoMemory>
    ensures { IfOk result (λ made. made ≡ pat_fields_from at 1 parts.items) }
{
    let mut parts = parts;
    let mut fields = Vec::new(alloc);
    while let Some(part) = parts.pop() {
        let label = label(alloc, at, parts.len() + 1);
        let ((left, made, pat), label) = both((parts, fields, part.pat), label)?;
        (parts, fields) = both(left, pushed(made, PatField { label, pat }))?;
    }
    fields.reverse();
    Ok(List::from_vec(fields))
}

/// Where the tuple of a clause's arguments begins: where the first does.
fn args_place(at: At, args: &[PlacedPat]) -> At
    ensures { result ≡ spec.args_place at args.now }
{
    match args {
        [] => at,
        [first, ..] => first.at,
    }
}

/// The pattern of a clause: its argument, or the tuple of them.
#[tactic(auto, using(crate::proofs::Args::only_steps))]
fn args_pat(alloc: Global, at: At, args: Vec<PlacedPat>) -> Result<Pat, NoMemory>
    ensures { IfOk result (λ made. made ≡ spec.args_pat at args.items) }
{
    let begin = args_place(at, args.as_slice());
    match only(args) {
        Ok(only) => Ok(only.pat),
        Err(args) => Ok(Pat::Record(fields_of(alloc, begin, args)?, begin)),
    }
}

/// The name of an argument, which no source has.
fn arg_text(alloc: Global, number: usize) -> Result<Text, NoMemory>
    ensures { IfOk result (λ text. text ≡ spec.arg_text number) }
{
    let digits = number.to_string(alloc)?;
    let mut bytes = Vec::from_slice(alloc, b"%")?;
    bytes.extend_from_slice(digits.as_bytes())?;
    Ok(Text::from_vec(bytes))
}

/// An argument of a function as a field of a tuple, by its number.
fn subject_field(alloc: Global, at: At, number: usize) -> Result<ExpField, NoMemory>
    ensures { IfOk result (λ made. made ≡ spec.field (label_of at number) (spec.long_exp at (spec.arg_text number))) }
{
    let label = label(alloc, at, number)?;
    let text = arg_text(alloc, number)?;
    let exp = long_exp(alloc, at, text.as_bytes())?;
    Ok(ExpField { label, exp })
}

/// The arguments of a function as the fields of a tuple, as many as these patterns.
fn subject_fields(alloc: Global, at: At, args: &[PlacedPat]) -> Result<List<ExpField>, NoMemory>
    ensures { IfOk result (λ made. made ≡ spec.subject_fields at 1 args.now) }
{
    let mut fields = List::new(alloc);
    let mut number = 1;
    for arg in args {
        let _one = arg;
        let (made, field) = both(fields, subject_field(alloc, at, number))?;
        fields = with(made, field)?;
        number += 1;
    }
    Ok(fields)
}

/// What the clauses of a function are chosen by: its argument, or the tuple of them.
fn subject(alloc: Global, at: At, args: &[PlacedPat]) -> Result<Exp, NoMemory>
    ensures { IfOk result (λ made. made ≡ spec.subject_exp at args.now) }
{
    match args {
        [] => Ok(unit_exp(alloc, at)),
        [_] => {
            let text = arg_text(alloc, 1)?;
            long_exp(alloc, at, text.as_bytes())
        }
        [_, _, ..] => Ok(Exp::Record(subject_fields(alloc, at, args)?, at)),
    }
}

/// The pattern of an argument, by its number.
fn arg_pat(alloc: Global, at: At, number: usize) -> Result<Pat, NoMemory>
    ensures { IfOk result (λ made. made ≡ spec.long_pat at (spec.arg_text number)) }
{
    let text = arg_text(alloc, number)?;
    long_pat(alloc, at, text.as_bytes())
}

/// A function of one argument, by its number.
fn arg_fn(alloc: Global, at: At, number: usize, body: Exp) -> Result<Exp, NoMemory>
    ensures { IfOk result (λ made. made ≡ spec.arg_fn at number body) }
{
    let (body, pat) = both(body, arg_pat(alloc, at, number))?;
    Ok(Exp::Fn(one_rule(alloc, pat, body)?, at))
}

/// A function of so many arguments, one after another.
#[tactic(auto, using(crate::proofs::Args::curried_steps))]
fn curried(alloc: Global, at: At, count: usize, body: Exp) -> Result<Exp, NoMemory>
    ensures { IfOk result (λ made. made ≡ spec.curried at 1 count body) }
{
    let mut made = body;
    let mut number = count;
    while number > 0 {
        made = arg_fn(alloc, at, number, made)?;
        number -= 1;
    }
    Ok(made)
}

/// The rule of a clause.
fn clause_rule(alloc: Global, clause: BareClause) -> Result<Rule, NoMemory>
    ensures { IfOk result (λ made. made ≡ spec.clause_rule clause) }
{
    let pat = args_pat(alloc, clause.at, clause.args.into_vec());
    let (exp, pat) = both(clause.body, pat)?;
    Ok(Rule { pat, exp })
}

/// The rules of a function's clauses.
#[tactic(auto, using(crate::proofs::Args::reverse_steps))]
fn clause_rules(alloc: Global, clauses: Vec<BareClause>) -> Result<List<Rule>, NoMemory>
    ensures { IfOk result (λ made. made ≡ map spec.clause_rule clauses.items) }
{
    let mut left = clauses;
    left.reverse();
    let mut made = List::new(alloc);
    while let Some(clause) = left.pop() {
        let ((rest, rules), rule) = both((left, made), clause_rule(alloc, clause))?;
        (left, made) = both(rest, with(rules, rule))?;
    }
    Ok(made)
}

/// A function: its name and what it is.
pub fn fun_rule(alloc: Global, at: At, clauses: Vec<BareClause>) -> Result<Rule, NoMemory>
    ensures { IfOk result (λ made. made ≡ spec.fun_rule at clauses.items) }
{
    let [first, ..] = clauses.as_slice() else {
        let pat = Pat::Wild(at);
        let exp = Exp::Fn(List::new(alloc), at);
        return Ok(Rule { pat, exp });
    };
    let begin = place(&first.name);
    let count = first.args.len();
    let name = long_of_name(alloc, &first.name);
    let subject = subject(alloc, at, first.args.as_slice());
    let ((clauses, subject), name) = both(both(clauses, subject)?, name)?;
    let ((subject, name), rules) = both((subject, name), clause_rules(alloc, clauses))?;
    let (name, chosen) = both(name, case_exp(alloc, at, subject, rules))?;
    let (name, exp) = both(name, curried(alloc, at, count, chosen))?;
    let pat = Pat::Long(name, begin);
    Ok(Rule { pat, exp })
}
