//! The nodes that derived forms of expressions are made of.

ghost use Rattle.std.specs.Prelude.{◌≡◌, IfOk, codes};
ghost use Rattle.std.specs.Option.{unwrap_or};
ghost use Rattle.bare_forms.specs.Nodes as spec;
ghost use Rattle.bare_forms.specs.Nodes.{joined_exp};
ghost use Rattle.bare_forms.specs.Runs as runs;
ghost use Rattle.bare_forms.specs.Runs.{applied_to};
ghost use Rattle.sml_trees.specs.declared.exp.Exp.TheVariants as bare;

use bare_forms::held::{boxed_beside, boxed_two, one, pushed, two};
use bare_forms::joined::{app_exp, pair_exp};
use bare_forms::name::{copy_long, label, long_of_text};
use bare_forms::placed::PlacedExp;
use bare_forms::run::{Infix, bind_all};
use cm_base::{Boxed, List, NoMemory};
use sml_trees::held::both;
use sml_trees::{At, Constant, Dec, Exp, ExpField, LongName, Pat, Rule, Ty};
use std::alloc::Global;

pub fn constant_exp(constant: &Constant, at: At) -> Result<Exp, NoMemory>
    ensures { IfOk result (λ made. made ≡ spec.constant_exp constant.now at) }
{
    match constant {
        Constant::Int(n) => Ok(Exp::Int(*n, at)),
        Constant::Str(text) => Ok(Exp::Str(text.copy()?, at)),
        Constant::Char(byte) => Ok(Exp::Char(*byte, at)),
    }
}

/// A pattern that is an identifier, which isn't written.
pub fn long_pat(alloc: Global, at: At, text: &[u8]) -> Result<Pat, NoMemory>
    ensures { IfOk result (λ made. made ≡ spec.long_pat at text.now) }
{
    Ok(Pat::Long(long_of_text(alloc, at, text)?, at))
}

/// An expression that is an identifier, which isn't written.
pub fn long_exp(alloc: Global, at: At, text: &[u8]) -> Result<Exp, NoMemory>
    ensures { IfOk result (λ made. made ≡ spec.long_exp at text.now) }
{
    Ok(Exp::Long(long_of_text(alloc, at, text)?, at))
}

pub fn unit_exp(alloc: Global, at: At) -> Exp
    ensures { result ≡ spec.unit_exp at }
{
    Exp::Record(List::new(alloc), at)
}

/// `(first, .., last)`
#[tactic(auto, using(crate::proofs::Args::exp_field_steps))]
pub fn tuple_exp(alloc: Global, at: At, parts: Vec<PlacedExp>) -> Result<Exp, NoMemory>
    ensures { IfOk result (λ made. made ≡ spec.tuple_exp at parts.items) }
{
    let mut parts = parts;
    let mut fields = Vec::new(alloc);
    while let Some(part) = parts.pop() {
        let label = label(alloc, at, parts.len() + 1);
        let ((left, made, exp), label) = both((parts, fields, part.exp), label)?;
        (parts, fields) = both(left, pushed(made, ExpField { label, exp }))?;
    }
    fields.reverse();
    Ok(Exp::Record(List::from_vec(fields), at))
}

/// A match of one rule.
pub fn one_rule(alloc: Global, pat: Pat, exp: Exp) -> Result<List<Rule>, NoMemory>
    ensures { IfOk result (λ made. made ≡ spec.one_rule pat exp) }
{
    one(alloc, Rule { pat, exp })
}

/// `case subject of rules`
pub fn case_exp(alloc: Global, at: At, subject: Exp, rules: List<Rule>) -> Result<Exp, NoMemory>
    ensures { IfOk result (λ made. made ≡ spec.case_exp at subject rules) }
{
    app_exp(alloc, at, Exp::Fn(rules, at), subject)
}

/// The patterns `true` and `false`.
fn test_pats(alloc: Global, at: At) -> Result<(Pat, Pat), NoMemory>
    ensures yes { IfOk result (λ pats. pats.0 ≡ spec.long_pat at (codes "true")) }
    ensures no { IfOk result (λ pats. pats.1 ≡ spec.long_pat at (codes "false")) }
{
    let yes = long_pat(alloc, at, b"true")?;
    both(yes, long_pat(alloc, at, b"false"))
}

/// `if test then first else second`
pub fn if_exp(alloc: Global, at: At, test: Exp, first: Exp, second: Exp) -> Result<Exp, NoMemory>
    ensures { IfOk result (λ made. made ≡ spec.if_exp at test first second) }
{
    let ((test, first, second), pats) = both((test, first, second), test_pats(alloc, at))?;
    let yes = Rule {
        pat: pats.0,
        exp: first,
    };
    let no = Rule {
        pat: pats.1,
        exp: second,
    };
    let (test, rules) = both(test, two(alloc, yes, no))?;
    case_exp(alloc, at, test, rules)
}

/// `a orelse b`
pub fn or_else(alloc: Global, at: At, a: Exp, b: Exp) -> Result<Exp, NoMemory>
    ensures { IfOk result (λ made. made ≡ spec.or_else at a b) }
{
    let ((a, b), yes) = both((a, b), long_exp(alloc, at, b"true"))?;
    if_exp(alloc, at, a, yes, b)
}

/// `a andalso b`
pub fn and_also(alloc: Global, at: At, a: Exp, b: Exp) -> Result<Exp, NoMemory>
    ensures { IfOk result (λ made. made ≡ spec.and_also at a b) }
{
    let ((a, b), no) = both((a, b), long_exp(alloc, at, b"false"))?;
    if_exp(alloc, at, a, b, no)
}

/// `(a; b)`
fn then_exp(alloc: Global, at: At, a: Exp, b: Exp) -> Result<Exp, NoMemory>
    ensures { IfOk result (λ made. made ≡ spec.then_exp at a b) }
{
    let (a, rules) = both(a, one_rule(alloc, Pat::Wild(at), b))?;
    case_exp(alloc, at, a, rules)
}

/// The call of a loop, `%0 ()`.
fn while_call(alloc: Global, at: At) -> Result<Exp, NoMemory>
    ensures { IfOk result (λ made. made ≡ spec.while_call at) }
{
    let function = long_exp(alloc, at, b"%0")?;
    app_exp(alloc, at, function, unit_exp(alloc, at))
}

/// The function of a loop.
fn while_body(alloc: Global, at: At, test: Exp, body: Exp) -> Result<Exp, NoMemory>
    ensures { IfOk result (λ made. made ≡ spec.while_body at test body) }
{
    let ((test, body), call) = both((test, body), while_call(alloc, at))?;
    let (test, again) = both(test, then_exp(alloc, at, body, call))?;
    let step = if_exp(alloc, at, test, again, unit_exp(alloc, at))?;
    let rules = one_rule(alloc, Pat::Record(List::new(alloc), at), step)?;
    Ok(Exp::Fn(rules, at))
}

/// The declaration of a loop's function.
fn while_dec(alloc: Global, at: At, test: Exp, body: Exp) -> Result<Dec, NoMemory>
    ensures { IfOk result (λ made. made ≡ spec.while_dec at test body) }
{
    let body = while_body(alloc, at, test, body)?;
    let (body, name) = both(body, long_pat(alloc, at, b"%0"))?;
    let rules = one_rule(alloc, name, body)?;
    Ok(Dec::Val(List::new(alloc), List::new(alloc), rules, at))
}

/// `while test do body`
pub fn while_exp(alloc: Global, at: At, test: Exp, body: Exp) -> Result<Exp, NoMemory>
    ensures { IfOk result (λ made. made ≡ spec.while_exp at test body) }
{
    let decs = one(alloc, while_dec(alloc, at, test, body)?)?;
    let (decs, call) = both(Dec::Sequence(decs, at), while_call(alloc, at))?;
    let (decs, call) = boxed_two(alloc, decs, call)?;
    Ok(Exp::Let(decs, call, at))
}

/// `first :: rest`, of which the `::` isn't written.
fn cons_exp(alloc: Global, at: At, first: Exp, rest: Exp) -> Result<Exp, NoMemory>
    ensures { IfOk result (λ made. made ≡ spec.cons_exp at first rest) }
{
    let pair = pair_exp(alloc, at, first, rest)?;
    let (pair, function) = both(pair, long_exp(alloc, at, b"::"))?;
    app_exp(alloc, at, function, pair)
}

/// Where the node behind these items begins: where its item begins, or all of it if the item is the first.
fn node_place(at: At, before: &[PlacedExp], item: At) -> At
    ensures { result ≡ spec.node_place at before.now item }
{
    match before {
        [] => at,
        [_, ..] => item,
    }
}

/// A list of these items, whose first node begins where the list begins.
#[tactic(auto, using(crate::proofs::Lists::exp_steps))]
pub fn list_exp(alloc: Global, at: At, items: Vec<PlacedExp>) -> Result<Exp, NoMemory>
    ensures { IfOk result (λ made. made ≡ spec.list_exp at items.items) }
{
    let (mut items, mut rest) = both(items, long_exp(alloc, at, b"nil"))?;
    while let Some(item) = items.pop() {
        let begin = node_place(at, items.as_slice(), item.at);
        (items, rest) = both(items, cons_exp(alloc, begin, item.exp, rest))?;
    }
    Ok(rest)
}

/// Expressions one after another, whose first node begins where all of it begins.
#[tactic(auto, using(crate::proofs::Lists::exp_steps))]
pub fn sequence_exp(alloc: Global, at: At, items: Vec<PlacedExp>) -> Result<Exp, NoMemory>
    ensures { IfOk result (λ made. made ≡ spec.sequence_exp at items.items) }
{
    let mut items = items;
    let Some(last) = items.pop() else {
        return Ok(unit_exp(alloc, at));
    };
    let mut rest = last.exp;
    while let Some(item) = items.pop() {
        let begin = node_place(at, items.as_slice(), item.at);
        (items, rest) = both(items, then_exp(alloc, begin, item.exp, rest))?;
    }
    Ok(rest)
}

/// The expressions after the `in` of a `let`.
fn body_exp(alloc: Global, at: At, items: Vec<PlacedExp>) -> Result<Exp, NoMemory>
    ensures { IfOk result (λ made. made ≡ spec.body_exp at items.items) }
{
    let begin = first_place(at, items.as_slice());
    sequence_exp(alloc, begin, items)
}

/// Where the first of these begins.
fn first_place(at: At, items: &[PlacedExp]) -> At
    ensures { result ≡ spec.first_place at items.now }
{
    match items {
        [] => at,
        [first, ..] => first.at,
    }
}

/// A function with its argument.
fn applied_exp(alloc: Global, function: PlacedExp, arg: PlacedExp) -> Result<PlacedExp, NoMemory>
    ensures { IfOk result (λ made. made ≡ spec.applied_exp function arg) }
{
    let at = function.at;
    let exp = app_exp(alloc, at, function.exp, arg.exp)?;
    Ok(PlacedExp { at, exp })
}

/// An expression behind what its operand has begun with.
pub fn continued(
    alloc: Global,
    begun: Option<PlacedExp>,
    exp: PlacedExp,
) -> Result<PlacedExp, NoMemory>
    ensures { IfOk result (λ made. made ≡ applied_to spec.applied_exp begun exp) }
{
    match begun {
        None => Ok(exp),
        Some(function) => applied_exp(alloc, function, exp),
    }
}

/// The operand that has begun, if one has.
pub fn operand(alloc: Global, at: At, begun: Option<PlacedExp>) -> PlacedExp
    ensures { result ≡ unwrap_or begun (spec.missing_exp at) }
{
    match begun {
        None => PlacedExp {
            at,
            exp: unit_exp(alloc, at),
        },
        Some(operand) => operand,
    }
}

/// What the operands and operators of a run make, of which the last operand has begun, if one has.
pub fn run_exp(
    alloc: Global,
    at: At,
    before: Vec<(PlacedExp, Infix)>,
    begun: Option<PlacedExp>,
) -> Result<Exp, NoMemory>
    ensures { IfOk result
        (λ made. made ≡ (runs.bind_all joined_exp before.items (unwrap_or begun (spec.missing_exp at))).exp) }
{
    Ok(bind_all(alloc, before, operand(alloc, at, begun))?.exp)
}

/// An identifier.
pub fn named_exp(alloc: Global, at: At, long: &LongName) -> Result<Exp, NoMemory>
    ensures { IfOk result (λ made. made ≡ bare.Long long.now at) }
{
    Ok(Exp::Long(copy_long(alloc, long)?, at))
}

/// `let dec in body end`
pub fn let_exp(alloc: Global, at: At, dec: Dec, body: Vec<PlacedExp>) -> Result<Exp, NoMemory>
    ensures { IfOk result (λ made. made ≡ bare.Let dec (spec.body_exp at body.items) at) }
{
    let (dec, body) = both(dec, body_exp(alloc, at, body))?;
    let (dec, body) = boxed_two(alloc, dec, body)?;
    Ok(Exp::Let(dec, body, at))
}

/// `inner : ty`
pub fn typed_exp(alloc: Global, at: At, inner: Exp, ty: Ty) -> Result<Exp, NoMemory>
    ensures { IfOk result (λ made. made ≡ bare.Typed inner ty at) }
{
    let (inner, ty) = boxed_beside(alloc, inner, ty)?;
    Ok(Exp::Typed(inner, ty, at))
}

/// `inner handle rules`
pub fn handle_exp(alloc: Global, at: At, inner: Exp, rules: List<Rule>) -> Result<Exp, NoMemory>
    ensures { IfOk result (λ made. made ≡ bare.Handle inner rules at) }
{
    let (inner, rules) = boxed_beside(alloc, inner, rules)?;
    Ok(Exp::Handle(inner, rules, at))
}

/// `raise inner`
pub fn raise_exp(alloc: Global, at: At, inner: Exp) -> Result<Exp, NoMemory>
    ensures { IfOk result (λ made. made ≡ bare.Raise inner at) }
{
    Ok(Exp::Raise(Boxed::new(alloc, inner)?, at))
}
