//! The heights of the nodes that derived forms are made of.

ghost use Rattle.std.specs.Prelude.{◌≡◌, IfOk};
ghost use Rattle.std.specs.Option.{unwrap_or};
ghost use Rattle.bare_forms.specs.Runs.{applied_to};
ghost use Rattle.tree_heights.specs.NodeHeights as spec;
ghost use Rattle.tree_heights.specs.NodeHeights.{joined_exp_height};

use crate::height::above;
use bare_forms::run::Operand;
use cm_base::NoMemory;
use sml_trees::Name;
use std::alloc::Global;

/// The height of an operand of a run.
#[derive(Drop)]
pub struct RunHeight {
    pub height: usize,
}

/// `first :: rest` of patterns, and any constructor with a pair.
pub fn cons_height(first: usize, rest: usize) -> Result<usize, NoMemory>
    ensures { IfOk result (λ made. made ≡ spec.cons_height first rest) }
{
    above(above(first.max(rest))?)
}

/// `first :: rest` of expressions, and any name with a pair.
fn pair_height(first: usize, rest: usize) -> Result<usize, NoMemory>
    ensures { IfOk result (λ made. made ≡ spec.pair_height first rest) }
{
    let pair = above(first.max(rest))?;
    above(1usize.max(pair))
}

/// `case subject of rules`
pub fn case_height(subject: usize, rules: usize) -> Result<usize, NoMemory>
    ensures { IfOk result (λ made. made ≡ spec.case_height subject rules) }
{
    let function = above(rules)?;
    above(function.max(subject))
}

/// `if test then first else second`
pub fn if_height(test: usize, first: usize, second: usize) -> Result<usize, NoMemory>
    ensures { IfOk result (λ made. made ≡ spec.if_height test first second) }
{
    let first = 1usize.max(first);
    let second = 1usize.max(second);
    case_height(test, first.max(second))
}

/// `(a; b)`
fn then_height(a: usize, b: usize) -> Result<usize, NoMemory>
    ensures { IfOk result (λ made. made ≡ spec.then_height a b) }
{
    case_height(a, 1usize.max(b))
}

/// The function of a loop.
fn loop_height(test: usize, body: usize) -> Result<usize, NoMemory>
    ensures { IfOk result (λ made. made ≡ spec.loop_height test body) }
{
    let again = then_height(body, 2)?;
    let step = if_height(test, again, 1)?;
    above(1usize.max(step))
}

/// `while test do body`
pub fn while_height(test: usize, body: usize) -> Result<usize, NoMemory>
    ensures { IfOk result (λ made. made ≡ spec.while_height test body) }
{
    let function = loop_height(test, body)?;
    let dec = above(above(1usize.max(function))?)?;
    above(dec.max(2))
}

/// A list of expressions of these heights.
#[tactic(auto, using(crate::proofs::HeightLists::height_steps))]
pub fn exps_height(items: Vec<usize>) -> Result<usize, NoMemory>
    ensures { IfOk result (λ made. made ≡ spec.exps_height items.items) }
{
    let mut items = items;
    let mut rest = 1usize;
    while let Some(item) = items.pop() {
        rest = pair_height(item, rest)?;
    }
    Ok(rest)
}

/// A list of patterns of these heights.
#[tactic(auto, using(crate::proofs::HeightLists::height_steps))]
pub fn pats_height(items: Vec<usize>) -> Result<usize, NoMemory>
    ensures { IfOk result (λ made. made ≡ spec.pats_height items.items) }
{
    let mut items = items;
    let mut rest = 1usize;
    while let Some(item) = items.pop() {
        rest = cons_height(item, rest)?;
    }
    Ok(rest)
}

/// Expressions of these heights one after another.
#[tactic(auto, using(crate::proofs::HeightLists::height_steps))]
pub fn sequence_height(items: Vec<usize>) -> Result<usize, NoMemory>
    ensures { IfOk result (λ made. made ≡ spec.sequence_height items.items) }
{
    let mut items = items;
    let Some(last) = items.pop() else {
        return Ok(1);
    };
    let mut rest = last;
    while let Some(item) = items.pop() {
        rest = then_height(item, rest)?;
    }
    Ok(rest)
}

impl Operand for RunHeight {
    ghost joined = { joined_exp_height };

    fn join(
        _alloc: Global,
        _operator: Name,
        left: RunHeight,
        right: RunHeight,
    ) -> Result<RunHeight, NoMemory> {
        let height = pair_height(left.height, right.height)?;
        Ok(RunHeight { height })
    }
}

/// A function with its argument.
fn applied(function: RunHeight, arg: RunHeight) -> Result<RunHeight, NoMemory>
    ensures { IfOk result (λ made. made ≡ spec.applied_exp_height function arg) }
{
    let height = above(function.height.max(arg.height))?;
    Ok(RunHeight { height })
}

/// An expression behind what its operand has begun with.
pub fn continued(begun: Option<RunHeight>, exp: RunHeight) -> Result<RunHeight, NoMemory>
    ensures { IfOk result (λ made. made ≡ applied_to spec.applied_exp_height begun exp) }
{
    match begun {
        None => Ok(exp),
        Some(function) => applied(function, exp),
    }
}

/// The operand that has begun, if one has.
pub fn operand(begun: Option<RunHeight>) -> RunHeight
    ensures { result ≡ unwrap_or begun spec.missing_exp_height }
{
    match begun {
        None => RunHeight { height: 1 },
        Some(operand) => operand,
    }
}

/// A function of so many arguments.
pub fn curried_height(count: usize, body: usize) -> Result<usize, NoMemory>
    ensures { IfOk result (λ made. made ≡ spec.curried_height count body) }
{
    let mut made = body;
    let mut left = count;
    while left > 0 {
        left -= 1;
        made = above(1usize.max(made))?;
    }
    Ok(made)
}

/// The arguments of a function, as one expression.
pub fn subject_height(count: usize) -> usize
    ensures { result ≡ spec.subject_height count }
{
    if count <= 1 {
        return 1;
    }
    2
}
