//! Nodes of expressions, with their heights.

ghost use Rattle.std.specs.Prelude.{◌≡◌, ◌+◌, IfOk};
ghost use Rattle.phrase_reading.specs.Sized.{leaf, over, over_two};
ghost use Rattle.expression_parts.specs.ExpNodes.{branched, link};
ghost use Rattle.sml_trees.specs.declared.full_exp.FullExp.TheVariants as e;

use crate::chain::Chain;
use cm_base::{List, NoMemory};
use phrase_reading::tall::{Tall, boxed, boxed_first, boxed_three, boxed_two, one_above};
use sml_trees::{At, FullExp, FullRule, FullTy};
use std::alloc::Global;

/// An expression of one level.
pub fn leaf(exp: FullExp) -> Tall<FullExp>
    ensures { result ≡ leaf exp }
{
    Tall {
        tree: exp,
        height: 1,
    }
}

/// Two operands of a chain with its word between them.
pub fn linked(
    alloc: Global,
    chain: Chain,
    at: At,
    left: Tall<FullExp>,
    right: Tall<FullExp>,
) -> Result<Tall<FullExp>, NoMemory>
    ensures { IfOk result (λ exp. exp ≡ over_two (link chain at) left right) }
{
    let (left, right) = boxed_two(alloc, left, right)?;
    let height = left.height.max(right.height);
    match chain {
        Chain::Conjunction => one_above(FullExp::AndAlso(left.tree, right.tree, at), height),
        Chain::Disjunction => one_above(FullExp::OrElse(left.tree, right.tree, at), height),
    }
}

/// An expression in parentheses.
pub fn in_parens(alloc: Global, at: At, inner: Tall<FullExp>) -> Result<Tall<FullExp>, NoMemory>
    ensures { IfOk result (λ made. made ≡ over (λ exp. e.Paren exp at) inner) }
{
    let inner = boxed(alloc, inner)?;
    one_above(FullExp::Paren(inner.tree, at), inner.height)
}

/// An exception that is raised.
pub fn raised(alloc: Global, at: At, inner: Tall<FullExp>) -> Result<Tall<FullExp>, NoMemory>
    ensures { IfOk result (λ made. made ≡ over (λ exp. e.Raise exp at) inner) }
{
    let inner = boxed(alloc, inner)?;
    one_above(FullExp::Raise(inner.tree, at), inner.height)
}

/// One of two expressions, by a test.
pub fn branched(
    alloc: Global,
    at: At,
    test: Tall<FullExp>,
    yes: Tall<FullExp>,
    no: Tall<FullExp>,
) -> Result<Tall<FullExp>, NoMemory>
    ensures { IfOk result (λ made. made ≡ branched at test yes no) }
{
    let (test, yes, no) = boxed_three(alloc, test, yes, no)?;
    let height = test.height.max(yes.height).max(no.height);
    one_above(FullExp::If(test.tree, yes.tree, no.tree, at), height)
}

/// An expression that is done while another holds.
pub fn repeated(
    alloc: Global,
    at: At,
    test: Tall<FullExp>,
    body: Tall<FullExp>,
) -> Result<Tall<FullExp>, NoMemory>
    ensures { IfOk result (λ made. made ≡ over_two (λ test body. e.While test body at) test body) }
{
    let (test, body) = boxed_two(alloc, test, body)?;
    let height = test.height.max(body.height);
    one_above(FullExp::While(test.tree, body.tree, at), height)
}

/// An expression with the rules for its value.
pub fn cased(
    alloc: Global,
    at: At,
    subject: Tall<FullExp>,
    rules: Tall<List<FullRule>>,
) -> Result<Tall<FullExp>, NoMemory>
    ensures { IfOk result (λ made. made ≡ over_two (λ subject rules. e.Case subject rules at) subject rules) }
{
    let (subject, rules) = boxed_first(alloc, subject, rules)?;
    let height = subject.height.max(rules.height);
    one_above(FullExp::Case(subject.tree, rules.tree, at), height)
}

/// An expression with the rules for an exception that it raises.
pub fn guarded(
    alloc: Global,
    at: At,
    left: Tall<FullExp>,
    rules: Tall<List<FullRule>>,
) -> Result<Tall<FullExp>, NoMemory>
    ensures { IfOk result (λ made. made ≡ over_two (λ exp rules. e.Handle exp rules at) left rules) }
{
    let (left, rules) = boxed_first(alloc, left, rules)?;
    let height = left.height.max(rules.height);
    one_above(FullExp::Handle(left.tree, rules.tree, at), height)
}

/// An expression with a type.
pub fn typed(
    alloc: Global,
    at: At,
    left: Tall<FullExp>,
    ty: Tall<FullTy>,
) -> Result<Tall<FullExp>, NoMemory>
    ensures { IfOk result (λ made. made ≡ over_two (λ exp ty. e.Typed exp ty at) left ty) }
{
    let (left, ty) = boxed_first(alloc, left, ty)?;
    let height = left.height.max(ty.height);
    one_above(FullExp::Typed(left.tree, ty.tree, at), height)
}
