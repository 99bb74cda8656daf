//! The heights of what stands beside expressions: heads of clauses and the types of their results.

ghost use Rattle.std.specs.Prelude.{◌≡◌, IfOk, length};
ghost use Rattle.tree_heights.specs.FullExpHeights as spec;
ghost use Rattle.tree_heights.specs.FullHeights.{height_of_pat};
ghost use Rattle.tree_heights.specs.Heights.{highest};

use crate::height::above;
use crate::height_node::{case_height, curried_height, subject_height};
use crate::height_pat::{pat_height, pat_heights};
use crate::height_ty::ty_height;
use cm_base::NoMemory;
use sml_trees::{FullHead, FullPat, FullTy};
use std::alloc::Global;

/// The two arguments of an infix name.
fn infix_height(alloc: Global, left: &FullPat, right: &FullPat) -> Result<usize, NoMemory>
    ensures { IfOk result (λ made. made ≡ spec.infix_height (height_of_pat left.now) (height_of_pat right.now)) }
{
    let left = pat_height(alloc, left)?.height;
    let right = pat_height(alloc, right)?.height;
    above(left.max(right))
}

/// The arguments of a clause.
pub fn head_heights(alloc: Global, head: &FullHead) -> Result<Vec<usize>, NoMemory>
    ensures { IfOk result (λ made. made.items ≡ spec.head_heights head.now) }
{
    match head {
        FullHead::Prefix(_, args) => pat_heights(alloc, args.as_slice()),
        FullHead::Infix(left, _, right) => {
            let mut made = Vec::new(alloc);
            made.push(infix_height(alloc, left, right)?)?;
            Ok(made)
        }
        FullHead::ParenInfix(left, _, right, args) => {
            let mut made = Vec::new(alloc);
            made.push(infix_height(alloc, left, right)?)?;
            let mut others = pat_heights(alloc, args.as_slice())?;
            made.append(&mut others)?;
            Ok(made)
        }
    }
}

/// The highest of arguments.
fn highest_arg(args: &[usize]) -> usize
    ensures { result ≡ highest args.now }
{
    let mut made = 0usize;
    for arg in args {
        made = made.max(*arg);
    }
    made
}

/// The arguments of a clause, as one pattern.
pub fn args_height(args: &[usize]) -> Result<usize, NoMemory>
    ensures { IfOk result (λ made. made ≡ spec.args_height args.now) }
{
    match args {
        [] => Ok(1),
        [only] => Ok(*only),
        [_, _, ..] => above(highest_arg(args)),
    }
}

/// `exp : ty`, if there is a type.
pub fn result_height(ty: &Option<FullTy>, body: usize) -> Result<usize, NoMemory>
    ensures { IfOk result (λ made. made ≡ spec.result_height ty.now body) }
{
    match ty {
        None => Ok(body),
        Some(ty) => above(body.max(ty_height(ty)?)),
    }
}

/// A function whose first clause has this head, and which has these rules.
pub fn fun_of_height(alloc: Global, head: &FullHead, rules: usize) -> Result<usize, NoMemory>
    ensures { IfOk result (λ made. made ≡ spec.fun_of_height (length (spec.head_heights head.now)) rules) }
{
    let count = head_heights(alloc, head)?.len();
    let body = case_height(subject_height(count), rules)?;
    Ok(1usize.max(curried_height(count, body)?))
}
