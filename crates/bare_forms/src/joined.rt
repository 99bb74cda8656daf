//! Infix operators with their two operands, and the pairs that they are applied to.

ghost use Rattle.std.specs.Prelude.{◌≡◌, IfOk};
ghost use Rattle.bare_forms.specs.Nodes as nodes;
ghost use Rattle.bare_forms.specs.Nodes.{joined_exp};
ghost use Rattle.bare_forms.specs.Patterns as pats;
ghost use Rattle.bare_forms.specs.Patterns.{joined_pat};
ghost use Rattle.sml_trees.specs.declared.exp.Exp.TheVariants as bare;

use crate::held::{boxed_beside, boxed_two, two};
use crate::name::{long_of_name, pair_labels, place};
use crate::placed::{PlacedExp, PlacedPat};
use crate::run::Operand;
use cm_base::NoMemory;
use sml_trees::held::both;
use sml_trees::{At, Exp, ExpField, Name, Pat, PatField};
use std::alloc::Global;

/// The pattern of a pair.
pub fn pair_pat(alloc: Global, at: At, first: Pat, second: Pat) -> Result<Pat, NoMemory>
    ensures { IfOk result (λ made. made ≡ pats.pair_pat at first second) }
{
    let ((first, second), labels) = both((first, second), pair_labels(alloc, at))?;
    let first = PatField {
        label: labels.0,
        pat: first,
    };
    let second = PatField {
        label: labels.1,
        pat: second,
    };
    Ok(Pat::Record(two(alloc, first, second)?, at))
}

impl Operand for PlacedPat {
    ghost joined = { joined_pat };

    fn join(
        alloc: Global,
        operator: Name,
        left: PlacedPat,
        right: PlacedPat,
    ) -> Result<PlacedPat, NoMemory> {
        let at = left.at;
        let pair = pair_pat(alloc, at, left.pat, right.pat)?;
        let (pair, con) = both(pair, long_of_name(alloc, &operator))?;
        let (pair, con) = boxed_beside(alloc, pair, con)?;
        let pat = Pat::Con(con, pair, at);
        Ok(PlacedPat { at, pat })
    }
}

/// A function with its argument.
pub fn app_exp(alloc: Global, at: At, function: Exp, arg: Exp) -> Result<Exp, NoMemory>
    ensures { IfOk result (λ made. made ≡ bare.App function arg at) }
{
    let (function, arg) = boxed_two(alloc, function, arg)?;
    Ok(Exp::App(function, arg, at))
}

/// The expression of a pair.
pub fn pair_exp(alloc: Global, at: At, first: Exp, second: Exp) -> Result<Exp, NoMemory>
    ensures { IfOk result (λ made. made ≡ nodes.pair_exp at first second) }
{
    let ((first, second), labels) = both((first, second), pair_labels(alloc, at))?;
    let first = ExpField {
        label: labels.0,
        exp: first,
    };
    let second = ExpField {
        label: labels.1,
        exp: second,
    };
    Ok(Exp::Record(two(alloc, first, second)?, at))
}

impl Operand for PlacedExp {
    ghost joined = { joined_exp };

    fn join(
        alloc: Global,
        operator: Name,
        left: PlacedExp,
        right: PlacedExp,
    ) -> Result<PlacedExp, NoMemory> {
        let at = left.at;
        let pair = pair_exp(alloc, at, left.exp, right.exp)?;
        let (pair, long) = both(pair, long_of_name(alloc, &operator))?;
        let function = Exp::Long(long, place(&operator));
        let exp = app_exp(alloc, at, function, pair)?;
        Ok(PlacedExp { at, exp })
    }
}
