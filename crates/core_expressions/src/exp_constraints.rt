//! Type constraints behind expressions.

ghost use Rattle.std.specs.Prelude.{◌≡◌};
ghost use Rattle.core_expressions.specs.Expressions.{constraint, constraints};
ghost use Rattle.core_expressions.specs.Levels.{below};
ghost use Rattle.phrase_reading.specs.Reads.{Reads};

use core_types::types::ty;
use expression_parts::nodes::typed;
use phrase_reading::lexemes::Lexemes;
use phrase_reading::stop::Stop;
use phrase_reading::tall::{Tall, lower};
use sml_lexer::Word;
use sml_trees::held::both;
use sml_trees::{At, FullExp};
use std::alloc::Global;

/// A constraint behind its mark, with the expression before it.
#[tactic(auto, using(crate::proofs::ExpSteps::constraint_steps))]
fn constraint(
    alloc: Global,
    lexemes: &mut Lexemes<'_>,
    levels: u32,
    at: At,
    left: Tall<FullExp>,
) -> Result<Tall<FullExp>, Stop>
    ensures { Reads (constraint levels (below levels) at left) lexemes.old.rest.now result lexemes.new.rest.now }
{
    let left = lower(left, levels)?;
    let ty = ty(alloc, lexemes, levels - 1);
    let (left, ty) = both(left, ty)?;
    Ok(typed(alloc, at, left, ty)?)
}

/// The constraints behind an expression.
#[tactic(auto, using(crate::proofs::ExpSteps::constraints_steps))]
pub fn constraints(
    alloc: Global,
    lexemes: &mut Lexemes<'_>,
    levels: u32,
    at: At,
    first: Tall<FullExp>,
) -> Result<Tall<FullExp>, Stop>
    ensures { Reads (constraints levels (below levels) at first) lexemes.old.rest.now result lexemes.new.rest.now }
{
    let mut left = first;
    while lexemes.sees(Word::Colon) {
        lexemes.take();
        left = constraint(alloc, lexemes, levels, at, left)?;
    }
    Ok(left)
}
