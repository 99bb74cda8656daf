//! Runs of applications and infix operators.

ghost use Rattle.std.specs.Prelude.{◌≡◌, OnOk};
ghost use Rattle.core_expressions.specs.Levels.{below, level};
ghost use Rattle.phrase_reading.specs.Reads.{Reads};
ghost use Rattle.core_expressions.specs.Expressions.{run_from, whole_run, steps, one_step, step, behind_operator, atom};
ghost use Rattle.expression_parts.specs.ExpNodes.{run_of, with_atom, with_operator, run_exp};

use crate::atexp::atexp;
use cm_base::List;
use expression_parts::exp_starts::{
    first_of_atexp, first_of_more, goes_on_next, infix_name, next_of_run,
};
use expression_parts::runs::{Run, run_exp, run_of, with_atom, with_operator};
use infix_names::fixity::Fixities;
use phrase_reading::lexemes::Lexemes;
use phrase_reading::stop::Stop;
use phrase_reading::tall::{Tall, lower};
use sml_lexer::Lexeme;
use sml_trees::{At, FullExp, Name};
use std::alloc::Global;

/// What follows an atomic expression as more of a run, or nothing.
#[cycle(phrases)]
#[tactic(auto, using(crate::proofs::ExpSteps::run_from_steps))]
pub fn run_from(
    alloc: Global,
    lexemes: &mut Lexemes<'_>,
    fixities: &mut Fixities,
    levels: u32,
    at: At,
    first: Tall<FullExp>,
) -> Result<Tall<FullExp>, Stop>
    ensures same { OnOk result (fixities.new ≡ fixities.old) }
    ensures reads { Reads (run_from levels (below levels) fixities.old at first)
        lexemes.old.rest.now result lexemes.new.rest.now }
{
    let none = List::new(alloc);
    let Some(second) = next_of_run(lexemes, fixities, none.as_slice()) else {
        return Ok(first);
    };
    lexemes.take();
    let first = lower(first, levels)?;
    whole_run(alloc, lexemes, fixities, levels - 1, at, first, second)
}

/// A run behind the first lexeme of its second part.
#[cycle(phrases)]
#[tactic(auto, unfolding(crate::specs::Expressions::whole_run))]
fn whole_run(
    alloc: Global,
    lexemes: &mut Lexemes<'_>,
    fixities: &mut Fixities,
    levels: u32,
    at: At,
    first: Tall<FullExp>,
    second: &Lexeme,
) -> Result<Tall<FullExp>, Stop>
    ensures same { OnOk result (fixities.new ≡ fixities.old) }
    ensures reads { Reads (whole_run (level levels) fixities.old at first second.now)
        lexemes.old.rest.now result lexemes.new.rest.now }
{
    let two = step(
        alloc,
        lexemes,
        fixities,
        levels,
        run_of(alloc, first)?,
        second,
    )?;
    let run = steps(alloc, lexemes, fixities, levels, two)?;
    Ok(run_exp(at, run)?)
}

/// What follows in a run.
#[cycle(phrases)]
#[tactic(auto, using(crate::proofs::ExpSteps::steps_steps))]
fn steps(
    alloc: Global,
    lexemes: &mut Lexemes<'_>,
    fixities: &mut Fixities,
    levels: u32,
    first: Run,
) -> Result<Run, Stop>
    ensures same { OnOk result (fixities.new ≡ fixities.old) }
    ensures reads { Reads (steps (level levels) fixities.old first)
        lexemes.old.rest.now result lexemes.new.rest.now }
{
    let mut run = first;
    while goes_on_next(lexemes, fixities, run.ops.as_slice()) {
        run = one_step(alloc, lexemes, fixities, levels, run)?;
    }
    Ok(run)
}

/// A lexeme with which a run goes on, with what belongs to it.
#[cycle(phrases)]
#[tactic(auto, unfolding(crate::specs::Expressions::one_step))]
fn one_step(
    alloc: Global,
    lexemes: &mut Lexemes<'_>,
    fixities: &mut Fixities,
    levels: u32,
    run: Run,
) -> Result<Run, Stop>
    ensures same { OnOk result (fixities.new ≡ fixities.old) }
    ensures reads { Reads (one_step (level levels) fixities.old run)
        lexemes.old.rest.now result lexemes.new.rest.now }
{
    let following = first_of_more(lexemes, fixities, run.ops.as_slice())?;
    step(alloc, lexemes, fixities, levels, run, following)
}

/// What belongs to a lexeme with which a run goes on, behind it.
#[cycle(phrases)]
#[tactic(auto, using(crate::proofs::ExpSteps::step_steps))]
fn step(
    alloc: Global,
    lexemes: &mut Lexemes<'_>,
    fixities: &mut Fixities,
    levels: u32,
    run: Run,
    following: &Lexeme,
) -> Result<Run, Stop>
    ensures same { OnOk result (fixities.new ≡ fixities.old) }
    ensures reads { Reads (step (level levels) fixities.old run following.now)
        lexemes.old.rest.now result lexemes.new.rest.now }
{
    let Some(name) = infix_name(following) else {
        return atom(alloc, lexemes, fixities, levels, run, following);
    };
    let Some(fixity) = fixities.find(name) else {
        return atom(alloc, lexemes, fixities, levels, run, following);
    };
    let name = Name {
        text: name.copy()?,
        line: following.line,
        col: following.col,
    };
    let run = with_operator(alloc, run, name, fixity)?;
    behind_operator(alloc, lexemes, fixities, levels, run)
}

/// What stands behind an operator.
#[cycle(phrases)]
#[tactic(auto, unfolding(crate::specs::Expressions::behind_operator))]
fn behind_operator(
    alloc: Global,
    lexemes: &mut Lexemes<'_>,
    fixities: &mut Fixities,
    levels: u32,
    run: Run,
) -> Result<Run, Stop>
    ensures same { OnOk result (fixities.new ≡ fixities.old) }
    ensures reads { Reads (behind_operator (level levels) fixities.old run)
        lexemes.old.rest.now result lexemes.new.rest.now }
{
    let start = first_of_atexp(lexemes, fixities)?;
    atom(alloc, lexemes, fixities, levels, run, start)
}

/// An atomic expression of a run, behind its first lexeme.
#[cycle(phrases)]
#[tactic(auto, unfolding(crate::specs::Expressions::atom))]
fn atom(
    alloc: Global,
    lexemes: &mut Lexemes<'_>,
    fixities: &mut Fixities,
    levels: u32,
    run: Run,
    start: &Lexeme,
) -> Result<Run, Stop>
    ensures same { OnOk result (fixities.new ≡ fixities.old) }
    ensures reads { Reads (atom (level levels) fixities.old run start.now)
        lexemes.old.rest.now result lexemes.new.rest.now }
{
    let found = atexp(alloc, lexemes, fixities, levels, start)?;
    Ok(with_atom(run, found)?)
}
