//! Patterns, read by recursive descent: levels, runs, constraints and layers. docs/language.md has their grammar.

ghost use Rattle.std.specs.Prelude.{◌≡◌, ◌+◌, ◌-◌, ◌≤◌, ◌<◌, None, Some, true, length, IfOk, OnOk};
ghost use Rattle.grammars.specs.Grammar.{begins, head_or};
ghost use Rattle.phrase_reading.specs.Reads.{Reads};
ghost use Rattle.core_patterns.specs.Patterns.{operator};
ghost use Rattle.infix_names.specs.Fixities.{joining};
ghost use Rattle.core_types.specs.Types.{ty};
ghost use Rattle.core_patterns.specs.Patterns.{pat, pat_level, pat_after, atpat_after, operand_height, behind_operand, run_part, run_of, run_rest, run_on, by_operator, operand_behind, argument, going, goes_on, pat_behind, pat_behind_paren, operand_joined};

use crate::atpats::{atpat_after, in_parens};
use crate::constraints::typed;
use crate::layers::alone;
use crate::operand::{Operand, Run, start, takes, with_argument, with_operand};
use crate::pat_starts::{begin_pat, goes_on, going, operator};
use cm_base::List;
use infix_names::fixity::{Fixities, joining};
use phrase_reading::lexeme;
use phrase_reading::lexemes::Lexemes;
use phrase_reading::stop::Stop;
use phrase_reading::tall::Tall;
use sml_lexer::Lexeme;
use sml_trees::{At, Fixity, FullPat, Name};
use std::alloc::Global;

/// A pattern of at most so many levels.
#[cycle(patterns)]
#[tactic(auto, using(crate::proofs::PatSteps::pat_steps))]
pub fn pat(
    alloc: Global,
    lexemes: &mut Lexemes<'_>,
    fixities: &Fixities,
    levels: u32,
) -> Result<Tall<FullPat>, Stop>
    ensures reads { Reads (pat fixities.now levels) lexemes.old.rest.now result lexemes.new.rest.now }
    ensures low { IfOk result (λ made. made.height ≤ levels) }
{
    let first = begin_pat(lexemes, fixities)?;
    if levels == 0 {
        return Err(Stop::TooDeep);
    }
    pat_after(alloc, lexemes, fixities, first, levels)
}

/// A pattern behind its first lexeme.
#[cycle(patterns)]
#[tactic(auto, unfolding(crate::specs::Patterns::pat_after))]
fn pat_after(
    alloc: Global,
    lexemes: &mut Lexemes<'_>,
    fixities: &Fixities,
    first: &Lexeme,
    levels: u32,
) -> Result<Tall<FullPat>, Stop>
    requires { 0 < levels }
    ensures reads { Reads (pat_after fixities.now levels (ty (levels - 1)) (pat_level fixities.now (levels - 1)) first.now)
        lexemes.old.rest.now result lexemes.new.rest.now }
    ensures low { IfOk result (λ made. made.height ≤ levels) }
{
    let operand = atpat_after(alloc, lexemes, fixities, first, levels)?;
    behind_operand(alloc, lexemes, fixities, lexeme::at(first), operand, levels)
}

/// What stands behind the first operand of a pattern.
#[cycle(patterns)]
#[tactic(auto, using(crate::proofs::PatSteps::behind_operand_steps))]
pub fn behind_operand(
    alloc: Global,
    lexemes: &mut Lexemes<'_>,
    fixities: &Fixities,
    place: At,
    operand: Operand,
    levels: u32,
) -> Result<Tall<FullPat>, Stop>
    requires some { 0 < levels }
    requires low { operand_height operand ≤ levels }
    ensures reads { Reads (behind_operand fixities.now levels (ty (levels - 1)) (pat_level fixities.now (levels - 1)) place operand)
        lexemes.old.rest.now result lexemes.new.rest.now }
    ensures low { IfOk result (λ made. made.height ≤ levels) }
{
    let none = List::new(alloc);
    if going(lexemes, fixities, takes(&operand), none.as_slice()) {
        let run = start(alloc, place, operand)?;
        return run_of(alloc, lexemes, fixities, place, run, levels);
    }
    alone(alloc, lexemes, fixities, place, operand, levels)
}

/// A run of several parts, of which the first was read.
#[cycle(patterns)]
#[tactic(auto, unfolding(crate::specs::Patterns::run_of, crate::specs::Patterns::run_rest))]
pub fn run_of(
    alloc: Global,
    lexemes: &mut Lexemes<'_>,
    fixities: &Fixities,
    place: At,
    run: Run,
    levels: u32,
) -> Result<Tall<FullPat>, Stop>
    requires low { run.height ≤ levels }
    requires sees { begins (goes_on fixities.now run) (head_or lexemes.old.rest.now None) ≡ true }
    ensures reads { Reads (run_of fixities.now levels (ty (levels - 1)) (pat_level fixities.now (levels - 1)) place run)
        lexemes.old.rest.now result lexemes.new.rest.now }
    ensures low { IfOk result (λ made. made.height ≤ levels) }
{
    let two = run_part(alloc, lexemes, fixities, run, levels)?;
    let all = run_on(alloc, lexemes, fixities, two, levels)?;
    let whole = Tall {
        tree: FullPat::Run(all.items, place),
        height: all.height + 1,
    };
    typed(alloc, lexemes, place, whole, levels)
}

/// The parts of a run that are left.
#[cycle(patterns)]
#[tactic(auto, using(crate::proofs::PatSteps::run_on_steps))]
fn run_on(
    alloc: Global,
    lexemes: &mut Lexemes<'_>,
    fixities: &Fixities,
    first: Run,
    levels: u32,
) -> Result<Run, Stop>
    requires { first.height < levels }
    ensures reads { Reads (run_on fixities.now levels (pat_level fixities.now (levels - 1)) first)
        lexemes.old.rest.now result lexemes.new.rest.now }
    ensures low { IfOk result (λ made. made.height < levels) }
{
    let mut run = first;
    while goes_on(lexemes, fixities, &run) {
        run = run_part(alloc, lexemes, fixities, run, levels)?;
    }
    Ok(run)
}

/// One more part of a run.
#[cycle(patterns)]
#[tactic(auto, using(crate::proofs::PatSteps::run_part_steps))]
fn run_part(
    alloc: Global,
    lexemes: &mut Lexemes<'_>,
    fixities: &Fixities,
    run: Run,
    levels: u32,
) -> Result<Run, Stop>
    requires low { run.height ≤ levels }
    requires sees { begins (goes_on fixities.now run) (head_or lexemes.old.rest.now None) ≡ true }
    ensures reads { Reads (run_part fixities.now levels (pat_level fixities.now (levels - 1)) run)
        lexemes.old.rest.now result lexemes.new.rest.now }
    ensures low { IfOk result (λ made. made.height < levels) }
    ensures shorter { OnOk result (length lexemes.new.rest.now < length lexemes.old.rest.now) }
{
    let Some(first) = lexemes.peek() else {
        return Err(Stop::Refused);
    };
    lexemes.take();
    if run.height == levels {
        return Err(Stop::TooDeep);
    }
    part_after(alloc, lexemes, fixities, run, first, levels)
}

/// One more part of a run, behind its first lexeme.
#[cycle(patterns)]
fn part_after(
    alloc: Global,
    lexemes: &mut Lexemes<'_>,
    fixities: &Fixities,
    run: Run,
    first: &Lexeme,
    levels: u32,
) -> Result<Run, Stop>
    requires { run.height < levels }
    ensures reads { Reads (by_operator fixities.now (pat_level fixities.now (levels - 1)) run first.now
        (joining (operator fixities.now first.now) run.ops)) lexemes.old.rest.now result lexemes.new.rest.now }
    ensures low { IfOk result (λ made. made.height < levels) }
{
    let fixity = joining(operator(fixities, first), run.ops.as_slice());
    part_by(alloc, lexemes, fixities, run, first, fixity, levels)
}

/// An argument, or what stands behind an operator.
#[cycle(patterns)]
fn part_by(
    alloc: Global,
    lexemes: &mut Lexemes<'_>,
    fixities: &Fixities,
    run: Run,
    first: &Lexeme,
    fixity: Option<Fixity>,
    levels: u32,
) -> Result<Run, Stop>
    requires { run.height < levels }
    ensures reads { Reads (by_operator fixities.now (pat_level fixities.now (levels - 1)) run first.now fixity)
        lexemes.old.rest.now result lexemes.new.rest.now }
    ensures low { IfOk result (λ made. made.height < levels) }
{
    match fixity {
        None => argument(alloc, lexemes, fixities, run, first, levels),
        Some(f) => {
            let name = lexeme::operator_name(alloc, first)?;
            operand_behind(alloc, lexemes, fixities, run, name, f, levels)
        }
    }
}

/// An argument behind its first lexeme.
#[cycle(patterns)]
#[tactic(auto, unfolding(crate::specs::Patterns::argument))]
fn argument(
    alloc: Global,
    lexemes: &mut Lexemes<'_>,
    fixities: &Fixities,
    run: Run,
    first: &Lexeme,
    levels: u32,
) -> Result<Run, Stop>
    requires { run.height < levels }
    ensures reads { Reads (argument (pat_level fixities.now (levels - 1)) run first.now)
        lexemes.old.rest.now result lexemes.new.rest.now }
    ensures low { IfOk result (λ made. made.height < levels) }
{
    let operand = operand_after(alloc, lexemes, fixities, first, levels - 1)?;
    Ok(with_argument(run, lexeme::at(first), operand)?)
}

/// What stands behind an operator.
#[cycle(patterns)]
#[tactic(auto, using(crate::proofs::PatSteps::operand_behind_steps))]
fn operand_behind(
    alloc: Global,
    lexemes: &mut Lexemes<'_>,
    fixities: &Fixities,
    run: Run,
    name: Name,
    fixity: Fixity,
    levels: u32,
) -> Result<Run, Stop>
    requires { run.height < levels }
    ensures reads { Reads (operand_behind fixities.now (pat_level fixities.now (levels - 1)) run name fixity)
        lexemes.old.rest.now result lexemes.new.rest.now }
    ensures low { IfOk result (λ made. made.height < levels) }
{
    let first = begin_pat(lexemes, fixities)?;
    operand_joined(alloc, lexemes, fixities, run, name, fixity, first, levels)
}

/// The operand behind an operator, behind its own first lexeme.
#[cycle(patterns)]
#[tactic(auto, unfolding(crate::specs::Patterns::operand_joined))]
fn operand_joined(
    alloc: Global,
    lexemes: &mut Lexemes<'_>,
    fixities: &Fixities,
    run: Run,
    name: Name,
    fixity: Fixity,
    first: &Lexeme,
    levels: u32,
) -> Result<Run, Stop>
    requires { run.height < levels }
    ensures reads { Reads (operand_joined (pat_level fixities.now (levels - 1)) run name fixity first.now)
        lexemes.old.rest.now result lexemes.new.rest.now }
    ensures low { IfOk result (λ made. made.height < levels) }
{
    let operand = operand_after(alloc, lexemes, fixities, first, levels - 1)?;
    Ok(with_operand(alloc, run, name, fixity, lexeme::at(first), operand)?)
}

/// An atomic pattern of at most so many levels, behind its first lexeme.
#[cycle(patterns)]
#[tactic(auto, using(crate::proofs::PatSteps::operand_steps))]
pub fn operand_after(
    alloc: Global,
    lexemes: &mut Lexemes<'_>,
    fixities: &Fixities,
    first: &Lexeme,
    levels: u32,
) -> Result<Operand, Stop>
    ensures reads { Reads ((pat_level fixities.now levels).atpat first.now)
        lexemes.old.rest.now result lexemes.new.rest.now }
    ensures low { IfOk result (λ made. operand_height made ≤ levels) }
{
    if levels == 0 {
        return Err(Stop::TooDeep);
    }
    atpat_after(alloc, lexemes, fixities, first, levels)
}

/// A pattern of at most so many levels, behind its first lexeme.
#[tactic(auto, using(crate::proofs::PatSteps::pat_behind_steps))]
pub fn pat_behind(
    alloc: Global,
    lexemes: &mut Lexemes<'_>,
    fixities: &Fixities,
    first: &Lexeme,
    levels: u32,
) -> Result<Tall<FullPat>, Stop>
    ensures reads { Reads (pat_behind fixities.now levels first.now) lexemes.old.rest.now result lexemes.new.rest.now }
    ensures low { IfOk result (λ made. made.height ≤ levels) }
{
    if levels == 0 {
        return Err(Stop::TooDeep);
    }
    pat_after(alloc, lexemes, fixities, first, levels)
}

/// A pattern of at most so many levels, behind its opening parenthesis.
#[tactic(auto, unfolding(crate::specs::Patterns::pat_behind_paren))]
pub fn pat_behind_paren(
    alloc: Global,
    lexemes: &mut Lexemes<'_>,
    fixities: &Fixities,
    place: At,
    levels: u32,
) -> Result<Tall<FullPat>, Stop>
    requires { 0 < levels }
    ensures reads { Reads (pat_behind_paren fixities.now levels (ty (levels - 1)) (pat_level fixities.now (levels - 1)) place)
        lexemes.old.rest.now result lexemes.new.rest.now }
    ensures low { IfOk result (λ made. made.height ≤ levels) }
{
    let first = in_parens(alloc, lexemes, fixities, place, levels)?;
    behind_operand(
        alloc,
        lexemes,
        fixities,
        place,
        Operand::Other(first),
        levels,
    )
}
