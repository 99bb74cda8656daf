//! What may stand behind an operand of a pattern: a type, and `as` behind a name.

ghost use Rattle.std.specs.Prelude.{◌≡◌, ◌-◌, ◌≤◌, ◌<◌, None, IfOk};
ghost use Rattle.grammars.specs.Grammar.{head_or};
ghost use Rattle.phrase_reading.specs.Words.{and_then};
ghost use Rattle.phrase_reading.specs.Reads.{Reads};
ghost use Rattle.core_types.specs.Types.{ty};
ghost use Rattle.core_patterns.specs.Patterns.{pat, pat_level, operand_height, alone, behind_id, behind_name, typed_id, behind_typed, layer, layered};

use crate::constraints::typed;
use crate::operand::{Operand, leaf_id, no_type, simple, some_type};
use crate::patterns::pat;
use cm_base::{Boxed, NoMemory};
use core_types::types::ty;
use infix_names::fixity::Fixities;
use phrase_reading::lexeme;
use phrase_reading::lexemes::Lexemes;
use phrase_reading::stop::Stop;
use phrase_reading::tall::Tall;
use sml_lexer::Word;
use sml_trees::{At, FullPat, FullTy, OpLong, OpName};
use std::alloc::Global;

/// The name that a pattern is layered under, where `as` stands next behind an identifier.
fn layered(lexemes: &Lexemes<'_>, id: &OpLong) -> Result<Option<OpName>, NoMemory>
    ensures { IfOk result (λ found. found ≡ and_then (layered id.now) (head_or lexemes.now.rest.now None)) }
{
    let Some(next) = lexemes.peek() else {
        return Ok(None);
    };
    if !lexeme::is(Word::As, next) {
        return Ok(None);
    }
    simple(id)
}

/// An operand that no run goes on from, and what stands behind it.
#[cycle(patterns)]
pub fn alone(
    alloc: Global,
    lexemes: &mut Lexemes<'_>,
    fixities: &Fixities,
    place: At,
    operand: Operand,
    levels: u32,
) -> Result<Tall<FullPat>, Stop>
    requires some { 0 < levels }
    requires low { operand_height operand ≤ levels }
    ensures reads { Reads (alone levels (ty (levels - 1)) (pat_level fixities.now (levels - 1)) place operand)
        lexemes.old.rest.now result lexemes.new.rest.now }
    ensures low { IfOk result (λ made. made.height ≤ levels) }
{
    match operand {
        Operand::Id(id) => behind_id(alloc, lexemes, fixities, place, id, levels),
        Operand::Other(found) => typed(alloc, lexemes, place, found, levels),
    }
}

/// A name, and what stands behind it.
#[cycle(patterns)]
#[tactic(auto, using(crate::proofs::PatSteps::behind_id_steps))]
fn behind_id(
    alloc: Global,
    lexemes: &mut Lexemes<'_>,
    fixities: &Fixities,
    place: At,
    id: OpLong,
    levels: u32,
) -> Result<Tall<FullPat>, Stop>
    requires { 0 < levels }
    ensures reads { Reads (behind_id levels (ty (levels - 1)) (pat_level fixities.now (levels - 1)) place id)
        lexemes.old.rest.now result lexemes.new.rest.now }
    ensures low { IfOk result (λ made. made.height ≤ levels) }
{
    if let Some(name) = layered(lexemes, &id)? {
        lexemes.take();
        return layer(alloc, lexemes, fixities, place, name, no_type(), levels);
    }
    behind_name(alloc, lexemes, fixities, place, id, levels)
}

/// A name, and what stands behind it where no pattern is layered under it.
#[cycle(patterns)]
#[tactic(auto, using(crate::proofs::PatSteps::behind_name_steps))]
fn behind_name(
    alloc: Global,
    lexemes: &mut Lexemes<'_>,
    fixities: &Fixities,
    place: At,
    id: OpLong,
    levels: u32,
) -> Result<Tall<FullPat>, Stop>
    requires { 0 < levels }
    ensures reads { Reads (behind_name levels (ty (levels - 1)) (pat_level fixities.now (levels - 1)) place id)
        lexemes.old.rest.now result lexemes.new.rest.now }
    ensures low { IfOk result (λ made. made.height ≤ levels) }
{
    if !lexemes.sees(Word::Colon) {
        return Ok(leaf_id(place, id));
    }
    lexemes.take();
    if levels == 1 {
        return Err(Stop::TooDeep);
    }
    typed_id(alloc, lexemes, fixities, place, id, levels)
}

/// The first type behind a name and a colon, and what stands behind it.
#[cycle(patterns)]
#[tactic(auto, unfolding(crate::specs::Patterns::typed_id))]
fn typed_id(
    alloc: Global,
    lexemes: &mut Lexemes<'_>,
    fixities: &Fixities,
    place: At,
    id: OpLong,
    levels: u32,
) -> Result<Tall<FullPat>, Stop>
    requires { 1 < levels }
    ensures reads { Reads (typed_id levels (ty (levels - 1)) (pat_level fixities.now (levels - 1)) place id)
        lexemes.old.rest.now result lexemes.new.rest.now }
    ensures low { IfOk result (λ made. made.height ≤ levels) }
{
    let found = ty(alloc, lexemes, levels - 1)?;
    behind_typed(alloc, lexemes, fixities, place, id, found, levels)
}

/// A name under its first type, and what stands behind that.
#[cycle(patterns)]
#[tactic(auto, using(crate::proofs::PatSteps::behind_typed_steps))]
fn behind_typed(
    alloc: Global,
    lexemes: &mut Lexemes<'_>,
    fixities: &Fixities,
    place: At,
    id: OpLong,
    found: Tall<FullTy>,
    levels: u32,
) -> Result<Tall<FullPat>, Stop>
    requires some { 1 < levels }
    requires low { found.height < levels }
    ensures reads { Reads (behind_typed levels (ty (levels - 1)) (pat_level fixities.now (levels - 1)) place id found)
        lexemes.old.rest.now result lexemes.new.rest.now }
    ensures low { IfOk result (λ made. made.height ≤ levels) }
{
    if let Some(name) = layered(lexemes, &id)? {
        lexemes.take();
        return layer(
            alloc,
            lexemes,
            fixities,
            place,
            name,
            some_type(found),
            levels,
        );
    }
    let left = Tall {
        tree: FullPat::Typed(
            Boxed::new(alloc, FullPat::Long(id, place))?,
            found.tree,
            place,
        ),
        height: found.height.max(1) + 1,
    };
    typed(alloc, lexemes, place, left, levels)
}

/// The pattern behind `as`.
#[cycle(patterns)]
#[tactic(auto, unfolding(crate::specs::Patterns::layer))]
fn layer(
    alloc: Global,
    lexemes: &mut Lexemes<'_>,
    fixities: &Fixities,
    place: At,
    name: OpName,
    found: Tall<Option<FullTy>>,
    levels: u32,
) -> Result<Tall<FullPat>, Stop>
    requires { found.height < levels }
    ensures reads { Reads (layer (pat fixities.now (levels - 1)) place name found)
        lexemes.old.rest.now result lexemes.new.rest.now }
    ensures low { IfOk result (λ made. made.height ≤ levels) }
{
    let inner = pat(alloc, lexemes, fixities, levels - 1)?;
    Ok(Tall {
        tree: FullPat::As(name, found.tree, Boxed::new(alloc, inner.tree)?, place),
        height: found.height.max(inner.height) + 1,
    })
}
