//! Atomic patterns, read by recursive descent.

ghost use Rattle.std.specs.Prelude.{◌≡◌, ◌+◌, ◌-◌, ◌≤◌, ◌<◌, IfOk};
ghost use Rattle.phrase_reading.specs.Sized.{further};
ghost use Rattle.phrase_reading.specs.Reads.{Reads};
ghost use Rattle.core_types.specs.Types.{ty};
ghost use Rattle.core_patterns.specs.Patterns.{pat, operand_height, constant, atpat_after, atpat_word, in_parens};
ghost use Rattle.core_patterns.specs.Patterns.{inside_parens, behind_first, tuple_of, in_brackets, items_of, behind_op};

use crate::operand::{Operand, leaf_pat};
use crate::pat_fields::record_of;
use crate::patterns::pat;
use cm_base::{Boxed, List};
use infix_names::fixity::Fixities;
use phrase_reading::lexeme;
use phrase_reading::lexemes::Lexemes;
use phrase_reading::stop::Stop;
use phrase_reading::tall::{Tall, more, one};
use sml_lexer::{Lexeme, LexemeKind, Word};
use sml_trees::{At, Constant, FullPat, LongName, OpLong};
use std::alloc::Global;

/// A constant of this value.
fn constant(place: At, value: Constant) -> Operand
    ensures made { result ≡ constant place value }
    ensures height { operand_height result ≡ 1 }
{
    Operand::Other(leaf_pat(FullPat::Constant(value, place)))
}

/// An identifier behind `op`.
#[tactic(auto, unfolding(crate::specs::Patterns::behind_op))]
fn behind_op(lexemes: &mut Lexemes<'_>) -> Result<Operand, Stop>
    ensures reads { Reads behind_op lexemes.old.rest.now result lexemes.new.rest.now }
    ensures height { IfOk result (λ made. operand_height made ≡ 1) }
{
    let long = lexemes.long()?;
    Ok(Operand::Id(OpLong { op: true, long }))
}

/// An atomic pattern behind its first lexeme.
#[cycle(patterns)]
pub fn atpat_after(
    alloc: Global,
    lexemes: &mut Lexemes<'_>,
    fixities: &Fixities,
    first: &Lexeme,
    levels: u32,
) -> Result<Operand, Stop>
    requires { 0 < levels }
    ensures reads { Reads (atpat_after (ty (levels - 1)) (pat fixities.now (levels - 1)) first.now)
        lexemes.old.rest.now result lexemes.new.rest.now }
    ensures low { IfOk result (λ made. operand_height made ≤ levels) }
{
    let place = lexeme::at(first);
    match &first.kind {
        LexemeKind::Reserved(text) => {
            let word = Word::of(text.as_bytes());
            atpat_word(alloc, lexemes, fixities, place, word, levels)
        }
        LexemeKind::Name(parts) => Ok(Operand::Id(OpLong {
            op: false,
            long: LongName {
                parts: lexeme::copy_parts(parts)?,
                line: first.line,
                col: first.col,
            },
        })),
        LexemeKind::TyVar(_) => Err(Stop::Refused),
        LexemeKind::Int { value, label: _ } => Ok(constant(place, Constant::Int(*value))),
        LexemeKind::Str(text) => Ok(constant(place, Constant::Str(text.copy()?))),
        LexemeKind::Char(byte) => Ok(constant(place, Constant::Char(*byte))),
    }
}

/// An atomic pattern behind a reserved word or mark.
#[cycle(patterns)]
#[tactic(auto, unfolding(crate::specs::Patterns::other))]
fn atpat_word(
    alloc: Global,
    lexemes: &mut Lexemes<'_>,
    fixities: &Fixities,
    place: At,
    word: Option<Word>,
    levels: u32,
) -> Result<Operand, Stop>
    requires { 0 < levels }
    ensures reads { Reads (atpat_word (ty (levels - 1)) (pat fixities.now (levels - 1)) place word)
        lexemes.old.rest.now result lexemes.new.rest.now }
    ensures low { IfOk result (λ made. operand_height made ≤ levels) }
{
    match word {
        Some(Word::Wild) => Ok(Operand::Other(leaf_pat(FullPat::Wild(place)))),
        Some(Word::Op) => behind_op(lexemes),
        Some(Word::Open) => {
            let found = in_parens(alloc, lexemes, fixities, place, levels)?;
            Ok(Operand::Other(found))
        }
        Some(Word::OpenBrace) => {
            let found = record_of(alloc, lexemes, fixities, place, levels)?;
            Ok(Operand::Other(found))
        }
        Some(Word::OpenBracket) => {
            let found = in_brackets(alloc, lexemes, fixities, place, levels)?;
            Ok(Operand::Other(found))
        }
        _ => Err(Stop::Refused),
    }
}

/// What begins with a parenthesis, behind it.
#[cycle(patterns)]
#[tactic(auto, using(crate::proofs::PatSteps::in_parens_steps))]
pub fn in_parens(
    alloc: Global,
    lexemes: &mut Lexemes<'_>,
    fixities: &Fixities,
    place: At,
    levels: u32,
) -> Result<Tall<FullPat>, Stop>
    requires { 0 < levels }
    ensures reads { Reads (in_parens (pat fixities.now (levels - 1)) place)
        lexemes.old.rest.now result lexemes.new.rest.now }
    ensures low { IfOk result (λ made. made.height ≤ levels) }
{
    if lexemes.sees(Word::Close) {
        lexemes.take();
        return Ok(leaf_pat(FullPat::Unit(place)));
    }
    inside_parens(alloc, lexemes, fixities, place, levels)
}

/// The first of what stands in parentheses, and the rest of it.
#[cycle(patterns)]
#[tactic(auto, unfolding(crate::specs::Patterns::inside_parens))]
fn inside_parens(
    alloc: Global,
    lexemes: &mut Lexemes<'_>,
    fixities: &Fixities,
    place: At,
    levels: u32,
) -> Result<Tall<FullPat>, Stop>
    requires { 0 < levels }
    ensures reads { Reads (inside_parens (pat fixities.now (levels - 1)) place)
        lexemes.old.rest.now result lexemes.new.rest.now }
    ensures low { IfOk result (λ made. made.height ≤ levels) }
{
    let first = pat(alloc, lexemes, fixities, levels - 1)?;
    behind_first(alloc, lexemes, fixities, place, first, levels)
}

/// What stands behind the first pattern in parentheses.
#[cycle(patterns)]
#[tactic(auto, using(crate::proofs::PatSteps::behind_first_steps))]
pub fn behind_first(
    alloc: Global,
    lexemes: &mut Lexemes<'_>,
    fixities: &Fixities,
    place: At,
    first: Tall<FullPat>,
    levels: u32,
) -> Result<Tall<FullPat>, Stop>
    requires { first.height < levels }
    ensures reads { Reads (behind_first (pat fixities.now (levels - 1)) place first)
        lexemes.old.rest.now result lexemes.new.rest.now }
    ensures low { IfOk result (λ made. made.height ≤ levels) }
{
    if lexemes.sees(Word::Comma) {
        lexemes.take();
        return tuple_of(alloc, lexemes, fixities, place, first, levels);
    }
    lexemes.expect(Word::Close)?;
    Ok(Tall {
        tree: FullPat::Paren(Boxed::new(alloc, first.tree)?, place),
        height: first.height + 1,
    })
}

/// The second of several patterns in parentheses, and the other ones.
#[cycle(patterns)]
#[tactic(auto, unfolding(crate::specs::Patterns::tuple_of))]
fn tuple_of(
    alloc: Global,
    lexemes: &mut Lexemes<'_>,
    fixities: &Fixities,
    place: At,
    first: Tall<FullPat>,
    levels: u32,
) -> Result<Tall<FullPat>, Stop>
    requires { first.height < levels }
    ensures reads { Reads (tuple_of (pat fixities.now (levels - 1)) place first)
        lexemes.old.rest.now result lexemes.new.rest.now }
    ensures low { IfOk result (λ made. made.height ≤ levels) }
{
    let second = pat(alloc, lexemes, fixities, levels - 1)?;
    let found = more(one(alloc, first)?, second)?;
    let parts = patterns(alloc, lexemes, fixities, found, levels)?;
    lexemes.expect(Word::Close)?;
    Ok(Tall {
        tree: FullPat::Tuple(parts.tree, place),
        height: parts.height + 1,
    })
}

/// Further patterns, each behind a comma.
#[cycle(patterns)]
#[tactic(auto, using(phrase_reading::proofs::Steps::further_steps))]
fn patterns(
    alloc: Global,
    lexemes: &mut Lexemes<'_>,
    fixities: &Fixities,
    first: Tall<List<FullPat>>,
    levels: u32,
) -> Result<Tall<List<FullPat>>, Stop>
    requires { first.height < levels }
    ensures reads { Reads (further Word.Comma (pat fixities.now (levels - 1)) first)
        lexemes.old.rest.now result lexemes.new.rest.now }
    ensures low { IfOk result (λ made. made.height < levels) }
{
    let mut found = first;
    while lexemes.sees(Word::Comma) {
        lexemes.take();
        let next = pat(alloc, lexemes, fixities, levels - 1)?;
        found = more(found, next)?;
    }
    Ok(found)
}

/// A list behind its bracket.
#[cycle(patterns)]
#[tactic(auto, using(crate::proofs::PatSteps::in_brackets_steps))]
fn in_brackets(
    alloc: Global,
    lexemes: &mut Lexemes<'_>,
    fixities: &Fixities,
    place: At,
    levels: u32,
) -> Result<Tall<FullPat>, Stop>
    requires { 0 < levels }
    ensures reads { Reads (in_brackets (pat fixities.now (levels - 1)) place)
        lexemes.old.rest.now result lexemes.new.rest.now }
    ensures low { IfOk result (λ made. made.height ≤ levels) }
{
    if lexemes.sees(Word::CloseBracket) {
        lexemes.take();
        return Ok(leaf_pat(FullPat::List(List::new(alloc), place)));
    }
    items_of(alloc, lexemes, fixities, place, levels)
}

/// The patterns of a list, and its closing bracket.
#[cycle(patterns)]
#[tactic(auto, unfolding(crate::specs::Patterns::items_of))]
fn items_of(
    alloc: Global,
    lexemes: &mut Lexemes<'_>,
    fixities: &Fixities,
    place: At,
    levels: u32,
) -> Result<Tall<FullPat>, Stop>
    requires { 0 < levels }
    ensures reads { Reads (items_of (pat fixities.now (levels - 1)) place)
        lexemes.old.rest.now result lexemes.new.rest.now }
    ensures low { IfOk result (λ made. made.height ≤ levels) }
{
    let first = pat(alloc, lexemes, fixities, levels - 1)?;
    let items = patterns(alloc, lexemes, fixities, one(alloc, first)?, levels)?;
    lexemes.expect(Word::CloseBracket)?;
    Ok(Tall {
        tree: FullPat::List(items.tree, place),
        height: items.height + 1,
    })
}
