//! Record patterns, read by recursive descent.

ghost use Rattle.std.specs.Prelude.{◌≡◌, ◌-◌, ◌≤◌, ◌<◌, IfOk};
ghost use Rattle.phrase_reading.specs.Sized.{further, maybe};
ghost use Rattle.phrase_reading.specs.Reads.{Reads};
ghost use Rattle.core_types.specs.Types.{ty};
ghost use Rattle.core_patterns.specs.Patterns.{pat, record_of, fields_of, field, field_behind, labelled, named_field};

use crate::operand::leaf_pat;
use crate::patterns::pat;
use cm_base::List;
use core_types::types::ty;
use infix_names::fixity::Fixities;
use phrase_reading::lexemes::{Label, Lexemes};
use phrase_reading::stop::Stop;
use phrase_reading::tall::{Tall, more, one};
use sml_lexer::Word;
use sml_trees::{At, FullPat, FullPatField, FullTy, Name};
use std::alloc::Global;

/// A type behind a colon, or nothing.
#[tactic(auto, using(crate::proofs::PatSteps::maybe_steps))]
fn maybe_ty(
    alloc: Global,
    lexemes: &mut Lexemes<'_>,
    levels: u32,
) -> Result<Tall<Option<FullTy>>, Stop>
    ensures reads { Reads (maybe Word.Colon (ty levels)) lexemes.old.rest.now result lexemes.new.rest.now }
    ensures low { IfOk result (λ made. made.height ≤ levels) }
{
    if !lexemes.sees(Word::Colon) {
        return Ok(Tall {
            tree: None,
            height: 0,
        });
    }
    lexemes.take();
    let found = ty(alloc, lexemes, levels)?;
    Ok(Tall {
        tree: Some(found.tree),
        height: found.height,
    })
}

/// A record pattern behind its brace.
#[cycle(patterns)]
#[tactic(auto, using(crate::proofs::PatSteps::pat_record_steps))]
pub fn record_of(
    alloc: Global,
    lexemes: &mut Lexemes<'_>,
    fixities: &Fixities,
    place: At,
    levels: u32,
) -> Result<Tall<FullPat>, Stop>
    requires { 0 < levels }
    ensures reads { Reads (record_of (ty (levels - 1)) (pat fixities.now (levels - 1)) place)
        lexemes.old.rest.now result lexemes.new.rest.now }
    ensures low { IfOk result (λ made. made.height ≤ levels) }
{
    if lexemes.sees(Word::CloseBrace) {
        lexemes.take();
        return Ok(leaf_pat(FullPat::Record(List::new(alloc), place)));
    }
    fields_of(alloc, lexemes, fixities, place, levels)
}

/// The fields of a record pattern, and its closing brace.
#[cycle(patterns)]
#[tactic(auto, unfolding(crate::specs::Patterns::fields_of))]
fn fields_of(
    alloc: Global,
    lexemes: &mut Lexemes<'_>,
    fixities: &Fixities,
    place: At,
    levels: u32,
) -> Result<Tall<FullPat>, Stop>
    requires { 0 < levels }
    ensures reads { Reads (fields_of (ty (levels - 1)) (pat fixities.now (levels - 1)) place)
        lexemes.old.rest.now result lexemes.new.rest.now }
    ensures low { IfOk result (λ made. made.height ≤ levels) }
{
    let first = field(alloc, lexemes, fixities, levels)?;
    let all = fields(alloc, lexemes, fixities, one(alloc, first)?, levels)?;
    lexemes.expect(Word::CloseBrace)?;
    Ok(Tall {
        tree: FullPat::Record(all.tree, place),
        height: all.height + 1,
    })
}

/// Further fields, each behind a comma.
#[cycle(patterns)]
#[tactic(auto, using(phrase_reading::proofs::Steps::further_steps))]
fn fields(
    alloc: Global,
    lexemes: &mut Lexemes<'_>,
    fixities: &Fixities,
    first: Tall<List<FullPatField>>,
    levels: u32,
) -> Result<Tall<List<FullPatField>>, Stop>
    requires { first.height < levels }
    ensures reads { Reads (further Word.Comma (field (ty (levels - 1)) (pat fixities.now (levels - 1))) first)
        lexemes.old.rest.now result lexemes.new.rest.now }
    ensures low { IfOk result (λ made. made.height < levels) }
{
    let mut found = first;
    while lexemes.sees(Word::Comma) {
        lexemes.take();
        let next = field(alloc, lexemes, fixities, levels)?;
        found = more(found, next)?;
    }
    Ok(found)
}

/// A field of a record pattern.
#[cycle(patterns)]
#[tactic(auto, unfolding(crate::specs::Patterns::field))]
fn field(
    alloc: Global,
    lexemes: &mut Lexemes<'_>,
    fixities: &Fixities,
    levels: u32,
) -> Result<Tall<FullPatField>, Stop>
    requires { 0 < levels }
    ensures reads { Reads (field (ty (levels - 1)) (pat fixities.now (levels - 1)))
        lexemes.old.rest.now result lexemes.new.rest.now }
    ensures low { IfOk result (λ made. made.height < levels) }
{
    let label = lexemes.field_label(alloc)?;
    field_behind(alloc, lexemes, fixities, label, levels)
}

/// A field behind its label.
#[cycle(patterns)]
#[tactic(auto, using(crate::proofs::PatSteps::field_behind_steps))]
fn field_behind(
    alloc: Global,
    lexemes: &mut Lexemes<'_>,
    fixities: &Fixities,
    label: Label,
    levels: u32,
) -> Result<Tall<FullPatField>, Stop>
    requires { 0 < levels }
    ensures reads { Reads (field_behind (ty (levels - 1)) (pat fixities.now (levels - 1)) label)
        lexemes.old.rest.now result lexemes.new.rest.now }
    ensures low { IfOk result (λ made. made.height < levels) }
{
    if lexemes.sees(Word::Equals) {
        lexemes.take();
        return labelled(alloc, lexemes, fixities, label.name, levels);
    }
    if !label.is_name {
        return Err(Stop::Refused);
    }
    named_field(alloc, lexemes, fixities, label.name, levels)
}

/// The pattern of a field behind `=`.
#[cycle(patterns)]
#[tactic(auto, unfolding(crate::specs::Patterns::labelled))]
fn labelled(
    alloc: Global,
    lexemes: &mut Lexemes<'_>,
    fixities: &Fixities,
    name: Name,
    levels: u32,
) -> Result<Tall<FullPatField>, Stop>
    requires { 0 < levels }
    ensures reads { Reads (labelled (pat fixities.now (levels - 1)) name)
        lexemes.old.rest.now result lexemes.new.rest.now }
    ensures low { IfOk result (λ made. made.height < levels) }
{
    let inner = pat(alloc, lexemes, fixities, levels - 1)?;
    Ok(Tall {
        tree: FullPatField::Labelled(name, inner.tree),
        height: inner.height,
    })
}

/// A field that is a name, with what may stand behind it.
#[cycle(patterns)]
#[tactic(auto, unfolding(crate::specs::Patterns::named_field))]
fn named_field(
    alloc: Global,
    lexemes: &mut Lexemes<'_>,
    fixities: &Fixities,
    name: Name,
    levels: u32,
) -> Result<Tall<FullPatField>, Stop>
    requires { 0 < levels }
    ensures reads { Reads (named_field (ty (levels - 1)) (pat fixities.now (levels - 1)) name)
        lexemes.old.rest.now result lexemes.new.rest.now }
    ensures low { IfOk result (λ made. made.height < levels) }
{
    let found = maybe_ty(alloc, lexemes, levels - 1)?;
    let inner = maybe_pat(alloc, lexemes, fixities, levels - 1)?;
    Ok(Tall {
        tree: FullPatField::Named(name, found.tree, inner.tree),
        height: found.height.max(inner.height),
    })
}

/// A pattern behind `as`, or nothing.
#[cycle(patterns)]
#[tactic(auto, using(crate::proofs::PatSteps::maybe_steps))]
fn maybe_pat(
    alloc: Global,
    lexemes: &mut Lexemes<'_>,
    fixities: &Fixities,
    levels: u32,
) -> Result<Tall<Option<FullPat>>, Stop>
    ensures reads { Reads (maybe Word.As (pat fixities.now levels)) lexemes.old.rest.now result lexemes.new.rest.now }
    ensures low { IfOk result (λ made. made.height ≤ levels) }
{
    if !lexemes.sees(Word::As) {
        return Ok(Tall {
            tree: None,
            height: 0,
        });
    }
    lexemes.take();
    let found = pat(alloc, lexemes, fixities, levels)?;
    Ok(Tall {
        tree: Some(found.tree),
        height: found.height,
    })
}
