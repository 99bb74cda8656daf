//! Types, read by recursive descent. docs/language.md has their grammar.

ghost use Rattle.std.specs.Prelude.{◌≡◌, ◌+◌, ◌-◌, ◌≤◌, ◌<◌, None, Some, true, false, drop, IfOk, MatchResult};
ghost use Rattle.grammars.specs.Grammar.{begins, head_or};
ghost use Rattle.phrase_reading.specs.Sized.{leaf, further};
ghost use Rattle.phrase_reading.specs.Reads.{Reads};
ghost use Rattle.core_types.specs.Types.{ty, ty_level, starts_ty, atom_after, in_parens, behind_first, applied_all, record_of, fields_of, field, part_after, tuple, tuple_of, starred, arrow, arrow_of, ty_after};

use crate::constructors::applied;
use crate::starts::starts_ty;
use cm_base::{Boxed, List};
use phrase_reading::lexeme;
use phrase_reading::lexemes::Lexemes;
use phrase_reading::stop::Stop;
use phrase_reading::tall::{Tall, more, one};
use sml_lexer::{Lexeme, LexemeKind, Word};
use sml_trees::{At, FullTy, FullTyField, LongName, Name};
use std::alloc::Global;

/// Takes the lexeme that a type begins with.
fn begin<'a>(lexemes: &mut Lexemes<'a>) -> Result<&'a Lexeme, Stop>
    ensures { MatchResult result
        (λ first. (head_or lexemes.old.rest.now None ≡ Some first.now) × (starts_ty first.now ≡ true)
        × (lexemes.new.rest.now ≡ drop 1 lexemes.old.rest.now))
        (λ stop. (stop ≡ Stop.Refused) × (begins starts_ty (head_or lexemes.old.rest.now None) ≡ false)
        × (lexemes.new.rest.now ≡ lexemes.old.rest.now)) }
{
    let Some(first) = lexemes.peek() else {
        return Err(Stop::Refused);
    };
    if !starts_ty(first) {
        return Err(Stop::Refused);
    }
    lexemes.take();
    Ok(first)
}

/// A type of at most so many levels.
#[cycle(types)]
#[tactic(auto, using(crate::proofs::TypeSteps::ty_steps))]
pub fn ty(alloc: Global, lexemes: &mut Lexemes<'_>, levels: u32) -> Result<Tall<FullTy>, Stop>
    ensures reads { Reads (ty levels) lexemes.old.rest.now result lexemes.new.rest.now }
    ensures low { IfOk result (λ made. made.height ≤ levels) }
{
    let first = begin(lexemes)?;
    if levels == 0 {
        return Err(Stop::TooDeep);
    }
    ty_after(alloc, lexemes, first, levels)
}

/// What stands beside a `*`, of at most so many levels.
#[cycle(types)]
#[tactic(auto, using(crate::proofs::TypeSteps::part_steps))]
fn part(alloc: Global, lexemes: &mut Lexemes<'_>, levels: u32) -> Result<Tall<FullTy>, Stop>
    ensures reads { Reads (ty_level levels).part lexemes.old.rest.now result lexemes.new.rest.now }
    ensures low { IfOk result (λ made. made.height ≤ levels) }
{
    let first = begin(lexemes)?;
    if levels == 0 {
        return Err(Stop::TooDeep);
    }
    part_after(alloc, lexemes, first, levels)
}

/// A type behind its first lexeme.
#[cycle(types)]
#[tactic(auto, unfolding(crate::specs::Types::ty_after))]
fn ty_after(
    alloc: Global,
    lexemes: &mut Lexemes<'_>,
    first: &Lexeme,
    levels: u32,
) -> Result<Tall<FullTy>, Stop>
    requires { 0 < levels }
    ensures reads { Reads (ty_after levels (ty_level (levels - 1)) first.now) lexemes.old.rest.now
        result lexemes.new.rest.now }
    ensures low { IfOk result (λ made. made.height ≤ levels) }
{
    let place = lexeme::at(first);
    let one = part_after(alloc, lexemes, first, levels)?;
    let left = tuple(alloc, lexemes, place, one, levels)?;
    arrow(alloc, lexemes, place, left, levels)
}

/// What stands beside a `*`, behind its first lexeme.
#[cycle(types)]
#[tactic(auto, unfolding(crate::specs::Types::part_after))]
fn part_after(
    alloc: Global,
    lexemes: &mut Lexemes<'_>,
    first: &Lexeme,
    levels: u32,
) -> Result<Tall<FullTy>, Stop>
    requires { 0 < levels }
    ensures reads { Reads (part_after levels (ty (levels - 1)) first.now) lexemes.old.rest.now
        result lexemes.new.rest.now }
    ensures low { IfOk result (λ made. made.height ≤ levels) }
{
    let atom = atom_after(alloc, lexemes, first, levels)?;
    applied(alloc, lexemes, lexeme::at(first), atom, levels)
}

/// A type that makes one more level with a tree in it.
fn leaf(tree: FullTy) -> Tall<FullTy>
    ensures { result ≡ leaf tree }
{
    Tall { tree, height: 1 }
}

/// An atom behind its first lexeme.
#[cycle(types)]
fn atom_after(
    alloc: Global,
    lexemes: &mut Lexemes<'_>,
    first: &Lexeme,
    levels: u32,
) -> Result<Tall<FullTy>, Stop>
    requires { 0 < levels }
    ensures reads { Reads (atom_after (ty (levels - 1)) first.now) lexemes.old.rest.now result lexemes.new.rest.now }
    ensures low { IfOk result (λ made. made.height ≤ levels) }
{
    let place = lexeme::at(first);
    match &first.kind {
        LexemeKind::Reserved(text) => match Word::of(text.as_bytes()) {
            Some(Word::Open) => in_parens(alloc, lexemes, place, levels),
            Some(Word::OpenBrace) => record_of(alloc, lexemes, place, levels),
            _ => Err(Stop::Refused),
        },
        LexemeKind::Name(parts) => {
            let long = LongName {
                parts: lexeme::copy_parts(parts)?,
                line: first.line,
                col: first.col,
            };
            Ok(leaf(FullTy::Con(long, place)))
        }
        LexemeKind::TyVar(text) => {
            let name = Name {
                text: text.copy()?,
                line: first.line,
                col: first.col,
            };
            Ok(leaf(FullTy::Var(name, place)))
        }
        _ => Err(Stop::Refused),
    }
}

/// What begins with a parenthesis, behind it.
#[cycle(types)]
#[tactic(auto, unfolding(crate::specs::Types::in_parens))]
fn in_parens(
    alloc: Global,
    lexemes: &mut Lexemes<'_>,
    place: At,
    levels: u32,
) -> Result<Tall<FullTy>, Stop>
    requires { 0 < levels }
    ensures reads { Reads (in_parens (ty (levels - 1)) place) lexemes.old.rest.now result lexemes.new.rest.now }
    ensures low { IfOk result (λ made. made.height ≤ levels) }
{
    let first = ty(alloc, lexemes, levels - 1)?;
    behind_first(alloc, lexemes, place, first, levels)
}

/// What stands behind the first type in parentheses.
#[cycle(types)]
#[tactic(auto, using(crate::proofs::TypeSteps::behind_first_steps))]
fn behind_first(
    alloc: Global,
    lexemes: &mut Lexemes<'_>,
    place: At,
    first: Tall<FullTy>,
    levels: u32,
) -> Result<Tall<FullTy>, Stop>
    requires { first.height < levels }
    ensures reads { Reads (behind_first (ty (levels - 1)) place first) lexemes.old.rest.now
        result lexemes.new.rest.now }
    ensures low { IfOk result (λ made. made.height ≤ levels) }
{
    if lexemes.sees(Word::Comma) {
        lexemes.take();
        return applied_all(alloc, lexemes, place, first, levels);
    }
    lexemes.expect(Word::Close)?;
    Ok(Tall {
        tree: FullTy::Paren(Boxed::new(alloc, first.tree)?, place),
        height: first.height + 1,
    })
}

/// The second of several types in parentheses, the other ones, and the type constructor that takes them.
#[cycle(types)]
#[tactic(auto, unfolding(crate::specs::Types::applied_all))]
fn applied_all(
    alloc: Global,
    lexemes: &mut Lexemes<'_>,
    place: At,
    first: Tall<FullTy>,
    levels: u32,
) -> Result<Tall<FullTy>, Stop>
    requires { first.height < levels }
    ensures reads { Reads (applied_all (ty (levels - 1)) place first) lexemes.old.rest.now
        result lexemes.new.rest.now }
    ensures low { IfOk result (λ made. made.height ≤ levels) }
{
    let second = ty(alloc, lexemes, levels - 1)?;
    let found = more(one(alloc, first)?, second)?;
    let args = types(alloc, lexemes, found, levels)?;
    lexemes.expect(Word::Close)?;
    let long = lexemes.tycon()?;
    Ok(Tall {
        tree: FullTy::AppliedAll(args.tree, long, place),
        height: args.height + 1,
    })
}

/// Further types, each behind a comma.
#[cycle(types)]
#[tactic(auto, using(phrase_reading::proofs::Steps::further_steps))]
fn types(
    alloc: Global,
    lexemes: &mut Lexemes<'_>,
    first: Tall<List<FullTy>>,
    levels: u32,
) -> Result<Tall<List<FullTy>>, Stop>
    requires { first.height < levels }
    ensures reads { Reads (further Word.Comma (ty (levels - 1)) first) lexemes.old.rest.now
        result lexemes.new.rest.now }
    ensures low { IfOk result (λ made. made.height < levels) }
{
    let mut found = first;
    while lexemes.sees(Word::Comma) {
        lexemes.take();
        let next = ty(alloc, lexemes, levels - 1)?;
        found = more(found, next)?;
    }
    Ok(found)
}

/// A record type behind its brace.
#[cycle(types)]
#[tactic(auto, using(crate::proofs::TypeSteps::record_steps))]
fn record_of(
    alloc: Global,
    lexemes: &mut Lexemes<'_>,
    place: At,
    levels: u32,
) -> Result<Tall<FullTy>, Stop>
    requires { 0 < levels }
    ensures reads { Reads (record_of (ty (levels - 1)) place) lexemes.old.rest.now result lexemes.new.rest.now }
    ensures low { IfOk result (λ made. made.height ≤ levels) }
{
    if lexemes.sees(Word::CloseBrace) {
        lexemes.take();
        return Ok(leaf(FullTy::Record(List::new(alloc), place)));
    }
    fields_of(alloc, lexemes, place, levels)
}

/// The fields of a record type, and its closing brace.
#[cycle(types)]
#[tactic(auto, unfolding(crate::specs::Types::fields_of))]
fn fields_of(
    alloc: Global,
    lexemes: &mut Lexemes<'_>,
    place: At,
    levels: u32,
) -> Result<Tall<FullTy>, Stop>
    requires { 0 < levels }
    ensures reads { Reads (fields_of (ty (levels - 1)) place) lexemes.old.rest.now result lexemes.new.rest.now }
    ensures low { IfOk result (λ made. made.height ≤ levels) }
{
    let first = field(alloc, lexemes, levels)?;
    let all = fields(alloc, lexemes, one(alloc, first)?, levels)?;
    lexemes.expect(Word::CloseBrace)?;
    Ok(Tall {
        tree: FullTy::Record(all.tree, place),
        height: all.height + 1,
    })
}

/// A field of a record type.
#[cycle(types)]
#[tactic(auto, unfolding(crate::specs::Types::field))]
fn field(alloc: Global, lexemes: &mut Lexemes<'_>, levels: u32) -> Result<Tall<FullTyField>, Stop>
    requires { 0 < levels }
    ensures reads { Reads (field (ty (levels - 1))) lexemes.old.rest.now result lexemes.new.rest.now }
    ensures low { IfOk result (λ made. made.height < levels) }
{
    let label = lexemes.label(alloc)?;
    lexemes.expect(Word::Colon)?;
    let inner = ty(alloc, lexemes, levels - 1)?;
    Ok(Tall {
        tree: FullTyField {
            label,
            ty: inner.tree,
        },
        height: inner.height,
    })
}

/// Further fields, each behind a comma.
#[cycle(types)]
#[tactic(auto, using(phrase_reading::proofs::Steps::further_steps))]
fn fields(
    alloc: Global,
    lexemes: &mut Lexemes<'_>,
    first: Tall<List<FullTyField>>,
    levels: u32,
) -> Result<Tall<List<FullTyField>>, Stop>
    requires { first.height < levels }
    ensures reads { Reads (further Word.Comma (field (ty (levels - 1))) first) lexemes.old.rest.now
        result lexemes.new.rest.now }
    ensures low { IfOk result (λ made. made.height < levels) }
{
    let mut found = first;
    while lexemes.sees(Word::Comma) {
        lexemes.take();
        let next = field(alloc, lexemes, levels)?;
        found = more(found, next)?;
    }
    Ok(found)
}

/// A tuple type, or its first part alone.
#[cycle(types)]
#[tactic(auto, using(crate::proofs::TypeSteps::tuple_steps))]
fn tuple(
    alloc: Global,
    lexemes: &mut Lexemes<'_>,
    place: At,
    first: Tall<FullTy>,
    levels: u32,
) -> Result<Tall<FullTy>, Stop>
    requires { first.height ≤ levels }
    ensures reads { Reads (tuple levels (ty_level (levels - 1)).part place first) lexemes.old.rest.now
        result lexemes.new.rest.now }
    ensures low { IfOk result (λ made. made.height ≤ levels) }
{
    if !lexemes.sees_star() {
        return Ok(first);
    }
    lexemes.take();
    if first.height == levels {
        return Err(Stop::TooDeep);
    }
    tuple_of(alloc, lexemes, place, first, levels)
}

/// A tuple type, behind its first `*`.
#[cycle(types)]
#[tactic(auto, unfolding(crate::specs::Types::tuple_of))]
fn tuple_of(
    alloc: Global,
    lexemes: &mut Lexemes<'_>,
    place: At,
    first: Tall<FullTy>,
    levels: u32,
) -> Result<Tall<FullTy>, Stop>
    requires { first.height < levels }
    ensures reads { Reads (tuple_of (ty_level (levels - 1)).part place first) lexemes.old.rest.now
        result lexemes.new.rest.now }
    ensures low { IfOk result (λ made. made.height ≤ levels) }
{
    let second = part(alloc, lexemes, levels - 1)?;
    let found = more(one(alloc, first)?, second)?;
    let parts = starred(alloc, lexemes, found, levels)?;
    Ok(Tall {
        tree: FullTy::Tuple(parts.tree, place),
        height: parts.height + 1,
    })
}

/// Further parts of a tuple type, each behind a `*`.
#[cycle(types)]
#[tactic(auto, using(crate::proofs::TypeSteps::starred_steps))]
fn starred(
    alloc: Global,
    lexemes: &mut Lexemes<'_>,
    first: Tall<List<FullTy>>,
    levels: u32,
) -> Result<Tall<List<FullTy>>, Stop>
    requires { first.height < levels }
    ensures reads { Reads (starred (ty_level (levels - 1)).part first) lexemes.old.rest.now
        result lexemes.new.rest.now }
    ensures low { IfOk result (λ made. made.height < levels) }
{
    let mut found = first;
    while lexemes.sees_star() {
        lexemes.take();
        let next = part(alloc, lexemes, levels - 1)?;
        found = more(found, next)?;
    }
    Ok(found)
}

/// An arrow, or what stands before it alone.
#[cycle(types)]
#[tactic(auto, using(crate::proofs::TypeSteps::arrow_steps))]
fn arrow(
    alloc: Global,
    lexemes: &mut Lexemes<'_>,
    place: At,
    left: Tall<FullTy>,
    levels: u32,
) -> Result<Tall<FullTy>, Stop>
    requires { left.height ≤ levels }
    ensures reads { Reads (arrow levels (ty (levels - 1)) place left) lexemes.old.rest.now
        result lexemes.new.rest.now }
    ensures low { IfOk result (λ made. made.height ≤ levels) }
{
    if !lexemes.sees(Word::Arrow) {
        return Ok(left);
    }
    lexemes.take();
    if left.height == levels {
        return Err(Stop::TooDeep);
    }
    arrow_of(alloc, lexemes, place, left, levels)
}

/// The result of an arrow, behind the mark.
#[cycle(types)]
#[tactic(auto, unfolding(crate::specs::Types::arrow_of))]
fn arrow_of(
    alloc: Global,
    lexemes: &mut Lexemes<'_>,
    place: At,
    left: Tall<FullTy>,
    levels: u32,
) -> Result<Tall<FullTy>, Stop>
    requires { left.height < levels }
    ensures reads { Reads (arrow_of (ty (levels - 1)) place left) lexemes.old.rest.now
        result lexemes.new.rest.now }
    ensures low { IfOk result (λ made. made.height ≤ levels) }
{
    let right = ty(alloc, lexemes, levels - 1)?;
    let from = Boxed::new(alloc, left.tree)?;
    let to = Boxed::new(alloc, right.tree)?;
    Ok(Tall {
        tree: FullTy::Arrow(from, to, place),
        height: left.height.max(right.height) + 1,
    })
}
