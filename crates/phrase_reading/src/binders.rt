//! The names that declarations bind, with the type variables before them.

ghost use Rattle.std.specs.Prelude.{◌≡◌, ◌∷◌, [], IfOk, is_some, None};
ghost use Rattle.std.specs.Option.{option_copied};
ghost use Rattle.grammars.specs.Grammar.{begins, head_or};
ghost use Rattle.phrase_reading.specs.Reads.{Reads};
ghost use Rattle.phrase_reading.specs.Words.{named, name_of, tyvar_of};
ghost use Rattle.phrase_reading.specs.Names.{marked, tyvars, tyvar_list, tyvars_from, tyvars_in_parens, short_tycon, short_tycon_of, name_with, op_name, long_with, op_long, names, taken_from};

use crate::lexeme::{self, is_star_text};
use crate::lexemes::Lexemes;
use crate::stop::Stop;
use cm_base::{List, NoMemory, Text};
use sml_lexer::{Lexeme, LexemeKind, Word};
use sml_trees::{Name, OpLong, OpName};
use std::alloc::Global;

/// The type constructor without structures before it that a lexeme is, if it is one.
fn short_tycon_of(lexeme: &Lexeme) -> Result<Option<Text>, NoMemory>
    ensures { IfOk result (λ found. found ≡ short_tycon_of lexeme.now) }
{
    match &lexeme.kind {
        LexemeKind::Name(parts) => match parts.as_slice() {
            [part] if !is_star_text(part) => Ok(Some(part.copy()?)),
            _ => Ok(None),
        },
        _ => Ok(None),
    }
}

/// Takes a type constructor without structures before it.
#[tactic(auto, using(crate::proofs::Steps::taken_steps))]
pub fn short_tycon(lexemes: &mut Lexemes<'_>) -> Result<Name, Stop>
    ensures { Reads short_tycon lexemes.old.rest.now result lexemes.new.rest.now }
{
    let Some(next) = lexemes.peek() else {
        return Err(Stop::Refused);
    };
    let Some(text) = short_tycon_of(next)? else {
        return Err(Stop::Refused);
    };
    lexemes.take();
    Ok(Name {
        text,
        line: next.line,
        col: next.col,
    })
}

/// A list of one item.
pub fn single<T: Drop>(alloc: Global, item: T) -> Result<List<T>, NoMemory>
    ensures { IfOk result (λ items. items ≡ item ∷ []) }
{
    let mut items = List::new(alloc);
    items.add(item)?;
    Ok(items)
}

/// Whether a type variable stands next.
pub fn sees_tyvar(lexemes: &Lexemes<'_>) -> bool
    ensures { result ≡ begins (λ x. is_some (tyvar_of x)) (head_or lexemes.now.rest.now None) }
{
    match lexemes.peek() {
        Some(next) => matches!(&next.kind, LexemeKind::TyVar(_)),
        None => false,
    }
}

/// The lexeme that this mark is, if it stands next.
pub fn marked<'a>(lexemes: &Lexemes<'a>, mark: Word) -> Option<&'a Lexeme>
    ensures { option_copied result ≡ marked mark (head_or lexemes.now.rest.now None) }
{
    match lexemes.peek() {
        Some(next) if lexeme::is(mark, next) => Some(next),
        _ => None,
    }
}

/// Further type variables, each behind a comma.
#[tactic(auto, using(crate::proofs::NameSteps::tyvars_steps))]
fn tyvars_from(lexemes: &mut Lexemes<'_>, found: List<Name>) -> Result<List<Name>, Stop>
    ensures { Reads (tyvars_from found) lexemes.old.rest.now result lexemes.new.rest.now }
{
    let mut found = found;
    while lexemes.sees(Word::Comma) {
        lexemes.take();
        let next = lexemes.tyvar()?;
        found.add(next)?;
    }
    Ok(found)
}

/// A list of type variables in parentheses, behind the first.
#[tactic(auto, unfolding(crate::specs::Names::tyvar_list))]
pub fn tyvar_list(alloc: Global, lexemes: &mut Lexemes<'_>, first: Name) -> Result<List<Name>, Stop>
    ensures { Reads (tyvar_list first) lexemes.old.rest.now result lexemes.new.rest.now }
{
    let found = tyvars_from(lexemes, single(alloc, first)?)?;
    lexemes.expect(Word::Close)?;
    Ok(found)
}

/// A list of type variables, behind its parenthesis.
#[tactic(auto, unfolding(crate::specs::Names::tyvars_in_parens))]
fn tyvars_in_parens(alloc: Global, lexemes: &mut Lexemes<'_>) -> Result<List<Name>, Stop>
    ensures { Reads tyvars_in_parens lexemes.old.rest.now result lexemes.new.rest.now }
{
    let first = lexemes.tyvar()?;
    tyvar_list(alloc, lexemes, first)
}

/// No type variable, one, or a list in parentheses.
#[tactic(auto, using(crate::proofs::NameSteps::mark_steps, crate::proofs::NameSteps::if_taken_steps), unfolding(crate::specs::Names::tyvars))]
pub fn tyvars(alloc: Global, lexemes: &mut Lexemes<'_>) -> Result<List<Name>, Stop>
    ensures { Reads tyvars lexemes.old.rest.now result lexemes.new.rest.now }
{
    if sees_tyvar(lexemes) {
        let var = lexemes.tyvar()?;
        return Ok(single(alloc, var)?);
    }
    if lexemes.sees(Word::Open) {
        lexemes.take();
        return tyvars_in_parens(alloc, lexemes);
    }
    Ok(List::new(alloc))
}

/// A name, with `op` before it or without.
#[tactic(auto, unfolding(crate::specs::Names::name_with))]
fn name_with(lexemes: &mut Lexemes<'_>, op: bool) -> Result<OpName, Stop>
    ensures { Reads (name_with op) lexemes.old.rest.now result lexemes.new.rest.now }
{
    let name = lexemes.name()?;
    Ok(OpName { op, name })
}

/// `[ op ] vid`
#[tactic(auto, using(crate::proofs::NameSteps::mark_steps), unfolding(crate::specs::Names::op_name))]
pub fn op_name(lexemes: &mut Lexemes<'_>) -> Result<OpName, Stop>
    ensures { Reads op_name lexemes.old.rest.now result lexemes.new.rest.now }
{
    if lexemes.sees(Word::Op) {
        lexemes.take();
        return name_with(lexemes, true);
    }
    name_with(lexemes, false)
}

/// A name with structures before it or without, and with `op` before it or without.
#[tactic(auto, unfolding(crate::specs::Names::long_with))]
fn long_with(lexemes: &mut Lexemes<'_>, op: bool) -> Result<OpLong, Stop>
    ensures { Reads (long_with op) lexemes.old.rest.now result lexemes.new.rest.now }
{
    let long = lexemes.long()?;
    Ok(OpLong { op, long })
}

/// `[ op ] longvid`
#[tactic(auto, using(crate::proofs::NameSteps::mark_steps), unfolding(crate::specs::Names::op_long))]
pub fn op_long(lexemes: &mut Lexemes<'_>) -> Result<OpLong, Stop>
    ensures { Reads op_long lexemes.old.rest.now result lexemes.new.rest.now }
{
    if lexemes.sees(Word::Op) {
        lexemes.take();
        return long_with(lexemes, true);
    }
    long_with(lexemes, false)
}

/// Whether a name without structures before it stands next.
pub fn sees_name(lexemes: &Lexemes<'_>) -> bool
    ensures { result ≡ begins (λ x. is_some (name_of x)) (head_or lexemes.now.rest.now None) }
{
    match lexemes.peek() {
        Some(next) => match &next.kind {
            LexemeKind::Name(parts) => matches!(parts.as_slice(), [_]),
            _ => false,
        },
        None => false,
    }
}

/// Further names.
#[tactic(auto, using(crate::proofs::NameSteps::taken_from_steps))]
fn names_from(lexemes: &mut Lexemes<'_>, found: List<Name>) -> Result<List<Name>, Stop>
    ensures { Reads (taken_from name_of named found) lexemes.old.rest.now result lexemes.new.rest.now }
{
    let mut found = found;
    while sees_name(lexemes) {
        let next = lexemes.name()?;
        found.add(next)?;
    }
    Ok(found)
}

/// One name or more.
#[tactic(auto, unfolding(crate::specs::Names::names))]
pub fn names(alloc: Global, lexemes: &mut Lexemes<'_>) -> Result<List<Name>, Stop>
    ensures { Reads names lexemes.old.rest.now result lexemes.new.rest.now }
{
    let first = lexemes.name()?;
    names_from(lexemes, single(alloc, first)?)
}
