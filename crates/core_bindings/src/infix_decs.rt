//! Declarations of infix status, and `open`.

ghost use Rattle.std.specs.Prelude.{◌≡◌, ◌∷◌, [], IfOk, OnOk, None, Some, is_some, length, take};
ghost use Rattle.grammars.specs.Grammar.{begins, head_or};
ghost use Rattle.phrase_reading.specs.Reads.{Reads};
ghost use Rattle.phrase_reading.specs.Words.{long_named};
ghost use Rattle.core_bindings.specs.Bindings.{open_dec, digit, next_digit, digit_of, digit_value, strength_of, declared, infix_tree, infix_dec, nonfix_dec};
ghost use Rattle.phrase_reading.specs.Names.{strid, strid_of, strid_parts, begins_with_letter, taken_from};
ghost use Rattle.core_bindings.specs.Decs.{ReadsDec};

use cm_base::{List, NoMemory, Text};
use infix_names::fixity::{Fixities, Status};
use phrase_reading::binders::{names, single};
use phrase_reading::lexemes::Lexemes;
use phrase_reading::stop::Stop;
use phrase_reading::tall::Tall;
use sml_lexer::{Lexeme, LexemeKind};
use sml_trees::{At, Fixity, FullDec, LongName, Name};
use std::alloc::Global;

/// Whether the last part of a name begins with a letter.
fn ends_in_letters(parts: &[Text]) -> bool
    ensures { result ≡ is_some (strid_parts parts.now) }
{
    match parts {
        [.., last] => begins_with_letter(last),
        [] => false,
    }
}

/// Whether a text begins with a letter.
fn begins_with_letter(text: &Text) -> bool
    ensures { result ≡ begins_with_letter text.now }
{
    match text.as_bytes() {
        [byte, ..] => byte.is_ascii_alphabetic(),
        [] => false,
    }
}

/// The name of a structure that a lexeme is, if it is one.
pub fn strid_of(lexeme: &Lexeme) -> Result<Option<List<Text>>, NoMemory>
    ensures { IfOk result (λ found. found ≡ strid_of lexeme.now) }
{
    match &lexeme.kind {
        LexemeKind::Name(parts) if ends_in_letters(parts.as_slice()) => Ok(Some(parts.clone()?)),
        _ => Ok(None),
    }
}

/// Whether a lexeme is the name of a structure.
pub fn is_strid(lexeme: &Lexeme) -> bool
    ensures { result ≡ is_some (strid_of lexeme.now) }
{
    match &lexeme.kind {
        LexemeKind::Name(parts) => ends_in_letters(parts.as_slice()),
        _ => false,
    }
}

/// Whether the name of a structure stands next.
fn sees_strid(lexemes: &Lexemes<'_>) -> bool
    ensures { result ≡ begins (λ x. is_some (strid_of x)) (head_or lexemes.now.rest.now None) }
{
    match lexemes.peek() {
        Some(next) => is_strid(next),
        None => false,
    }
}

/// Takes the name of a structure.
#[tactic(auto, using(phrase_reading::proofs::Steps::taken_steps))]
fn strid(lexemes: &mut Lexemes<'_>) -> Result<LongName, Stop>
    ensures { Reads strid lexemes.old.rest.now result lexemes.new.rest.now }
{
    let Some(next) = lexemes.peek() else {
        return Err(Stop::Refused);
    };
    let Some(parts) = strid_of(next)? else {
        return Err(Stop::Refused);
    };
    lexemes.take();
    Ok(LongName {
        parts,
        line: next.line,
        col: next.col,
    })
}

/// Further names of structures.
#[tactic(auto, using(phrase_reading::proofs::NameSteps::taken_from_steps))]
fn strids_from(lexemes: &mut Lexemes<'_>, found: List<LongName>) -> Result<List<LongName>, Stop>
    ensures { Reads (taken_from strid_of long_named found) lexemes.old.rest.now result lexemes.new.rest.now }
{
    let mut found = found;
    while sees_strid(lexemes) {
        let next = strid(lexemes)?;
        found.add(next)?;
    }
    Ok(found)
}

/// `open longstrid ..`
#[tactic(auto, unfolding(crate::specs::Bindings::open_dec))]
pub fn open_dec(alloc: Global, lexemes: &mut Lexemes<'_>, place: At) -> Result<Tall<FullDec>, Stop>
    ensures { Reads (open_dec place) lexemes.old.rest.now result lexemes.new.rest.now }
{
    let first = strid(lexemes)?;
    let found = strids_from(lexemes, single(alloc, first)?)?;
    Ok(Tall {
        tree: FullDec::Open(found, place),
        height: 1,
    })
}

/// The strength that a number stands for, if it does.
fn digit_value(value: i64, label: bool) -> Option<u8>
    ensures { result ≡ digit_value value label }
{
    if value < 0 {
        return None;
    }
    match value.unsigned_abs() {
        0 => Some(0),
        n if label && n < 10 => u8::try_from(n).ok(),
        _ => None,
    }
}

/// The strength that a lexeme is, if it is one.
fn digit_of(lexeme: &Lexeme) -> Option<u8>
    ensures { result ≡ digit_of lexeme.now }
{
    match &lexeme.kind {
        LexemeKind::Int { value, label } => digit_value(*value, *label),
        _ => None,
    }
}

/// The strength that stands next, if one does.
fn next_digit(lexemes: &Lexemes<'_>) -> Option<u8>
    ensures { result ≡ next_digit (head_or lexemes.now.rest.now None) }
{
    digit_of(lexemes.peek()?)
}

/// `[ digit ]`
#[tactic(auto, using(crate::proofs::BindingSteps::digit_steps))]
fn digit(lexemes: &mut Lexemes<'_>) -> Result<Option<u8>, Stop>
    ensures { Reads digit lexemes.old.rest.now result lexemes.new.rest.now }
{
    let Some(found) = next_digit(lexemes) else {
        return Ok(None);
    };
    lexemes.take();
    Ok(Some(found))
}

/// Names bind so from here on.
fn declare(
    fixities: &mut Fixities,
    fixity: Option<Fixity>,
    names: &List<Name>,
) -> Result<(), NoMemory>
    ensures { OnOk result (fixities.new ≡ declared fixity names.now fixities.old) }
{
    for name in names.as_slice() {
        fixities.add(Status {
            name: name.text.copy()?,
            fixity,
        })?;
    }
    Ok(())
}

/// A declaration of infix names.
fn infix_tree(right: bool, digit: Option<u8>, names: List<Name>, place: At) -> FullDec
    ensures { result ≡ infix_tree right digit names place }
{
    if right {
        FullDec::Infixr(digit, names, place)
    } else {
        FullDec::Infix(digit, names, place)
    }
}

/// The strength of a declaration: 0 where none is written.
fn strength_of(digit: Option<u8>) -> u8
    ensures { result ≡ strength_of digit }
{
    match digit {
        Some(strength) => strength,
        None => 0,
    }
}

/// `infix [ digit ] vid ..` and `infixr [ digit ] vid ..`
#[tactic(auto, using(infix_names::proofs::Kept::kept_steps), unfolding(crate::specs::Bindings::infix_dec))]
pub fn infix_dec(
    alloc: Global,
    lexemes: &mut Lexemes<'_>,
    fixities: &mut Fixities,
    place: At,
    right: bool,
) -> Result<Tall<FullDec>, Stop>
    ensures kept { OnOk result (take (length fixities.old) fixities.new ≡ fixities.old) }
    ensures reads { ReadsDec (infix_dec fixities.old place right) lexemes.old.rest.now result
        fixities.new lexemes.new.rest.now }
{
    let digit = digit(lexemes)?;
    let found = names(alloc, lexemes)?;
    let strength = strength_of(digit);
    declare(fixities, Some(Fixity { strength, right }), &found)?;
    Ok(Tall {
        tree: infix_tree(right, digit, found, place),
        height: 1,
    })
}

/// `nonfix vid ..`
#[tactic(auto, using(infix_names::proofs::Kept::kept_steps), unfolding(crate::specs::Bindings::nonfix_dec))]
pub fn nonfix_dec(
    alloc: Global,
    lexemes: &mut Lexemes<'_>,
    fixities: &mut Fixities,
    place: At,
) -> Result<Tall<FullDec>, Stop>
    ensures kept { OnOk result (take (length fixities.old) fixities.new ≡ fixities.old) }
    ensures reads { ReadsDec (nonfix_dec fixities.old place) lexemes.old.rest.now result
        fixities.new lexemes.new.rest.now }
{
    let found = names(alloc, lexemes)?;
    declare(fixities, None, &found)?;
    Ok(Tall {
        tree: FullDec::Nonfix(found, place),
        height: 1,
    })
}
