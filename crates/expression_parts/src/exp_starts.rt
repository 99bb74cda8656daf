//! With which lexemes expressions begin and go on.

ghost use Rattle.std.specs.Prelude.{◌≡◌, None, Some, true, false, IfOk, MatchOption, MatchResult};
ghost use Rattle.std.specs.Option.{option_copied};
ghost use Rattle.grammars.specs.Grammar.{End, begins, head_or};
ghost use Rattle.grammars.specs.Reading.{Out, read};
ghost use Rattle.phrase_reading.specs.Reads.{Stops};
ghost use Rattle.expression_parts.specs.ExpStarts.{starts_dec, starts_dec_word};
ghost use Rattle.expression_parts.specs.ExpStarts.{starts_atexp_word, starts_atexp, starts_prefix, starts_exp, if_equals, alone, op_parts, infix_name, exp_operator, goes_on};
ghost use Rattle.phrase_reading.specs.Names.{beginning};

use cm_base::{List, NoMemory, Text};
use infix_names::fixity::{Fixities, clash};
use phrase_reading::lexeme::{copy_parts, word};
use phrase_reading::lexemes::Lexemes;
use phrase_reading::stop::Stop;
use sml_lexer::{Lexeme, LexemeKind, Word};
use sml_trees::Fixity;
use std::alloc::Global;

/// Whether an atomic expression begins with a reserved word or mark.
fn starts_atexp_word(word: Option<Word>) -> bool
    ensures { result ≡ starts_atexp_word word }
{
    match word {
        Some(Word::Op) => true,
        Some(Word::OpenBrace) => true,
        Some(Word::Open) => true,
        Some(Word::OpenBracket) => true,
        Some(Word::Let) => true,
        _ => false,
    }
}

/// Whether an atomic expression begins with a lexeme.
pub fn starts_atexp(fixities: &Fixities, lexeme: &Lexeme) -> bool
    ensures { result ≡ starts_atexp fixities.now lexeme.now }
{
    match &lexeme.kind {
        LexemeKind::Reserved(text) => starts_atexp_word(Word::of(text.as_bytes())),
        LexemeKind::Name(parts) => match parts.as_slice() {
            [part] => fixities.find(part).is_none(),
            _ => true,
        },
        LexemeKind::TyVar(_) => false,
        _ => true,
    }
}

/// Whether a form that reaches to the right begins with a reserved word.
pub fn starts_prefix(word: Option<Word>) -> bool
    ensures { result ≡ starts_prefix word }
{
    match word {
        Some(Word::Raise) => true,
        Some(Word::If) => true,
        Some(Word::While) => true,
        Some(Word::Case) => true,
        Some(Word::Fn) => true,
        _ => false,
    }
}

/// Whether an expression begins with a lexeme.
pub fn starts_exp(fixities: &Fixities, lexeme: &Lexeme) -> bool
    ensures { result ≡ starts_exp fixities.now lexeme.now }
{
    starts_prefix(word(lexeme)) || starts_atexp(fixities, lexeme)
}

/// The text of a reserved word that is `=`.
fn if_equals(word: Option<Word>, text: &Text) -> Option<&Text>
    ensures { option_copied result ≡ if_equals word text.now }
{
    match word {
        Some(Word::Equals) => Some(text),
        _ => None,
    }
}

/// The name that a lexeme is, where it may be infix in expressions: `=` too.
pub fn infix_name(lexeme: &Lexeme) -> Option<&Text>
    ensures { option_copied result ≡ infix_name lexeme.now }
{
    match &lexeme.kind {
        LexemeKind::Reserved(text) => if_equals(Word::of(text.as_bytes()), text),
        LexemeKind::Name(parts) => match parts.as_slice() {
            [part] => Some(part),
            _ => None,
        },
        _ => None,
    }
}

/// The one part of a reserved word that is `=`.
fn equals_parts(
    alloc: Global,
    word: Option<Word>,
    text: &Text,
) -> Result<Option<List<Text>>, NoMemory>
    ensures { IfOk result (λ found. found ≡ alone (if_equals word text.now)) }
{
    match word {
        Some(Word::Equals) => {
            let mut parts = List::new(alloc);
            parts.add(text.copy()?)?;
            Ok(Some(parts))
        }
        _ => Ok(None),
    }
}

/// The parts of the name that a lexeme is, where it may stand behind `op`.
pub fn op_parts(alloc: Global, lexeme: &Lexeme) -> Result<Option<List<Text>>, NoMemory>
    ensures { IfOk result (λ found. found ≡ op_parts lexeme.now) }
{
    match &lexeme.kind {
        LexemeKind::Reserved(text) => equals_parts(alloc, Word::of(text.as_bytes()), text),
        LexemeKind::Name(parts) => Ok(Some(copy_parts(parts)?)),
        _ => Ok(None),
    }
}

/// How a lexeme binds as an infix operator of an expression, if it is one.
fn exp_operator(fixities: &Fixities, lexeme: &Lexeme) -> Option<Fixity>
    ensures { result ≡ exp_operator fixities.now lexeme.now }
{
    match infix_name(lexeme) {
        Some(name) => fixities.find(name),
        None => None,
    }
}

/// Whether a run with these operators goes on with a lexeme.
fn goes_on(fixities: &Fixities, ops: &[Fixity], lexeme: &Lexeme) -> bool
    ensures { result ≡ goes_on fixities.now ops.now lexeme.now }
{
    match exp_operator(fixities, lexeme) {
        Some(fixity) => !clash(fixity, ops),
        None => starts_atexp(fixities, lexeme),
    }
}

/// The next lexeme, where a run with these operators goes on with it.
pub fn next_of_run<'a>(
    lexemes: &Lexemes<'a>,
    fixities: &Fixities,
    ops: &[Fixity],
) -> Option<&'a Lexeme>
    ensures { MatchOption result
        (begins (goes_on fixities.now ops.now) (head_or lexemes.now.rest.now None) ≡ false)
        (λ x. (head_or lexemes.now.rest.now None ≡ Some x.now) × (goes_on fixities.now ops.now x.now ≡ true)) }
{
    let next = lexemes.peek()?;
    if goes_on(fixities, ops, next) {
        Some(next)
    } else {
        None
    }
}

/// Whether a run with these operators goes on with the next lexeme.
pub fn goes_on_next(lexemes: &Lexemes<'_>, fixities: &Fixities, ops: &[Fixity]) -> bool
    ensures { result ≡ begins (goes_on fixities.now ops.now) (head_or lexemes.now.rest.now None) }
{
    match lexemes.peek() {
        Some(next) => goes_on(fixities, ops, next),
        None => false,
    }
}

/// Takes a lexeme with which a run with these operators goes on.
#[tactic(auto, using(phrase_reading::proofs::NameSteps::first_steps))]
pub fn first_of_more<'a>(
    lexemes: &mut Lexemes<'a>,
    fixities: &Fixities,
    ops: &[Fixity],
) -> Result<&'a Lexeme, Stop>
    ensures { MatchResult result
        (λ x. read (beginning (goes_on fixities.now ops.now)) lexemes.old.rest.now
        ≡ Out.out (End.whole x.now) lexemes.new.rest.now)
        (λ why. Stops why (read (beginning (goes_on fixities.now ops.now)) lexemes.old.rest.now) lexemes.new.rest.now) }
{
    let Some(next) = lexemes.peek() else {
        return Err(Stop::Refused);
    };
    if !goes_on(fixities, ops, next) {
        return Err(Stop::Refused);
    }
    lexemes.take();
    Ok(next)
}

/// Takes the first lexeme of an expression.
#[tactic(auto, using(phrase_reading::proofs::NameSteps::first_steps))]
pub fn first_of_exp<'a>(lexemes: &mut Lexemes<'a>, fixities: &Fixities) -> Result<&'a Lexeme, Stop>
    ensures { MatchResult result
        (λ x. read (beginning (starts_exp fixities.now)) lexemes.old.rest.now
        ≡ Out.out (End.whole x.now) lexemes.new.rest.now)
        (λ why. Stops why (read (beginning (starts_exp fixities.now)) lexemes.old.rest.now) lexemes.new.rest.now) }
{
    let Some(first) = lexemes.peek() else {
        return Err(Stop::Refused);
    };
    if !starts_exp(fixities, first) {
        return Err(Stop::Refused);
    }
    lexemes.take();
    Ok(first)
}

/// Takes the first lexeme of an atomic expression.
#[tactic(auto, using(phrase_reading::proofs::NameSteps::first_steps))]
pub fn first_of_atexp<'a>(
    lexemes: &mut Lexemes<'a>,
    fixities: &Fixities,
) -> Result<&'a Lexeme, Stop>
    ensures { MatchResult result
        (λ x. read (beginning (starts_atexp fixities.now)) lexemes.old.rest.now
        ≡ Out.out (End.whole x.now) lexemes.new.rest.now)
        (λ why. Stops why (read (beginning (starts_atexp fixities.now)) lexemes.old.rest.now) lexemes.new.rest.now) }
{
    let Some(first) = lexemes.peek() else {
        return Err(Stop::Refused);
    };
    if !starts_atexp(fixities, first) {
        return Err(Stop::Refused);
    }
    lexemes.take();
    Ok(first)
}

/// Whether a declaration begins with a lexeme.
fn starts_dec(lexeme: &Lexeme) -> bool
    ensures { result ≡ starts_dec lexeme.now }
{
    starts_dec_word(word(lexeme))
}

/// Takes the first word of a declaration.
#[tactic(auto, using(phrase_reading::proofs::NameSteps::first_steps))]
pub fn first_of_dec<'a>(lexemes: &mut Lexemes<'a>) -> Result<&'a Lexeme, Stop>
    ensures { MatchResult result
        (λ x. read (beginning starts_dec) lexemes.old.rest.now ≡ Out.out (End.whole x.now) lexemes.new.rest.now)
        (λ why. Stops why (read (beginning starts_dec) lexemes.old.rest.now) lexemes.new.rest.now) }
{
    let Some(first) = lexemes.peek() else {
        return Err(Stop::Refused);
    };
    if !starts_dec(first) {
        return Err(Stop::Refused);
    }
    lexemes.take();
    Ok(first)
}

/// Whether a declaration begins with this word.
pub fn starts_dec_word(word: Option<Word>) -> bool
    ensures { result ≡ starts_dec_word word }
{
    match word {
        Some(Word::Val) => true,
        Some(Word::Fun) => true,
        Some(Word::TypeWord) => true,
        Some(Word::Datatype) => true,
        Some(Word::Exception) => true,
        Some(Word::Local) => true,
        Some(Word::OpenWord) => true,
        Some(Word::Infix) => true,
        Some(Word::Infixr) => true,
        Some(Word::Nonfix) => true,
        _ => false,
    }
}
