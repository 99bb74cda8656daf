//! What patterns begin with, and what their runs go on with.

ghost use Rattle.std.specs.Prelude.{◌≡◌, None, Some, true, false, drop, MatchResult};
ghost use Rattle.grammars.specs.Grammar.{begins, head_or};
ghost use Rattle.core_patterns.specs.Patterns.{starts_atpat, is_operand, going, goes_on, operator};

use crate::operand::Run;
use cm_base::Text;
use infix_names::fixity::{Fixities, joining};
use phrase_reading::lexemes::Lexemes;
use phrase_reading::stop::Stop;
use sml_lexer::{Lexeme, LexemeKind, Word};
use sml_trees::Fixity;

/// Whether a name is an operand of a run: one with structures before it, or one that isn't infix.
pub fn is_operand(fixities: &Fixities, parts: &[Text]) -> bool
    ensures { result ≡ is_operand fixities.now parts.now }
{
    match parts {
        [] => false,
        [name] => fixities.find(name).is_none(),
        _ => true,
    }
}

/// Whether an atomic pattern begins with the lexeme.
pub fn starts_atpat(fixities: &Fixities, lexeme: &Lexeme) -> bool
    ensures { result ≡ starts_atpat fixities.now lexeme.now }
{
    match &lexeme.kind {
        LexemeKind::Reserved(text) => match Word::of(text.as_bytes()) {
            Some(Word::Wild)
            | Some(Word::Op)
            | Some(Word::Open)
            | Some(Word::OpenBrace)
            | Some(Word::OpenBracket) => true,
            _ => false,
        },
        LexemeKind::Name(parts) => is_operand(fixities, parts.as_slice()),
        LexemeKind::TyVar(_) => false,
        _ => true,
    }
}

/// Takes the lexeme that a pattern begins with.
pub fn begin_pat<'a>(lexemes: &mut Lexemes<'a>, fixities: &Fixities) -> Result<&'a Lexeme, Stop>
    ensures { MatchResult result
        (λ first. (head_or lexemes.old.rest.now None ≡ Some first.now) × (starts_atpat fixities.now first.now ≡ true)
        × (lexemes.new.rest.now ≡ drop 1 lexemes.old.rest.now))
        (λ stop. (stop ≡ Stop.Refused) × (begins (starts_atpat fixities.now) (head_or lexemes.old.rest.now None) ≡ false)
        × (lexemes.new.rest.now ≡ lexemes.old.rest.now)) }
{
    let Some(first) = lexemes.peek() else {
        return Err(Stop::Refused);
    };
    if !starts_atpat(fixities, first) {
        return Err(Stop::Refused);
    }
    lexemes.take();
    Ok(first)
}

/// Whether a run goes on with the lexeme.
pub fn takes_up(fixities: &Fixities, takes: bool, ops: &[Fixity], lexeme: &Lexeme) -> bool
    ensures { result ≡ going fixities.now takes ops.now lexeme.now }
{
    (takes && starts_atpat(fixities, lexeme)) || joining(operator(fixities, lexeme), ops).is_some()
}

/// Whether a run goes on with the next lexeme.
pub fn going(lexemes: &Lexemes<'_>, fixities: &Fixities, takes: bool, ops: &[Fixity]) -> bool
    ensures { result ≡ begins (going fixities.now takes ops.now) (head_or lexemes.now.rest.now None) }
{
    match lexemes.peek() {
        Some(next) => takes_up(fixities, takes, ops, next),
        None => false,
    }
}

/// Whether this run goes on with the next lexeme.
pub fn goes_on(lexemes: &Lexemes<'_>, fixities: &Fixities, run: &Run) -> bool
    ensures { result ≡ begins (goes_on fixities.now run.now) (head_or lexemes.now.rest.now None) }
{
    going(lexemes, fixities, run.takes, run.ops.as_slice())
}

/// How a lexeme binds as an infix operator, if it is one.
pub fn operator(fixities: &Fixities, lexeme: &Lexeme) -> Option<Fixity>
    ensures { result ≡ operator fixities.now lexeme.now }
{
    match &lexeme.kind {
        LexemeKind::Name(parts) => match parts.as_slice() {
            [name] => fixities.find(name),
            _ => None,
        },
        _ => None,
    }
}
