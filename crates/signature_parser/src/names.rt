//! Names of structures, signatures and functors.

ghost use Rattle.std.specs.Prelude.{◌≡◌, None, IfOk};
ghost use Rattle.grammars.specs.Grammar.{begins, head_or};
ghost use Rattle.phrase_reading.specs.Names.{begins_with_letter, taken_from};
ghost use Rattle.phrase_reading.specs.Reads.{Reads};
ghost use Rattle.phrase_reading.specs.Words.{named};
ghost use Rattle.signature_parser.specs.Joined.{module_name, module_name_of, is_module_name};

use cm_base::{List, NoMemory, Text};
use phrase_reading::lexemes::Lexemes;
use phrase_reading::stop::Stop;
use sml_lexer::{Lexeme, LexemeKind};
use sml_trees::Name;

/// Whether a text begins with a letter.
fn begins_with_letter(text: &Text) -> bool
    ensures { result ≡ begins_with_letter text.now }
{
    match text.as_bytes() {
        [first, ..] => first.is_ascii_alphabetic(),
        [] => false,
    }
}

/// Whether a lexeme is the name of a structure, signature or functor, without structures before it.
pub fn is_module_name(lexeme: &Lexeme) -> bool
    ensures { result ≡ is_module_name lexeme.now }
{
    match &lexeme.kind {
        LexemeKind::Name(parts) => match parts.as_slice() {
            [part] => begins_with_letter(part),
            _ => false,
        },
        _ => false,
    }
}

/// The name of a structure, signature or functor that a lexeme is, if it is one.
pub fn module_name_of(lexeme: &Lexeme) -> Result<Option<Text>, NoMemory>
    ensures { IfOk result (λ found. found ≡ module_name_of lexeme.now) }
{
    match &lexeme.kind {
        LexemeKind::Name(parts) => match parts.as_slice() {
            [part] if begins_with_letter(part) => Ok(Some(part.copy()?)),
            _ => Ok(None),
        },
        _ => Ok(None),
    }
}

/// Whether the name of a structure, signature or functor stands next.
pub fn sees_module_name(lexemes: &Lexemes<'_>) -> bool
    ensures { result ≡ begins (λ x. is_module_name x) (head_or lexemes.now.rest.now None) }
{
    match lexemes.peek() {
        Some(next) => is_module_name(next),
        None => false,
    }
}

/// Takes the name of a structure, signature or functor.
#[tactic(auto, using(phrase_reading::proofs::Steps::taken_steps))]
pub fn module_name(lexemes: &mut Lexemes<'_>) -> Result<Name, Stop>
    ensures { Reads module_name lexemes.old.rest.now result lexemes.new.rest.now }
{
    let Some(next) = lexemes.peek() else {
        return Err(Stop::Refused);
    };
    let Some(text) = module_name_of(next)? else {
        return Err(Stop::Refused);
    };
    lexemes.take();
    Ok(Name {
        text,
        line: next.line,
        col: next.col,
    })
}

/// Further names of signatures.
#[tactic(auto, using(phrase_reading::proofs::NameSteps::taken_from_steps))]
pub fn module_names_from(lexemes: &mut Lexemes<'_>, found: List<Name>) -> Result<List<Name>, Stop>
    ensures { Reads (taken_from module_name_of named found) lexemes.old.rest.now result lexemes.new.rest.now }
{
    let mut found = found;
    while sees_module_name(lexemes) {
        let next = module_name(lexemes)?;
        found.add(next)?;
    }
    Ok(found)
}
