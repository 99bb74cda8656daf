//! The lexeme with which a specification begins.

ghost use Rattle.std.specs.Prelude.{◌≡◌, None, Some};
ghost use Rattle.std.specs.Option.{option_copied};
ghost use Rattle.grammars.specs.Grammar.{head_or};
ghost use Rattle.signature_parser.specs.Rounds.{next_begin};
ghost use Rattle.signature_parser.specs.Specifications.{is_spec_round};

use phrase_reading::lexeme;
use phrase_reading::lexemes::Lexemes;
use sml_lexer::{Lexeme, Word};

/// Whether a specification begins with this word, or it is a semicolon.
fn is_spec_round(word: Option<Word>) -> bool
    ensures { result ≡ is_spec_round word }
{
    match word {
        Some(Word::Val) => true,
        Some(Word::TypeWord) => true,
        Some(Word::EqType) => true,
        Some(Word::Datatype) => true,
        Some(Word::Exception) => true,
        Some(Word::Structure) => true,
        Some(Word::Include) => true,
        Some(Word::Semicolon) => true,
        _ => false,
    }
}

/// The next lexeme, if it begins a specification or is a semicolon.
pub fn next_spec<'a>(lexemes: &Lexemes<'a>) -> Option<&'a Lexeme>
    ensures { option_copied result ≡ next_begin is_spec_round (head_or lexemes.now.rest.now None) }
{
    match lexemes.peek() {
        Some(next) if is_spec_round(lexeme::word(next)) => Some(next),
        _ => None,
    }
}
