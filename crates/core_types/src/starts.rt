//! What types begin with.

ghost use Rattle.std.specs.Prelude.{◌≡◌};
ghost use Rattle.core_types.specs.Types.{starts_ty};

use phrase_reading::lexeme;
use sml_lexer::{Lexeme, LexemeKind, Word};

/// Whether a type begins with the lexeme.
pub fn starts_ty(lexeme: &Lexeme) -> bool
    ensures { result ≡ starts_ty lexeme.now }
{
    match &lexeme.kind {
        LexemeKind::Reserved(text) => match Word::of(text.as_bytes()) {
            Some(Word::Open) | Some(Word::OpenBrace) => true,
            _ => false,
        },
        LexemeKind::Name(_) => lexeme::is_tycon(lexeme),
        LexemeKind::TyVar(_) => true,
        _ => false,
    }
}
