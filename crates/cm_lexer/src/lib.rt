//! The tokens of descriptions: words, quoted texts, the marks `:`, `(` and `)`, and directives with the raw
//! rest of their lines. Blanks and comments stand between them. docs/descriptions.md has the rules.
#![tactic(auto)]

mod byte;
mod piece;
mod point;
mod scanner;
mod token;

ghost use Rattle.std.specs.Prelude.{◌≡◌, IfOk, length};
ghost use Rattle.cm_base.specs.Calls.{Gives};
ghost use Rattle.cm_lexer.specs.Spelling.{AreInOrder, AreSlices};
ghost use Rattle.cm_lexer.specs.Tokens.{scan_of, refusal, tokens_of};

pub use byte::{is_blank, is_word_byte};
use cm_base::{Diag, Fault, List, NoMemory, Place, Text};
pub use point::Point;
use std::alloc::Global;
pub use token::{Scan, Token, TokenKind};

/// The tokens of a text up to its end, or up to the first byte at which it is refused.
#[tactic(auto, using(crate::proofs::Slices::scan_good))]
pub fn scan(alloc: Global, text: &Text) -> Result<Scan, NoMemory>
    ensures exact { IfOk result (λ scan. scan ≡ scan_of text.now) }
    ensures order { IfOk result (λ scan. AreInOrder 0 (length text.now) scan.tokens) }
    ensures slices { IfOk result (λ scan. AreSlices text.now scan.tokens) }
{
    scanner::scan(alloc, text.as_bytes())
}

/// The diagnostic 2 at a point of a file.
fn refusal(alloc: Global, file: &Text, at: Point) -> Result<Diag, NoMemory>
    ensures { IfOk result (λ diag. diag ≡ refusal file.now at) }
{
    Ok(Diag {
        number: 2,
        at: Place {
            file: file.copy()?,
            line: at.line,
            col: at.col,
        },
        names: List::new(alloc),
    })
}

/// The tokens of a description's text, in order. It is refused with 2 at the first byte that begins no token,
/// blank or comment: an open comment and an open quote at their first byte, a byte that may not stand in a
/// quote at that byte.
pub fn tokens(alloc: Global, file: &Text, text: &Text) -> Result<List<Token>, Fault>
    ensures exact { Gives result (tokens_of file.now text.now) }
    ensures order { IfOk result (λ tokens. AreInOrder 0 (length text.now) tokens) }
    ensures slices { IfOk result (λ tokens. AreSlices text.now tokens) }
{
    let Scan { tokens, wrong } = scan(alloc, text)?;
    match wrong {
        Some(at) => Err(Fault::Diag(refusal(alloc, file, at)?)),
        None => Ok(tokens),
    }
}
