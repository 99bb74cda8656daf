//! The lexemes of an SML source, each with its place: what stands at the front of a text, kind by kind, and the
//! whole text cut into lexemes and the gaps between them.
#![tactic(auto)]

mod bytes;
mod front;
mod gap;
pub mod laws;
mod lexeme;
mod lexing;
mod name;
mod number;
mod place;
mod quoted;
pub mod words;

pub use lexeme::{Lexeme, LexemeKind};
pub use lexing::lex;
pub use words::Word;
