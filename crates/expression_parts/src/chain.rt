//! The chains of operands of expressions: which words join them.

ghost use Rattle.std.specs.Prelude.{◌≡◌};
ghost use Rattle.expression_parts.specs.ExpNodes.{chain_word};

use sml_lexer::Word;

/// A chain of operands.
#[derive(Clone, Copy, Debug, PartialEq, Eq)]
pub enum Chain {
    /// Operands with `andalso` between them.
    Conjunction,
    /// Conjunctions with `orelse` between them.
    Disjunction,
}

impl Chain {
    /// The word between the operands.
    pub fn word(self) -> Word
        ensures { result ≡ chain_word self }
    {
        match self {
            Chain::Conjunction => Word::AndAlso,
            Chain::Disjunction => Word::OrElse,
        }
    }
}
