//! The lexemes of the toy grammar.

ghost use Rattle.std.specs.Prelude.{◌≡◌};

use super::tree::Operator;

/// A lexeme of the toy grammar.
#[derive(Clone, Copy, Debug, PartialEq, Eq)]
pub enum Token {
    Number(u32),
    Name(char),
    Plus,
    Minus,
    Times,
    Slash,
    Open,
    Close,
}

/// How tightly an operator binds.
#[derive(Clone, Copy, Debug, PartialEq, Eq)]
pub enum Strength {
    Sum,
    Product,
}

impl Token {
    ghost use Rattle.grammars.specs.Shape.{operator_of};

    /// The operator of this strength that the token is, if it is one.
    pub(crate) fn operator(self, strength: Strength) -> Option<Operator>
        ensures { result ≡ operator_of strength self }
    {
        match (strength, self) {
            (Strength::Sum, Token::Plus) => Some(Operator::Add),
            (Strength::Sum, Token::Minus) => Some(Operator::Subtract),
            (Strength::Product, Token::Times) => Some(Operator::Multiply),
            (Strength::Product, Token::Slash) => Some(Operator::Divide),
            _ => None,
        }
    }
}
